//! What holds of all code lengths by merging. This call does nothing: its contract is the law.

ghost use Rattle.std.specs.Prelude.{ℕ, ◌+◌, ◌^◌, ◌≤◌, length, nat_lt, slice_index, sum, count_by};
ghost use Rattle.exr_codes.specs.Codes.{IsComplete};
ghost use Rattle.exr_merging.specs.Trees.{merged_lengths, HasCodes};

/// Where two entries have a weight at least and all weights together are at most 2^25 + 1, the lengths by merging
/// are a complete table in which each of those entries has a code, and none of them is above 51.
pub fn merged_lengths_are_complete(weights: &[u32])
    requires two { 2 ≤ count_by (λ weight. nat_lt 0 weight) weights.now }
    requires light { sum weights.now ≤ 2 ^ 25 + 1 }
    ensures complete { IsComplete (merged_lengths weights.now) }
    ensures coded { HasCodes weights.now }
    ensures short { (k : ℕ) → slice_index (merged_lengths weights.now) k ≤ 51 }
{
    let _ = weights;
}
