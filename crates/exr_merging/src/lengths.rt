//! The code lengths of all entries.

ghost use Rattle.std.specs.Prelude.{◌≡◌, ◌+◌, ◌^◌, ◌<◌, ◌≤◌, length, sum, IfOk};
ghost use Rattle.exr_merging.specs.Trees.{merged_lengths};

use crate::depths::depths_of;
use crate::leaves::leaves_of;
use crate::merges::merges_of;
use exr_base::NoMemory;
use std::alloc::Global;

/// The code lengths by merging, one for each entry: entry k has the weight `weights[k]`, and no code where that is 0.
/// Where fewer than two entries have a weight, no entry has a code.
pub fn lengths_by_merging(alloc: Global, weights: &[u32]) -> Result<Vec<u8>, NoMemory>
    requires few { length weights.now < 2 ^ 31 }
    requires light { sum weights.now ≤ 2 ^ 25 + 1 }
    ensures { IfOk result (λ v. v.items ≡ merged_lengths weights.now) }
{
    let leaves = leaves_of(alloc, weights)?;
    let merges = merges_of(alloc, &leaves)?;
    depths_of(alloc, weights, &merges)
}
