//! The depth of each entry, from the mergings: the last one is undone first.

ghost use Rattle.std.specs.Prelude.{◌≡◌, ℕ, ◌+◌, ◌^◌, ◌<◌, ◌≤◌, length, min, slice_index, sum, IfOk};
ghost use Rattle.exr_merging.specs.Trees.{leaves_from, merged_lengths};
ghost use Rattle.exr_merging.specs.Steps.{AreMerges, with_depths};

use crate::root::Merge;
use exr_base::NoMemory;
use std::alloc::Global;

/// Puts the depth of a merged tree, and one more, at the least entries of its two parts.
fn undo(depths: &mut [u8], merge: Merge)
    requires first { merge.first < length depths.old }
    requires second { merge.second < length depths.old }
    requires shallow { slice_index depths.old (min merge.first merge.second) < 255 }
    ensures { depths.new ≡ with_depths depths.old merge }
{
    let depth = depths[merge.first.min(merge.second) as usize] + 1;
    depths[merge.first as usize] = depth;
    depths[merge.second as usize] = depth;
}

/// Undoes all mergings, the last one first. A tree goes by its least entry, and the whole tree has depth 0.
fn undo_all(weights: &[u32], merges: &[Merge], depths: &mut [u8])
    requires merges { AreMerges (leaves_from 0 weights.now) merges.now }
    requires light { sum weights.now ≤ 2 ^ 25 + 1 }
    requires size { length depths.old ≡ length weights.now }
    requires none { (k : ℕ) → slice_index depths.old k ≡ 0 }
    ensures { depths.new ≡ merged_lengths weights.now }
{
    let _ = weights;
    let mut left = merges.len();
    'merges: while left > 0 {
        left -= 1;
        undo(depths, merges[left]);
    }
}

/// The depth of each entry in the tree that the mergings make.
pub(crate) fn depths_of(
    alloc: Global,
    weights: &[u32],
    merges: &[Merge],
) -> Result<Vec<u8>, NoMemory>
    requires merges { AreMerges (leaves_from 0 weights.now) merges.now }
    requires light { sum weights.now ≤ 2 ^ 25 + 1 }
    ensures { IfOk result (λ v. v.items ≡ merged_lengths weights.now) }
{
    let mut depths = vec![in alloc; 0u8; weights.len()]?;
    undo_all(weights, merges, &mut depths);
    Ok(depths)
}
