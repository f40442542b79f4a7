//! The mergings, one after another, from two queues: the leaves in order, and the trees that were merged, which come
//! out in order by themselves.

ghost use Rattle.std.specs.Prelude.{◌≡◌, ◌+◌, ◌^◌, ◌<◌, ◌≤◌, List, length, drop, map, sum, IfOk, ℕ};
ghost use Rattle.exr_merging.specs.Trees.{leaves_from};
ghost use Rattle.exr_merging.specs.Steps.{leaf_of, merged_root, AreLeavesOf, AreMerges, Takes};

use crate::root::{Merge, Root};
use exr_base::NoMemory;
use std::alloc::Global;

/// How many trees were taken from the front of each queue.
#[derive(Clone, Copy)]
struct Taken {
    leaves: usize,
    merges: usize,
}

/// Takes the tree that comes first of those that are left in both queues.
fn take_first(leaves: &[Root], merges: &[Merge], taken: &mut Taken) -> Root
    requires leaves_left { taken.old.leaves ≤ length leaves.now }
    requires merges_left { taken.old.merges ≤ length merges.now }
    requires some { taken.old.leaves + taken.old.merges < length leaves.now + length merges.now }
    ensures takes { Takes (drop taken.old.leaves leaves.now) (map merged_root (drop taken.old.merges merges.now)) result
        (drop taken.new.leaves leaves.now) (map merged_root (drop taken.new.merges merges.now)) }
    ensures leaves_left { taken.new.leaves ≤ length leaves.now }
    ensures merges_left { taken.new.merges ≤ length merges.now }
    ensures one { taken.new.leaves + taken.new.merges ≡ taken.old.leaves + taken.old.merges + 1 }
{
    let leaf = taken.leaves;
    let merge = taken.merges;
    if merge < merges.len() {
        let merged = merges[merge].root();
        if leaf == leaves.len() || !leaves[leaf].comes_before(merged) {
            taken.merges = merge + 1;
            return merged;
        }
    }
    taken.leaves = leaf + 1;
    leaves[leaf]
}

/// All mergings of the leaves of some weights, in order.
pub(crate) fn merges_of(alloc: Global, leaves: &[Root]) -> Result<Vec<Merge>, NoMemory>
    requires { AreLeavesOf leaves.now }
    ensures { IfOk result (λ v. AreMerges (map leaf_of leaves.now) v.items) }
{
    let mut merges = Vec::with_capacity(alloc, leaves.len())?;
    let mut taken = Taken {
        leaves: 0,
        merges: 0,
    };
    'merges: while merges.len() + 1 < leaves.len() {
        let first = take_first(leaves, &merges, &mut taken);
        let second = take_first(leaves, &merges, &mut taken);
        merges.push(Merge::new(first, second))?;
    }
    Ok(merges)
}
