//! The entries that have a weight, in order: by weight, and of one weight by the entry.

ghost use Rattle.std.specs.Prelude.{◌≡◌, ℕ, ◌+◌, ◌^◌, ◌<◌, ◌≤◌, IsTrue, length, map, take, slice_index, nat_lt, count_by, IfOk, OnOk};
ghost use Rattle.exr_merging.specs.Trees.{leaves_from};
ghost use Rattle.exr_merging.specs.Steps.{leaf_of, with_entry, AreAmong};

use crate::root::Root;
use exr_base::NoMemory;
use std::alloc::Global;

/// Adds an entry at the end if it has a weight.
fn add_entry(entries: &mut Vec<Root>, entry: u32, weight: u32) -> Result<(), NoMemory>
    ensures { OnOk result (entries.new.items ≡ with_entry entries.old.items entry weight) }
{
    if weight != 0 {
        entries.push(Root {
            least: entry,
            weight,
        })?;
    }
    Ok(())
}

/// Adds the entries from `from` to before `to` that have a weight.
fn add_entries(
    entries: &mut Vec<Root>,
    weights: &[u32],
    from: usize,
    to: usize,
) -> Result<(), NoMemory>
    requires few { length weights.now < 2 ^ 31 }
    requires ordered { from ≤ to }
    requires within { to ≤ length weights.now }
    requires before { AreAmong entries.old.items (leaves_from 0 (take from weights.now)) }
    ensures { OnOk result (AreAmong entries.new.items (leaves_from 0 (take to weights.now))) }
{
    for entry in from..to {
        add_entry(entries, entry as u32, weights[entry])?;
    }
    Ok(())
}

/// Whether none of the eight entries from `from` on has a weight.
fn is_clear(weights: &[u32], from: usize) -> bool
    requires { from + 8 ≤ length weights.now }
    ensures { IsTrue result → (k : ℕ) → k < 8 → slice_index weights.now (from + k) ≡ 0 }
{
    let mut clear = true;
    for k in 0..8 {
        clear &= weights[from + k] == 0;
    }
    clear
}

/// The entries that have a weight, in their order. Mostly few have one, so eight without are skipped at once.
fn entries_of(alloc: Global, weights: &[u32]) -> Result<Vec<Root>, NoMemory>
    requires { length weights.now < 2 ^ 31 }
    ensures { IfOk result (λ v. AreAmong v.items (leaves_from 0 weights.now)) }
{
    let mut entries = Vec::new(alloc);
    let mut from = 0;
    'eights: while weights.len() - from >= 8 {
        if !is_clear(weights, from) {
            add_entries(&mut entries, weights, from, from + 8)?;
        }
        from += 8;
    }
    add_entries(&mut entries, weights, from, weights.len())?;
    Ok(entries)
}

/// The entries that have a weight, in order.
pub(crate) fn leaves_of(alloc: Global, weights: &[u32]) -> Result<Vec<Root>, NoMemory>
    requires { length weights.now < 2 ^ 31 }
    ensures { IfOk result (λ v. map leaf_of v.items ≡ leaves_from 0 weights.now) }
{
    let mut leaves = entries_of(alloc, weights)?;
    leaves.sort_unstable_by_key(|root| root.key());
    Ok(leaves)
}
