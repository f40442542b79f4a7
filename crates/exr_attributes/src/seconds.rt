//! Finding the first repeated name of a header.
//!
//! The names are hashed and the hashes sorted: where all hashes differ, so do the names. Only where two are equal are the
//! names themselves put into an ordered set, one after another, until one is there already; so names that are chosen to
//! collide cost no more than that set.

ghost use Rattle.std.specs.Prelude.{◌≡◌, true, IfOk};
ghost use Rattle.exr_attributes.specs.Pass.{AreDistinct, AreRising, IsFirstSecond};
ghost use Rattle.exr_attributes.specs.Number.{name_number};

use crate::attribute::Entry;
use exr_base::NoMemory;
use std::alloc::Global;
use std::collections::BTreeSet;

/// The base of the hash of a name: odd, with bits all over.
const BASE: u64 = 0x9e37_79b9_7f4a_7c15;

/// The first entry whose name an earlier one has.
pub(crate) fn first_second(alloc: Global, entries: &[Entry]) -> Result<Option<usize>, NoMemory>
    ensures { IfOk result (IsFirstSecond entries.now) }
{
    if are_distinct(alloc, entries)? {
        return Ok(None);
    }
    sought(alloc, entries)
}

/// Whether all hashes differ; true only where the names are distinct.
fn are_distinct(alloc: Global, entries: &[Entry]) -> Result<bool, NoMemory>
    ensures { IfOk result (λ distinct. distinct ≡ true → AreDistinct entries.now) }
{
    let mut numbers = Vec::with_capacity(alloc, entries.len())?;
    for entry in entries {
        numbers.push(name_number(entry.name.bytes()))?;
    }
    numbers.sort_unstable();
    Ok(are_rising(numbers.as_slice()))
}

/// The hash of a name: its bytes as digits of a number, modulo 2^64.
fn name_number(name: &[u8]) -> u64
    ensures { result ≡ name_number name.now }
{
    let mut number = 0_u64;
    for digit in name {
        number = number.wrapping_mul(BASE).wrapping_add(u64::from(*digit));
    }
    number
}

/// Whether each number is less than the next one.
fn are_rising(numbers: &[u64]) -> bool
    ensures { result ≡ true → AreRising numbers.now }
{
    for i in 1..numbers.len() {
        if numbers[i - 1] >= numbers[i] {
            return false;
        }
    }
    true
}

/// The first entry whose name an earlier one has, by comparing names.
fn sought(alloc: Global, entries: &[Entry]) -> Result<Option<usize>, NoMemory>
    ensures { IfOk result (IsFirstSecond entries.now) }
{
    let mut names = BTreeSet::new(alloc);
    for k in 0..entries.len() {
        let name = entries[k].name.copy(alloc)?;
        if !names.insert(name)? {
            return Ok(Some(k));
        }
    }
    Ok(None)
}
