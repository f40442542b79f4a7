//! Repeated names: the first slice that has the name of an earlier one.

ghost use Rattle.std.specs.Prelude.{◌≡◌, nat_le, min, ◌≤◌, ◌<◌, ◌+◌, ℕ, [], length, take, position, slice_get};
ghost use Rattle.std.specs.List.{position_or_len};
ghost use Rattle.std.specs.Option.{option_copied};
ghost use Rattle.exr_layout.specs.Validation.{has_name, slices_of, slices_of_runs, names_validated};

use crate::fault::LayoutFault;
use crate::planes::{Plane, Run, Slice};
use exr_base::Name;

/// Number of slices of some runs.
pub(crate) fn slice_count(runs: &[Run]) -> usize
    requires { length (slices_of_runs runs.now) ≤ 1024 }
    ensures { result ≡ length (slices_of_runs runs.now) }
{
    let mut count = 0;
    for run in runs {
        count += run.slices.len();
    }
    count
}

/// Number of slices: `before`, and those of some runs; 1,025 if there are more.
fn more_slices(runs: &[Run], before: usize) -> usize
    ensures { result ≡ min 1025 (before + length (slices_of_runs runs.now)) }
{
    let mut count = before.min(1025);
    for run in runs {
        count = count.saturating_add(run.slices.len()).min(1025);
    }
    count
}

/// Whether planes have at most 1,024 slices, which is a condition of `Layout::new`.
pub fn has_few_slices(planes: &[Plane]) -> bool
    ensures { result ≡ nat_le (length (slices_of planes.now)) 1024 }
{
    let mut count = 0;
    for plane in planes {
        count = more_slices(&plane.runs, count);
    }
    count <= 1024
}

/// The slice of a number among those of runs.
fn slice_in_runs(runs: &[Run], number: usize) -> Option<&Slice>
    ensures { option_copied result ≡ slice_get (slices_of_runs runs.now) number }
{
    let mut left = number;
    for run in runs {
        if left < run.slices.len() {
            return Some(&run.slices[left]);
        }
        left -= run.slices.len();
    }
    None
}

/// The slice of a number.
fn slice_at(planes: &[Plane], number: usize) -> Option<&Slice>
    requires { length (slices_of planes.now) ≤ 1024 }
    ensures { option_copied result ≡ slice_get (slices_of planes.now) number }
{
    let mut left = number;
    for plane in planes {
        let runs = plane.runs.as_slice();
        let count = slice_count(runs);
        if left < count {
            return slice_in_runs(runs, left);
        }
        left -= count;
    }
    None
}

/// The place of the first slice with a name.
fn named(slices: &[Slice], name: &Name) -> Option<usize>
    ensures { result ≡ position (has_name name.now) slices.now }
{
    slices.iter().position(|slice| slice.channel == *name)
}

/// The same, and how many slices there are where none has the name.
fn place_in_slices(slices: &[Slice], name: &Name) -> usize
    ensures { result ≡ position_or_len (has_name name.now) slices.now }
{
    match named(slices, name) {
        Some(place) => place,
        None => slices.len(),
    }
}

/// The same among the slices of runs.
fn place_in_runs(runs: &[Run], name: &Name) -> usize
    requires { length (slices_of_runs runs.now) ≤ 1024 }
    ensures { result ≡ position_or_len (has_name name.now) (slices_of_runs runs.now) }
{
    let mut before = 0;
    for run in runs {
        let place = place_in_slices(run.slices.as_slice(), name);
        before += place;
        if place < run.slices.len() {
            return before;
        }
    }
    before
}

/// The same among all slices.
fn place_of(planes: &[Plane], name: &Name) -> usize
    requires { length (slices_of planes.now) ≤ 1024 }
    ensures { result ≡ position_or_len (has_name name.now) (slices_of planes.now) }
{
    let mut before = 0;
    for plane in planes {
        let runs = plane.runs.as_slice();
        let place = place_in_runs(runs, name);
        before += place;
        if place < slice_count(runs) {
            return before;
        }
    }
    before
}

/// No slice has the name of an earlier one.
pub(crate) fn names_once(planes: &[Plane]) -> Result<(), LayoutFault>
    requires { length (slices_of planes.now) ≤ 1024 }
    ensures { result ≡ names_validated [] (slices_of planes.now) }
{
    let mut number = 0;
    while let Some(slice) = slice_at(planes, number) {
        let first = place_of(planes, &slice.channel);
        if first < number {
            return Err(LayoutFault::TwiceChannel {
                first: first as u32,
                second: number as u32,
            });
        }
        number += 1;
    }
    Ok(())
}
