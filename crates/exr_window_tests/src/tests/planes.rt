//! Planes written as tables.

use exr_base::{Kind, Name};
use exr_layout::{Plane, Run, Slice};
use std::alloc::Global;
use std::test::Fail;

/// A slice: the one letter of its channel, its kind, its offset and its fill.
pub type PlainSlice = (u8, Kind, u64, u32);

/// A run: its offset, its stride, its sampling and its slices.
pub type PlainRun = (u64, u64, u32, &'static [PlainSlice]);

/// A plane: its base, its stride, its sampling and its runs.
pub type PlainPlane = (u64, u64, u32, &'static [PlainRun]);

fn slices_of(alloc: Global, table: &[PlainSlice]) -> Result<Vec<Slice>, Fail> {
    let mut slices = Vec::new(alloc);
    for (letter, kind, at, fill) in table {
        let channel = Name::new(&[*letter]).ok_or("a name")?;
        slices.push(Slice {
            channel,
            kind: *kind,
            at: *at,
            fill: *fill,
        })?;
    }
    Ok(slices)
}

fn runs_of(alloc: Global, table: &[PlainRun]) -> Result<Vec<Run>, Fail> {
    let mut runs = Vec::new(alloc);
    for (at, stride, sampling, slices) in table {
        runs.push(Run {
            at: *at,
            stride: *stride,
            sampling: *sampling,
            slices: slices_of(alloc, slices)?,
        })?;
    }
    Ok(runs)
}

/// The planes of a table.
pub fn planes_of(alloc: Global, table: &[PlainPlane]) -> Result<Vec<Plane>, Fail> {
    let mut planes = Vec::new(alloc);
    for (base, stride, sampling, runs) in table {
        planes.push(Plane {
            base: *base,
            stride: *stride,
            sampling: *sampling,
            runs: runs_of(alloc, runs)?,
        })?;
    }
    Ok(planes)
}
