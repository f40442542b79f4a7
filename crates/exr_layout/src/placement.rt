//! Where the samples of a slice are stored: the numbers of its plane and its run beside its own. The placements of all
//! slices of a layout are one list, in the order of the slices.

ghost use Rattle.std.specs.Prelude.{◌≡◌, ◌++◌, IfOk};
ghost use Rattle.exr_layout.specs.Place.{placement_of, placements_of_run, placements_of_plane, placements_of};

use crate::planes::{Plane, Run, Slice};
use exr_base::{Kind, Name, NoMemory};
use std::alloc::Global;

/// A slice of a layout with the numbers of its plane and its run. Offsets and strides are in bytes.
#[derive(Drop, Debug)]
pub struct Placement {
    pub channel: Name,
    pub kind: Kind,
    pub fill: u32,
    pub base: u64,
    pub row_stride: u64,
    pub row_sampling: u32,
    pub run: u64,
    pub stride: u64,
    pub sampling: u32,
    pub at: u64,
}

fn placement_of(plane: &Plane, run: &Run, slice: &Slice) -> Result<Placement, NoMemory>
    ensures { IfOk result (λ placement. placement ≡ placement_of plane.now run.now slice.now) }
{
    Ok(Placement {
        channel: slice.channel.clone()?,
        kind: slice.kind,
        fill: slice.fill,
        base: plane.base,
        row_stride: plane.stride,
        row_sampling: plane.sampling,
        run: run.at,
        stride: run.stride,
        sampling: run.sampling,
        at: slice.at,
    })
}

/// Appends the slices of a run.
fn add_run(plane: &Plane, run: &Run, placements: &mut Vec<Placement>) -> Result<(), NoMemory>
    ensures { IfOk result (λ _. placements.new.items ≡ placements.old.items ++ placements_of_run plane.now run.now) }
{
    for slice in &run.slices {
        placements.push(placement_of(plane, run, slice)?)?;
    }
    Ok(())
}

/// Appends the slices of a plane.
fn add_plane(plane: &Plane, placements: &mut Vec<Placement>) -> Result<(), NoMemory>
    ensures { IfOk result (λ _. placements.new.items ≡ placements.old.items ++ placements_of_plane plane.now) }
{
    for run in &plane.runs {
        add_run(plane, run, placements)?;
    }
    Ok(())
}

/// All slices, in their order.
pub(crate) fn placements_of(alloc: Global, planes: &[Plane]) -> Result<Vec<Placement>, NoMemory>
    ensures { IfOk result (λ placements. placements.items ≡ placements_of planes.now) }
{
    let mut placements = Vec::new(alloc);
    for plane in planes {
        add_plane(plane, &mut placements)?;
    }
    Ok(placements)
}
