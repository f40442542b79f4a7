//! One row: the samples, or the fill, of a slice on one line of a region.

ghost use Rattle.std.specs.Prelude.{◌≡◌, ◌<◌, ◌≤◌, ◌≤ℤ◌, ◌*◌, length, MatchOption};
ghost use Rattle.exr_base.specs.Channel.{bytes_of};
ghost use Rattle.exr_base.specs.Sampling.{is_multiple, sample_count_of};
ghost use Rattle.exr_base.specs.Shape.{IsRegion};
ghost use Rattle.exr_layout.specs.Place.{placements_of, placement_at, place_of};
ghost use Rattle.exr_layout.specs.Plan.{IsPlanOf};
ghost use Rattle.exr_frame.specs.Buffer.{IsCopied};
ghost use Rattle.exr_frame.specs.Rows.{IsInRow, IsLineOf, IsSliceOf, HasNoSlice, has_line, line_byte, filled_byte};

use crate::copy_in::{fill_samples, put_samples};
use crate::strip::strip_of;
use exr_base::{Box2i, Shape, is_side_inside};
use exr_layout::{Layout, Plan};

pub(crate) fn is_multiple(sampling: u32, place: i32) -> bool
    requires { 1 ≤ sampling }
    ensures { result ≡ is_multiple sampling place }
{
    sampling == 1 || place.unsigned_abs() % sampling == 0
}

/// The slice has samples on line `y` of the window.
pub(crate) fn has_line(layout: &Layout, plan: &Plan, number: usize, y: i32) -> bool
    requires plan { plan.now.placements ≡ placements_of layout.now.planes }
    requires slice { number < length plan.now.placements }
    ensures { result ≡ has_line layout.now number y }
{
    let window = layout.window();
    is_side_inside(y, y, window.y0, window.y1)
        && is_multiple(plan.placement(number).row_sampling, y)
}

/// The slice that holds channel `c` of the part, if there is one and line `y` of the region is one of its lines.
pub(crate) fn slice_on_line(
    layout: &Layout,
    plan: &Plan,
    shape: &Shape,
    c: usize,
    y: i32,
) -> Option<usize>
    requires plan { IsPlanOf layout.now shape.now.channels.now plan.now }
    requires channel { c < length shape.now.channels.now }
    requires above { shape.now.region.y0 ≤ℤ y }
    requires below { y ≤ℤ shape.now.region.y1 }
    ensures { MatchOption result (HasNoSlice layout.now plan.now c y) (IsSliceOf layout.now shape.now.region plan.now c y) }
{
    let Some(number) = plan.slice(c) else {
        return None;
    };
    if has_line(layout, plan, number as usize, y) {
        Some(number as usize)
    } else {
        None
    }
}

/// Copies the samples of a slice on a line of a region.
pub(crate) fn put_row(
    layout: &Layout,
    plan: &Plan,
    number: usize,
    region: Box2i,
    y: i32,
    row: &[u8],
    into: &mut [u8],
)
    requires plan { plan.now.placements ≡ placements_of layout.now.planes }
    requires region { IsRegion region }
    requires line { IsLineOf layout.now region number y }
    requires row { length row.now ≡ sample_count_of (placement_at (placements_of layout.now.planes) number).sampling region.x0 region.x1
        * bytes_of (placement_at (placements_of layout.now.planes) number).kind }
    requires into { length into.old ≡ layout.now.buffer }
    ensures { IsCopied (IsInRow layout.now.window (placements_of layout.now.planes) region number y)
        (place_of layout.now.window (placements_of layout.now.planes)) (line_byte (placements_of layout.now.planes) region row.now)
        into.old into.new }
{
    let Some(strip) = strip_of(layout, plan, number, region, y) else {
        return;
    };
    let placement = plan.placement(number);
    let size = placement.kind.bytes();
    let from = &row[strip.skip * size..(strip.skip + strip.samples) * size];
    put_samples(
        into,
        strip.at,
        placement.stride as usize,
        placement.kind,
        from,
        strip.samples,
    );
}

/// Copies the fill of a slice to a line of a region.
pub(crate) fn fill_row(
    layout: &Layout,
    plan: &Plan,
    number: usize,
    region: Box2i,
    y: i32,
    into: &mut [u8],
)
    requires plan { plan.now.placements ≡ placements_of layout.now.planes }
    requires region { IsRegion region }
    requires line { IsLineOf layout.now region number y }
    requires into { length into.old ≡ layout.now.buffer }
    ensures { IsCopied (IsInRow layout.now.window (placements_of layout.now.planes) region number y)
        (place_of layout.now.window (placements_of layout.now.planes)) (filled_byte (placements_of layout.now.planes))
        into.old into.new }
{
    let Some(strip) = strip_of(layout, plan, number, region, y) else {
        return;
    };
    let placement = plan.placement(number);
    fill_samples(
        into,
        strip.at,
        placement.stride as usize,
        placement.kind,
        placement.fill,
        strip.samples,
    );
}
