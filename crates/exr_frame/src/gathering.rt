//! Copying the raw bytes of a region out of a buffer: line by line, on each line channel by channel.

ghost use Rattle.std.specs.Prelude.{◌≡◌, ◌≤◌, ◌<◌, ◌+◌, ◌*◌, ◌≤ℤ◌, ◌-ℤ◌, ◌^◌, IsTrue, IfOk, nat_abs, length, take, sum_by};
ghost use Rattle.exr_base.specs.Channel.{bytes_of};
ghost use Rattle.exr_base.specs.Sampling.{sample_count_of};
ghost use Rattle.exr_base.specs.Shape.{IsShape, IsRegion, row_bytes_of, line_bytes_of, lines_bytes_of, raw_size_of, height_of};
ghost use Rattle.exr_layout.specs.Place.{placements_of, placement_at};
ghost use Rattle.exr_base.specs.Channel.{channel_at};
ghost use Rattle.exr_base.specs.Boxes.{is_inside};
ghost use Rattle.exr_layout.specs.Plan.{IsFull, IsPlanOf};
ghost use Rattle.exr_frame.specs.Rows.{IsInRow, IsLineOf};
ghost use Rattle.exr_frame.specs.Gather.{IsGathered, IsGrown, held_byte, line_place, raw_place, buffer_byte, IsReadRow, IsReadLine, IsReadLines};

use crate::copy_out::take_samples;
use crate::rows::slice_on_line;
use crate::scattering::rows_of;
use crate::strip::strip_of;
use exr_base::{Box2i, NoMemory, Shape};
use exr_layout::{Layout, Plan};
use std::alloc::Global;

/// Appends the samples of a slice on a line of a region.
fn take_row(
    layout: &Layout,
    plan: &Plan,
    number: usize,
    region: Box2i,
    y: i32,
    from: &[u8],
    raw: &mut Vec<u8>,
) -> Result<(), NoMemory>
    requires plan { plan.now.placements ≡ placements_of layout.now.planes }
    requires region { IsRegion region }
    requires inside { IsTrue (is_inside region layout.now.window) }
    requires line { IsLineOf layout.now region number y }
    requires from { length from.now ≡ layout.now.buffer }
    requires small { length raw.old.items ≤ 2 ^ 26 }
    ensures { IfOk result (λ _. IsGrown (IsInRow layout.now.window (placements_of layout.now.planes) region number y)
        (line_place (placements_of layout.now.planes) region (length raw.old.items))
        (held_byte layout.now.window (placements_of layout.now.planes) from.now)
        (sample_count_of (placement_at (placements_of layout.now.planes) number).sampling region.x0 region.x1
        * bytes_of (placement_at (placements_of layout.now.planes) number).kind)
        raw.old.items raw.new.items) }
{
    let Some(strip) = strip_of(layout, plan, number, region, y) else {
        return Ok(());
    };
    let placement = plan.placement(number);
    take_samples(
        from,
        strip.at,
        placement.stride as usize,
        placement.kind,
        strip.samples,
        raw,
    )
}

/// Appends the samples that a channel has on a line.
fn take_channel(
    layout: &Layout,
    plan: &Plan,
    shape: &Shape,
    c: usize,
    y: i32,
    from: &[u8],
    raw: &mut Vec<u8>,
) -> Result<(), NoMemory>
    requires plan { IsPlanOf layout.now shape.now.channels.now plan.now }
    requires full { IsFull plan.now }
    requires shape { IsShape shape.now.channels.now shape.now.region }
    requires inside { IsTrue (is_inside shape.now.region layout.now.window) }
    requires channel { c < length shape.now.channels.now }
    requires above { shape.now.region.y0 ≤ℤ y }
    requires below { y ≤ℤ shape.now.region.y1 }
    requires from { length from.now ≡ layout.now.buffer }
    requires at { length raw.old.items ≡ lines_bytes_of shape.now.channels.now shape.now.region (nat_abs (y -ℤ shape.now.region.y0))
        + sum_by (row_bytes_of shape.now.region y) (take c shape.now.channels.now) }
    requires small { length raw.old.items ≤ 2 ^ 26 }
    ensures { IfOk result (λ _. IsGrown
        (IsReadRow layout.now.window (placements_of layout.now.planes) shape.now.region plan.now.channels c y)
        (raw_place shape.now.channels.now shape.now.region)
        (buffer_byte layout.now.window (placements_of layout.now.planes) from.now)
        (row_bytes_of shape.now.region y (channel_at shape.now.channels.now c)) raw.old.items raw.new.items) }
{
    let Some(number) = slice_on_line(layout, plan, shape, c, y) else {
        return Ok(());
    };
    take_row(layout, plan, number, shape.region, y, from, raw)
}

/// Appends the samples of a line.
fn take_line(
    layout: &Layout,
    plan: &Plan,
    shape: &Shape,
    y: i32,
    from: &[u8],
    raw: &mut Vec<u8>,
) -> Result<(), NoMemory>
    requires plan { IsPlanOf layout.now shape.now.channels.now plan.now }
    requires full { IsFull plan.now }
    requires shape { IsShape shape.now.channels.now shape.now.region }
    requires inside { IsTrue (is_inside shape.now.region layout.now.window) }
    requires above { shape.now.region.y0 ≤ℤ y }
    requires below { y ≤ℤ shape.now.region.y1 }
    requires from { length from.now ≡ layout.now.buffer }
    requires at { length raw.old.items ≡ lines_bytes_of shape.now.channels.now shape.now.region (nat_abs (y -ℤ shape.now.region.y0)) }
    requires small { length raw.old.items + line_bytes_of shape.now.channels.now shape.now.region y ≤ 2 ^ 26 }
    ensures { IfOk result (λ _. IsGrown
        (IsReadLine layout.now.window (placements_of layout.now.planes) shape.now.region plan.now.channels
        (length shape.now.channels.now) y)
        (raw_place shape.now.channels.now shape.now.region)
        (buffer_byte layout.now.window (placements_of layout.now.planes) from.now)
        (line_bytes_of shape.now.channels.now shape.now.region y) raw.old.items raw.new.items) }
{
    for c in 0..shape.channels.len() {
        take_channel(layout, plan, shape, c, y, from, raw)?;
    }
    Ok(())
}

/// Appends the samples of all lines.
fn take_lines(
    layout: &Layout,
    plan: &Plan,
    shape: &Shape,
    from: &[u8],
    raw: &mut Vec<u8>,
) -> Result<(), NoMemory>
    requires plan { IsPlanOf layout.now shape.now.channels.now plan.now }
    requires full { IsFull plan.now }
    requires shape { IsShape shape.now.channels.now shape.now.region }
    requires inside { IsTrue (is_inside shape.now.region layout.now.window) }
    requires from { length from.now ≡ layout.now.buffer }
    requires at { length raw.old.items ≡ 0 }
    requires small { raw_size_of shape.now.channels.now shape.now.region ≤ 2 ^ 26 }
    ensures { IfOk result (λ _. IsGrown
        (IsReadLines layout.now.window (placements_of layout.now.planes) shape.now.region plan.now.channels
        (height_of shape.now.region))
        (raw_place shape.now.channels.now shape.now.region)
        (buffer_byte layout.now.window (placements_of layout.now.planes) from.now)
        (raw_size_of shape.now.channels.now shape.now.region) raw.old.items raw.new.items) }
{
    for line in 0..rows_of(shape.region) {
        take_line(
            layout,
            plan,
            shape,
            shape.region.y0 + line as i32,
            from,
            raw,
        )?;
    }
    Ok(())
}

/// Copies the raw bytes of a region out of the buffer `from`. Each channel of the part has a slice, and the region lies
/// in the window.
pub fn gather(
    alloc: Global,
    layout: &Layout,
    plan: &Plan,
    shape: &Shape,
    from: &[u8],
) -> Result<Vec<u8>, NoMemory>
    requires plan { IsPlanOf layout.now shape.now.channels.now plan.now }
    requires full { IsFull plan.now }
    requires shape { IsShape shape.now.channels.now shape.now.region }
    requires inside { IsTrue (is_inside shape.now.region layout.now.window) }
    requires from { length from.now ≡ layout.now.buffer }
    requires small { raw_size_of shape.now.channels.now shape.now.region ≤ 2 ^ 26 }
    ensures { IfOk result (λ raw. IsGathered layout.now.window (placements_of layout.now.planes) shape.now.channels.now
        shape.now.region plan.now.channels from.now raw.items) }
{
    let mut raw = Vec::with_capacity(alloc, shape.raw_size() as usize)?;
    take_lines(layout, plan, shape, from, &mut raw)?;
    Ok(raw)
}
