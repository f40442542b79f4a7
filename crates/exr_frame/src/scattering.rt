//! Copying the raw bytes of a region into a buffer: line by line, on each line channel by channel, and after them the
//! fills of the slices whose channels the part does not have.

ghost use Rattle.std.specs.Prelude.{◌≡◌, ◌≤◌, ◌<◌, ◌+◌, ◌≤ℤ◌, ◌-ℤ◌, ◌^◌, nat_abs, length, take, sum_by};
ghost use Rattle.exr_base.specs.Shape.{IsShape, IsRegion, IsSampled, row_bytes_of, line_bytes_of, lines_bytes_of, raw_size_of, height_of};
ghost use Rattle.exr_layout.specs.Validation.{IsValid};
ghost use Rattle.exr_layout.specs.Place.{placements_of, place_of};
ghost use Rattle.exr_base.specs.Channel.{channel_at};
ghost use Rattle.exr_layout.specs.Plan.{IsPlanOf};
ghost use Rattle.exr_frame.specs.Buffer.{IsCopied, IsInRegion, chunk_byte};
ghost use Rattle.exr_frame.specs.Rows.{IsInRow, IsOfChannel, IsOfLine, IsOfLines, IsOfSlice, IsOfFills, filled_byte};

use crate::rows::{fill_row, has_line, is_multiple, put_row, slice_on_line};
use exr_base::{Box2i, Channel, Shape, sample_count};
use exr_layout::{Layout, Plan};

/// Number of raw bytes of a channel on a line of a region.
fn row_bytes(channel: &Channel, region: Box2i, y: i32) -> usize
    requires region { IsRegion region }
    requires sampled { IsSampled channel.now }
    ensures { result ≡ row_bytes_of region y channel.now }
{
    if is_multiple(channel.ys, y) {
        sample_count(channel.xs, region.x0, region.x1) as usize * channel.kind.bytes()
    } else {
        0
    }
}

/// Copies the samples that a channel has on a line, if the layout has a slice for it.
fn put_channel(
    layout: &Layout,
    plan: &Plan,
    shape: &Shape,
    c: usize,
    y: i32,
    at: usize,
    raw: &[u8],
    into: &mut [u8],
)
    requires plan { IsPlanOf layout.now shape.now.channels.now plan.now }
    requires shape { IsShape shape.now.channels.now shape.now.region }
    requires channel { c < length shape.now.channels.now }
    requires above { shape.now.region.y0 ≤ℤ y }
    requires below { y ≤ℤ shape.now.region.y1 }
    requires at { at ≡ lines_bytes_of shape.now.channels.now shape.now.region (nat_abs (y -ℤ shape.now.region.y0))
        + sum_by (row_bytes_of shape.now.region y) (take c shape.now.channels.now) }
    requires raw { at + row_bytes_of shape.now.region y (channel_at shape.now.channels.now c) ≤ length raw.now }
    requires into { length into.old ≡ layout.now.buffer }
    ensures { IsCopied (IsOfChannel layout.now.window (placements_of layout.now.planes) shape.now.region plan.now.channels c y)
        (place_of layout.now.window (placements_of layout.now.planes))
        (chunk_byte shape.now.channels.now shape.now.region raw.now (placements_of layout.now.planes) plan.now.channels)
        into.old into.new }
{
    let Some(number) = slice_on_line(layout, plan, shape, c, y) else {
        return;
    };
    let row = &raw[at..at + row_bytes(&shape.channels[c], shape.region, y)];
    put_row(layout, plan, number, shape.region, y, row, into);
}

/// Copies the samples of a line, whose raw bytes start at `at`; answers the offset of the next line's.
fn put_line(
    layout: &Layout,
    plan: &Plan,
    shape: &Shape,
    y: i32,
    at: usize,
    raw: &[u8],
    into: &mut [u8],
) -> usize
    requires valid { IsValid layout.now }
    requires plan { IsPlanOf layout.now shape.now.channels.now plan.now }
    requires shape { IsShape shape.now.channels.now shape.now.region }
    requires above { shape.now.region.y0 ≤ℤ y }
    requires below { y ≤ℤ shape.now.region.y1 }
    requires at { at ≡ lines_bytes_of shape.now.channels.now shape.now.region (nat_abs (y -ℤ shape.now.region.y0)) }
    requires raw { at + line_bytes_of shape.now.channels.now shape.now.region y ≤ length raw.now }
    requires into { length into.old ≡ layout.now.buffer }
    ensures at { result ≡ at + line_bytes_of shape.now.channels.now shape.now.region y }
    ensures copied { IsCopied (IsOfLine layout.now.window (placements_of layout.now.planes) shape.now.region plan.now.channels
        (length shape.now.channels.now) y)
        (place_of layout.now.window (placements_of layout.now.planes))
        (chunk_byte shape.now.channels.now shape.now.region raw.now (placements_of layout.now.planes) plan.now.channels)
        into.old into.new }
{
    let mut behind = at;
    for c in 0..shape.channels.len() {
        put_channel(layout, plan, shape, c, y, behind, raw, into);
        behind += row_bytes(&shape.channels[c], shape.region, y);
    }
    behind
}

/// Copies the samples of all lines.
fn put_lines(layout: &Layout, plan: &Plan, shape: &Shape, raw: &[u8], into: &mut [u8])
    requires valid { IsValid layout.now }
    requires plan { IsPlanOf layout.now shape.now.channels.now plan.now }
    requires shape { IsShape shape.now.channels.now shape.now.region }
    requires raw { length raw.now ≡ raw_size_of shape.now.channels.now shape.now.region }
    requires into { length into.old ≡ layout.now.buffer }
    ensures { IsCopied (IsOfLines layout.now.window (placements_of layout.now.planes) shape.now.region plan.now.channels
        (height_of shape.now.region))
        (place_of layout.now.window (placements_of layout.now.planes))
        (chunk_byte shape.now.channels.now shape.now.region raw.now (placements_of layout.now.planes) plan.now.channels)
        into.old into.new }
{
    let mut at = 0;
    for line in 0..rows_of(shape.region) {
        at = put_line(
            layout,
            plan,
            shape,
            shape.region.y0 + line as i32,
            at,
            raw,
            into,
        );
    }
}

/// Number of lines of a region.
pub(crate) fn rows_of(region: Box2i) -> usize
    requires { IsRegion region }
    ensures exact { result ≡ height_of region }
    ensures small { result ≤ 2 ^ 20 }
{
    (i64::from(region.y1) - i64::from(region.y0) + 1) as usize
}

/// Copies the fill of a slice to one line of a region, if the slice has samples there.
fn fill_line(layout: &Layout, plan: &Plan, number: usize, region: Box2i, y: i32, into: &mut [u8])
    requires plan { plan.now.placements ≡ placements_of layout.now.planes }
    requires slice { number < length plan.now.placements }
    requires region { IsRegion region }
    requires above { region.y0 ≤ℤ y }
    requires below { y ≤ℤ region.y1 }
    requires into { length into.old ≡ layout.now.buffer }
    ensures { IsCopied (IsInRow layout.now.window (placements_of layout.now.planes) region number y)
        (place_of layout.now.window (placements_of layout.now.planes)) (filled_byte (placements_of layout.now.planes))
        into.old into.new }
{
    if has_line(layout, plan, number, y) {
        fill_row(layout, plan, number, region, y, into);
    }
}

/// Copies the fill of a slice to all lines of a region.
fn fill_slice(layout: &Layout, plan: &Plan, number: usize, region: Box2i, into: &mut [u8])
    requires valid { IsValid layout.now }
    requires plan { plan.now.placements ≡ placements_of layout.now.planes }
    requires slice { number < length plan.now.placements }
    requires region { IsRegion region }
    requires into { length into.old ≡ layout.now.buffer }
    ensures { IsCopied (IsOfSlice layout.now.window (placements_of layout.now.planes) region number (height_of region))
        (place_of layout.now.window (placements_of layout.now.planes)) (filled_byte (placements_of layout.now.planes))
        into.old into.new }
{
    for line in 0..rows_of(region) {
        fill_line(layout, plan, number, region, region.y0 + line as i32, into);
    }
}

/// Copies the fills of the slices whose channels the part does not have.
fn fill_slices(layout: &Layout, plan: &Plan, region: Box2i, into: &mut [u8])
    requires valid { IsValid layout.now }
    requires plan { plan.now.placements ≡ placements_of layout.now.planes }
    requires places { length plan.now.channels ≡ length (placements_of layout.now.planes) }
    requires region { IsRegion region }
    requires into { length into.old ≡ layout.now.buffer }
    ensures { IsCopied (IsOfFills layout.now.window (placements_of layout.now.planes) region plan.now.channels
        (length (placements_of layout.now.planes)))
        (place_of layout.now.window (placements_of layout.now.planes)) (filled_byte (placements_of layout.now.planes))
        into.old into.new }
{
    for number in 0..plan.slice_count() {
        if plan.channel(number).is_none() {
            fill_slice(layout, plan, number, region, into);
        }
    }
}

/// Copies the samples of a region that lie in the window into the buffer `into`, and the fills of the slices whose
/// channels the part does not have; no other byte is changed. `raw` is the raw data of the region.
pub fn scatter(layout: &Layout, plan: &Plan, shape: &Shape, raw: &[u8], into: &mut [u8])
    requires plan { IsPlanOf layout.now shape.now.channels.now plan.now }
    requires shape { IsShape shape.now.channels.now shape.now.region }
    requires raw { length raw.now ≡ raw_size_of shape.now.channels.now shape.now.region }
    requires into { length into.old ≡ layout.now.buffer }
    ensures { IsCopied (IsInRegion layout.now.window (placements_of layout.now.planes) shape.now.region)
        (place_of layout.now.window (placements_of layout.now.planes))
        (chunk_byte shape.now.channels.now shape.now.region raw.now (placements_of layout.now.planes) plan.now.channels)
        into.old into.new }
{
    let _valid = layout.planes();
    put_lines(layout, plan, shape, raw, into);
    fill_slices(layout, plan, shape.region, into);
}
