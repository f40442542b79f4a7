//! How many bytes the rows of a channel have.

ghost use Rattle.std.specs.Prelude.{◌≡◌, ◌≤◌, ◌<◌, ◌^◌, ◌-ℤ◌, ◌+ℤ◌, ◌≤ℤ◌, pos, neg_ℤ};
ghost use Rattle.exr_base.specs.Sampling.{multiples_among};
ghost use Rattle.exr_base.specs.Shape.{IsRegion, IsSampled, height_of};
ghost use Rattle.exr_planar.specs.Moving.{rows_at};

use exr_base::{Box2i, Channel, count_before, sample_count, span};

/// Bytes of a channel in a region, seen from one of its lines.
#[derive(Clone, Copy)]
pub(crate) struct Rows {
    /// On the line.
    pub here: usize,
    /// On all lines above it.
    pub above: usize,
    /// On all lines of the region.
    pub all: usize,
}

/// How many lines a region has.
pub(crate) fn line_count(region: Box2i) -> usize
    requires { IsRegion region }
    ensures exact { result ≡ height_of region }
    ensures small { result ≤ 2 ^ 20 }
{
    span(region.y0, region.y1) as usize
}

/// The y of a line of a region, by its number from the top.
fn line_at(region: Box2i, line: usize) -> i32
    requires region { IsRegion region }
    requires line { line < height_of region }
    ensures exact { result ≡ region.y0 +ℤ pos line }
    ensures low { region.y0 ≤ℤ result }
    ensures high { result ≤ℤ region.y1 }
{
    region.y0 + line as i32
}

/// Whether a place is a multiple of a sampling, as a number.
fn samples_at(sampling: u32, y: i32) -> usize
    requires sampling { 1 ≤ sampling }
    requires low { neg_ℤ (pos (2 ^ 30)) ≤ℤ y }
    requires high { y ≤ℤ pos (2 ^ 30) }
    ensures { result ≡ multiples_among sampling y 1 }
{
    sample_count(sampling, y, y) as usize
}

/// The sizes of a channel's rows, seen from a line of a region.
pub(crate) fn rows_at(channel: &Channel, region: Box2i, line: usize) -> Rows
    requires region { IsRegion region }
    requires sampled { IsSampled channel.now }
    requires line { line < height_of region }
    ensures { result ≡ rows_at region line channel.now }
{
    let y = line_at(region, line);
    let row = sample_count(channel.xs, region.x0, region.x1) as usize * channel.kind.bytes();
    let here = samples_at(channel.ys, y);
    let above = count_before(channel.ys, region.y0, y) as usize;
    let all = sample_count(channel.ys, region.y0, region.y1) as usize;
    Rows {
        here: row * here,
        above: row * above,
        all: row * all,
    }
}
