//! Pixels of boxes, and how many there are from one to another.

ghost use Rattle.std.specs.Prelude.{◌≡◌, ◌≤◌, ◌<◌, ◌+◌, ◌^◌, ◌-ℤ◌, ◌+ℤ◌, ◌≤ℤ◌, pos, neg_ℤ, nat_abs};
ghost use Rattle.exr_base.specs.Boxes.{IsWithin};
ghost use Rattle.exr_base.specs.Shape.{IsRegion, width_of, height_of};
ghost use Rattle.exr_image.specs.Pieces.{has_pixel};

use exr_base::{Box2i, is_side_inside};

/// Column x of line y.
#[derive(Clone, Copy, Debug)]
pub(crate) struct Pixel {
    pub x: i32,
    pub y: i32,
}

impl Pixel {
    /// Whether a box has it.
    pub(crate) fn is_in(self, region: Box2i) -> bool
        ensures { result ≡ has_pixel region self }
    {
        is_side_inside(self.x, self.x, region.x0, region.x1)
            && is_side_inside(self.y, self.y, region.y0, region.y1)
    }

    /// The number of columns of a box to the left of it.
    pub(crate) fn column_in(self, region: Box2i) -> usize
        requires region { IsRegion region }
        requires within { IsWithin region self.x self.y }
        ensures { result ≡ nat_abs (self.x -ℤ region.x0) }
    {
        distance(region.x0, self.x)
    }

    /// The number of lines of a box above it.
    pub(crate) fn row_in(self, region: Box2i) -> usize
        requires region { IsRegion region }
        requires within { IsWithin region self.x self.y }
        ensures { result ≡ nat_abs (self.y -ℤ region.y0) }
    {
        distance(region.y0, self.y)
    }

    /// The number of pixels from it to the right end of the first of two boxes that ends.
    pub(crate) fn pixels_in(self, region: Box2i, window: Box2i) -> usize
        requires region { IsRegion region }
        requires within { IsWithin region self.x self.y }
        requires right { self.x ≤ℤ window.x1 }
        ensures some { 1 ≤ result }
        ensures in_row { nat_abs (self.x -ℤ region.x0) + result ≤ width_of region }
        ensures in_window { (self.x +ℤ pos result) ≤ℤ (window.x1 +ℤ pos 1) }
    {
        distance(self.x, region.x1.min(window.x1)) + 1
    }
}

/// The steps from one place to another.
fn distance(from: i32, to: i32) -> usize
    requires low { neg_ℤ (pos (2 ^ 30)) ≤ℤ from }
    requires ordered { from ≤ℤ to }
    requires high { to ≤ℤ pos (2 ^ 30) }
    ensures { result ≡ nat_abs (to -ℤ from) }
{
    (i64::from(to) - i64::from(from)) as usize
}

/// The place that is some steps after another.
fn place_after(from: i32, steps: usize) -> i32
    requires low { neg_ℤ (pos (2 ^ 30)) ≤ℤ from }
    requires few { steps ≤ 2 ^ 20 }
    requires high { from ≤ℤ pos (2 ^ 30) }
    ensures { result ≡ from +ℤ pos steps }
{
    (i64::from(from) + steps as i64) as i32
}

/// The pixel of a box that has `row` lines above it and `column` columns to its left.
pub(crate) fn pixel_at(region: Box2i, row: usize, column: usize) -> Pixel
    requires region { IsRegion region }
    requires row { row < height_of region }
    requires column { column < width_of region }
    ensures x { result.x ≡ region.x0 +ℤ pos column }
    ensures y { result.y ≡ region.y0 +ℤ pos row }
    ensures within { IsWithin region result.x result.y }
{
    Pixel {
        x: place_after(region.x0, column),
        y: place_after(region.y0, row),
    }
}
