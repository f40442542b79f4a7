//! One side of a data window, cut into pieces of one size.

ghost use Rattle.std.specs.Prelude.{◌≡◌, ◌≤◌, ◌<◌, ◌*◌, ◌^◌, ◌≢◌, ◌+ℤ◌, ℕ, pos, IfSome};
ghost use Rattle.exr_base.specs.Sampling.{span_of};
ghost use Rattle.exr_base.specs.Shape.{IsRegion, IsSide, height_of, width_of};
ghost use Rattle.exr_chunks.specs.Region.{start_of, end_of};

use exr_base::Box2i;

/// The number of places of a side.
pub(crate) fn span(from: i32, to: i32) -> u32
    requires { IsSide from to }
    ensures exact { result ≡ span_of from to }
    ensures small { result ≤ 2 ^ 20 }
{
    exr_base::span(from, to)
}

/// The columns of a region.
pub(crate) fn width(region: Box2i) -> u32
    requires { IsRegion region }
    ensures exact { result ≡ width_of region }
    ensures small { result ≤ 2 ^ 20 }
{
    span(region.x0, region.x1)
}

/// The lines of a region.
pub(crate) fn height(region: Box2i) -> u32
    requires { IsRegion region }
    ensures exact { result ≡ height_of region }
    ensures small { result ≤ 2 ^ 20 }
{
    span(region.y0, region.y1)
}

/// First place of a piece.
pub(crate) fn start(from: i32, to: i32, size: u32, piece: u32) -> i32
    requires side { IsSide from to }
    requires within { piece * size < span_of from to }
    ensures { result ≡ start_of from size piece }
{
    from + (piece * size) as i32
}

/// Last place of a piece, cut at the end of the side.
pub(crate) fn end(from: i32, to: i32, size: u32, piece: u32) -> i32
    requires side { IsSide from to }
    requires some { 1 ≤ size }
    requires small { size ≤ 2 ^ 30 }
    requires within { piece * size < span_of from to }
    ensures { result ≡ end_of from to size piece }
{
    let last = piece * size + (size - 1);
    if span(from, to) <= last {
        to
    } else {
        from + last as i32
    }
}

/// Distance of a place from the first one of a side; `None` if it is not on the side.
pub(crate) fn offset(from: i32, to: i32, place: i32) -> Option<u32>
    requires { IsSide from to }
    ensures within { IfSome result (λ n. n < span_of from to) }
    ensures exact { IfSome result (λ n. place ≡ from +ℤ pos n) }
    ensures none { result ≡ None → (n : ℕ) → n < span_of from to → place ≢ from +ℤ pos n }
{
    if place < from {
        return None;
    }
    if to < place {
        return None;
    }
    Some(span(from, place) - 1)
}
