//! The halves of a channel from their cells.

ghost use Rattle.std.specs.Prelude.{◌≡◌, ◌+◌, ◌*◌, ◌/◌, ◌%◌, ◌^◌, ◌<◌, ◌≤◌, ℕ, length, slice_index, drop, MatchOption, IfSome};
ghost use Rattle.exr_b44.specs.Cell.{bytes_of_halves};
ghost use Rattle.exr_b44.specs.Lines.{LinePut, LinesPut, RowsPut, AreOthersKept};
ghost use Rattle.exr_b44.specs.Plane.{cells_for, cells_len, cell_at, plane_of};

use crate::flats::{put_eight, unpack_flats};
use crate::reading::read_cell;
use crate::stripe::Stripe;
use std::simd::prelude::*;

/// The halves of a channel of `ny` rows of `nx`, whose cells begin at a place of packed data. Each row goes into a line, from
/// the stripe's first byte on. Answers where the cells end; None where they are not all there, and then the stripe may hold
/// anything.
pub(crate) fn unpack_halves(
    packed: &[u8],
    from: usize,
    lines: &mut [u8],
    stripe: Stripe,
    nx: usize,
    ny: usize,
) -> Option<usize>
    requires within { from ≤ length packed.now }
    requires narrow { nx ≤ 2 ^ 20 }
    requires low { ny ≤ 2 ^ 20 }
    requires fits { stripe.first + 2 * nx ≤ stripe.line }
    requires few { length lines.old ≤ 2 ^ 26 }
    requires room { length lines.old ≡ ny * stripe.line }
    ensures none { MatchOption result (length packed.now < from + cells_len (cells_for nx * cells_for ny) (drop from packed.now)) (λ end. end ≤ length packed.now) }
    ensures end { IfSome result (λ end. end ≡ from + cells_len (cells_for nx * cells_for ny) (drop from packed.now)) }
    ensures rows { IfSome result (λ _. RowsPut (plane_of nx ny (drop from packed.now)) lines.old lines.new stripe.line stripe.first (2 * nx) ny) }
{
    let mut at = from;
    for band in 0..ny.div_ceil(4) {
        let count = (ny - 4 * band).min(4);
        let top = 4 * band * stripe.line;
        let here = &mut lines[top..top + count * stripe.line];
        match unpack_band(packed, at, here, stripe, 2 * nx, count) {
            None => return None,
            Some(end) => at = end,
        }
    }
    Some(at)
}

/// Rows of so many bytes in up to four lines. Answers where their cells end.
#[inline(never)]
fn unpack_band(
    packed: &[u8],
    from: usize,
    lines: &mut [u8],
    stripe: Stripe,
    wide: usize,
    count: usize,
) -> Option<usize>
    requires within { from ≤ length packed.now }
    requires fits { stripe.first + wide ≤ stripe.line }
    requires room { length lines.old ≡ count * stripe.line }
    requires few { count ≤ 4 }
    ensures none { MatchOption result (length packed.now < from + cells_len ((wide + 7) / 8) (drop from packed.now)) (λ end. end ≤ length packed.now) }
    ensures end { IfSome result (λ end. end ≡ from + cells_len ((wide + 7) / 8) (drop from packed.now)) }
    ensures placed { IfSome result (λ _. (y b : ℕ) → y < count → b < wide
        → slice_index lines.new (y * stripe.line + (stripe.first + b)) ≡ slice_index (bytes_of_halves (cell_at (drop from packed.now) (b / 8))) (8 * y + b % 8)) }
    ensures others { AreOthersKept lines.old lines.new stripe.line stripe.first wide }
{
    let mut cell = [0u8; 32];
    let mut at = from;
    let mut i = 0;
    'cells: while i < wide.div_ceil(8) {
        let Some(taken) = read_cell(packed, at, &mut cell) else {
            return None;
        };
        let size = (wide - 8 * i).min(8);
        put_cell(&cell, lines, stripe.line, stripe.first + 8 * i, size, count);
        at += taken;
        i += 1;
        if taken == 3 && count == 4 && i < wide / 8 {
            let rest = Stripe {
                line: stripe.line,
                first: stripe.first + 8 * i,
            };
            let flats = unpack_flats(packed, at, lines, rest, wide / 8 - i);
            at += 3 * flats;
            i += flats;
        }
    }
    Some(at)
}

/// The first bytes of the lines of a cell, from a place in up to four lines of so many bytes on.
#[inline(always)]
fn put_cell(cell: &[u8], lines: &mut [u8], wide: usize, from: usize, size: usize, count: usize)
    requires whole { length cell.now ≡ 32 }
    requires room { length lines.old ≡ count * wide }
    requires few { count ≤ 4 }
    requires narrow { size ≤ 8 }
    requires inside { from + size ≤ wide }
    ensures { LinesPut cell.now lines.old lines.new wide from size count }
{
    if size == 8 && count == 4 {
        put_whole_cell(cell, lines, wide, from);
    } else {
        put_cut_cell(cell, lines, wide, from, size, count);
    }
}

/// A cell of which nothing is cut.
#[inline(always)]
fn put_whole_cell(cell: &[u8], lines: &mut [u8], wide: usize, from: usize)
    requires whole { length cell.now ≡ 32 }
    requires room { length lines.old ≡ 4 * wide }
    requires inside { from + 8 ≤ wide }
    ensures { LinesPut cell.now lines.old lines.new wide from 8 4 }
{
    put_whole_line(cell, lines, wide, from, 0);
    put_whole_line(cell, lines, wide, from, 1);
    put_whole_line(cell, lines, wide, from, 2);
    put_whole_line(cell, lines, wide, from, 3);
}

/// The eight bytes of one line of a cell, in one store.
#[inline(always)]
fn put_whole_line(cell: &[u8], lines: &mut [u8], wide: usize, from: usize, y: usize)
    requires there { 8 * y + 8 ≤ length cell.now }
    requires room { (y + 1) * wide ≤ length lines.old }
    requires inside { from + 8 ≤ wide }
    ensures { LinePut cell.now lines.old lines.new wide from 8 y }
{
    put_eight(
        u8x8::from_slice(&cell[8 * y..8 * y + 8]),
        lines,
        wide,
        from,
        y,
    );
}

/// A cell that is cut.
#[inline(never)]
fn put_cut_cell(cell: &[u8], lines: &mut [u8], wide: usize, from: usize, size: usize, count: usize)
    requires whole { length cell.now ≡ 32 }
    requires room { length lines.old ≡ count * wide }
    requires few { count ≤ 4 }
    requires narrow { size ≤ 8 }
    requires inside { from + size ≤ wide }
    ensures { LinesPut cell.now lines.old lines.new wide from size count }
{
    for y in 0..count {
        put_line(cell, lines, wide, from, size, y);
    }
}

/// The first bytes of one line of a cell.
fn put_line(cell: &[u8], lines: &mut [u8], wide: usize, from: usize, size: usize, y: usize)
    requires there { 8 * y + size ≤ length cell.now }
    requires room { (y + 1) * wide ≤ length lines.old }
    requires inside { from + size ≤ wide }
    ensures { LinePut cell.now lines.old lines.new wide from size y }
{
    let to = y * wide + from;
    lines[to..to + size].copy_from_slice(&cell[8 * y..8 * y + size]);
}
