//! Cells of three bytes that come one after the other, unpacked: all places of such a cell are one half.

ghost use Rattle.std.specs.Prelude.{◌≡◌, ◌+◌, ◌*◌, ◌/◌, ◌%◌, ◌<◌, ◌≤◌, ℕ, length, slice_index, drop, replicate};
ghost use Rattle.exr_b44.specs.Cell.{half_of, bytes_of_halves};
ghost use Rattle.exr_b44.specs.Lines.{PiecePut, LinesPut, AreOthersKept};
ghost use Rattle.exr_b44.specs.Plane.{cells_len, cell_at};

use crate::stripe::Stripe;
use std::simd::prelude::*;

/// The half that a number stands for.
#[inline(always)]
fn half_from(number: u16) -> u16
    ensures { result ≡ half_of number }
{
    if number < 32768 {
        65535 - number
    } else {
        number - 32768
    }
}

/// Eight bytes, from a place of one line on, in one store.
#[inline(always)]
pub(crate) fn put_eight(eight: u8x8, lines: &mut [u8], wide: usize, from: usize, y: usize)
    requires room { (y + 1) * wide ≤ length lines.old }
    requires inside { from + 8 ≤ wide }
    ensures { PiecePut eight lines.old lines.new wide from 8 y }
{
    let to = y * wide + from;
    eight.copy_to_slice(&mut lines[to..to + 8]);
}

/// A cell whose sixteen places are one half, from a place in four lines of so many bytes on.
#[inline(always)]
fn put_flat(half: u16, lines: &mut [u8], wide: usize, from: usize)
    requires room { length lines.old ≡ 4 * wide }
    requires inside { from + 8 ≤ wide }
    ensures { LinesPut (bytes_of_halves (replicate 16 half)) lines.old lines.new wide from 8 4 }
{
    let eight = u16x4::splat(half).to_le_bytes();
    put_eight(eight, lines, wide, from, 0);
    put_eight(eight, lines, wide, from, 1);
    put_eight(eight, lines, wide, from, 2);
    put_eight(eight, lines, wide, from, 3);
}

/// Cells of three bytes from a place of packed data on, until a longer one or the end comes, at most so many. They go into
/// four lines, from the stripe's first byte on. Answers how many there were. It is a function of its own so that its loop has
/// all registers: an even part of a picture is nothing but such cells.
#[inline(never)]
pub(crate) fn unpack_flats(
    packed: &[u8],
    from: usize,
    lines: &mut [u8],
    stripe: Stripe,
    most: usize,
) -> usize
    requires within { from ≤ length packed.now }
    requires fits { stripe.first + 8 * most ≤ stripe.line }
    requires room { length lines.old ≡ 4 * stripe.line }
    ensures few { result ≤ most }
    ensures within { from + 3 * result ≤ length packed.now }
    ensures taken { cells_len result (drop from packed.now) ≡ 3 * result }
    ensures placed { (y b : ℕ) → y < 4 → b < 8 * result
        → slice_index lines.new (y * stripe.line + (stripe.first + b)) ≡ slice_index (bytes_of_halves (cell_at (drop from packed.now) (b / 8))) (8 * y + b % 8) }
    ensures others { AreOthersKept lines.old lines.new stripe.line stripe.first (8 * most) }
{
    let mut at = from;
    let mut cells = 0;
    'cells: while cells < most && packed.len() - at >= 3 && packed[at + 2] >= 52 {
        let number = u16::from(packed[at]) * 256 + u16::from(packed[at + 1]);
        put_flat(
            half_from(number),
            lines,
            stripe.line,
            stripe.first + 8 * cells,
        );
        at += 3;
        cells += 1;
    }
    cells
}
