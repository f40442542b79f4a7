//! One cell, packed.

ghost use Rattle.std.specs.Prelude.{◌≡◌, ℕ, ◌+◌, ◌-◌, ◌*◌, ◌/◌, ◌%◌, ◌^◌, ◌<◌, ◌≤◌, List, [], ◌∷◌, ◌++◌, length, slice_index, slice_range, take, drop, map, nat_lt, ◌==◌, IsTrue};
ghost use Rattle.std.specs.List.{list_all};
ghost use Rattle.exr_b44.specs.Cell.{ordered, rounded, greatest_of, depths_of, all_fit, differences_of, shift_of, two_bytes, bytes_of_sixes, cell_of};
ghost use Rattle.exr_b44.specs.Lanes.{words_of, turned, wrapped_of, AreSmall};

use crate::lanes::{bytes, words};
use std::simd::prelude::*;

/// Each half as its number.
#[inline(always)]
fn numbers(halves: u16x8) -> u16x8
    ensures exact { result ≡ map ordered halves }
    ensures low { (k : ℕ) → k < 8 → 1024 ≤ slice_index result k }
    ensures high { (k : ℕ) → slice_index result k ≤ 64511 }
{
    let middle = u16x8::splat(32768);
    let by_sign = halves
        .simd_lt(middle)
        .select(halves + middle, u16x8::splat(65535) - halves);
    ((halves + halves) >> u16x8::splat(11))
        .simd_eq(u16x8::splat(31))
        .select(middle, by_sign)
}

/// The greatest of sixteen numbers.
#[inline(always)]
fn greatest(top: u16x8, bottom: u16x8) -> u16
    ensures { result ≡ greatest_of (top ++ bottom) }
{
    let lanes = greatest_lane(top, bottom);
    lanes[0]
}

/// The greatest of sixteen numbers in the first lane.
#[inline(always)]
fn greatest_lane(top: u16x8, bottom: u16x8) -> u16x8
    ensures long { length result ≡ 8 }
    ensures first { slice_index result 0 ≡ greatest_of (top ++ bottom) }
{
    let eight = top.simd_max(bottom);
    let four = eight.simd_max(eight.swizzle([4, 5, 6, 7, 4, 5, 6, 7]));
    let two = four.simd_max(four.swizzle([2, 3, 2, 3, 2, 3, 2, 3]));
    two.simd_max(two.swizzle([1, 1, 1, 1, 1, 1, 1, 1]))
}

/// Numbers divided by 2^shift, rounded to nearest, ties to even.
#[inline(always)]
fn depths(below: u16x8, shift: u16) -> u16x8
    requires { shift < 13 }
    ensures { result ≡ depths_of below shift }
{
    let one = u16x8::splat(1);
    let unit = u16x8::splat(1 << shift);
    let quotient = below >> u16x8::splat(shift);
    let rest = below - quotient * unit;
    let odd = quotient & one;
    quotient + ((rest + rest + odd + (unit - one)) >> u16x8::splat(shift + 1))
}

/// The differences of depths that stand column by column; 32 stands before them.
#[inline(always)]
fn differences(near: u16x8, far: u16x8) -> (u16x8, u16x8)
    ensures { result.0 ++ result.1 ≡ wrapped_of (turned (near ++ far)) }
{
    let bias = u16x8::splat(32);
    let first = near.swizzle([0, 0, 1, 2, 0, 1, 2, 3]) + bias - near;
    let second = near.shuffle(far, [4, 5, 6, 7, 8, 9, 10, 11]) + bias - far;
    (first, second)
}

/// Twelve bytes of sixteen numbers of six bits, and four zeros.
#[inline(always)]
fn sixes(near: u16x8, far: u16x8) -> u8x16
    requires near { AreSmall 64 near }
    requires far { AreSmall 64 far }
    ensures exact { result ≡ bytes_of_sixes (near ++ far) ++ 0 ∷ 0 ∷ 0 ∷ 0 ∷ [] }
    ensures lanes { length far ≡ 8 }
{
    let up = u16x8::from_array([4, 16, 64, 1, 4, 16, 64, 1]);
    let first = bytes(near * up);
    let second = bytes(far * up);
    let high = first.shuffle(
        second,
        [0, 2, 4, 8, 10, 12, 16, 18, 20, 24, 26, 28, 1, 1, 1, 1],
    );
    let low = first.shuffle(
        second,
        [3, 5, 6, 11, 13, 14, 19, 21, 22, 27, 29, 30, 1, 1, 1, 1],
    );
    high + low
}

/// Whether all of sixteen numbers are below 64.
#[inline(always)]
fn are_sixes(near: u16x8, far: u16x8) -> bool
    ensures { result ≡ list_all (λ x. nat_lt x 64) (near ++ far) }
{
    near.simd_max(far).simd_gt(u16x8::splat(63)).to_bitmask() == 0
}

/// Whether all of sixteen numbers are 32.
#[inline(always)]
fn are_level(near: u16x8, far: u16x8) -> bool
    ensures { result ≡ list_all (λ x. x == 32) (near ++ far) }
{
    let bias = u16x8::splat(32);
    near.simd_ne(bias).to_bitmask() == 0 && far.simd_ne(bias).to_bitmask() == 0
}

/// A cell at a shift: the depth of its first place, its differences column by column with 32 before them, and whether all
/// of them lie in 0 to 63.
#[derive(Clone, Copy)]
struct Attempt {
    first: u16,
    near: u16x8,
    far: u16x8,
    fits: bool,
}

/// Tries a shift. How far the numbers are below the greatest stands column by column.
#[inline(always)]
fn try_shift(near: u16x8, far: u16x8, shift: u16) -> Attempt
    requires shift { shift < 13 }
    requires below { AreSmall 63488 (turned (near ++ far)) }
    ensures first { result.first ≡ slice_index (depths_of (turned (near ++ far)) shift) 0 }
    ensures fits { result.fits ≡ all_fit (depths_of (turned (near ++ far)) shift) }
    ensures differences { IsTrue result.fits → result.near ++ result.far ≡ 32 ∷ differences_of (depths_of (turned (near ++ far)) shift) }
    ensures small { IsTrue result.fits → AreSmall 64 (result.near ++ result.far) }
{
    let near = depths(near, shift);
    let far = depths(far, shift);
    let (first, second) = differences(near, far);
    Attempt {
        first: near[0],
        near: first,
        far: second,
        fits: are_sixes(first, second),
    }
}

/// The least shift at which all differences lie in 0 to 63, and the cell at it.
#[inline(always)]
fn least_shift(near: u16x8, far: u16x8) -> (u16, Attempt)
    requires { AreSmall 63488 (turned (near ++ far)) }
    ensures few { result.0 < 13 }
    ensures least { result.0 ≡ shift_of (turned (near ++ far)) }
    ensures first { result.1.first ≡ slice_index (depths_of (turned (near ++ far)) result.0) 0 }
    ensures differences { result.1.near ++ result.1.far ≡ 32 ∷ differences_of (depths_of (turned (near ++ far)) result.0) }
    ensures small { AreSmall 64 (result.1.near ++ result.1.far) }
{
    let mut shift = 0;
    let mut tried = try_shift(near, far, shift);
    'shifts: while !tried.fits {
        shift += 1;
        tried = try_shift(near, far, shift);
    }
    (shift, tried)
}

/// How far numbers are below the greatest, column by column.
#[inline(always)]
fn below(top: u16x8, bottom: u16x8, most: u16) -> (u16x8, u16x8)
    requires { (k : ℕ) → slice_index (top ++ bottom) k ≤ most }
    ensures { turned (result.0 ++ result.1) ≡ map (λ t. most - t) (top ++ bottom) }
{
    let most = u16x8::splat(most);
    let near = top.shuffle(bottom, [0, 4, 8, 12, 1, 5, 9, 13]);
    let far = top.shuffle(bottom, [2, 6, 10, 14, 3, 7, 11, 15]);
    (most - near, most - far)
}

/// A cell of 32 bytes, packed at a place in a slice with room for some more bytes, which may change too. Answers how many
/// bytes it has.
#[inline(always)]
pub(crate) fn pack_cell(cell: &[u8], into: &mut [u8], to: usize, flat: bool) -> usize
    requires whole { length cell.now ≡ 32 }
    requires room { to + 18 ≤ length into.old }
    ensures cell { take (to + result) into.new ≡ take to into.old ++ cell_of (words_of cell.now) flat }
    ensures few { result ≤ 14 }
{
    let top = numbers(words(u8x16::from_slice(&cell[..16])));
    let bottom = numbers(words(u8x16::from_slice(&cell[16..])));
    let most = greatest(top, bottom);
    let (near, far) = below(top, bottom, most);
    let (shift, found) = least_shift(near, far);
    if flat && are_level(found.near, found.far) {
        put_flat(into, to, top[0]);
        return 3;
    }
    let first = most.wrapping_sub(found.first.wrapping_mul(1 << shift));
    put_long(
        into,
        to,
        first,
        sixes(with_shift(found.near, shift), found.far),
    );
    14
}

/// The differences with a shift before them in place of the first.
#[inline(always)]
fn with_shift(near: u16x8, shift: u16) -> u16x8
    ensures exact { result ≡ shift ∷ drop 1 near }
    ensures lanes { length near ≡ 8 }
{
    near.shuffle(u16x8::splat(shift), [8, 1, 2, 3, 4, 5, 6, 7])
}

/// The three bytes of a cell of one number.
#[inline(always)]
fn put_flat(into: &mut [u8], to: usize, first: u16)
    requires { to + 3 ≤ length into.old }
    ensures { take (to + 3) into.new ≡ take to into.old ++ (two_bytes first ++ 252 ∷ []) }
{
    into[to] = (first / 256) as u8;
    into[to + 1] = (first % 256) as u8;
    into[to + 2] = 252;
}

/// The fourteen bytes of a cell. Four more bytes are written.
#[inline(always)]
fn put_long(into: &mut [u8], to: usize, first: u16, sixes: u8x16)
    requires { to + 18 ≤ length into.old }
    ensures { take (to + 14) into.new ≡ take to into.old ++ (two_bytes first ++ take 12 sixes) }
{
    into[to] = (first / 256) as u8;
    into[to + 1] = (first % 256) as u8;
    sixes.copy_to_slice(&mut into[to + 2..]);
}
