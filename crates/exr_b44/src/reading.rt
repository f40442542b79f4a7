//! One cell of 14 bytes, unpacked.

ghost use Rattle.std.specs.Prelude.{◌≡◌, ℕ, ◌+◌, ◌*◌, ◌/◌, ◌%◌, ◌^◌, ◌<◌, ◌≤◌, List, [], ◌∷◌, ◌++◌, length, slice_index, slice_range, drop, map, MatchOption, IfSome};
ghost use Rattle.exr_b44.specs.Cell.{sixes_of_bytes, half_of, number_along, cell_len, uncell_of, bytes_of_halves};

use crate::lanes::{bytes, words};
use std::simd::prelude::*;

/// The sixteen numbers of six bits in the twelve bytes from the third on.
#[inline(always)]
fn sixes(packed: &[u8]) -> (u16x8, u16x8)
    requires { length packed.now ≡ 16 }
    ensures first { result.0 ≡ sixes_of_bytes (slice_range packed.now 2 8) }
    ensures second { result.1 ≡ sixes_of_bytes (slice_range packed.now 8 14) }
{
    let lanes = u8x16::from_slice(packed);
    let first = words(lanes.swizzle([3, 2, 3, 2, 4, 3, 4, 3, 6, 5, 6, 5, 7, 6, 7, 6]));
    let second = words(lanes.swizzle([9, 8, 9, 8, 10, 9, 10, 9, 12, 11, 12, 11, 13, 12, 13, 12]));
    let up = u16x8::from_array([1, 64, 16, 1024, 1, 64, 16, 1024]);
    let down = u16x8::splat(10);
    ((first * up) >> down, (second * up) >> down)
}

/// The numbers of the places of a cell, column by column, from its first number and its sixteen numbers of six bits, of
/// which the first is the shift.
#[inline(always)]
fn columns(first: u16, six: u16x8, more: u16x8) -> (u16x8, u16x8)
    requires shift { slice_index six 0 < 13 }
    ensures near { result.0 ≡ map (number_along first (slice_index six 0) (drop 1 (six ++ more))) (0 ∷ 4 ∷ 8 ∷ 12 ∷ 1 ∷ 5 ∷ 9 ∷ 13 ∷ []) }
    ensures far { result.1 ≡ map (number_along first (slice_index six 0) (drop 1 (six ++ more))) (2 ∷ 6 ∷ 10 ∷ 14 ∷ 3 ∷ 7 ∷ 11 ∷ 15 ∷ []) }
{
    let unit = u16x8::splat(1 << six[0]);
    let bias = u16x8::splat(32);
    let zero = u16x8::splat(0);
    let near = ((six - bias) * unit).shuffle(u16x8::splat(first), [8, 1, 2, 3, 4, 5, 6, 7]);
    let far = (more - bias) * unit;
    let near = near + zero.shuffle(near, [0, 8, 9, 10, 0, 0, 0, 0]);
    let near = near + zero.shuffle(near, [0, 0, 8, 9, 0, 0, 0, 0]);
    let near = near + zero.shuffle(near, [0, 0, 0, 0, 8, 9, 10, 11]);
    let far = far + zero.shuffle(far, [0, 0, 0, 0, 8, 9, 10, 11]);
    (near, far + near.swizzle([4, 5, 6, 7, 4, 5, 6, 7]))
}

/// Each number as the half that it stands for.
#[inline(always)]
fn halves(numbers: u16x8) -> u16x8
    ensures { result ≡ map half_of numbers }
{
    let middle = u16x8::splat(32768);
    numbers
        .simd_lt(middle)
        .select(u16x8::splat(65535) - numbers, numbers - middle)
}

/// A cell of 14 bytes, which two more follow.
#[inline(always)]
fn unpack_long(packed: &[u8], into: &mut [u8])
    requires there { length packed.now ≡ 16 }
    requires long { slice_index packed.now 2 < 52 }
    requires room { length into.old ≡ 32 }
    ensures { into.new ≡ bytes_of_halves (uncell_of packed.now) }
{
    let first = u16::from(packed[0]) * 256 + u16::from(packed[1]);
    let (six, more) = sixes(packed);
    let (near, far) = columns(first, six, more);
    let near = halves(near);
    let far = halves(far);
    let top = bytes(near.shuffle(far, [0, 4, 8, 12, 1, 5, 9, 13]));
    let bottom = bytes(near.shuffle(far, [2, 6, 10, 14, 3, 7, 11, 15]));
    put_both(top, bottom, into);
}

/// A cell of three bytes, which all places are.
#[inline(always)]
fn unpack_flat(packed: &[u8], into: &mut [u8])
    requires there { length packed.now ≡ 16 }
    requires flat { 52 ≤ slice_index packed.now 2 }
    requires room { length into.old ≡ 32 }
    ensures { into.new ≡ bytes_of_halves (uncell_of packed.now) }
{
    let first = u16::from(packed[0]) * 256 + u16::from(packed[1]);
    let all = bytes(halves(u16x8::splat(first)));
    put_both(all, all, into);
}

/// The bytes of the upper two lines of a cell and of the lower two.
#[inline(always)]
fn put_both(top: u8x16, bottom: u8x16, into: &mut [u8])
    requires { length into.old ≡ 32 }
    ensures { into.new ≡ top ++ bottom }
{
    top.copy_to_slice(&mut into[..16]);
    bottom.copy_to_slice(&mut into[16..]);
}

/// A cell, which more bytes may follow. Answers how many bytes it has.
#[inline(always)]
fn unpack_cell(packed: &[u8], into: &mut [u8]) -> usize
    requires there { length packed.now ≡ 16 }
    requires room { length into.old ≡ 32 }
    ensures taken { result ≡ cell_len packed.now }
    ensures unpacked { into.new ≡ bytes_of_halves (uncell_of packed.now) }
{
    if packed[2] >= 52 {
        unpack_flat(packed, into);
        3
    } else {
        unpack_long(packed, into);
        14
    }
}

/// The cell at a place of packed data. Answers how many bytes it has; None where they are not all there.
#[inline(always)]
pub(crate) fn read_cell(packed: &[u8], at: usize, into: &mut [u8]) -> Option<usize>
    requires within { at ≤ length packed.now }
    requires room { length into.old ≡ 32 }
    ensures none { MatchOption result (length packed.now < at + cell_len (drop at packed.now)) (λ _. at + cell_len (drop at packed.now) ≤ length packed.now) }
    ensures taken { IfSome result (λ taken. taken ≡ cell_len (drop at packed.now)) }
    ensures unpacked { IfSome result (λ _. into.new ≡ bytes_of_halves (uncell_of (drop at packed.now))) }
{
    let left = packed.len() - at;
    if left >= 16 {
        return Some(unpack_cell(&packed[at..at + 16], into));
    }
    let mut last = [0u8; 16];
    last[..left].copy_from_slice(&packed[at..]);
    let taken = unpack_cell(&last, into);
    if taken > left {
        return None;
    }
    Some(taken)
}
