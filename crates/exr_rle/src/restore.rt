//! The bytes before differences were taken: the differences are summed up in place.

ghost use Rattle.std.specs.Prelude.{◌≡◌, ℕ, ◌+◌, ◌*◌, ◌/◌, ◌%◌, ◌<◌, ◌≤◌, ◌⊎◌, ◌==◌, length, take, drop, sum, replicate, slice_index, if◌then◌else◌, EachIndex};
ghost use Rattle.exr_rle.specs.Lanes.{AddsEarlier};
ghost use Rattle.exr_rle.specs.Unpacked.{restored_at, restored_after};

use std::simd::prelude::*;

/// Each byte becomes itself plus the byte before it, as already restored, minus 128, modulo 256; the first stays.
pub(crate) fn restore(bytes: &mut [u8])
    ensures { EachIndex bytes.new (λ k. slice_index bytes.new k ≡ restored_at bytes.old k) }
{
    let mut at = 0;
    let mut before = u8x16::splat(128);
    'sixteens: while bytes.len() - at >= 16 {
        before = restore_sixteen(bytes, at, before);
        at += 16;
    }
    restore_rest(bytes, at, before[15]);
}

/// Restores sixteen bytes after a restored byte, which is in each lane of `before`. Gives the last of them in each lane.
fn restore_sixteen(bytes: &mut [u8], at: usize, before: u8x16) -> u8x16
    requires room { at + 16 ≤ length bytes.old }
    requires lanes { before ≡ replicate 16 (slice_index before 0) }
    ensures restored { (k : ℕ) → k < 16 → slice_index bytes.new (at + k) ≡ restored_after (slice_index before 0) (drop at bytes.old) (k + 1) }
    ensures others { (k : ℕ) → (k < at) ⊎ (at + 16 ≤ k) → slice_index bytes.new k ≡ slice_index bytes.old k }
    ensures carried { result ≡ replicate 16 (restored_after (slice_index before 0) (drop at bytes.old) 16) }
{
    let added = u8x16::from_slice(&bytes[at..]) + u8x16::splat(128);
    let sums = with_eighth(with_fourth(with_second(with_first(added))));
    let restored = sums + before;
    restored.copy_to_slice(&mut bytes[at..]);
    restored.swizzle([
        15, 15, 15, 15, 15, 15, 15, 15, 15, 15, 15, 15, 15, 15, 15, 15,
    ])
}

/// Each lane and the one before it.
fn with_first(lanes: u8x16) -> u8x16
    requires { length lanes ≡ 16 }
    ensures { AddsEarlier 1 lanes result }
{
    lanes
        + u8x16::splat(0).shuffle(
            lanes,
            [
                15, 16, 17, 18, 19, 20, 21, 22, 23, 24, 25, 26, 27, 28, 29, 30,
            ],
        )
}

/// Each lane and the second one before it.
fn with_second(lanes: u8x16) -> u8x16
    requires { length lanes ≡ 16 }
    ensures { AddsEarlier 2 lanes result }
{
    lanes
        + u8x16::splat(0).shuffle(
            lanes,
            [
                14, 15, 16, 17, 18, 19, 20, 21, 22, 23, 24, 25, 26, 27, 28, 29,
            ],
        )
}

/// Each lane and the fourth one before it.
fn with_fourth(lanes: u8x16) -> u8x16
    requires { length lanes ≡ 16 }
    ensures { AddsEarlier 4 lanes result }
{
    lanes
        + u8x16::splat(0).shuffle(
            lanes,
            [
                12, 13, 14, 15, 16, 17, 18, 19, 20, 21, 22, 23, 24, 25, 26, 27,
            ],
        )
}

/// Each lane and the eighth one before it.
fn with_eighth(lanes: u8x16) -> u8x16
    requires { length lanes ≡ 16 }
    ensures { AddsEarlier 8 lanes result }
{
    lanes
        + u8x16::splat(0).shuffle(
            lanes,
            [8, 9, 10, 11, 12, 13, 14, 15, 16, 17, 18, 19, 20, 21, 22, 23],
        )
}

/// Restores the bytes from `from` on, one by one, after a restored byte.
fn restore_rest(bytes: &mut [u8], from: usize, before: u8)
    requires { from ≤ length bytes.old }
    ensures restored { (k : ℕ) → from + k < length bytes.old → slice_index bytes.new (from + k) ≡ restored_after before (drop from bytes.old) (k + 1) }
    ensures others { (k : ℕ) → k < from → slice_index bytes.new k ≡ slice_index bytes.old k }
{
    let mut before = before;
    for at in from..bytes.len() {
        before = before.wrapping_add(bytes[at]).wrapping_add(128);
        bytes[at] = before;
    }
}
