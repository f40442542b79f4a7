//! The two halves of raw data, taken apart and laid together, and the differences along them.

ghost use Rattle.std.specs.Prelude.{◌≡◌, ℕ, ◌+◌, ◌*◌, ◌/◌, ◌%◌, ◌<◌, ◌≤◌, ◌⊎◌, ◌==◌, ◌++◌, length, slice_index, if◌then◌else◌, EachIndex};
ghost use Rattle.exr_rle.specs.Packed.{differences_of, evens_of, odds_of};

use std::simd::prelude::*;

/// The bytes at even places, followed by those at odd places.
pub(crate) fn take_apart(raw: &[u8], into: &mut [u8])
    requires { length into.old ≡ length raw.now }
    ensures { into.new ≡ evens_of raw.now ++ odds_of raw.now }
{
    let pairs = raw.len() / 2;
    let middle = raw.len() - pairs;
    let mut at = 0;
    'sixteens: while pairs - at >= 16 {
        take_sixteen(raw, into, at, middle + at);
        at += 16;
    }
    for k in at..pairs {
        let even = raw[2 * k];
        let odd = raw[2 * k + 1];
        into[k] = even;
        into[middle + k] = odd;
    }
    if pairs < middle {
        into[pairs] = raw[2 * pairs];
    }
}

/// Sixteen bytes of either half, from a place in each half on.
fn take_sixteen(raw: &[u8], into: &mut [u8], even: usize, odd: usize)
    requires there { 2 * even + 32 ≤ length raw.now }
    requires apart { even + 16 ≤ odd }
    requires room { odd + 16 ≤ length into.old }
    ensures evens { (k : ℕ) → k < 16 → slice_index into.new (even + k) ≡ slice_index raw.now (2 * (even + k)) }
    ensures odds { (k : ℕ) → k < 16 → slice_index into.new (odd + k) ≡ slice_index raw.now (2 * (even + k) + 1) }
    ensures others { (k : ℕ) → (k < even) ⊎ (even + 16 ≤ k) → (k < odd) ⊎ (odd + 16 ≤ k) → slice_index into.new k ≡ slice_index into.old k }
{
    let first = u8x16::from_slice(&raw[2 * even..]);
    let second = u8x16::from_slice(&raw[2 * even + 16..]);
    let (evens, odds) = first.deinterleave(second);
    evens.copy_to_slice(&mut into[even..]);
    odds.copy_to_slice(&mut into[odd..]);
}

/// The first byte, and each other one minus the one before it plus 128, modulo 256.
pub(crate) fn put_differences(halves: &[u8], into: &mut [u8])
    requires { length into.old ≡ length halves.now }
    ensures { into.new ≡ differences_of halves.now }
{
    if halves.len() == 0 {
        return;
    }
    into[0] = halves[0];
    for k in 1..halves.len() {
        into[k] = halves[k].wrapping_sub(halves[k - 1]).wrapping_add(128);
    }
}

/// The bytes of the first half, rounded up, at even places, and those of the second at odd places.
pub(crate) fn lay_together(halves: &[u8], raw: &mut [u8])
    requires { length raw.old ≡ length halves.now }
    ensures { EachIndex raw.new (λ k. slice_index raw.new k ≡ (if k % 2 == 0 then slice_index halves.now (k / 2) else slice_index halves.now ((length halves.now + 1) / 2 + k / 2))) }
{
    let pairs = raw.len() / 2;
    let middle = raw.len() - pairs;
    let mut at = 0;
    'sixteens: while pairs - at >= 16 {
        put_sixteen(halves, raw, at, middle + at);
        at += 16;
    }
    for k in at..pairs {
        let even = halves[k];
        let odd = halves[middle + k];
        raw[2 * k] = even;
        raw[2 * k + 1] = odd;
    }
    if pairs < middle {
        raw[2 * pairs] = halves[pairs];
    }
}

/// Sixteen bytes of either half side by side, from a place in each half on.
fn put_sixteen(halves: &[u8], raw: &mut [u8], even: usize, odd: usize)
    requires evens { even + 16 ≤ length halves.now }
    requires odds { odd + 16 ≤ length halves.now }
    requires room { 2 * even + 32 ≤ length raw.old }
    ensures put { (k : ℕ) → k < 32 → slice_index raw.new (2 * even + k) ≡ (if k % 2 == 0 then slice_index halves.now (even + k / 2) else slice_index halves.now (odd + k / 2)) }
    ensures others { (k : ℕ) → k < 2 * even → slice_index raw.new k ≡ slice_index raw.old k }
{
    let evens = u8x16::from_slice(&halves[even..]);
    let odds = u8x16::from_slice(&halves[odd..]);
    let (first, second) = evens.interleave(odds);
    first.copy_to_slice(&mut raw[2 * even..]);
    second.copy_to_slice(&mut raw[2 * even + 16..]);
}
