//! Where runs begin and how long they are, sixteen places at a time.

ghost use Rattle.std.specs.Prelude.{◌≡◌, ◌≢◌, ℕ, ◌+◌, ◌<◌, ◌≤◌, slice_index, length, drop, min, true, false};
ghost use Rattle.exr_rle.specs.Packed.{begins_three, plain_len, run_len};

use std::simd::prelude::*;

/// Whether three equal bytes begin at `at`.
pub(crate) fn is_run(bytes: &[u8], at: usize) -> bool
    requires { at ≤ length bytes.now }
    ensures { result ≡ begins_three (drop at bytes.now) }
{
    match &bytes[at..] {
        [first, second, third, ..] => first == second && second == third,
        _ => false,
    }
}

/// How many bytes the run at a place has, at most 128.
pub(crate) fn run_at(bytes: &[u8], at: usize) -> usize
    requires { at < length bytes.now }
    ensures { result ≡ run_len (drop at bytes.now) }
{
    let byte = bytes[at];
    let mut count = 1;
    'sixteens: while count <= 112 && bytes.len() - at - count >= 16 {
        let more = equal_in(bytes, at + count, byte);
        count += more;
        if more < 16 {
            return count;
        }
    }
    'ones: while count < 128 && at + count < bytes.len() && bytes[at + count] == byte {
        count += 1;
    }
    count
}

/// How many of the sixteen bytes at a place are this byte, from the first on.
fn equal_in(bytes: &[u8], at: usize, byte: u8) -> usize
    requires { at + 16 ≤ length bytes.now }
    ensures within { result ≤ 16 }
    ensures equal { (k : ℕ) → k < result → slice_index bytes.now (at + k) ≡ byte }
    ensures other { result < 16 → slice_index bytes.now (at + result) ≢ byte }
{
    let others = u8x16::from_slice(&bytes[at..])
        .simd_ne(u8x16::splat(byte))
        .to_bitmask();
    if others == 0 {
        16
    } else {
        others.trailing_zeros() as usize
    }
}

/// Number of bytes from `at` on before the next run, at most 127.
pub(crate) fn literal_at(bytes: &[u8], at: usize) -> usize
    requires { at < length bytes.now }
    ensures { result ≡ min 127 (plain_len (drop at bytes.now)) }
{
    let mut count = 0;
    'sixteens: while count <= 111 && bytes.len() - at - count >= 18 {
        let more = plain_in(bytes, at + count);
        count += more;
        if more < 16 {
            return count;
        }
    }
    'ones: while count < 127 && at + count < bytes.len() && !is_run(bytes, at + count) {
        count += 1;
    }
    count
}

/// How many of the sixteen places at a place begin no run, from the first on.
fn plain_in(bytes: &[u8], at: usize) -> usize
    requires { at + 18 ≤ length bytes.now }
    ensures within { result ≤ 16 }
    ensures plain { (k : ℕ) → k < result → begins_three (drop (at + k) bytes.now) ≡ false }
    ensures run { result < 16 → begins_three (drop (at + result) bytes.now) ≡ true }
{
    let first = u8x16::from_slice(&bytes[at..]);
    let second = u8x16::from_slice(&bytes[at + 1..]);
    let third = u8x16::from_slice(&bytes[at + 2..]);
    let runs = ((first ^ second) | (second ^ third))
        .simd_eq(u8x16::splat(0))
        .to_bitmask();
    if runs == 0 {
        16
    } else {
        runs.trailing_zeros() as usize
    }
}
