//! Vectors of bytes as vectors of words of 16 bits, and back.

ghost use Rattle.std.specs.Prelude.{◌≡◌};
ghost use Rattle.exr_b44.specs.Cell.{bytes_of_halves};
ghost use Rattle.exr_b44.specs.Lanes.{words_of};

use std::simd::prelude::*;

/// Each two bytes as a word, low byte first.
#[inline(always)]
pub(crate) fn words(lanes: u8x16) -> u16x8
    ensures { result ≡ words_of lanes }
{
    u16x8::from_le_bytes(lanes)
}

/// Each word as two bytes, low byte first.
#[inline(always)]
pub(crate) fn bytes(lanes: u16x8) -> u8x16
    ensures { result ≡ bytes_of_halves lanes }
{
    lanes.to_le_bytes()
}
