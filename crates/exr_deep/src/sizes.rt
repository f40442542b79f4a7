//! How many pixels and samples there are, and how many bytes they take.

ghost use Rattle.std.specs.Prelude.{◌≡◌, ◌==◌, ◌&&◌, nat_le, ◌+◌, ◌*◌, ◌≤◌, ◌<◌, ◌^◌, true, false, length, take, sum, MatchOption};
ghost use Rattle.exr_base.specs.Shape.{IsShape, IsRegion, width_of, height_of};
ghost use Rattle.exr_deep.specs.Body.{content_of};
ghost use Rattle.exr_deep.specs.Deep.{sample_bytes_of, are_ints, fits};
ghost use Rattle.exr_deep.specs.Steps.{AreInts};

use crate::block::DeepBlock;
use exr_base::{Box2i, Channel, Shape, span};

/// The most bytes that a sample count table has, and that samples have (own).
const LARGEST: usize = 1 << 26;

/// The pixels of a row of a region (own).
pub fn width_of(region: Box2i) -> usize
    requires { IsRegion region }
    ensures exact { result ≡ width_of region }
    ensures small { result ≤ 2 ^ 20 }
{
    span(region.x0, region.x1) as usize
}

/// The rows of a region (own).
pub fn height_of(region: Box2i) -> usize
    requires { IsRegion region }
    ensures exact { result ≡ height_of region }
    ensures small { result ≤ 2 ^ 20 }
{
    span(region.y0, region.y1) as usize
}

/// The bytes of one sample of each channel.
///
/// File Layout, "Deep Data Blocks".
pub fn sample_bytes(channels: &[Channel]) -> u64
    requires { length channels.now ≤ 1024 }
    ensures exact { result ≡ sample_bytes_of channels.now }
    ensures small { result ≤ 2 ^ 12 }
{
    let mut bytes = 0;
    for channel in channels {
        bytes += channel.kind.bytes() as u64;
    }
    bytes
}

/// The number of samples in one row; `None` where it is 2^31 or more.
fn count_row(counts: &[u32], width: usize, row: usize) -> Option<u64>
    requires row { row * width + width ≤ length counts.now }
    requires so_far { AreInts width counts.now (row * width) }
    ensures ints { MatchOption result (are_ints width counts.now ≡ false) (λ samples. AreInts width counts.now (row * width + width)) }
    ensures samples { MatchOption result (0 < width) (λ samples. sum (take (row * width + width) counts.now) ≡ sum (take (row * width) counts.now) + samples) }
    ensures small { MatchOption result (0 < width) (λ samples. samples < 2 ^ 31) }
{
    let first = row * width;
    let mut samples = 0;
    for pixel in first..first + width {
        samples += u64::from(counts[pixel]);
        if samples >= 1 << 31 {
            return None;
        }
    }
    Some(samples)
}

/// The number of samples in all rows; `None` where a row has 2^31 or more.
fn count_samples(counts: &[u32], width: usize, rows: usize) -> Option<u64>
    requires pixels { length counts.now ≡ rows * width }
    requires few { rows ≤ 2 ^ 20 }
    ensures ints { MatchOption result (are_ints width counts.now ≡ false) (λ samples. are_ints width counts.now ≡ true) }
    ensures samples { MatchOption result (0 < width) (λ samples. samples ≡ sum counts.now) }
    ensures small { MatchOption result (0 < width) (λ samples. samples ≤ rows * 2 ^ 31) }
{
    let mut samples = 0;
    for row in 0..rows {
        samples += count_row(counts, width, row)?;
    }
    Some(samples)
}

/// Whether content can be stored for the channels and the region of a shape: it has a count for each pixel and the samples
/// of these counts, no row has 2^31 samples or more, and neither the table nor the samples have more than 2^26 bytes (own).
pub fn fits(shape: &Shape<'_>, block: &DeepBlock) -> bool
    requires { IsShape shape.now.channels.now shape.now.region }
    ensures { result ≡ fits shape.now.channels.now shape.now.region (content_of block.now) }
{
    let width = width_of(shape.region);
    let rows = height_of(shape.region);
    if block.counts.len() != rows * width {
        return false;
    }
    match count_samples(&block.counts, width, rows) {
        None => false,
        Some(samples) => {
            let size = samples * sample_bytes(shape.channels);
            are_sizes(rows * width, block.samples.len() as u64, size)
        }
    }
}

/// Whether samples have the size that is computed, and neither they nor the table of so many pixels are too large.
fn are_sizes(pixels: usize, said: u64, computed: u64) -> bool
    requires { pixels ≤ 2 ^ 40 }
    ensures { result ≡ ((said == computed) && nat_le (4 * pixels) (2 ^ 26) && nat_le said (2 ^ 26)) }
{
    said == computed && 4 * pixels <= LARGEST && said <= LARGEST as u64
}
