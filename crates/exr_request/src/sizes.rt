//! Sizes of the samples of channels, in bytes.

ghost use Rattle.std.specs.Prelude.{◌≡◌, ◌≤◌, ◌+◌, ◌*◌, ◌^◌, length, All, sum_by};
ghost use Rattle.exr_base.specs.Sampling.{sample_count_of};
ghost use Rattle.exr_base.specs.Shape.{IsRegion, IsSampled};
ghost use Rattle.exr_request.specs.Arranged.{kind_bytes, row_bytes};

use exr_base::{Box2i, Channel, sample_count};

/// Number of columns of a window that have samples.
pub(crate) fn columns_of(window: Box2i, sampling: u32) -> u64
    requires region { IsRegion window }
    requires sampled { 1 ≤ sampling }
    ensures exact { result ≡ sample_count_of sampling window.x0 window.x1 }
    ensures small { result ≤ 2 ^ 20 }
{
    u64::from(sample_count(sampling, window.x0, window.x1))
}

/// Number of lines of a window that have samples.
pub(crate) fn rows_of(window: Box2i, sampling: u32) -> u64
    requires region { IsRegion window }
    requires sampled { 1 ≤ sampling }
    ensures exact { result ≡ sample_count_of sampling window.y0 window.y1 }
    ensures small { result ≤ 2 ^ 20 }
{
    u64::from(sample_count(sampling, window.y0, window.y1))
}

/// Size of a sample.
pub(crate) fn kind_bytes(channel: &Channel) -> u64
    ensures exact { result ≡ kind_bytes channel.now }
    ensures small { result ≤ 4 }
{
    channel.kind.bytes() as u64
}

/// Size of a channel's samples on a line.
pub(crate) fn row_bytes(window: Box2i, channel: &Channel) -> u64
    requires region { IsRegion window }
    requires sampled { IsSampled channel.now }
    ensures exact { result ≡ row_bytes window channel.now }
    ensures small { result ≤ 2 ^ 22 }
{
    columns_of(window, channel.xs) * kind_bytes(channel)
}
