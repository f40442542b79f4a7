//! How many bytes channels have, raw and packed.

ghost use Rattle.std.specs.Prelude.{◌≡◌, ◌*◌, ◌^◌, ◌≤◌, IfSome};
ghost use Rattle.std.specs.List.{sum_by};
ghost use Rattle.exr_base.specs.Channel.{bytes_of};
ghost use Rattle.exr_base.specs.Shape.{IsShape, IsRegion, IsSampled, channel_bytes_of};
ghost use Rattle.exr_b44.specs.Block.{columns_of, rows_of};
ghost use Rattle.exr_b44.specs.Plane.{cells_for};
ghost use Rattle.exr_b44.specs.Sizes.{AreOnEachLine, row_len_of, least_len, most_len, least_of, most_of};

use crate::channel::Counts;
use exr_base::{Box2i, Channel, Kind, Shape, sample_count};

/// Columns and lines of a channel's samples in a region.
pub(crate) fn counts_of(channel: &Channel, region: Box2i) -> Counts
    requires region { IsRegion region }
    requires sampled { IsSampled channel.now }
    ensures columns { result.columns ≡ columns_of region channel.now }
    ensures rows { result.rows ≡ rows_of region channel.now }
    ensures narrow { result.columns ≤ 2 ^ 20 }
    ensures low { result.rows ≤ 2 ^ 20 }
{
    Counts {
        columns: sample_count(channel.xs, region.x0, region.x1) as usize,
        rows: sample_count(channel.ys, region.y0, region.y1) as usize,
    }
}

/// The bytes of a row of a channel.
pub(crate) fn row_len(kind: Kind, counts: Counts) -> usize
    requires narrow { counts.columns ≤ 2 ^ 20 }
    ensures exact { result ≡ counts.columns * bytes_of kind }
    ensures small { result ≤ 2 ^ 22 }
{
    counts.columns * kind.bytes()
}

/// The bytes of the samples of a channel.
pub(crate) fn raw_len(kind: Kind, counts: Counts) -> usize
    requires narrow { counts.columns ≤ 2 ^ 20 }
    requires low { counts.rows ≤ 2 ^ 20 }
    ensures { result ≡ counts.columns * counts.rows * bytes_of kind }
{
    counts.columns * counts.rows * kind.bytes()
}

/// The cells of a channel of halves.
fn cell_count(counts: Counts) -> u64
    requires narrow { counts.columns ≤ 2 ^ 20 }
    requires low { counts.rows ≤ 2 ^ 20 }
    ensures exact { result ≡ cells_for counts.columns * cells_for counts.rows }
    ensures small { result ≤ 2 ^ 36 }
{
    let across = counts.columns.div_ceil(4) as u64;
    let down = counts.rows.div_ceil(4) as u64;
    across * down
}

/// The least number of bytes that the samples of a channel take when they are packed.
fn least_len(kind: Kind, counts: Counts) -> u64
    requires narrow { counts.columns ≤ 2 ^ 20 }
    requires low { counts.rows ≤ 2 ^ 20 }
    ensures exact { result ≡ least_len kind counts.columns counts.rows }
    ensures small { result ≤ 2 ^ 42 }
{
    match kind {
        Kind::Half => 3 * cell_count(counts),
        Kind::Uint => raw_len(kind, counts) as u64,
        Kind::Float => raw_len(kind, counts) as u64,
    }
}

/// The greatest number of bytes.
fn most_len(kind: Kind, counts: Counts) -> u64
    requires narrow { counts.columns ≤ 2 ^ 20 }
    requires low { counts.rows ≤ 2 ^ 20 }
    ensures exact { result ≡ most_len kind counts.columns counts.rows }
    ensures small { result ≤ 2 ^ 42 }
{
    match kind {
        Kind::Half => 14 * cell_count(counts),
        Kind::Uint => raw_len(kind, counts) as u64,
        Kind::Float => raw_len(kind, counts) as u64,
    }
}

/// The least number of bytes that the samples of a region take when they are packed.
pub(crate) fn least_size(shape: &Shape) -> u64
    requires { IsShape shape.now.channels.now shape.now.region }
    ensures { result ≡ sum_by (least_of shape.now.region) shape.now.channels.now }
{
    let region = shape.region;
    let mut size = 0;
    for channel in shape.channels {
        size += least_len(channel.kind, counts_of(channel, region));
    }
    size
}

/// The greatest number of bytes.
pub(crate) fn most_size(shape: &Shape) -> u64
    requires { IsShape shape.now.channels.now shape.now.region }
    ensures exact { result ≡ sum_by (most_of shape.now.region) shape.now.channels.now }
    ensures small { result ≤ 2 ^ 52 }
{
    let region = shape.region;
    let mut size = 0;
    for channel in shape.channels {
        size += most_len(channel.kind, counts_of(channel, region));
    }
    size
}

/// The bytes of each line of a region; None where a channel does not have samples on each line.
pub(crate) fn line_len(shape: &Shape) -> Option<usize>
    requires { IsShape shape.now.channels.now shape.now.region }
    ensures each { IfSome result (λ _. AreOnEachLine shape.now.channels.now) }
    ensures exact { IfSome result (λ line. line ≡ sum_by (row_len_of shape.now.region) shape.now.channels.now) }
{
    let region = shape.region;
    let mut line = 0;
    for channel in shape.channels {
        if channel.ys != 1 {
            return None;
        }
        line += row_len(channel.kind, counts_of(channel, region));
    }
    Some(line)
}
