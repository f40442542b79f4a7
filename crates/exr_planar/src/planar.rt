//! Raw data to planar data and back, whole.

ghost use Rattle.std.specs.Prelude.{◌≡◌, ◌<◌, ℕ, IfOk, length, take, drop};
ghost use Rattle.exr_base.specs.Channel.{channel_at};
ghost use Rattle.exr_base.specs.Shape.{IsShape, raw_size_of, channel_bytes_of};
ghost use Rattle.exr_planar.specs.Planar.{plane_of, planar_of, plane_place_of, raw_from_planar};

use crate::lines::{put_line_in_planes, put_line_in_raw};
use crate::rows::line_count;
use crate::sink::{PlanarSlice, RowSink};
use crate::source::{PlanarBytes, RowSource};
use exr_base::{NoMemory, Shape};
use std::alloc::Global;

/// Writes raw data channel by channel: the planes of the channels, in the order of the channel list.
///
/// Both have the raw size of the shape.
pub fn put_planar(shape: &Shape, raw: &[u8], into: &mut [u8])
    requires shape { IsShape shape.now.channels.now shape.now.region }
    requires raw { length raw.now ≡ raw_size_of shape.now.channels.now shape.now.region }
    requires into { length into.old ≡ raw_size_of shape.now.channels.now shape.now.region }
    ensures exact { into.new ≡ planar_of shape.now.channels.now shape.now.region raw.now }
    // The way back gives the raw data again.
    ensures restores { raw_from_planar shape.now.channels.now shape.now.region into.new ≡ raw.now }
    // The part of each channel is its plane, which has as many bytes as the channel has.
    ensures planes { (c : ℕ) → c < length shape.now.channels.now
        → take (channel_bytes_of shape.now.region (channel_at shape.now.channels.now c))
        (drop (plane_place_of shape.now.channels.now shape.now.region c) into.new)
        ≡ plane_of shape.now.channels.now shape.now.region raw.now c }
    ensures sizes { (c : ℕ) → c < length shape.now.channels.now
        → length (plane_of shape.now.channels.now shape.now.region raw.now c)
        ≡ channel_bytes_of shape.now.region (channel_at shape.now.channels.now c) }
{
    let mut sink = PlanarSlice { bytes: into };
    put_planar_in(shape, raw, &mut sink);
}

/// Writes raw data channel by channel, each row of a line to its place: the planes of the channels, in the order of the
/// channel list.
///
/// Both have the raw size of the shape.
pub fn put_planar_in<S: RowSink>(shape: &Shape, raw: &[u8], sink: &mut S)
    requires shape { IsShape shape.now.channels.now shape.now.region }
    requires raw { length raw.now ≡ raw_size_of shape.now.channels.now shape.now.region }
    requires planar { length (S.planar sink.old) ≡ raw_size_of shape.now.channels.now shape.now.region }
    ensures exact { S.planar sink.new ≡ planar_of shape.now.channels.now shape.now.region raw.now }
    ensures restores { raw_from_planar shape.now.channels.now shape.now.region (S.planar sink.new) ≡ raw.now }
    ensures memory { S.memory sink.new ≡ S.memory sink.old }
{
    let mut at = 0;
    for line in 0..line_count(shape.region) {
        at = put_line_in_planes(shape, line, at, raw, sink);
    }
}

/// Writes planar data as raw data: line by line, on each line channel by channel.
///
/// Both have the raw size of the shape.
pub fn put_raw(shape: &Shape, planar: &[u8], into: &mut [u8])
    requires shape { IsShape shape.now.channels.now shape.now.region }
    requires planar { length planar.now ≡ raw_size_of shape.now.channels.now shape.now.region }
    requires into { length into.old ≡ raw_size_of shape.now.channels.now shape.now.region }
    ensures exact { into.new ≡ raw_from_planar shape.now.channels.now shape.now.region planar.now }
    ensures restores { planar_of shape.now.channels.now shape.now.region into.new ≡ planar.now }
{
    let source = PlanarBytes { bytes: planar };
    put_raw_from(shape, &source, into);
}

/// Writes planar data as raw data, each row from where the rows are read to its place: line by line, on each line channel
/// by channel.
///
/// Both have the raw size of the shape.
pub fn put_raw_from<S: RowSource>(shape: &Shape, source: &S, into: &mut [u8])
    requires shape { IsShape shape.now.channels.now shape.now.region }
    requires planar { length (S.planar source.now) ≡ raw_size_of shape.now.channels.now shape.now.region }
    requires into { length into.old ≡ raw_size_of shape.now.channels.now shape.now.region }
    ensures exact { into.new ≡ raw_from_planar shape.now.channels.now shape.now.region (S.planar source.now) }
    ensures restores { planar_of shape.now.channels.now shape.now.region into.new ≡ S.planar source.now }
{
    let mut at = 0;
    for line in 0..line_count(shape.region) {
        at = put_line_in_raw(shape, line, at, source, into);
    }
}

/// Raw data channel by channel, in memory of its own.
pub fn to_planar(alloc: Global, shape: &Shape, raw: &[u8]) -> Result<Vec<u8>, NoMemory>
    requires shape { IsShape shape.now.channels.now shape.now.region }
    requires raw { length raw.now ≡ raw_size_of shape.now.channels.now shape.now.region }
    ensures exact { IfOk result (λ planar. planar.items ≡ planar_of shape.now.channels.now shape.now.region raw.now) }
    ensures restores { IfOk result (λ planar. raw_from_planar shape.now.channels.now shape.now.region planar.items ≡ raw.now) }
{
    let mut planar = vec![in alloc; 0u8; raw.len()]?;
    put_planar(shape, raw, planar.as_mut_slice());
    Ok(planar)
}

/// Planar data as raw data, in memory of its own.
pub fn from_planar(alloc: Global, shape: &Shape, planar: &[u8]) -> Result<Vec<u8>, NoMemory>
    requires shape { IsShape shape.now.channels.now shape.now.region }
    requires planar { length planar.now ≡ raw_size_of shape.now.channels.now shape.now.region }
    ensures exact { IfOk result (λ raw. raw.items ≡ raw_from_planar shape.now.channels.now shape.now.region planar.now) }
    ensures restores { IfOk result (λ raw. planar_of shape.now.channels.now shape.now.region raw.items ≡ planar.now) }
{
    let mut raw = vec![in alloc; 0u8; planar.len()]?;
    put_raw(shape, planar, raw.as_mut_slice());
    Ok(raw)
}
