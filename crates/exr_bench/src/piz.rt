//! The kernels of PIZ, on a block of channels of one kind.

ghost use Rattle.std.specs.Prelude.{◌≤◌, ◌^◌, All, IfOk};
ghost use Rattle.exr_base.specs.Shape.{IsShape, IsRegion, IsSampled};

use crate::checksum::add_bytes;
use crate::front::number;
use crate::stop::Stop;
use exr_base::{Box2i, Channel, Kind, Name, Shape};
use std::alloc::Global;

/// A block: its channels, its region, and its data.
#[derive(Drop)]
struct Block<'a> {
    channels: Vec<Channel>,
    region: Box2i,
    data: &'a [u8],
}

/// A region of so many columns and lines from (0, 0) on.
fn region_of(columns: usize, lines: usize) -> Box2i
    requires some { 1 ≤ columns }
    requires few { columns ≤ 2 ^ 20 }
    requires one { 1 ≤ lines }
    requires low { lines ≤ 2 ^ 20 }
    ensures { IsRegion result }
{
    Box2i {
        x0: 0,
        y0: 0,
        x1: columns as i32 - 1,
        y1: lines as i32 - 1,
    }
}

/// A channel that has a sample at each pixel.
fn channel_of(kind: Kind) -> Result<Channel, Stop>
    ensures { IfOk result (λ channel. IsSampled channel) }
{
    let Some(name) = Name::new(b"Y") else {
        return Err(Stop::Form);
    };
    Ok(Channel {
        name,
        kind,
        linear: 0,
        xs: 1,
        ys: 1,
    })
}

/// So many channels of a kind.
fn channels_of(alloc: Global, kind: Kind, count: usize) -> Result<Vec<Channel>, Stop>
    ensures { IfOk result (λ channels. All IsSampled channels.items) }
{
    let mut channels = Vec::new(alloc);
    'channels: for _ in 0..count {
        channels.push(channel_of(kind)?)?;
    }
    Ok(channels)
}

/// The block of a file: how many columns, lines and channels there are, the bytes of a sample, and data.
fn block_of(alloc: Global, bytes: &[u8]) -> Result<Block<'_>, Stop>
    ensures { IfOk result (λ block. IsShape block.channels.items block.region) }
{
    let (columns, rest) = number(bytes)?;
    let (lines, rest) = number(rest)?;
    let (count, rest) = number(rest)?;
    let (sample, data) = number(rest)?;
    if columns == 0 || columns > 1 << 20 || lines == 0 || lines > 1 << 20 {
        return Err(Stop::Form);
    }
    let kind = if sample == 2 { Kind::Half } else { Kind::Float };
    let channels = channels_of(alloc, kind, count)?;
    if channels.len() > 1024 {
        return Err(Stop::Form);
    }
    Ok(Block {
        channels,
        region: region_of(columns, lines),
        data,
    })
}

/// Packs a block's raw data so often.
pub(crate) fn pack(alloc: Global, bytes: &[u8], repeats: u32) -> Result<u64, Stop> {
    let block = block_of(alloc, bytes)?;
    let shape = Shape {
        channels: &block.channels,
        region: block.region,
    };
    let size = shape.raw_size();
    if size == 0 || size > 1 << 26 || size != block.data.len() as u64 {
        return Err(Stop::Form);
    }
    let mut sum = 0;
    for turn in 0..repeats {
        let packed = exr_piz::pack(alloc, block.data, &shape)?;
        sum = add_bytes(sum, &packed, turn, turn + 1 == repeats);
    }
    Ok(sum)
}

/// Unpacks packed data of a block's shape into a vector.
fn unpack_into(alloc: Global, block: &Block<'_>, data: &[u8], raw: &mut Vec<u8>) -> Result<(), Stop>
    requires { IsShape block.now.channels.items block.now.region }
{
    let shape = Shape {
        channels: &block.channels,
        region: block.region,
    };
    let size = shape.raw_size();
    if size == 0 || size > 1 << 26 {
        return Err(Stop::Form);
    }
    Ok(exr_piz::unpack_into(alloc, data, &shape, raw)?)
}

/// Unpacks a block's packed data so often.
pub(crate) fn unpack(alloc: Global, bytes: &[u8], repeats: u32) -> Result<u64, Stop> {
    let block = block_of(alloc, bytes)?;
    let mut sum = 0;
    for turn in 0..repeats {
        let mut raw = Vec::new(alloc);
        unpack_into(alloc, &block, block.data, &mut raw)?;
        sum = add_bytes(sum, &raw, turn, turn + 1 == repeats);
    }
    Ok(sum)
}

/// Unpacks all blocks of a file so often, each into the same vector. Their number comes first, and each block's size before
/// its data.
pub(crate) fn unpack_all(alloc: Global, bytes: &[u8], repeats: u32) -> Result<u64, Stop> {
    let (count, blocks) = number(bytes)?;
    let mut sum = 0;
    let mut raw = Vec::new(alloc);
    for turn in 0..repeats {
        let mut rest = blocks;
        for _ in 0..count {
            let block = block_of(alloc, rest)?;
            let (size, data) = number(block.data)?;
            if size > data.len() {
                return Err(Stop::Form);
            }
            unpack_into(alloc, &block, &data[..size], &mut raw)?;
            sum = add_bytes(sum, &raw, turn, turn + 1 == repeats);
            rest = &data[size..];
        }
    }
    Ok(sum)
}
