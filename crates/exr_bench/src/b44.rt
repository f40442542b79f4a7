//! The kernels of B44 and B44A, on four channels of halves without subsampling.

ghost use Rattle.std.specs.Prelude.{◌≤◌, ◌^◌, length, IfOk, All};
ghost use Rattle.exr_base.specs.Shape.{IsRegion, IsSampled};
ghost use Rattle.exr_b44.specs.Block.{IsPlain};

use crate::checksum::add_bytes;
use crate::front::number;
use crate::stop::Stop;
use exr_base::{Box2i, Channel, Kind, Name, Shape};
use std::alloc::Global;

/// Packs raw bytes `repeats` times, after the numbers of their columns and lines.
pub(crate) fn pack(alloc: Global, bytes: &[u8], flat: bool, repeats: u32) -> Result<u64, Stop> {
    let (region, raw) = region_of(bytes)?;
    let channels = halves(alloc)?;
    let shape = Shape {
        channels: channels.as_slice(),
        region,
    };
    if raw.len() as u64 != shape.raw_size() || raw.len() > 1 << 26 {
        return Err(Stop::Form);
    }
    let mut sum = 0;
    for turn in 0..repeats {
        let packed = exr_b44::pack(alloc, raw, &shape, flat)?;
        sum = add_bytes(sum, &packed, turn, turn + 1 == repeats);
    }
    Ok(sum)
}

/// Unpacks packed data `repeats` times, after the numbers of its columns and lines.
pub(crate) fn unpack(alloc: Global, bytes: &[u8], repeats: u32) -> Result<u64, Stop> {
    let (region, packed) = region_of(bytes)?;
    let channels = halves(alloc)?;
    let shape = Shape {
        channels: channels.as_slice(),
        region,
    };
    if shape.raw_size() > 1 << 26 {
        return Err(Stop::Form);
    }
    let mut sum = 0;
    for turn in 0..repeats {
        let found = exr_b44::unpack(alloc, packed, &shape)?;
        sum = add_bytes(sum, &found, turn, turn + 1 == repeats);
    }
    Ok(sum)
}

/// A box of pixels with as many columns and lines as the bytes begin with, and the bytes after these numbers.
fn region_of(bytes: &[u8]) -> Result<(Box2i, &[u8]), Stop>
    ensures { IfOk result (λ found. IsRegion found.0) }
{
    let (columns, rest) = number(bytes)?;
    let (lines, rest) = number(rest)?;
    if columns > 1 << 20 || lines > 1 << 20 {
        return Err(Stop::Form);
    }
    Ok((box_of(columns, lines), rest))
}

fn box_of(columns: usize, lines: usize) -> Box2i
    requires columns { columns ≤ 2 ^ 20 }
    requires lines { lines ≤ 2 ^ 20 }
    ensures { IsRegion result }
{
    Box2i {
        x0: 0,
        y0: 0,
        x1: columns as i32 - 1,
        y1: lines as i32 - 1,
    }
}

/// Four channels of halves.
fn halves(alloc: Global) -> Result<Vec<Channel>, Stop>
    ensures few { IfOk result (λ channels. length channels.items ≤ 1024) }
    ensures sampled { IfOk result (λ channels. All IsSampled channels.items) }
    ensures plain { IfOk result (λ channels. All IsPlain channels.items) }
{
    let mut channels = Vec::new(alloc);
    for k in 0..4 {
        let Some(name) = Name::new(&[b'A' + k]) else {
            return Err(Stop::Form);
        };
        if channels
            .push(Channel {
                name,
                kind: Kind::Half,
                linear: 0,
                xs: 1,
                ys: 1,
            })
            .is_err()
        {
            return Err(Stop::NoMemory);
        }
    }
    Ok(channels)
}
