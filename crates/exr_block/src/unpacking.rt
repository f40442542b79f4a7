//! The raw content of a chunk's data, by the method of its part.

ghost use Rattle.std.specs.Prelude.{◌≡◌, ◌≤◌, ◌<◌, ◌*◌, ◌^◌, true, IsTrue, IfOk, OnOk, length};
ghost use Rattle.exr_base.specs.declared.method.Method.TheVariants as method;
ghost use Rattle.exr_base.specs.Refusal.{Gives};
ghost use Rattle.exr_base.specs.Shape.{IsShape, raw_size_of};
ghost use Rattle.exr_deep.specs.Body.{body_of as deep_body_of, content_of as deep_content_of};
ghost use Rattle.exr_deep.specs.Deep.{pixels_of, fits as deep_fits};
ghost use Rattle.exr_block.specs.Body.{data_of, content_of, is_deep_data, is_deep_content};
ghost use Rattle.exr_block.specs.Content.{unpacked_of, b44_unpacked_of, raw_of_flat, is_unread, raw_of_deep, raw_of_body, fits};
ghost use Rattle.exr_block.specs.Sizes.{is_size, raw_bytes_of, sizes_fit};

use crate::body::{Block, Body};
use crate::fault::ChunkFault;
use crate::plain::are_plain;
use crate::sizes::{DeepSizes, sizes_of, table_size};
use exr_base::{Method, Refusal, Shape};
use exr_deep::{DeepBlock, DeepPacked};
use std::alloc::Global;

/// The raw content of a chunk whose data has sizes that it may have, for the channels and the region of a shape. `room` is
/// memory that may be used for it; what it held is let go.
///
/// Data of the raw size is the raw content, whatever the method, and is not copied. Smaller data is unpacked: `Unsupported`
/// comes exactly where the method is not read, and `Rle`, `Piz`, `B44` or `Deep` exactly where that method, or the rules of
/// deep data, refuse the data. In a deep chunk the table and the samples may each be raw or packed.
///
/// File Layout, "Chunk Layout" and "Deep Data Blocks".
#[tactic(auto, unfolding(crate::specs::Content::raw_of_body))]
pub fn unpack_block(
    alloc: Global,
    method: Method,
    shape: &Shape<'_>,
    body: Body,
    room: Vec<u8>,
) -> Result<Block, Refusal<ChunkFault>>
    requires shape { IsShape shape.now.channels.now shape.now.region }
    requires fits { IsTrue (sizes_fit method shape.now.channels.now shape.now.region (data_of body)) }
    requires small { raw_bytes_of (is_deep_data (data_of body)) shape.now.channels.now shape.now.region ≤ 2 ^ 26 }
    ensures exact { Gives content_of result (raw_of_body method shape.now.channels.now shape.now.region (data_of body)) }
    ensures form { IfOk result (λ block. is_deep_content (content_of block) ≡ is_deep_data (data_of body)) }
    ensures fits { IfOk result (λ block. IsTrue (fits shape.now.channels.now shape.now.region (content_of block))) }
{
    match body {
        Body::Flat(data) => match unpack_flat(alloc, method, shape, data, room) {
            Ok(raw) => Ok(Block::Flat(raw)),
            Err(refusal) => Err(refusal),
        },
        Body::Deep(packed) => match unpack_deep(alloc, method, shape, packed) {
            Ok(content) => Ok(Block::Deep(content)),
            Err(refusal) => Err(refusal),
        },
    }
}

/// The raw data of a chunk that is not deep.
#[tactic(auto, unfolding(crate::specs::Content::raw_of_flat))]
fn unpack_flat(
    alloc: Global,
    method: Method,
    shape: &Shape<'_>,
    data: Vec<u8>,
    room: Vec<u8>,
) -> Result<Vec<u8>, Refusal<ChunkFault>>
    requires shape { IsShape shape.now.channels.now shape.now.region }
    requires fits { IsTrue (is_size method (raw_size_of shape.now.channels.now shape.now.region) (length «data».items)) }
    requires small { raw_size_of shape.now.channels.now shape.now.region ≤ 2 ^ 26 }
    ensures exact { Gives (λ raw. raw.items) result (raw_of_flat method shape.now.channels.now shape.now.region «data».items) }
    ensures size { IfOk result (λ raw. length raw.items ≡ raw_size_of shape.now.channels.now shape.now.region) }
{
    if data.len() as u64 == shape.raw_size() {
        return Ok(data);
    }
    let mut raw = room;
    unpack_data(alloc, method, shape, &data, &mut raw)?;
    Ok(raw)
}

/// Whether deep data of these sizes, whose raw table has `raw` bytes, is packed by a method that is not read.
fn is_unread(method: Method, raw: u64, sizes: DeepSizes) -> bool
    ensures { result ≡ is_unread method raw sizes }
{
    match method {
        Method::No | Method::Rle => false,
        _ => sizes.table < raw || sizes.samples < sizes.unpacked,
    }
}

/// The raw content of a deep chunk.
#[tactic(auto, unfolding(crate::specs::Content::raw_of_deep))]
fn unpack_deep(
    alloc: Global,
    method: Method,
    shape: &Shape<'_>,
    packed: DeepPacked,
) -> Result<DeepBlock, Refusal<ChunkFault>>
    requires shape { IsShape shape.now.channels.now shape.now.region }
    requires small { 4 * pixels_of shape.now.region ≤ 2 ^ 26 }
    requires unpacked { packed.unpacked ≤ 2 ^ 26 }
    ensures exact { Gives deep_content_of result (raw_of_deep method shape.now.channels.now shape.now.region (deep_body_of packed)) }
    ensures fits { IfOk result (λ block. deep_fits shape.now.channels.now shape.now.region (deep_content_of block) ≡ true) }
{
    if is_unread(method, table_size(shape.region), sizes_of(&packed)) {
        return Err(Refusal::Fault(ChunkFault::Unsupported { method }));
    }
    match exr_deep::unpack_deep(alloc, shape, packed) {
        Ok(block) => Ok(block),
        Err(Refusal::Fault(fault)) => Err(Refusal::Fault(ChunkFault::Deep(fault))),
        Err(Refusal::NoMemory) => Err(Refusal::NoMemory),
    }
}

/// The raw data that smaller data stands for.
#[tactic(auto, unfolding(crate::specs::Content::unpacked_of))]
fn unpack_data(
    alloc: Global,
    method: Method,
    shape: &Shape<'_>,
    data: &[u8],
    raw: &mut Vec<u8>,
) -> Result<(), Refusal<ChunkFault>>
    requires shape { IsShape shape.now.channels.now shape.now.region }
    requires small { raw_size_of shape.now.channels.now shape.now.region ≤ 2 ^ 26 }
    requires smaller { length «data».now < raw_size_of shape.now.channels.now shape.now.region }
    ensures exact { Gives (λ _. raw.new.items) result (unpacked_of method shape.now.channels.now shape.now.region «data».now) }
    ensures size { OnOk result (length raw.new.items ≡ raw_size_of shape.now.channels.now shape.now.region) }
{
    match method {
        Method::Rle => unpack_rle(alloc, shape, data, raw),
        Method::Piz => unpack_piz(alloc, shape, data, raw),
        Method::B44 | Method::B44a => unpack_b44(alloc, method, shape, data, raw),
        _ => Err(Refusal::Fault(ChunkFault::Unsupported { method })),
    }
}

/// The same of runs and literals, in memory of its own: that gains nothing by what is kept.
#[tactic(auto, unfolding(crate::specs::Content::unpacked_of))]
fn unpack_rle(
    alloc: Global,
    shape: &Shape<'_>,
    data: &[u8],
    raw: &mut Vec<u8>,
) -> Result<(), Refusal<ChunkFault>>
    requires shape { IsShape shape.now.channels.now shape.now.region }
    requires small { raw_size_of shape.now.channels.now shape.now.region ≤ 2 ^ 26 }
    ensures exact { Gives (λ _. raw.new.items) result (unpacked_of method.Rle shape.now.channels.now shape.now.region «data».now) }
    ensures size { OnOk result (length raw.new.items ≡ raw_size_of shape.now.channels.now shape.now.region) }
{
    match exr_rle::unpack(alloc, data, shape.raw_size() as usize) {
        Ok(unpacked) => {
            *raw = unpacked;
            Ok(())
        }
        Err(Refusal::Fault(_)) => Err(Refusal::Fault(ChunkFault::Rle)),
        Err(Refusal::NoMemory) => Err(Refusal::NoMemory),
    }
}

/// The same of the value map and the Huffman block of PIZ.
#[tactic(auto, unfolding(crate::specs::Content::unpacked_of))]
fn unpack_piz(
    alloc: Global,
    shape: &Shape<'_>,
    data: &[u8],
    raw: &mut Vec<u8>,
) -> Result<(), Refusal<ChunkFault>>
    requires shape { IsShape shape.now.channels.now shape.now.region }
    requires some { 1 ≤ raw_size_of shape.now.channels.now shape.now.region }
    requires small { raw_size_of shape.now.channels.now shape.now.region ≤ 2 ^ 26 }
    ensures exact { Gives (λ _. raw.new.items) result (unpacked_of method.Piz shape.now.channels.now shape.now.region «data».now) }
    ensures size { OnOk result (length raw.new.items ≡ raw_size_of shape.now.channels.now shape.now.region) }
{
    match exr_piz::unpack_into(alloc, data, shape, raw) {
        Ok(()) => Ok(()),
        Err(Refusal::Fault(fault)) => Err(Refusal::Fault(ChunkFault::Piz(fault))),
        Err(Refusal::NoMemory) => Err(Refusal::NoMemory),
    }
}

/// The same of cells of halves and other samples, under B44 or B44A.
fn unpack_b44(
    alloc: Global,
    method: Method,
    shape: &Shape<'_>,
    data: &[u8],
    raw: &mut Vec<u8>,
) -> Result<(), Refusal<ChunkFault>>
    requires shape { IsShape shape.now.channels.now shape.now.region }
    requires small { raw_size_of shape.now.channels.now shape.now.region ≤ 2 ^ 26 }
    ensures exact { Gives (λ _. raw.new.items) result (b44_unpacked_of method shape.now.channels.now shape.now.region «data».now) }
    ensures size { OnOk result (length raw.new.items ≡ raw_size_of shape.now.channels.now shape.now.region) }
{
    if !are_plain(shape.channels) {
        return Err(Refusal::Fault(ChunkFault::Unsupported { method }));
    }
    match exr_b44::unpack_into(alloc, data, shape, raw) {
        Ok(()) => Ok(()),
        Err(Refusal::Fault(fault)) => Err(Refusal::Fault(ChunkFault::B44(fault))),
        Err(Refusal::NoMemory) => Err(Refusal::NoMemory),
    }
}
