//! The raw content of a chunk.

ghost use Rattle.std.specs.Prelude.{◌≡◌, ◌≤◌, ◌<◌, ◌^◌, false, IsTrue, IfOk, IfErr, OnOk, length, Ok, Err};
ghost use Rattle.exr_base.specs.declared.refusal.Refusal.TheVariants as refused;
ghost use Rattle.exr_base.specs.Shape.{IsShape, raw_size_of};
ghost use Rattle.exr_block.specs.Body.{data_of, content_of, flat_content, is_deep_data, is_deep_content};
ghost use Rattle.exr_block.specs.Content.{raw_of_body, fits};
ghost use Rattle.exr_block.specs.Sizes.{raw_bytes_of, sizes_fit};
ghost use Rattle.exr_outside.specs.Count.{Rose};
ghost use Rattle.exr_chunks.specs.Heads.{is_deep, chunk_count_of};
ghost use Rattle.exr_chunks.specs.Region.{header_at, region_of};
ghost use Rattle.exr_stream.specs.declared.fault.FetchFault.TheVariants as fetch;
ghost use Rattle.exr_stream.specs.Stream.{file_of, IsSameStream};
ghost use Rattle.exr_reader.specs.Sample.{raw_of};
ghost use Rattle.exr_reader.specs.Reading.{HasData, HasCause};

use crate::cause::ReadCause;
use exr_base::{Method, Refusal, Shape};
use exr_block::{Block, Body, unpack_block};
use exr_outside::{Source, World};
use exr_stream::{FetchFault, Stream};
use std::alloc::Global;

/// The raw content of the stored data of a chunk, in the memory of `room` where it can use that.
fn unpacked(
    alloc: Global,
    method: Method,
    shape: &Shape<'_>,
    index: u32,
    body: Body,
    room: Vec<u8>,
) -> Result<Block, ReadCause>
    requires shape { IsShape shape.now.channels.now shape.now.region }
    requires fits { IsTrue (sizes_fit method shape.now.channels.now shape.now.region (data_of body)) }
    requires small { raw_bytes_of (is_deep_data (data_of body)) shape.now.channels.now shape.now.region ≤ 2 ^ 26 }
    ensures content { IfOk result (λ block. raw_of_body method shape.now.channels.now shape.now.region (data_of body) ≡ Ok (content_of block)) }
    ensures form { IfOk result (λ block. is_deep_content (content_of block) ≡ is_deep_data (data_of body)) }
    ensures fits { IfOk result (λ block. IsTrue (fits shape.now.channels.now shape.now.region (content_of block))) }
    ensures cause { IfErr result (λ cause. HasCause cause (λ i fault. (i ≡ index)
        × (raw_of_body method shape.now.channels.now shape.now.region (data_of body) ≡ Err fault)) ⊥) }
{
    match unpack_block(alloc, method, shape, body, room) {
        Ok(block) => Ok(block),
        Err(Refusal::Fault(fault)) => Err(ReadCause::Chunk { index, fault }),
        Err(Refusal::NoMemory) => Err(ReadCause::NoMemory),
    }
}

/// Why a chunk could not be read that could not be fetched.
fn cause_of(index: u32, refusal: Refusal<FetchFault>) -> ReadCause
    ensures { HasCause result (λ i fault. (i ≡ index) × (refusal ≡ refused.Fault (fetch.Chunk fault)))
        (refusal ≡ refused.Fault fetch.Read) }
{
    match refusal {
        Refusal::Fault(FetchFault::Read) => ReadCause::Read,
        Refusal::Fault(FetchFault::Chunk(fault)) => ReadCause::Chunk { index, fault },
        Refusal::NoMemory => ReadCause::NoMemory,
    }
}

/// The raw content of a chunk, in the memory of `room` where it can use that.
pub(crate) fn read_block<W: World, S: Source>(
    alloc: Global,
    stream: &mut Stream<W, S>,
    part: u32,
    index: u32,
    room: Vec<u8>,
) -> Result<Block, ReadCause>
    requires part { part < length stream.old.head.parts }
    requires index { index < chunk_count_of (header_at stream.old.head.parts part) }
    ensures content { IsTrue S.means.tells → IfOk result (λ block. raw_of (file_of S.means stream.old) part index ≡ Ok (content_of block)) }
    ensures data { IsTrue S.means.tells → OnOk result (HasData (file_of S.means stream.old) part index) }
    ensures form { IfOk result (λ block. is_deep_content (content_of block) ≡ is_deep (header_at stream.old.head.parts part).kind) }
    ensures fits { IfOk result (λ block. IsTrue (fits (header_at stream.old.head.parts part).channels
        (region_of (header_at stream.old.head.parts part) index) (content_of block))) }
    ensures same { IsSameStream S.means stream.old stream.new }
    ensures later { S.means.faults stream.old.source ≤ S.means.faults stream.new.source }
    ensures cause { IfErr result (λ cause. HasCause cause (λ i fault. (i ≡ index) × (IsTrue S.means.tells
        → raw_of (file_of S.means stream.old) part index ≡ Err fault))
        (Rose (S.means.faults stream.old.source) (S.means.faults stream.new.source))) }
{
    let method = stream.header(part).method();
    match stream.fetch(alloc, part, index) {
        Ok(body) => {
            let shape = stream.shape(part, index);
            unpacked(alloc, method, &shape, index, body, room)
        }
        Err(refusal) => Err(cause_of(index, refusal)),
    }
}

/// The raw bytes of a chunk of a part that is not deep, in the memory of `room` where they can use that.
pub(crate) fn read_bytes<W: World, S: Source>(
    alloc: Global,
    stream: &mut Stream<W, S>,
    part: u32,
    index: u32,
    room: Vec<u8>,
) -> Result<Vec<u8>, ReadCause>
    requires part { part < length stream.old.head.parts }
    requires index { index < chunk_count_of (header_at stream.old.head.parts part) }
    requires flat { is_deep (header_at stream.old.head.parts part).kind ≡ false }
    ensures bytes { IsTrue S.means.tells → IfOk result (λ raw. raw_of (file_of S.means stream.old) part index ≡ Ok (flat_content raw.items)) }
    ensures data { IsTrue S.means.tells → OnOk result (HasData (file_of S.means stream.old) part index) }
    ensures size { IfOk result (λ raw. length raw.items ≡ raw_size_of (header_at stream.old.head.parts part).channels
        (region_of (header_at stream.old.head.parts part) index)) }
    ensures same { IsSameStream S.means stream.old stream.new }
    ensures later { S.means.faults stream.old.source ≤ S.means.faults stream.new.source }
    ensures cause { IfErr result (λ cause. HasCause cause (λ i fault. (i ≡ index) × (IsTrue S.means.tells
        → raw_of (file_of S.means stream.old) part index ≡ Err fault))
        (Rose (S.means.faults stream.old.source) (S.means.faults stream.new.source))) }
{
    match read_block(alloc, stream, part, index, room)? {
        Block::Flat(raw) => Ok(raw),
        Block::Deep(_) => unreachable!(),
    }
}
