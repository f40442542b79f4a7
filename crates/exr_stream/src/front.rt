//! What is read of a file before any chunk: its head and its tables of offsets.

ghost use Rattle.std.specs.Prelude.{◌≡◌, ◌*◌, ◌≤◌, ◌<◌, ◌^◌, ℕ, List, false, IsTrue, IfOk, IfErr, length, take, drop};
ghost use Rattle.exr_outside.specs.Count.{Rose};
ghost use Rattle.exr_outside.specs.Source.{IsSameSource};
ghost use Rattle.exr_chunks.specs.Heads.{Header, is_deep};
ghost use Rattle.exr_block.specs.Sizes.{raw_bytes_of};
ghost use Rattle.exr_header.specs.Head.{head_of};
ghost use Rattle.exr_opening.specs.Opening.{OnlyReads};
ghost use Rattle.exr_base.specs.Shape.{IsRegion, IsShape, raw_size_of};
ghost use Rattle.exr_chunks.specs.Heads.{chunk_count_of};
ghost use Rattle.exr_base.specs.Boxes.{IsInside};
ghost use Rattle.exr_chunks.specs.Region.{header_at, region_of, chunk_bytes_of, place_of};
ghost use Rattle.exr_chunks.specs.Table.{entry_place};
ghost use Rattle.exr_chunks.specs.Fields.{chunk_fields};
ghost use Rattle.exr_stream.specs.Chunk.{entry_in};
ghost use Rattle.exr_stream.specs.Stream.{IsWhyNot, OwesRead, IsFront, IsFrontOf};

use crate::data::{Expected, entry_in};
use exr_base::{Box2i, NoMemory, Refusal, Shape};
use exr_block::ChunkFault;
use exr_chunks::{Geometry, chunk_fields};
use exr_header::FileHead;
use exr_opening::{OpenFault, open_head, read_piece};
use exr_outside::Source;
use std::alloc::Global;

/// What is read of a file before any chunk.
#[derive(Drop, Debug)]
pub(crate) struct Front {
    pub head: FileHead,
    /// How many bytes the head fills.
    pub head_bytes: usize,
    /// How many bytes the file has.
    pub length: u64,
    pub geometry: Geometry,
    /// The tables of offsets of all parts, one behind the other, as far as the file has them.
    pub tables: Vec<u8>,
}

/// The tables of offsets of so many chunks behind a head, as far as a source of some length has them.
fn tables<S: Source>(
    alloc: Global,
    source: &mut S,
    head_bytes: usize,
    file_length: u64,
    chunks: u32,
) -> Result<Vec<u8>, Refusal<OpenFault>>
    requires small { head_bytes ≤ 2 ^ 24 }
    requires few { chunks ≤ 2 ^ 20 }
    ensures bytes { IsTrue S.means.tells → file_length ≡ length (S.means.content source.old)
        → IfOk result (λ v. v.items ≡ take (8 * chunks) (drop head_bytes (S.means.content source.old))) }
    ensures same { IsSameSource S.means source.old source.new }
    ensures later { S.means.faults source.old ≤ S.means.faults source.new }
    ensures read { OnlyReads result (Rose (S.means.faults source.old) (S.means.faults source.new)) }
{
    let left = file_length.saturating_sub(head_bytes as u64);
    let size = left.min(8 * u64::from(chunks)) as usize;
    read_piece(alloc, source, head_bytes as u64, size)
}

impl Front {
    /// The front of a source's content.
    pub fn read<S: Source>(alloc: Global, source: &mut S) -> Result<Front, Refusal<OpenFault>>
        ensures front { IfOk result IsFront }
        ensures content { IsTrue S.means.tells → IfOk result (λ front. IsFrontOf front (S.means.content source.old)) }
        ensures fault { IsTrue S.means.tells → IfErr result (λ e. IsWhyNot e (S.means.content source.old)) }
        ensures same { IsSameSource S.means source.old source.new }
        ensures later { S.means.faults source.old ≤ S.means.faults source.new }
        ensures read { IfErr result (λ e. OwesRead e (Rose (S.means.faults source.old) (S.means.faults source.new))) }
    {
        let opened = open_head(alloc, source)?;
        let geometry = Geometry::new(alloc, &opened.head)?;
        let tables = tables(
            alloc,
            source,
            opened.head_bytes,
            opened.length,
            geometry.total(),
        )?;
        Ok(Front {
            head: opened.head,
            head_bytes: opened.head_bytes,
            length: opened.length,
            geometry,
            tables,
        })
    }

    /// The entry of a chunk.
    pub fn entry(&self, part: u32, index: u32) -> Result<u64, ChunkFault>
        requires front { IsFront self.now }
        requires part { part < length self.now.head.parts }
        requires index { index < chunk_count_of (header_at self.now.head.parts part) }
        ensures { (content : List ℕ) → IsFrontOf self.now content
            → result ≡ entry_in (drop (entry_place self.now.head.parts self.now.head_bytes part index) content) }
    {
        let at = self.geometry.entry_at(0, part, index) as usize;
        let tables = self.tables.as_slice();
        if tables.len() < at {
            return Err(ChunkFault::Outside);
        }
        entry_in(&tables[at..])
    }

    /// How many chunks a part has.
    pub fn chunk_count(&self, part: u32) -> u32
        requires front { IsFront self.now }
        requires part { part < length self.now.head.parts }
        ensures { result ≡ chunk_count_of (header_at self.now.head.parts part) }
    {
        self.geometry.chunk_count(part)
    }

    /// The region of a chunk.
    pub fn region(&self, part: u32, index: u32) -> Box2i
        requires front { IsFront self.now }
        requires part { part < length self.now.head.parts }
        requires index { index < chunk_count_of (header_at self.now.head.parts part) }
        ensures exact { result ≡ region_of (header_at self.now.head.parts part) index }
        ensures region { IsRegion result }
        ensures inside { IsInside (header_at self.now.head.parts part).window result }
    {
        self.geometry.region(part, index)
    }

    /// The channels of a part over the region of a chunk.
    pub fn shape(&self, part: u32, index: u32) -> Shape<'_>
        requires front { IsFront self.now }
        requires part { part < length self.now.head.parts }
        requires index { index < chunk_count_of (header_at self.now.head.parts part) }
        ensures channels { result.channels.now ≡ (header_at self.now.head.parts part).channels }
        ensures region { result.region ≡ region_of (header_at self.now.head.parts part) index }
        ensures shape { IsShape result.channels.now result.region }
        ensures small { is_deep (header_at self.now.head.parts part).kind ≡ false
            → raw_size_of result.channels.now result.region ≤ 2 ^ 26 }
        ensures bytes { raw_bytes_of (is_deep (header_at self.now.head.parts part).kind) result.channels.now result.region ≤ 2 ^ 26 }
    {
        let region = self.region(part, index);
        let header = &self.head.parts()[part as usize];
        Shape {
            channels: header.channels(),
            region,
        }
    }

    /// What is expected of a chunk.
    pub fn expected(&self, alloc: Global, part: u32, index: u32) -> Result<Expected, NoMemory>
        requires front { IsFront self.now }
        requires part { part < length self.now.head.parts }
        requires index { index < chunk_count_of (header_at self.now.head.parts part) }
        ensures fields { IfOk result (λ e. e.fields.items
            ≡ chunk_fields self.now.head.multi part (place_of (header_at self.now.head.parts part) index)) }
        ensures short { IfOk result (λ e. length e.fields.items ≤ 20) }
        ensures deep { IfOk result (λ e. e.deep ≡ is_deep (header_at self.now.head.parts part).kind) }
        ensures method { IfOk result (λ e. e.method ≡ (header_at self.now.head.parts part).method) }
        ensures small { IfOk result (λ e. e.raw ≤ 2 ^ 26) }
        ensures raw { IfOk result (λ e. e.raw ≡ chunk_bytes_of (header_at self.now.head.parts part) index) }
    {
        let place = self.geometry.place(part, index);
        let fields = chunk_fields(alloc, self.head.multi(), part, place)?;
        let header = &self.head.parts()[part as usize];
        Ok(Expected {
            fields,
            deep: header.kind().is_deep(),
            method: header.method(),
            raw: self.geometry.raw_size(part, index),
        })
    }
}
