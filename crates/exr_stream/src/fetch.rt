//! Fetching the data of a chunk from a source.

ghost use Rattle.std.specs.Prelude.{◌≡◌, ◌+◌, ◌≤◌, ◌<◌, ◌^◌, IsTrue, IfOk, OnOk, length, take, drop};
ghost use Rattle.exr_outside.specs.Count.{Rose};
ghost use Rattle.exr_outside.specs.Source.{IsSameSource};
ghost use Rattle.exr_chunks.specs.Heads.{is_deep, chunk_count_of};
ghost use Rattle.exr_chunks.specs.Region.{header_at, region_of};
ghost use Rattle.exr_deep.specs.Body.{body_of as deep_body_of};
ghost use Rattle.exr_block.specs.Body.{data_of, is_deep_data};
ghost use Rattle.exr_block.specs.Sizes.{is_size, sizes_of, are_sizes, has_size, sizes_fit};
ghost use Rattle.exr_stream.specs.Chunk.{data_in, deep_sizes_in, sized_body, deep_in, stored_in, chunk_of};
ghost use Rattle.exr_stream.specs.Stream.{Fetches, OwesFetch, OnlyReads, IsFront, IsFrontOf};

use crate::data::Expected;
use crate::fault::FetchFault;
use crate::front::Front;
use exr_base::{NoMemory, Refusal};
use exr_block::{Body, ChunkFault, DeepPacked, DeepSizes};
use exr_outside::{Source, read_full};
use std::alloc::Global;

/// Makes a buffer have just so many bytes, in the memory that it has where that is enough.
fn size_to(buffer: &mut Vec<u8>, size: usize) -> Result<(), NoMemory>
    ensures { OnOk result (length buffer.new.items ≡ size) }
{
    buffer.resize(size, 0)?;
    Ok(())
}

/// Reads at most `size` bytes of a source from a place on to the front of a buffer of that size, and answers how many there
/// were.
fn fill<S: Source>(
    source: &mut S,
    buffer: &mut Vec<u8>,
    at: u64,
    size: usize,
) -> Result<usize, Refusal<FetchFault>>
    requires { at + size < 2 ^ 64 }
    ensures bytes { IsTrue S.means.tells
        → IfOk result (λ count. take count buffer.new.items ≡ take size (drop at (S.means.content source.old))) }
    ensures bound { IfOk result (λ count. count ≤ length buffer.new.items) }
    ensures few { IfOk result (λ count. count ≤ size) }
    ensures same { IsSameSource S.means source.old source.new }
    ensures later { S.means.faults source.old ≤ S.means.faults source.new }
    ensures read { OnlyReads result (Rose (S.means.faults source.old) (S.means.faults source.new)) }
{
    size_to(buffer, size)?;
    match read_full(source, at, buffer.as_mut_slice()) {
        Ok(count) => Ok(count),
        Err(_) => Err(Refusal::Fault(FetchFault::Read)),
    }
}

/// The data of the chunk, which is not deep, that some bytes begin with, or the first thing that is wrong with it.
fn bytes_in(
    alloc: Global,
    bytes: &[u8],
    expected: &Expected,
) -> Result<Vec<u8>, Refusal<FetchFault>>
    requires { length expected.now.fields.items ≤ 20 }
    ensures chunk { Fetches (λ found. found.items) result
        (data_in expected.now.fields.items expected.now.method expected.now.raw bytes.now) }
    ensures size { IfOk result (λ found. IsTrue (is_size expected.now.method expected.now.raw (length found.items))) }
    ensures unread { OwesFetch result ⊥ }
{
    match expected.data_in(bytes) {
        Ok(found) => Ok(Vec::from_slice(alloc, found)?),
        Err(fault) => Err(Refusal::Fault(FetchFault::Chunk(fault))),
    }
}

/// The sizes of the data of the deep chunk that some bytes begin with, or the first thing that is wrong with it.
fn sizes_in(bytes: &[u8], expected: &Expected) -> Result<DeepSizes, Refusal<FetchFault>>
    requires { length expected.now.fields.items ≤ 20 }
    ensures chunk { Fetches (λ sizes. sizes) result
        (deep_sizes_in expected.now.fields.items expected.now.method expected.now.raw bytes.now) }
    ensures fits { IfOk result (λ sizes. IsTrue (are_sizes expected.now.method expected.now.raw sizes)) }
    ensures there { IfOk result (λ sizes. length expected.now.fields.items + 24 ≤ length bytes.now) }
    ensures unread { OwesFetch result ⊥ }
{
    match expected.deep_sizes_in(bytes) {
        Ok(sizes) => Ok(sizes),
        Err(fault) => Err(Refusal::Fault(FetchFault::Chunk(fault))),
    }
}

/// The table and the samples of these sizes that some bytes begin with, or that they end outside.
fn body_in(alloc: Global, bytes: &[u8], sizes: DeepSizes) -> Result<DeepPacked, Refusal<FetchFault>>
    requires table { sizes.table ≤ 2 ^ 26 }
    requires samples { sizes.samples ≤ 2 ^ 26 }
    ensures chunk { Fetches deep_body_of result (sized_body sizes bytes.now) }
    ensures size { IfOk result (λ packed. sizes_of (deep_body_of packed) ≡ sizes) }
    ensures unread { OwesFetch result ⊥ }
{
    let table = sizes.table as usize;
    let end = table + sizes.samples as usize;
    if bytes.len() < end {
        return Err(Refusal::Fault(FetchFault::Chunk(ChunkFault::Outside)));
    }
    let samples = Vec::from_slice(alloc, &bytes[table..end])?;
    let table = Vec::from_slice(alloc, &bytes[..table])?;
    Ok(DeepPacked {
        table,
        samples,
        unpacked: sizes.unpacked,
    })
}

/// The table and the samples of these sizes at a place of a source of `end` bytes, in one read, if they lie in it.
fn sized_at<S: Source>(
    alloc: Global,
    source: &mut S,
    piece: &mut Vec<u8>,
    at: u64,
    end: u64,
    sizes: DeepSizes,
) -> Result<DeepPacked, Refusal<FetchFault>>
    requires table { sizes.table ≤ 2 ^ 26 }
    requires samples { sizes.samples ≤ 2 ^ 26 }
    requires within { at ≤ end }
    requires content { IsTrue S.means.tells → end ≡ length (S.means.content source.old) }
    ensures chunk { IsTrue S.means.tells
        → Fetches deep_body_of result (sized_body sizes (drop at (S.means.content source.old))) }
    ensures size { IfOk result (λ packed. sizes_of (deep_body_of packed) ≡ sizes) }
    ensures same { IsSameSource S.means source.old source.new }
    ensures later { S.means.faults source.old ≤ S.means.faults source.new }
    ensures read { OwesFetch result (Rose (S.means.faults source.old) (S.means.faults source.new)) }
{
    let size = sizes.table + sizes.samples;
    if end - at < size {
        return Err(Refusal::Fault(FetchFault::Chunk(ChunkFault::Outside)));
    }
    let count = fill(source, piece, at, size as usize)?;
    let bytes = piece.as_slice();
    body_in(alloc, &bytes[..count], sizes)
}

impl Front {
    /// The data of a chunk of the file of a source; a buffer is kept for its room.
    pub fn fetch<S: Source>(
        &self,
        alloc: Global,
        source: &mut S,
        piece: &mut Vec<u8>,
        part: u32,
        index: u32,
    ) -> Result<Body, Refusal<FetchFault>>
        requires front { IsFront self.now }
        requires content { IsTrue S.means.tells → IsFrontOf self.now (S.means.content source.old) }
        requires part { part < length self.now.head.parts }
        requires index { index < chunk_count_of (header_at self.now.head.parts part) }
        ensures chunk { IsTrue S.means.tells → Fetches data_of result (chunk_of
            (record { content = S.means.content source.old; head = self.now.head; head_bytes = self.now.head_bytes }) part index) }
        ensures form { IfOk result (λ body. is_deep_data (data_of body) ≡ is_deep (header_at self.now.head.parts part).kind) }
        ensures fits { IfOk result (λ body. IsTrue (sizes_fit (header_at self.now.head.parts part).method
            (header_at self.now.head.parts part).channels (region_of (header_at self.now.head.parts part) index) (data_of body))) }
        ensures same { IsSameSource S.means source.old source.new }
        ensures later { S.means.faults source.old ≤ S.means.faults source.new }
        ensures read { OwesFetch result (Rose (S.means.faults source.old) (S.means.faults source.new)) }
    {
        match self.entry(part, index) {
            Ok(entry) => {
                let expected = self.expected(alloc, part, index)?;
                self.body_at(alloc, source, piece, entry, &expected)
            }
            Err(fault) => Err(Refusal::Fault(FetchFault::Chunk(fault))),
        }
    }

    /// The data of the chunk at a place of the file.
    fn body_at<S: Source>(
        &self,
        alloc: Global,
        source: &mut S,
        piece: &mut Vec<u8>,
        entry: u64,
        expected: &Expected,
    ) -> Result<Body, Refusal<FetchFault>>
        requires short { length expected.now.fields.items ≤ 20 }
        requires small { expected.now.raw ≤ 2 ^ 26 }
        requires content { IsTrue S.means.tells → self.now.length ≡ length (S.means.content source.old) }
        ensures chunk { IsTrue S.means.tells → Fetches data_of result (stored_in expected.now.deep expected.now.fields.items
            expected.now.method expected.now.raw (drop entry (S.means.content source.old))) }
        ensures form { IfOk result (λ body. is_deep_data (data_of body) ≡ expected.now.deep) }
        ensures size { IfOk result (λ body. IsTrue (has_size expected.now.method expected.now.raw (data_of body))) }
        ensures same { IsSameSource S.means source.old source.new }
        ensures later { S.means.faults source.old ≤ S.means.faults source.new }
        ensures read { OwesFetch result (Rose (S.means.faults source.old) (S.means.faults source.new)) }
    {
        if expected.deep {
            match self.deep_at(alloc, source, piece, entry, expected) {
                Ok(packed) => Ok(Body::Deep(packed)),
                Err(refusal) => Err(refusal),
            }
        } else {
            match self.flat_at(alloc, source, piece, entry, expected) {
                Ok(bytes) => Ok(Body::Flat(bytes)),
                Err(refusal) => Err(refusal),
            }
        }
    }

    /// The data of the chunk, which is not deep, at a place of the file, in one read.
    fn flat_at<S: Source>(
        &self,
        alloc: Global,
        source: &mut S,
        piece: &mut Vec<u8>,
        entry: u64,
        expected: &Expected,
    ) -> Result<Vec<u8>, Refusal<FetchFault>>
        requires short { length expected.now.fields.items ≤ 20 }
        requires content { IsTrue S.means.tells → self.now.length ≡ length (S.means.content source.old) }
        ensures chunk { IsTrue S.means.tells → Fetches (λ found. found.items) result (data_in expected.now.fields.items
            expected.now.method expected.now.raw (drop entry (S.means.content source.old))) }
        ensures size { IfOk result (λ found. IsTrue (is_size expected.now.method expected.now.raw (length found.items))) }
        ensures same { IsSameSource S.means source.old source.new }
        ensures later { S.means.faults source.old ≤ S.means.faults source.new }
        ensures read { OwesFetch result (Rose (S.means.faults source.old) (S.means.faults source.new)) }
    {
        let most = expected.most(self.length.saturating_sub(entry));
        let count = fill(source, piece, entry, most)?;
        let bytes = piece.as_slice();
        bytes_in(alloc, &bytes[..count], expected)
    }

    /// The data of the deep chunk at a place of the file: the fields and the sizes are read first, and then the table and the
    /// samples.
    fn deep_at<S: Source>(
        &self,
        alloc: Global,
        source: &mut S,
        piece: &mut Vec<u8>,
        entry: u64,
        expected: &Expected,
    ) -> Result<DeepPacked, Refusal<FetchFault>>
        requires short { length expected.now.fields.items ≤ 20 }
        requires small { expected.now.raw ≤ 2 ^ 26 }
        requires content { IsTrue S.means.tells → self.now.length ≡ length (S.means.content source.old) }
        ensures chunk { IsTrue S.means.tells → Fetches deep_body_of result (deep_in expected.now.fields.items
            expected.now.method expected.now.raw (drop entry (S.means.content source.old))) }
        ensures size { IfOk result (λ packed. IsTrue (are_sizes expected.now.method expected.now.raw (sizes_of (deep_body_of packed)))) }
        ensures same { IsSameSource S.means source.old source.new }
        ensures later { S.means.faults source.old ≤ S.means.faults source.new }
        ensures read { OwesFetch result (Rose (S.means.faults source.old) (S.means.faults source.new)) }
    {
        let end = self.length;
        match self.sizes_at(source, piece, entry, expected) {
            Ok(sizes) => {
                let at = entry + (expected.fields.len() + 24) as u64;
                sized_at(alloc, source, piece, at, end, sizes)
            }
            Err(refusal) => Err(refusal),
        }
    }

    /// The sizes of the data of the deep chunk at a place of the file.
    fn sizes_at<S: Source>(
        &self,
        source: &mut S,
        piece: &mut Vec<u8>,
        entry: u64,
        expected: &Expected,
    ) -> Result<DeepSizes, Refusal<FetchFault>>
        requires short { length expected.now.fields.items ≤ 20 }
        requires content { IsTrue S.means.tells → self.now.length ≡ length (S.means.content source.old) }
        ensures chunk { IsTrue S.means.tells → Fetches (λ sizes. sizes) result (deep_sizes_in expected.now.fields.items
            expected.now.method expected.now.raw (drop entry (S.means.content source.old))) }
        ensures fits { IfOk result (λ sizes. IsTrue (are_sizes expected.now.method expected.now.raw sizes)) }
        ensures there { IfOk result (λ sizes. entry + (length expected.now.fields.items + 24) ≤ self.now.length) }
        ensures same { IsSameSource S.means source.old source.new }
        ensures later { S.means.faults source.old ≤ S.means.faults source.new }
        ensures read { OwesFetch result (Rose (S.means.faults source.old) (S.means.faults source.new)) }
    {
        let front = expected.deep_front(self.length.saturating_sub(entry));
        let count = fill(source, piece, entry, front)?;
        let bytes = piece.as_slice();
        sizes_in(&bytes[..count], expected)
    }
}
