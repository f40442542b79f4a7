//! A file that is read chunk by chunk.

ghost use Rattle.std.specs.Prelude.{◌≡◌, ◌≤◌, ◌<◌, ◌^◌, false, IsTrue, IfOk, IfErr, All, length, map};
ghost use Rattle.exr_outside.specs.Count.{Rose};
ghost use Rattle.exr_outside.specs.Source.{IsSameSource};
ghost use Rattle.exr_chunks.specs.Heads.{is_deep};
ghost use Rattle.exr_base.specs.Shape.{IsRegion, IsShape, raw_size_of};
ghost use Rattle.exr_chunks.specs.Heads.{IsPicture, chunk_count_of};
ghost use Rattle.exr_base.specs.Boxes.{IsInside};
ghost use Rattle.exr_chunks.specs.Part.{without_attributes};
ghost use Rattle.exr_chunks.specs.Region.{header_at, region_of};
ghost use Rattle.exr_block.specs.Body.{data_of, is_deep_data};
ghost use Rattle.exr_block.specs.Sizes.{raw_bytes_of, sizes_fit};
ghost use Rattle.exr_stream.specs.Chunk.{chunk_of};
ghost use Rattle.exr_stream.specs.Stream.{file_of, HasHead, IsSameStream, IsWhyNot, OwesRead, Fetches, OwesFetch};

use crate::fault::FetchFault;
use crate::front::Front;
use exr_base::{Box2i, Refusal, Shape};
use exr_block::Body;
use exr_chunks::Geometry;
use exr_header::{FileHead, Header};
use exr_opening::OpenFault;
use exr_outside::{Source, World};
use std::alloc::Global;
use std::marker::{Model, PhantomData};

/// A file of a world that is read chunk by chunk. The head and the tables of offsets were read when it was opened.
#[derive(Debug)]
pub struct Stream<W: World, S: Source> {
    source: S,
    front: Front,
    /// The chunk that was read last; kept for its room.
    piece: Vec<u8>,
    world: PhantomData<W>,
}

impl<W: World, S: Source> Model for Stream<W, S> {
    ghost use Rattle.std.specs.Prelude.{IsTrue};
    ghost use Rattle.exr_stream.specs.Stream.{StreamView, IsFront, IsFrontOf};

    ghost Value = { StreamView S };

    ghost view = { λ s. record { source = s.source; head = s.front.head; head_bytes = s.front.head_bytes } };

    ghost invariant = { λ s. IsFront s.front × (IsTrue S.means.tells → IsFrontOf s.front (S.means.content s.source)) };
}

/// A source that could not be opened, and why.
#[derive(Debug)]
pub struct OpenStop<S> {
    pub source: S,
    pub cause: Refusal<OpenFault>,
}

impl<W: World, S: Source> Stream<W, S> {
    /// Opens a source: its head and its tables of offsets are read. A source that could not be opened is given back.
    ///
    /// At most twice the bytes of the head and 64 KiB are read, and the tables as far as they are there.
    pub fn open(alloc: Global, mut source: S) -> Result<Stream<W, S>, OpenStop<S>>
        ensures head { IfOk result (λ stream. HasHead S.means stream) }
        ensures small { IfOk result (λ stream. stream.head_bytes ≤ 2 ^ 24) }
        ensures fault { IsTrue S.means.tells → IfErr result (λ stop. IsWhyNot stop.cause (S.means.content source)) }
        ensures same { IfOk result (λ stream. IsSameSource S.means source stream.source) }
        ensures given_back { IfErr result (λ stop. IsSameSource S.means source stop.source) }
        ensures later { IfOk result (λ stream. S.means.faults source ≤ S.means.faults stream.source) }
        ensures given_back_later { IfErr result (λ stop. S.means.faults source ≤ S.means.faults stop.source) }
        ensures read { IfErr result (λ stop. OwesRead stop.cause (Rose (S.means.faults source) (S.means.faults stop.source))) }
    {
        match Front::read(alloc, &mut source) {
            Ok(front) => Ok(Stream {
                source,
                front,
                piece: Vec::new(alloc),
                world: PhantomData,
            }),
            Err(cause) => Err(OpenStop { source, cause }),
        }
    }

    /// The head of the file.
    pub fn head(&self) -> &FileHead
        ensures head { result.now ≡ self.now.head }
        ensures small { self.now.head_bytes ≤ 2 ^ 24 }
    {
        &self.front.head
    }

    /// Where the chunks of the file lie.
    pub fn geometry(&self) -> &Geometry
        ensures exact { result.now ≡ map without_attributes self.now.head.parts }
        // What holds of the headers of each head.
        ensures pictures { All IsPicture self.now.head.parts }
    {
        &self.front.geometry
    }

    /// The header of a part.
    pub fn header(&self, part: u32) -> &Header
        requires { part < length self.now.head.parts }
        ensures exact { result.now ≡ header_at self.now.head.parts part }
        ensures picture { IsPicture result.now }
    {
        &self.front.head.parts()[part as usize]
    }

    /// How many chunks a part has.
    pub fn chunk_count(&self, part: u32) -> u32
        requires { part < length self.now.head.parts }
        ensures { result ≡ chunk_count_of (header_at self.now.head.parts part) }
    {
        self.front.chunk_count(part)
    }

    /// The region of a chunk, cut at the data window.
    pub fn region(&self, part: u32, index: u32) -> Box2i
        requires part { part < length self.now.head.parts }
        requires index { index < chunk_count_of (header_at self.now.head.parts part) }
        ensures exact { result ≡ region_of (header_at self.now.head.parts part) index }
        ensures region { IsRegion result }
        ensures inside { IsInside (header_at self.now.head.parts part).window result }
    {
        self.front.region(part, index)
    }

    /// The channels of a part over the region of one of its chunks.
    pub fn shape(&self, part: u32, index: u32) -> Shape<'_>
        requires part { part < length self.now.head.parts }
        requires index { index < chunk_count_of (header_at self.now.head.parts part) }
        ensures channels { result.channels.now ≡ (header_at self.now.head.parts part).channels }
        ensures region { result.region ≡ region_of (header_at self.now.head.parts part) index }
        ensures shape { IsShape result.channels.now result.region }
        ensures small { is_deep (header_at self.now.head.parts part).kind ≡ false
            → raw_size_of result.channels.now result.region ≤ 2 ^ 26 }
        ensures bytes { raw_bytes_of (is_deep (header_at self.now.head.parts part).kind) result.channels.now result.region ≤ 2 ^ 26 }
    {
        self.front.shape(part, index)
    }

    /// How many bytes the head fills, at most 2^24.
    pub fn head_bytes(&self) -> u64
        ensures { result ≡ self.now.head_bytes }
    {
        self.front.head_bytes as u64
    }

    /// The name of the source.
    pub fn name(&self) -> &str
        ensures { result.now ≡ S.means.name self.now.source }
    {
        self.source.name()
    }

    /// The source, given back.
    pub fn into_source(self) -> S
        ensures { result ≡ self.source }
    {
        let Stream {
            source,
            front: _front,
            piece: _piece,
            world: _world,
        } = self;
        source
    }

    /// The data of a chunk, as it is stored in the file, or the first thing that is wrong with the chunk.
    ///
    /// The fields and the data of a chunk of a part that is not deep are read in one piece, of at most as many bytes as there
    /// are. The data of a deep chunk is read after its fields, which say its sizes; these are validated first.
    pub fn fetch(
        &mut self,
        alloc: Global,
        part: u32,
        index: u32,
    ) -> Result<Body, Refusal<FetchFault>>
        requires part { part < length self.now.head.parts }
        requires index { index < chunk_count_of (header_at self.now.head.parts part) }
        ensures chunk { IsTrue S.means.tells → Fetches data_of result (chunk_of (file_of S.means self.old) part index) }
        ensures form { IfOk result (λ body. is_deep_data (data_of body) ≡ is_deep (header_at self.old.head.parts part).kind) }
        ensures fits { IfOk result (λ body. IsTrue (sizes_fit (header_at self.old.head.parts part).method
            (header_at self.old.head.parts part).channels (region_of (header_at self.old.head.parts part) index) (data_of body))) }
        ensures same { IsSameStream S.means self.old self.new }
        ensures later { S.means.faults self.old.source ≤ S.means.faults self.new.source }
        ensures read { OwesFetch result (Rose (S.means.faults self.old.source) (S.means.faults self.new.source)) }
    {
        self.front
            .fetch(alloc, &mut self.source, &mut self.piece, part, index)
    }
}
