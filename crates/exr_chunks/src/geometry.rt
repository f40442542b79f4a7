//! The chunks of a file: the region, the raw size, the place and the offset table entry of each.

ghost use Rattle.std.specs.Prelude.{◌≡◌, ◌≢◌, ◌<◌, ◌≤◌, ◌^◌, ℕ, All, IfOk, IfSome, length, map, sum_by};
ghost use Rattle.exr_base.specs.Shape.{IsRegion};
ghost use Rattle.exr_chunks.specs.Heads.{IsPicture, chunk_count_of};
ghost use Rattle.exr_chunks.specs.Part.{without_attributes, header_of, IsPart};
ghost use Rattle.exr_base.specs.Boxes.{IsInside};
ghost use Rattle.exr_chunks.specs.Region.{header_at, region_of, chunk_bytes_of, place_of, IsIndexOf};
ghost use Rattle.exr_chunks.specs.Sizes.{IsMeasured};
ghost use Rattle.exr_chunks.specs.Table.{chunks_before, entry_place};
ghost use Rattle.exr_chunks.specs.Window.{chunks_of_window};

use crate::part::Part;
use crate::place::Place;
use exr_base::{Box2i, NoMemory};
use exr_header::{FileHead, Header};
use std::alloc::Global;
use std::marker::Model;

/// Where the chunks of all parts of a file lie, seen as the headers of its parts without their attributes.
///
/// Parts, indexes and turns count from 0. An index is a chunk's place in its part's offset table, a turn its position in
/// the write order of the whole file. Only `new` and `chunks_of` take memory. Each call takes the same time whatever the
/// head, except `at_turn`, which searches the parts by halves, and `chunks_of`, which goes over its answer.
#[derive(Drop, Debug)]
pub struct Geometry {
    parts: Vec<Part>,
    total: u32,
}

impl Model for Geometry {
    ghost use Rattle.std.specs.Prelude.{List};
    ghost use Rattle.exr_chunks.specs.Heads.{Header};
    ghost use Rattle.exr_chunks.specs.Part.{headers_of, AreParts};

    ghost Value = { List Header };

    ghost view = { λ g. headers_of g.parts.items };

    ghost invariant = { λ g. AreParts g.parts.items g.total };
}

/// The geometry of the parts with these headers.
fn geometry_of(alloc: Global, headers: &[Header]) -> Result<Geometry, NoMemory>
    requires pictures { All IsPicture headers.now }
    requires measured { All IsMeasured headers.now }
    requires few { sum_by chunk_count_of headers.now ≤ 2 ^ 20 }
    requires short { length headers.now ≤ 1024 }
    ensures { IfOk result (λ geometry. geometry ≡ map without_attributes headers.now) }
{
    let mut parts = Vec::with_capacity(alloc, headers.len())?;
    let mut total = 0;
    for header in headers {
        let part = Part::new(alloc, header, total)?;
        total += part.count;
        parts.push(part)?;
    }
    Ok(Geometry { parts, total })
}

impl Geometry {
    /// The geometry of a file with this head.
    pub fn new(alloc: Global, head: &FileHead) -> Result<Geometry, NoMemory>
        ensures exact { IfOk result (λ geometry. geometry ≡ map without_attributes head.now.parts) }
        // What holds of the headers of each head.
        ensures pictures { All IsPicture head.now.parts }
        ensures measured { All IsMeasured head.now.parts }
    {
        geometry_of(alloc, head.parts())
    }

    /// Number of parts.
    pub fn parts(&self) -> u32
        ensures { result ≡ length self.now }
    {
        self.parts.len() as u32
    }

    /// Number of chunks of all parts, at most 2^20.
    pub fn total(&self) -> u32
        ensures exact { result ≡ sum_by chunk_count_of self.now }
        ensures few { result ≤ 2 ^ 20 }
    {
        self.total
    }

    /// What is kept of a part.
    pub(crate) fn part(&self, part: u32) -> &Part
        requires { part < length self.now }
        ensures is_part { IsPart result.now }
        ensures header { header_of result.now ≡ header_at self.now part }
        ensures first { result.now.first ≡ chunks_before self.now part }
        ensures count { result.now.count ≡ chunk_count_of (header_at self.now part) }
    {
        &self.parts[part as usize]
    }

    /// Number of chunks of a part.
    pub fn chunk_count(&self, part: u32) -> u32
        requires { part < length self.now }
        ensures { result ≡ chunk_count_of (header_at self.now part) }
    {
        self.part(part).count
    }

    /// File offset of a chunk's offset table entry, which has eight bytes, in a file whose headers end at `head_bytes`.
    ///
    /// File Layout, "Component Four: Offset Tables".
    pub fn entry_at(&self, head_bytes: u64, part: u32, index: u32) -> u64
        requires head { head_bytes ≤ 2 ^ 24 }
        requires part { part < length self.now }
        requires index { index < chunk_count_of (header_at self.now part) }
        ensures { result ≡ entry_place self.now head_bytes part index }
    {
        head_bytes + 8 * u64::from(self.part(part).first + index)
    }

    /// The region of a chunk, cut at the data window.
    ///
    /// File Layout, "Chunk Layout"; Technical Introduction, "Tiles".
    pub fn region(&self, part: u32, index: u32) -> Box2i
        requires part { part < length self.now }
        requires index { index < chunk_count_of (header_at self.now part) }
        ensures exact { result ≡ region_of (header_at self.now part) index }
        ensures region { IsRegion result }
        ensures inside { IsInside (header_at self.now part).window result }
    {
        self.part(part).region(index)
    }

    /// Number of raw bytes of a chunk, at most 2^26; of a deep chunk the size of its sample count table, four bytes a
    /// pixel.
    pub fn raw_size(&self, part: u32, index: u32) -> u64
        requires part { part < length self.now }
        requires index { index < chunk_count_of (header_at self.now part) }
        ensures exact { result ≡ chunk_bytes_of (header_at self.now part) index }
        ensures small { result ≤ 2 ^ 26 }
    {
        self.part(part).raw_size(index)
    }

    /// The place of a chunk, as its own fields name it.
    pub fn place(&self, part: u32, index: u32) -> Place
        requires part { part < length self.now }
        requires index { index < chunk_count_of (header_at self.now part) }
        ensures { result ≡ place_of (header_at self.now part) index }
    {
        self.part(part).place(index)
    }

    /// The index of the chunk at a place; `None` if no chunk of the part has that place.
    pub fn index_of(&self, part: u32, place: Place) -> Option<u32>
        requires { part < length self.now }
        ensures found { IfSome result (λ i. IsIndexOf (header_at self.now part) place i) }
        ensures none { result ≡ None → (i : ℕ) → i < chunk_count_of (header_at self.now part) → place_of (header_at self.now part) i ≢ place }
    {
        self.part(part).index_of(place)
    }

    /// The indexes of the chunks whose regions a window meets, in increasing order; an empty window meets none.
    ///
    /// They are computed from the corners of the window, in one step for each of them and one for each row of chunks; no
    /// other chunk is visited.
    pub fn chunks_of(&self, alloc: Global, part: u32, window: Box2i) -> Result<Vec<u32>, NoMemory>
        requires { part < length self.now }
        ensures exact { IfOk result (λ chunks. chunks.items ≡ chunks_of_window (header_at self.now part) window) }
        ensures few { IfOk result (λ chunks. length chunks.items ≤ 2 ^ 20) }
    {
        self.part(part).chunks_of(alloc, window)
    }
}
