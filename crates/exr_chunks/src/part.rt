//! What is kept of each part of a file.

ghost use Rattle.std.specs.Prelude.{◌≡◌, ◌≤◌, ◌+◌, ◌^◌, IfOk};
ghost use Rattle.exr_base.specs.Shape.{IsSide, IsSampled};
ghost use Rattle.exr_chunks.specs.Heads.{chunk_width, chunk_height, chunk_count_of, IsPicture};
ghost use Rattle.exr_chunks.specs.Part.{without_attributes, header_of, IsPart};
ghost use Rattle.exr_chunks.specs.Sizes.{IsMeasured};

use crate::raw::RawSizes;
use crate::sides::{height, width};
use exr_base::{Box2i, Channel, Method, NoMemory, copy_channels, pieces};
use exr_header::{Header, LineOrder, PartKind, Tiles};
use std::alloc::Global;

/// What the header of a part says of where its chunks lie, and the numbers that follow from it.
#[derive(Drop, Debug)]
pub(crate) struct Part {
    pub kind: PartKind,
    pub channels: Vec<Channel>,
    pub method: Method,
    pub window: Box2i,
    pub order: LineOrder,
    pub tiles: Option<Tiles>,
    /// The columns and the lines of a chunk that is not cut.
    pub columns: u32,
    pub rows: u32,
    pub sizes: RawSizes,
    /// Number of chunks in a row, number of such rows, and number of chunks.
    pub across: u32,
    pub down: u32,
    pub count: u32,
    /// Number of chunks of the parts before it.
    pub first: u32,
}

/// The columns of a chunk that is not cut.
fn columns(header: &Header) -> u32
    requires { IsPicture header.now }
    ensures exact { result ≡ chunk_width header.now }
    ensures some { 1 ≤ result }
    ensures small { result ≤ 2 ^ 30 }
{
    match header.tiles() {
        Some(tiles) => tiles.xsize,
        None => width(header.window()),
    }
}

/// The lines of a chunk that is not cut.
fn rows(header: &Header) -> u32
    requires { IsPicture header.now }
    ensures exact { result ≡ chunk_height header.now }
    ensures some { 1 ≤ result }
    ensures small { result ≤ 2 ^ 30 }
{
    match header.tiles() {
        Some(tiles) => tiles.ysize,
        None => header.method().lines(),
    }
}

impl Part {
    /// The part of a header, after parts that have `first` chunks.
    pub fn new(alloc: Global, header: &Header, first: u32) -> Result<Part, NoMemory>
        requires picture { IsPicture header.now }
        requires measured { IsMeasured header.now }
        requires few { first + chunk_count_of header.now ≤ 2 ^ 20 }
        ensures part { IfOk result IsPart }
        ensures header { IfOk result (λ part. header_of part ≡ without_attributes header.now) }
        ensures first { IfOk result (λ part. part.first ≡ first) }
    {
        let window = header.window();
        let columns = columns(header);
        let rows = rows(header);
        let across = pieces(columns, width(window));
        let down = pieces(rows, height(window));
        let count = across * down;
        Ok(Part {
            kind: header.kind(),
            channels: copy_channels(alloc, header.channels())?,
            method: header.method(),
            window,
            order: header.order(),
            tiles: header.tiles(),
            columns,
            rows,
            sizes: RawSizes::new(alloc, header, rows, count)?,
            across,
            down,
            count,
            first,
        })
    }
}
