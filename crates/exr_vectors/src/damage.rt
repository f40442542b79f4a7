//! Chunks with damaged data: each answer is raw content or the fault of the method, whatever was changed; of deep chunks the
//! fault of deep data.

ghost use Rattle.std.specs.Prelude.{◌≡◌};
ghost use Rattle.exr_base.specs.Shape.{IsShape};
ghost use Rattle.exr_block.specs.Body.{data_of, is_deep_data};

use crate::picture::stop_of;
use exr_base::{Method, NoMemory, Refusal, Shape};
use exr_block::{Body, ChunkFault, DeepPacked, raw_bytes, sizes_fit, unpack_block};
use exr_outside::{Files, Source, World};
use exr_stream::{OpenStop, Stream};
use exr_tools::Stop;
use std::alloc::Global;

/// The most raw bytes of a chunk that is damaged, those of its table where it is deep.
const MOST: u64 = 1 << 13;

/// The most raw bytes of a chunk whose bytes are changed in every way, if its method is not PIZ. In other chunks single
/// bits are changed, so that it takes seconds.
const MOST_CHANGED: u64 = 1 << 12;

/// What of a chunk is damaged, with the rest of it.
#[derive(Clone, Copy)]
enum Piece<'a> {
    Flat,
    Table { samples: &'a [u8], unpacked: u64 },
    Samples { table: &'a [u8], unpacked: u64 },
}

/// How many chunks of a picture were damaged, how often the data of one was cut off or changed, and how often the answer was
/// none that may come.
#[derive(Clone, Copy, Drop)]
pub struct Tally {
    pub chunks: u64,
    pub cut: u64,
    pub changed: u64,
    pub other: u64,
}

/// Damages each chunk of the first part of a picture, unless it is flat and without compression.
pub fn damaged<W: World, F: Files<W>>(
    alloc: Global,
    files: &mut F,
    picture: &str,
) -> Result<Tally, Stop> {
    let mut tally = Tally {
        chunks: 0,
        cut: 0,
        changed: 0,
        other: 0,
    };
    for index in 0..u32::MAX {
        match files.open(picture) {
            Ok(source) => {
                let (source, found) = damaged_in::<W, F::In>(alloc, source, index, &mut tally);
                files.back_in(source);
                if !found? {
                    break;
                }
            }
            Err(refusal) => return Err(stop_of(refusal)),
        }
    }
    Ok(tally)
}

/// Damages the chunk of an index of a source's file, and answers whether it is there; and the source.
fn damaged_in<W: World, S: Source>(
    alloc: Global,
    source: S,
    index: u32,
    tally: &mut Tally,
) -> (S, Result<bool, Stop>) {
    match Stream::<W, S>::open(alloc, source) {
        Ok(mut stream) => {
            let found = damaged_chunk(alloc, &mut stream, index, tally);
            (stream.into_source(), found)
        }
        Err(OpenStop { source, cause: _ }) => (source, Err(Stop::Read)),
    }
}

/// Damages the chunk of an index, and answers whether it is there.
fn damaged_chunk<W: World, S: Source>(
    alloc: Global,
    stream: &mut Stream<W, S>,
    index: u32,
    tally: &mut Tally,
) -> Result<bool, Stop> {
    if stream.head().parts().is_empty() || index >= stream.chunk_count(0) {
        return Ok(false);
    }
    let Ok(body) = stream.fetch(alloc, 0, index) else {
        return Err(Stop::Read);
    };
    let method = stream.header(0).method();
    let shape = stream.shape(0, index);
    if raw_bytes(&shape, is_deep(&body)) <= MOST {
        unpack_damaged(alloc, method, &shape, &body, tally)?;
    }
    Ok(true)
}

/// Damages the data of a chunk; of a deep one the table, and then the samples.
fn unpack_damaged(
    alloc: Global,
    method: Method,
    shape: &Shape<'_>,
    body: &Body,
    tally: &mut Tally,
) -> Result<(), Stop>
    requires { IsShape shape.now.channels.now shape.now.region }
{
    match body {
        Body::Flat(data) => {
            if method != Method::No {
                tally.chunks = tally.chunks.wrapping_add(1);
                unpack_piece(alloc, method, shape, Piece::Flat, data, tally)?;
            }
        }
        Body::Deep(packed) => {
            tally.chunks = tally.chunks.wrapping_add(1);
            let unpacked = packed.unpacked;
            let of_table = Piece::Table {
                samples: &packed.samples,
                unpacked,
            };
            unpack_piece(alloc, method, shape, of_table, &packed.table, tally)?;
            let of_samples = Piece::Samples {
                table: &packed.table,
                unpacked,
            };
            unpack_piece(alloc, method, shape, of_samples, &packed.samples, tally)?;
        }
    }
    Ok(())
}

/// Unpacks each beginning of a piece, unless its size is fixed, and the piece with one byte changed in every way, or with
/// one bit changed.
fn unpack_piece(
    alloc: Global,
    method: Method,
    shape: &Shape<'_>,
    piece: Piece<'_>,
    packed: &[u8],
    tally: &mut Tally,
) -> Result<(), Stop>
    requires { IsShape shape.now.channels.now shape.now.region }
{
    let bits_alone = method == Method::Piz || shape.raw_size() > MOST_CHANGED;
    for place in 0..packed.len() {
        if method != Method::No {
            let beginning = Vec::from_slice(alloc, &packed[..place])?;
            tally.cut = tally.cut.wrapping_add(1);
            unpack(
                alloc,
                method,
                shape,
                body_of(alloc, piece, beginning)?,
                &mut tally.other,
            )?;
        }
        for bits in 1..=255u8 {
            if bits_alone && bits.count_ones() != 1 {
                continue;
            }
            let mut changed = Vec::from_slice(alloc, packed)?;
            if let Some(byte) = changed.get_mut(place) {
                *byte ^= bits;
            }
            tally.changed = tally.changed.wrapping_add(1);
            unpack(
                alloc,
                method,
                shape,
                body_of(alloc, piece, changed)?,
                &mut tally.other,
            )?;
        }
    }
    Ok(())
}

/// The data of a chunk with other bytes in the place of a piece.
fn body_of(alloc: Global, piece: Piece<'_>, bytes: Vec<u8>) -> Result<Body, NoMemory> {
    match piece {
        Piece::Flat => Ok(Body::Flat(bytes)),
        Piece::Table { samples, unpacked } => Ok(Body::Deep(DeepPacked {
            table: bytes,
            samples: Vec::from_slice(alloc, samples)?,
            unpacked,
        })),
        Piece::Samples { table, unpacked } => Ok(Body::Deep(DeepPacked {
            table: Vec::from_slice(alloc, table)?,
            samples: bytes,
            unpacked,
        })),
    }
}

/// Unpacks data, and counts an answer that is neither raw content nor a fault that it may have.
fn unpack(
    alloc: Global,
    method: Method,
    shape: &Shape<'_>,
    body: Body,
    other: &mut u64,
) -> Result<(), Stop>
    requires { IsShape shape.now.channels.now shape.now.region }
{
    let deep = is_deep(&body);
    let mut wanted = false;
    if raw_bytes(shape, deep) <= MOST && sizes_fit(method, shape, &body) {
        wanted = match unpack_block(alloc, method, shape, body, Vec::new(alloc)) {
            Ok(_block) => true,
            Err(Refusal::Fault(fault)) => is_of_data(method, deep, fault),
            Err(Refusal::NoMemory) => return Err(Stop::NoMemory),
        };
    }
    if !wanted {
        *other = other.wrapping_add(1);
    }
    Ok(())
}

/// Whether data is that of a deep chunk.
fn is_deep(body: &Body) -> bool
    ensures { result ≡ is_deep_data (data_of body.now) }
{
    match body {
        Body::Flat(_) => false,
        Body::Deep(_) => true,
    }
}

/// Whether a fault is the one of data under a method, or of deep data.
fn is_of_data(method: Method, deep: bool, fault: ChunkFault) -> bool {
    match fault {
        ChunkFault::Deep(_) => deep,
        ChunkFault::Rle => !deep && method == Method::Rle,
        ChunkFault::Piz(_) => method == Method::Piz,
        ChunkFault::B44(_) => method == Method::B44 || method == Method::B44a,
        _ => false,
    }
}
