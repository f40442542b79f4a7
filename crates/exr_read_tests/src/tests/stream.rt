//! Chunks of three small files, each with one edit: the data, or what is wrong with the chunk; and reads that fail.

use super::expect;
use exr_base::{NoMemory, Refusal};
use exr_block::{Body, ChunkFault};
use exr_fixtures::{
    ONE_PIXEL, PartSpec, Picture, file_of, line_chunk, part_head, single_head, tile_chunk,
};
use exr_outside::{MemSource, Source, read_full};
use exr_stream::{FetchFault, OpenFault, OpenStop, Stream};
use std::alloc::Global;
use std::marker::Brand;
use std::test::Fail;

/// The files that are edited.
#[derive(Clone, Copy)]
enum File {
    /// Two lines of one pixel: the head has 277 bytes, the entries stand at 277 and 285, the chunks at 293 and 303.
    Lines,
    /// One tile of two by two pixels: the head has 305 bytes, the chunk stands at 313, its data at 333.
    Tile,
    /// Two parts of one pixel: the heads have 685 bytes, the chunks stand at 701 and 715.
    Parts,
}

const PARTS: [PartSpec<'static>; 2] = [
    PartSpec {
        picture: ONE_PIXEL,
        name: b"a",
        chunks: 1,
    },
    PartSpec {
        picture: ONE_PIXEL,
        name: b"b",
        chunks: 1,
    },
];

const TWO_LINES: Picture<'static> = Picture {
    window: [0, 0, 0, 1],
    ..ONE_PIXEL
};

const ONE_TILE: Picture<'static> = Picture {
    window: [0, 0, 1, 1],
    tiles: Some((2, 2)),
    ..ONE_PIXEL
};

fn lines(alloc: Global) -> Result<Vec<u8>, NoMemory> {
    let head = single_head(alloc, &TWO_LINES, b"")?;
    let mut chunks = Vec::new(alloc);
    chunks.push(line_chunk(alloc, None, 0, b"\x11\x3c")?)?;
    chunks.push(line_chunk(alloc, None, 1, b"\x22\x3c")?)?;
    file_of(alloc, &head, &chunks)
}

fn tile(alloc: Global) -> Result<Vec<u8>, NoMemory> {
    let head = single_head(alloc, &ONE_TILE, b"")?;
    let packed = b"\0\x30\x01\x30\x02\x30\x03\x30";
    let mut chunks = Vec::new(alloc);
    chunks.push(tile_chunk(alloc, None, (0, 0), packed)?)?;
    file_of(alloc, &head, &chunks)
}

fn parts(alloc: Global) -> Result<Vec<u8>, NoMemory> {
    let head = part_head(alloc, &PARTS)?;
    let mut chunks = Vec::new(alloc);
    chunks.push(line_chunk(alloc, Some(0), 0, b"\x11\x3c")?)?;
    chunks.push(line_chunk(alloc, Some(1), 0, b"\x22\x3c")?)?;
    file_of(alloc, &head, &chunks)
}

/// The bytes of a file.
fn bytes_of(alloc: Global, file: File) -> Result<Vec<u8>, NoMemory> {
    match file {
        File::Lines => lines(alloc),
        File::Tile => tile(alloc),
        File::Parts => parts(alloc),
    }
}

/// The part and the index of the last chunk of a file.
fn last_of(file: File) -> (u32, u32) {
    match file {
        File::Lines => (0, 1),
        File::Tile => (0, 0),
        File::Parts => (1, 0),
    }
}

/// A file with other bytes at a place, cut at a length.
fn changed(
    alloc: Global,
    file: File,
    at: usize,
    new: &[u8],
    length: usize,
) -> Result<Vec<u8>, NoMemory> {
    let mut bytes = bytes_of(alloc, file)?;
    for (place, byte) in bytes.iter_mut().skip(at).zip(new) {
        *place = *byte;
    }
    bytes.truncate(length);
    Ok(bytes)
}

/// A source of a file some of whose reads fail.
pub fn source_of(alloc: Global, bytes: Vec<u8>, fails: &[u64]) -> Result<MemSource, NoMemory> {
    let fails = fails.to_vec(alloc)?;
    MemSource::new(alloc, "a", bytes, Vec::new(alloc), fails)
}

/// What fetching a chunk answers; without memory too where there is no such chunk.
pub type Fetched = Result<Body, Refusal<FetchFault>>;

fn fetched(alloc: Global, stream: &mut Stream<Brand, MemSource>, part: u32, index: u32) -> Fetched {
    if part as usize >= stream.head().parts().len() || index >= stream.chunk_count(part) {
        return Err(Refusal::NoMemory);
    }
    stream.fetch(alloc, part, index)
}

/// What two fetches of a chunk answer, one after the other, and the source; none where it is not opened.
pub type Twice = (Fetched, Fetched, MemSource);

pub fn twice(alloc: Global, source: MemSource, (part, index): (u32, u32)) -> Option<Twice> {
    match Stream::<Brand, MemSource>::open(alloc, source) {
        Ok(mut stream) => {
            let first = fetched(alloc, &mut stream, part, index);
            let second = fetched(alloc, &mut stream, part, index);
            Some((first, second, stream.into_source()))
        }
        Err(
            OpenStop {
                source: _source,
                cause: _cause,
            },
        ) => None,
    }
}

/// The data of a chunk, or its fault.
type Answer = Result<&'static [u8], ChunkFault>;

/// Whether a fetch answers this.
fn is_answer(got: &Fetched, wanted: Answer) -> bool {
    match got {
        Ok(Body::Flat(bytes)) => wanted == Ok(bytes.as_slice()),
        Err(Refusal::Fault(FetchFault::Chunk(fault))) => wanted == Err(*fault),
        _ => false,
    }
}

/// Whether a chunk of a file answers this, and again where it is fetched again.
fn answers(
    alloc: Global,
    bytes: &[u8],
    chunk: (u32, u32),
    wanted: Answer,
) -> Result<bool, NoMemory> {
    let source = source_of(alloc, bytes.to_vec(alloc)?, &[])?;
    match twice(alloc, source, chunk) {
        Some((first, second, _source)) => {
            Ok(is_answer(&first, wanted) && is_answer(&second, wanted))
        }
        None => Ok(false),
    }
}

/// A file, bytes that are put into it and at which place, where it is cut, and what its first chunk and its last one
/// answer then.
type Case = (File, usize, &'static [u8], usize, Answer, Answer);

const FIRST: Answer = Ok(b"\x11\x3c");

const SECOND: Answer = Ok(b"\x22\x3c");

const OUTSIDE: Answer = Err(ChunkFault::Outside);

const PLACE: Answer = Err(ChunkFault::WrongPlace);

const SIZE: Answer = Err(ChunkFault::WrongSize);

const UNWRITTEN: Answer = Err(ChunkFault::Unwritten);

/// Of the one tile.
const TILE: Answer = Ok(b"\0\x30\x01\x30\x02\x30\x03\x30");

const CASES: &[Case] = &[
    (File::Lines, 0, b"", 313, FIRST, SECOND),
    // entries
    (File::Lines, 277, b"\0\0", 313, UNWRITTEN, SECOND),
    (File::Lines, 277, b"\x39\x01", 313, OUTSIDE, SECOND),
    (File::Lines, 277, b"\x32\x01", 313, OUTSIDE, SECOND),
    (
        File::Lines,
        277,
        b"\xff\xff\xff\xff\xff\xff\xff\xff",
        313,
        OUTSIDE,
        SECOND,
    ),
    (File::Lines, 277, b"\x08\0", 313, PLACE, SECOND),
    (File::Lines, 277, b"\x26", 313, PLACE, SECOND),
    (
        File::Lines,
        277,
        b"\x2f\x01\0\0\0\0\0\0\x25",
        313,
        PLACE,
        PLACE,
    ),
    (File::Lines, 0, b"", 277, OUTSIDE, OUTSIDE),
    (File::Lines, 0, b"", 284, OUTSIDE, OUTSIDE),
    (File::Lines, 277, b"\0\0", 285, UNWRITTEN, OUTSIDE),
    // fields
    (File::Lines, 293, b"\x01", 313, PLACE, SECOND),
    (File::Lines, 306, b"\x80", 313, FIRST, PLACE),
    (File::Lines, 306, b"\x80", 312, FIRST, PLACE),
    (File::Lines, 0, b"", 310, FIRST, OUTSIDE),
    // data
    (File::Lines, 297, b"\x03", 313, SIZE, SECOND),
    (File::Lines, 307, b"\x01", 313, FIRST, SIZE),
    (File::Lines, 307, b"\xff\xff\xff\xff", 313, FIRST, SIZE),
    (File::Lines, 0, b"", 312, FIRST, OUTSIDE),
    // each field of a tile, and the number of a part, names the chunk
    (File::Tile, 0, b"", 341, TILE, TILE),
    (File::Tile, 313, b"\x01", 341, PLACE, PLACE),
    (File::Tile, 317, b"\x01", 341, PLACE, PLACE),
    (File::Tile, 321, b"\x01", 341, PLACE, PLACE),
    (File::Tile, 325, b"\x01", 341, PLACE, PLACE),
    (File::Parts, 0, b"", 729, FIRST, SECOND),
    (File::Parts, 701, b"\x07", 729, PLACE, SECOND),
    (File::Parts, 715, b"\x07", 729, FIRST, PLACE),
];

#[test]
fn chunks_of_edited_files(rt: HostRuntime) -> Result<(), Fail> {
    let alloc = rt.alloc();
    for (case, (file, at, new, length, first, last)) in CASES.iter().enumerate() {
        let bytes = changed(alloc, *file, *at, new, *length)?;
        expect(&rt, case, answers(alloc, &bytes, (0, 0), *first)?);
        expect(&rt, case, answers(alloc, &bytes, last_of(*file), *last)?);
    }
    Ok(())
}

/// Whether a source of 313 bytes gives these, and has its name.
fn is_whole(alloc: Global, source: &mut MemSource, bytes: &[u8]) -> Result<bool, NoMemory> {
    let mut back = vec![in alloc; 0u8; 313]?;
    let read = read_full(source, 0, back.as_mut_slice());
    Ok(read == Ok(313) && back.as_slice() == bytes && source.name() == "a")
}

// The third call of `read_at`, the first after the head and the tables, fails; the next one reads the chunk. The source is
// given back as it was.
#[test]
fn a_failed_read_is_told_once(rt: HostRuntime) -> Result<(), Fail> {
    let alloc = rt.alloc();
    let bytes = lines(alloc)?;
    let source = source_of(alloc, bytes.to_vec(alloc)?, &[2])?;
    let Some((first, second, mut source)) = twice(alloc, source, (0, 1)) else {
        return Err("not opened".into());
    };
    expect(
        &rt,
        0,
        matches!(first, Err(Refusal::Fault(FetchFault::Read))),
    );
    expect(&rt, 1, is_answer(&second, SECOND));
    expect(&rt, 2, is_whole(alloc, &mut source, &bytes)?);
    Ok(())
}

/// Reads that fail, how many bytes of the file of two lines there are, and whether it is not opened for a failed read.
const UNOPENED: &[(&[u64], usize, bool)] = &[
    (&[], 0, false),
    (&[], 276, false),
    (&[0], 313, true),
    (&[1], 313, true),
];

/// Whether a source cannot be opened for a failed read, or for its head, and is given back.
fn is_unopened(alloc: Global, source: MemSource, is_read: bool) -> bool {
    match Stream::<Brand, MemSource>::open(alloc, source) {
        Ok(stream) => {
            let _source = stream.into_source();
            false
        }
        Err(OpenStop { source, cause }) => {
            let is_cause = match cause {
                Refusal::Fault(OpenFault::Read) => is_read,
                Refusal::Fault(OpenFault::Head(_)) => !is_read,
                Refusal::NoMemory => false,
            };
            is_cause && source.name() == "a"
        }
    }
}

#[test]
fn files_that_are_not_opened(rt: HostRuntime) -> Result<(), Fail> {
    let alloc = rt.alloc();
    for (case, (fails, length, is_read)) in UNOPENED.iter().enumerate() {
        let bytes = changed(alloc, File::Lines, 0, b"", *length)?;
        let source = source_of(alloc, bytes, fails)?;
        expect(&rt, case, is_unopened(alloc, source, *is_read));
    }
    Ok(())
}
