//! Chunks by worked values: tiles of two by two, decreasing blocks of 32 lines, two parts, and channels of unlike
//! samplings.

use exr_base::Box2i;
use exr_chunks::{Geometry, Place};
use exr_fixtures::{ChannelSpec, ONE_PIXEL, PartSpec, Picture, Y, part_head, single_head};
use exr_header::read_head;
use std::alloc::Global;
use std::test::Fail;

/// The numbers of two methods.
const NO: u8 = 0;

const PIZ: u8 = 4;

/// The number of the line order in which lines decrease.
const DECREASING: u8 = 1;

/// A file of one part, or of many.
#[derive(Clone, Copy)]
enum File {
    One(Picture<'static>),
    Parts(&'static [PartSpec<'static>]),
}

/// The place of a chunk: its first line, its tile, or its tile and its level.
#[derive(Clone, Copy)]
enum At {
    Line(i32),
    Tile(u32, u32),
    Level(u32, u32, u32, u32),
}

/// The first column and line, and the last ones.
type Corners = (i32, i32, i32, i32);

/// What is said of a chunk of a file whose heads have 100 bytes: its part and its index, its region, its raw size, its
/// place, and the offset of its entry in the offset table.
type Chunk = (u32, u32, Corners, u64, At, u64);

/// A file with its chunks in write order, places in a part where it has no chunk, and the chunks of part 0 that windows
/// meet.
#[derive(Clone, Copy)]
struct Case {
    file: File,
    chunks: &'static [Chunk],
    absent: &'static [(u32, At)],
    windows: &'static [(Corners, &'static [u32])],
}

/// Five by five pixels in tiles of two by two.
const SMALL: Picture<'static> = Picture {
    window: [0, 0, 4, 4],
    tiles: Some((2, 2)),
    ..ONE_PIXEL
};

const FALLING: Picture<'static> = Picture {
    order: DECREASING,
    ..SMALL
};

/// Sixteen by seventy pixels in decreasing blocks of 32 lines.
const LONG: Picture<'static> = Picture {
    window: [0, 0, 15, 69],
    method: PIZ,
    order: DECREASING,
    ..ONE_PIXEL
};

/// Three increasing lines of two pixels, and two decreasing lines of one.
const TWO: &[PartSpec<'static>] = &[
    PartSpec {
        picture: Picture {
            window: [0, 0, 1, 2],
            ..ONE_PIXEL
        },
        name: b"a",
        chunks: 3,
    },
    PartSpec {
        picture: Picture {
            window: [0, 0, 0, 1],
            order: DECREASING,
            ..ONE_PIXEL
        },
        name: b"b",
        chunks: 2,
    },
];

const FAR: i32 = 1 << 30;

const CASES: [Case; 4] = [
    Case {
        file: File::One(SMALL),
        chunks: &[
            (0, 0, (0, 0, 1, 1), 8, At::Tile(0, 0), 100),
            (0, 1, (2, 0, 3, 1), 8, At::Tile(1, 0), 108),
            (0, 2, (4, 0, 4, 1), 4, At::Tile(2, 0), 116),
            (0, 3, (0, 2, 1, 3), 8, At::Tile(0, 1), 124),
            (0, 4, (2, 2, 3, 3), 8, At::Tile(1, 1), 132),
            (0, 5, (4, 2, 4, 3), 4, At::Tile(2, 1), 140),
            (0, 6, (0, 4, 1, 4), 4, At::Tile(0, 2), 148),
            (0, 7, (2, 4, 3, 4), 4, At::Tile(1, 2), 156),
            (0, 8, (4, 4, 4, 4), 2, At::Tile(2, 2), 164),
        ],
        absent: &[
            (0, At::Tile(3, 0)),
            (0, At::Tile(0, 3)),
            (0, At::Level(0, 0, 1, 0)),
            (0, At::Level(0, 0, 0, 1)),
            (0, At::Line(0)),
        ],
        // a window outside, and windows without pixels, meet nothing
        windows: &[
            ((4, 4, 4, 4), &[8]),
            ((0, 0, 4, 4), &[0, 1, 2, 3, 4, 5, 6, 7, 8]),
            ((1, 1, 2, 2), &[0, 1, 3, 4]),
            ((2, 0, 3, 0), &[1]),
            ((0, 3, 4, 3), &[3, 4, 5]),
            ((-FAR, -FAR, FAR, FAR), &[0, 1, 2, 3, 4, 5, 6, 7, 8]),
            ((5, 0, 9, 4), &[]),
            ((3, 3, 2, 2), &[]),
            ((i32::MAX, i32::MAX, i32::MIN, i32::MIN), &[]),
        ],
    },
    // rows of tiles decrease, and each runs from left to right
    Case {
        file: File::One(FALLING),
        chunks: &[
            (0, 6, (0, 4, 1, 4), 4, At::Tile(0, 2), 148),
            (0, 7, (2, 4, 3, 4), 4, At::Tile(1, 2), 156),
            (0, 8, (4, 4, 4, 4), 2, At::Tile(2, 2), 164),
            (0, 3, (0, 2, 1, 3), 8, At::Tile(0, 1), 124),
            (0, 4, (2, 2, 3, 3), 8, At::Tile(1, 1), 132),
            (0, 5, (4, 2, 4, 3), 4, At::Tile(2, 1), 140),
            (0, 0, (0, 0, 1, 1), 8, At::Tile(0, 0), 100),
            (0, 1, (2, 0, 3, 1), 8, At::Tile(1, 0), 108),
            (0, 2, (4, 0, 4, 1), 4, At::Tile(2, 0), 116),
        ],
        absent: &[],
        windows: &[],
    },
    Case {
        file: File::One(LONG),
        chunks: &[
            (0, 2, (0, 64, 15, 69), 192, At::Line(64), 116),
            (0, 1, (0, 32, 15, 63), 1024, At::Line(32), 108),
            (0, 0, (0, 0, 15, 31), 1024, At::Line(0), 100),
        ],
        absent: &[
            (0, At::Line(-32)),
            (0, At::Line(-1)),
            (0, At::Line(1)),
            (0, At::Line(31)),
            (0, At::Line(33)),
            (0, At::Line(69)),
            (0, At::Line(70)),
            (0, At::Line(96)),
            (0, At::Tile(0, 0)),
        ],
        windows: &[
            ((0, 31, 0, 32), &[0, 1]),
            ((15, 69, 15, 69), &[2]),
            ((0, 0, 15, 69), &[0, 1, 2]),
            ((0, 70, 15, 99), &[]),
        ],
    },
    Case {
        file: File::Parts(TWO),
        chunks: &[
            (0, 0, (0, 0, 1, 0), 4, At::Line(0), 100),
            (0, 1, (0, 1, 1, 1), 4, At::Line(1), 108),
            (0, 2, (0, 2, 1, 2), 4, At::Line(2), 116),
            (1, 1, (0, 1, 0, 1), 2, At::Line(1), 132),
            (1, 0, (0, 0, 0, 0), 2, At::Line(0), 124),
        ],
        absent: &[(0, At::Line(3)), (1, At::Line(2)), (2, At::Line(0))],
        windows: &[],
    },
];

fn place_of(at: At) -> Place {
    match at {
        At::Line(y) => Place::Line { y },
        At::Tile(tx, ty) => Place::Tile {
            tx,
            ty,
            lx: 0,
            ly: 0,
        },
        At::Level(tx, ty, lx, ly) => Place::Tile { tx, ty, lx, ly },
    }
}

/// The index of the chunk of a part at a place.
fn found_at(geometry: &Geometry, part: u32, at: At) -> Option<u32> {
    if part < geometry.parts() {
        geometry.index_of(part, place_of(at))
    } else {
        None
    }
}

/// The chunk at a position of the write order is this one, with all that is said of it.
fn is_chunk(geometry: &Geometry, turn: u32, chunk: &Chunk) -> bool {
    let (part, index, region, raw_size, at, entry) = *chunk;
    if turn >= geometry.total() || part >= geometry.parts() {
        return false;
    }
    if index >= geometry.chunk_count(part) {
        return false;
    }
    let Box2i { x0, y0, x1, y1 } = geometry.region(part, index);
    (x0, y0, x1, y1) == region
        && geometry.raw_size(part, index) == raw_size
        && geometry.place(part, index) == place_of(at)
        && geometry.entry_at(100, part, index) == entry
        && geometry.turn_of(part, index) == turn
        && geometry.at_turn(turn) == (part, index)
        && found_at(geometry, part, at) == Some(index)
}

/// The chunks of part 0 that a window meets.
fn met(alloc: Global, geometry: &Geometry, window: Corners) -> Result<Vec<u32>, Fail> {
    if geometry.parts() == 0 {
        return Err(Fail::from("no part"));
    }
    let (x0, y0, x1, y1) = window;
    Ok(geometry.chunks_of(alloc, 0, Box2i { x0, y0, x1, y1 })?)
}

fn geometry_of(alloc: Global, file: File) -> Result<Geometry, Fail> {
    let bytes = match file {
        File::One(picture) => single_head(alloc, &picture, b"")?,
        File::Parts(parts) => part_head(alloc, parts)?,
    };
    let (head, _) = read_head(alloc, &bytes)?;
    Ok(Geometry::new(alloc, &head)?)
}

#[test]
fn chunks_of_files(rt: HostRuntime) -> Result<(), Fail> {
    for case in CASES {
        let geometry = geometry_of(rt.alloc(), case.file)?;
        assert_eq!(rt; geometry.total() as usize, case.chunks.len());
        for (turn, chunk) in (0..geometry.total()).zip(case.chunks) {
            assert!(rt; is_chunk(&geometry, turn, chunk), "{turn}");
        }
        for (part, at) in case.absent {
            assert_eq!(rt; found_at(&geometry, *part, *at), None);
        }
        for (window, chunks) in case.windows {
            let found = met(rt.alloc(), &geometry, *window)?;
            assert_eq!(rt; found.as_slice(), *chunks, "{window:?}");
        }
    }
    Ok(())
}

/// The lines of a part of four columns, the samplings of its HALF channels in x and in y, and the raw sizes of its chunks.
type Sampled = (u8, (i32, i32), &'static [(u32, u32)], &'static [u64]);

const NAMES: [&[u8]; 3] = [b"A", b"B", b"C"];

const SAMPLED: [Sampled; 8] = [
    // every second line has the samples of both
    (NO, (0, 3), &[(1, 1), (2, 2)], &[12, 8, 12, 8]),
    // after six lines, from a line below 0 on
    (
        NO,
        (-6, 5),
        &[(1, 1), (2, 2), (4, 3)],
        &[14, 8, 12, 10, 12, 8, 14, 8, 12, 10, 12, 8],
    ),
    // lines without samples, which come but once
    (NO, (-5, -1), &[(2, 5)], &[4, 0, 0, 0, 0]),
    // after three blocks of 32 lines, and a last one of four
    (
        PIZ,
        (0, 131),
        &[(1, 1), (2, 2), (4, 3)],
        &[342, 342, 340, 342, 42],
    ),
    // each block is like the first, but for the last
    (PIZ, (-64, 7), &[(1, 2), (1, 4)], &[192, 192, 48]),
    // two channels of one sampling, and one block
    (PIZ, (30, 35), &[(2, 3), (1, 3), (1, 2)], &[48]),
    // blocks with one line of samples, and with none
    (PIZ, (0, 119), &[(1, 40), (4, 120)], &[10, 8, 8, 0]),
    // samples at some columns of every line
    (NO, (7, 9), &[(2, 1), (4, 1)], &[6, 6, 6]),
];

/// The raw sizes of the chunks of part 0.
fn sizes_of(alloc: Global, geometry: &Geometry) -> Result<Vec<u64>, Fail> {
    let mut sizes = Vec::new(alloc);
    if geometry.parts() == 0 {
        return Ok(sizes);
    }
    for index in 0..geometry.chunk_count(0) {
        sizes.push(geometry.raw_size(0, index))?;
    }
    Ok(sizes)
}

#[test]
fn raw_sizes_by_samplings(rt: HostRuntime) -> Result<(), Fail> {
    let alloc = rt.alloc();
    for (method, (top, bottom), samplings, sizes) in SAMPLED {
        let mut channels = Vec::new(alloc);
        for (name, sampling) in NAMES.into_iter().zip(samplings) {
            channels.push(ChannelSpec {
                name,
                sampling: *sampling,
                ..Y
            })?;
        }
        let picture = Picture {
            channels: &channels,
            window: [0, top, 3, bottom],
            method,
            ..ONE_PIXEL
        };
        let (head, _) = read_head(alloc, &single_head(alloc, &picture, b"")?)?;
        let found = sizes_of(alloc, &Geometry::new(alloc, &head)?)?;
        assert_eq!(rt; found.as_slice(), sizes);
    }
    Ok(())
}
