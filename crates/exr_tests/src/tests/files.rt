//! Files for the tests, each a constant that says what its header and its chunks hold.

use exr_base::NoMemory;
use exr_fixtures::{
    ChannelSpec, ONE_PIXEL, PartSpec, Picture, Y, file_of, flagged_head, line_chunk, part_head,
    single_head, tile_chunk,
};
use std::alloc::Global;

/// The place that a chunk names: its first line, or the column and the row of its tile.
pub enum Place {
    Line(i32),
    Tile(u32, u32),
}

/// A chunk: its place, and its data.
pub type Chunk = (Place, &'static [u8]);

/// A file whose chunks follow one another in the order of the offset tables.
pub enum File {
    /// One part.
    One(Picture<'static>, &'static [Chunk]),
    /// Many parts; each chunk with the number of its part.
    Many(&'static [PartSpec<'static>], &'static [(u32, Chunk)]),
    /// The head of one pixel with flags of the version word, and with more attributes.
    Head(u32, &'static [u8]),
    /// A deep part in scan lines, of one chunk.
    Deep(Picture<'static>, &'static [u8]),
}

/// What the header of such a part has after the attributes of each header.
const OF_DEEP: &[u8] = b"\
    name\0string\0\x04\0\0\0deeptype\0string\0\x0c\0\0\0deepscanlineversion\0int\0\x04\0\0\0\x01\0\0\0\
    chunkCount\0int\0\x04\0\0\0\x01\0\0\0maxSamplesPerPixel\0int\0\x04\0\0\0\xff\xff\xff\xff";

/// The bytes of a chunk.
fn chunk_bytes(
    alloc: Global,
    part: Option<u32>,
    (place, packed): &Chunk,
) -> Result<Vec<u8>, NoMemory> {
    match place {
        Place::Line(line) => line_chunk(alloc, part, *line, packed),
        Place::Tile(column, row) => tile_chunk(alloc, part, (*column, *row), packed),
    }
}

/// The bytes of a file.
pub fn bytes_of(alloc: Global, file: &File) -> Result<Vec<u8>, NoMemory> {
    let mut all = Vec::new(alloc);
    match file {
        File::One(picture, chunks) => {
            for chunk in *chunks {
                all.push(chunk_bytes(alloc, None, chunk)?)?;
            }
            file_of(alloc, &single_head(alloc, picture, b"")?, &all)
        }
        File::Many(parts, chunks) => {
            for (part, chunk) in *chunks {
                all.push(chunk_bytes(alloc, Some(*part), chunk)?)?;
            }
            file_of(alloc, &part_head(alloc, parts)?, &all)
        }
        File::Head(flags, more) => flagged_head(alloc, *flags, &ONE_PIXEL, more),
        File::Deep(picture, chunk) => {
            all.push(chunk.to_vec(alloc)?)?;
            file_of(alloc, &flagged_head(alloc, 0x800, picture, OF_DEEP)?, &all)
        }
    }
}

/// One pixel of 0x3c00: 295 bytes, of which the head has 277 and the offset table 8.
pub const ONE: File = File::One(ONE_PIXEL, &[(Place::Line(0), b"\0<")]);

const B: ChannelSpec<'static> = ChannelSpec { name: b"B", ..Y };

const G: ChannelSpec<'static> = ChannelSpec { name: b"G", ..Y };

const R: ChannelSpec<'static> = ChannelSpec { name: b"R", ..Y };

/// Three HALF channels, four by three. The bytes of a sample are a letter for its pixel and one for its channel.
pub const THREE: File = File::One(
    Picture {
        channels: &[B, G, R],
        window: [0, 0, 3, 2],
        ..ONE_PIXEL
    },
    &[
        (Place::Line(0), b"aBbBcBdBaGbGcGdGaRbRcRdR"),
        (Place::Line(1), b"eBfBgBhBeGfGgGhGeRfRgRhR"),
        (Place::Line(2), b"iBjBkBlBiGjGkGlGiRjRkRlR"),
    ],
);

/// A UINT, a HALF and a FLOAT channel, two by two, whose lines are decreasing in the file.
pub const KINDS: File = File::One(
    Picture {
        channels: &[
            ChannelSpec {
                name: b"I",
                kind: 0,
                ..Y
            },
            Y,
            ChannelSpec {
                name: b"Z",
                kind: 2,
                ..Y
            },
        ],
        window: [-1, -1, 0, 0],
        order: 1,
        ..ONE_PIXEL
    },
    &[
        (Place::Line(-1), b"aaaIbbbIaYbYaaaZbbbZ"),
        (Place::Line(0), b"cccIdddIcYdYcccZdddZ"),
    ],
);

const TWO_BY_TWO: ChannelSpec<'static> = ChannelSpec {
    name: b"C",
    sampling: (2, 2),
    ..Y
};

/// A channel with samples at even columns and lines alone: the chunks of two lines are empty.
pub const SAMPLED: File = File::One(
    Picture {
        channels: &[TWO_BY_TWO],
        window: [-2, -2, 1, 1],
        ..ONE_PIXEL
    },
    &[
        (Place::Line(-2), b"aCbC"),
        (Place::Line(-1), b""),
        (Place::Line(0), b"cCdC"),
        (Place::Line(1), b""),
    ],
);

/// A channel sampled 2 by 2 beside one with a sample at each pixel.
pub const UNLIKE: File = File::One(
    Picture {
        channels: &[TWO_BY_TWO, Y],
        window: [0, 0, 1, 1],
        ..ONE_PIXEL
    },
    &[(Place::Line(0), b"aCaYbY"), (Place::Line(1), b"cYdY")],
);

/// Five by five pixels in tiles of two by two, with a letter for each pixel.
pub const TILES: File = File::One(
    Picture {
        window: [0, 0, 4, 4],
        tiles: Some((2, 2)),
        ..ONE_PIXEL
    },
    &[
        (Place::Tile(0, 0), b"AYBYFYGY"),
        (Place::Tile(1, 0), b"CYDYHYIY"),
        (Place::Tile(2, 0), b"EYJY"),
        (Place::Tile(0, 1), b"KYLYPYQY"),
        (Place::Tile(1, 1), b"MYNYRYSY"),
        (Place::Tile(2, 1), b"OYTY"),
        (Place::Tile(0, 2), b"UYVY"),
        (Place::Tile(1, 2), b"WYXY"),
        (Place::Tile(2, 2), b"YY"),
    ],
);

const LEFT: PartSpec<'static> = PartSpec {
    picture: ONE_PIXEL,
    name: b"left",
    chunks: 1,
};

const RIGHT: PartSpec<'static> = PartSpec {
    picture: Picture {
        window: [0, 0, 2, 0],
        tiles: Some((2, 2)),
        ..ONE_PIXEL
    },
    name: b"right",
    chunks: 2,
};

/// A part of one pixel, and one of three pixels in two tiles; a chunk of the second stands first.
pub const PARTS: File = File::Many(
    &[LEFT, RIGHT],
    &[
        (0, (Place::Line(0), b"aL")),
        (1, (Place::Tile(0, 0), b"aRbR")),
        (1, (Place::Tile(1, 0), b"cR")),
    ],
);

/// The same parts, where the last chunk of the second has one byte and not two.
pub const BROKEN_RIGHT: File = File::Many(
    &[LEFT, RIGHT],
    &[
        (0, (Place::Line(0), b"aL")),
        (1, (Place::Tile(0, 0), b"aRbR")),
        (1, (Place::Tile(1, 0), b"c")),
    ],
);

/// The same parts, where the first is packed under ZIP.
pub const UNREAD_LEFT: File = File::Many(
    &[
        PartSpec {
            picture: Picture {
                method: 3,
                ..ONE_PIXEL
            },
            ..LEFT
        },
        RIGHT,
    ],
    &[
        (0, (Place::Line(0), b"a")),
        (1, (Place::Tile(0, 0), b"aRbR")),
        (1, (Place::Tile(1, 0), b"cR")),
    ],
);

/// Twenty lines of one pixel, of which the one of line 17 says that it is line 0.
pub const MISPLACED: File = File::One(
    Picture {
        window: [0, 0, 0, 19],
        ..ONE_PIXEL
    },
    &[
        (Place::Line(0), b"\0<"),
        (Place::Line(1), b"\x01<"),
        (Place::Line(2), b"\x02<"),
        (Place::Line(3), b"\x03<"),
        (Place::Line(4), b"\x04<"),
        (Place::Line(5), b"\x05<"),
        (Place::Line(6), b"\x06<"),
        (Place::Line(7), b"\x07<"),
        (Place::Line(8), b"\x08<"),
        (Place::Line(9), b"\x09<"),
        (Place::Line(10), b"\x0a<"),
        (Place::Line(11), b"\x0b<"),
        (Place::Line(12), b"\x0c<"),
        (Place::Line(13), b"\x0d<"),
        (Place::Line(14), b"\x0e<"),
        (Place::Line(15), b"\x0f<"),
        (Place::Line(16), b"\x10<"),
        (Place::Line(0), b"\x11<"),
        (Place::Line(18), b"\x12<"),
        (Place::Line(19), b"\x13<"),
    ],
);

/// Two parts of one name.
pub const SAME_NAMES: File = File::Many(&[LEFT, LEFT], &[]);

/// A part that says that it has two chunks, where it has one.
pub const MISCOUNTED: File = File::Many(&[PartSpec { chunks: 2, ..LEFT }], &[]);

/// A part without channels, whose chunks have no data.
pub const BARE: File = File::One(
    Picture {
        channels: &[],
        ..ONE_PIXEL
    },
    &[(Place::Line(0), b"")],
);

/// A pixel at the greatest column and the least line.
pub const FAR: File = File::One(
    Picture {
        window: [1 << 30, -(1 << 30), 1 << 30, -(1 << 30)],
        ..ONE_PIXEL
    },
    &[(Place::Line(-(1 << 30)), b"\0<")],
);

/// A window of 2^20 by 2^20 pixels, which is the largest one. The table of offsets is not there.
pub const VAST: File = File::One(
    Picture {
        window: [0, 0, (1 << 20) - 1, (1 << 20) - 1],
        ..ONE_PIXEL
    },
    &[],
);

/// The head of a deep part in scan lines, whose chunk is not there.
pub const DEEP: File = File::Head(
    0x800,
    b"type\0string\0\x0c\0\0\0deepscanlineversion\0int\0\x04\0\0\0\x01\0\0\0",
);

/// A head with a second attribute `lineOrder`.
pub const REPEATED: File = File::Head(0, b"lineOrder\0lineOrder\0\x01\0\0\0\0");
