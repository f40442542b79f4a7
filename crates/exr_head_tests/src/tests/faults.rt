//! The first fault of a head: of the magic number, the version word, names and sizes, and of parts among others.

use super::heads::{
    DEEP, DEEP_LINES, DEEP_ONE, DEEP_TILES, Edit, LONG_NAMES, ONE, PART_0, PART_1, Spelled, TILED,
    TILES, TWO_PIXELS, Z, fault_of, spell_edited,
};
use HeaderFault::{
    BadDeepVersion, BadMagic, BadName, BadPartType, BadSampling, BadSize, BadVersion, BadWindow,
    ChunkCount, Limit, Missing, Twice, TwicePart, WrongType,
};
use Spelled::{Many, One};
use exr_attributes::{Bound, Field, HeaderFault};
use exr_fixtures::{ChannelSpec, ONE_PIXEL, PartSpec, Picture, Y};
use std::test::Fail;

/// A head, what is edited in it, and its first fault, if there is one.
type Case = (Spelled, &'static [Edit], Option<HeaderFault>);

/// What the head of one pixel begins with, or says of its attributes.
const FRONTS: &[Case] = &[
    (ONE, &[(b"v/1\x01", b"v/1\0")], Some(BadMagic)),
    (ONE, &[(b"v", b"w")], Some(BadMagic)),
    (ONE, &[(b"\x02", b"\x01")], Some(BadVersion { word: 1 })),
    (One(1, ONE_PIXEL, &[]), &[], Some(BadVersion { word: 3 })),
    (
        One(0x100, ONE_PIXEL, &[]),
        &[],
        Some(BadVersion { word: 0x102 }),
    ),
    (
        One(0x2000, ONE_PIXEL, &[]),
        &[],
        Some(BadVersion { word: 0x2002 }),
    ),
    (
        One(1 << 31, ONE_PIXEL, &[]),
        &[],
        Some(BadVersion { word: 0x8000_0002 }),
    ),
    (One(LONG_NAMES, ONE_PIXEL, &[]), &[], None),
    (ONE, &[(b"chlist", b"\0")], Some(BadName { at: 17 })),
    (
        ONE,
        &[(b"\x01\0\0\0\0dataWindow", b"\x01\0\0\xff")],
        Some(BadSize { at: 71 }),
    ),
    (
        One(0, ONE_PIXEL, &[(b"channels", b"chlist", b"")]),
        &[],
        Some(Twice { at: 276 }),
    ),
    (
        One(
            0,
            ONE_PIXEL,
            &[(b"owner", b"string", b"me"), (b"owner", b"text", b"")],
        ),
        &[(b"dataWindow", b"?")],
        Some(Twice { at: 295 }),
    ),
    (
        One(TILED, ONE_PIXEL, &[]),
        &[],
        Some(Missing {
            part: 0,
            field: Field::Tiles,
        }),
    ),
    (
        One(DEEP, ONE_PIXEL, &[]),
        &[],
        Some(Missing {
            part: 0,
            field: Field::PartType,
        }),
    ),
    (
        Many(&[]),
        &[],
        Some(Missing {
            part: 0,
            field: Field::Channels,
        }),
    ),
    // under bit 11 the type decides and bit 9 does not, and without it the other way round
    (One(DEEP | TILED, TWO_PIXELS, DEEP_LINES), &[], None),
    (
        One(DEEP, ONE_PIXEL, &[(b"type", b"string", b"scanlineimage")]),
        &[],
        None,
    ),
    (
        One(TILED, TILES, &[(b"type", b"text", b"mipmap")]),
        &[],
        None,
    ),
    (
        One(0, ONE_PIXEL, &[(b"type", b"string", b"tiledimage")]),
        &[],
        None,
    ),
    // each attribute is looked at before the next one, and all before any value
    (
        ONE,
        &[(b"chlist", b"?"), (b"compression", b"?")],
        Some(WrongType {
            part: 0,
            field: Field::Channels,
        }),
    ),
    (
        One(
            0,
            Picture {
                channels: &[Y, Y],
                ..ONE_PIXEL
            },
            &[],
        ),
        &[(b"screenWindowWidth", b"?")],
        Some(Missing {
            part: 0,
            field: Field::ScreenWindowWidth,
        }),
    ),
];

/// The picture of 2^20 lines.
const LONG: Picture<'static> = Picture {
    window: [0, 0, 0, (1 << 20) - 1],
    ..ONE_PIXEL
};

/// The picture of 2^20 columns and 32 lines, which are a block under PIZ, of 2^26 bytes.
const WIDE: Picture<'static> = Picture {
    window: [0, 0, (1 << 20) - 1, 31],
    method: 4,
    ..ONE_PIXEL
};

/// Deep pixels, of which a tile of 4,096 by 4,096 has 2^26 bytes of counts.
const MANY_COUNTS: Picture<'static> = Picture {
    window: [0, 0, 4095, 4095],
    tiles: Some((4096, 4096)),
    ..ONE_PIXEL
};

const TOO_MANY_COUNTS: Picture<'static> = Picture {
    window: [0, 0, 4095, 4096],
    tiles: Some((4096, 4097)),
    ..ONE_PIXEL
};

/// The channels `Y` and `Z`, of which the second has samples at each second column.
const SPARSE: &[ChannelSpec<'static>] = &[
    Y,
    ChannelSpec {
        sampling: (2, 1),
        ..Z
    },
];

/// The version of deep data, and what is put for it.
const VERSION_2: Edit = (b"\x01\0\0\0chunkCount", b"\x02");

/// Deep parts, parts among others, and chunks of the most bytes.
const PARTS: &[Case] = &[
    (
        One(DEEP, TWO_PIXELS, DEEP_TILES),
        &[],
        Some(Missing {
            part: 0,
            field: Field::Tiles,
        }),
    ),
    (
        One(
            DEEP,
            Picture {
                channels: SPARSE,
                ..TWO_PIXELS
            },
            DEEP_LINES,
        ),
        &[VERSION_2],
        Some(BadSampling {
            part: 0,
            channel: 1,
        }),
    ),
    (
        DEEP_ONE,
        &[VERSION_2],
        Some(BadDeepVersion { part: 0, said: 2 }),
    ),
    (One(DEEP, MANY_COUNTS, DEEP_TILES), &[], None),
    (
        One(DEEP, TOO_MANY_COUNTS, DEEP_TILES),
        &[],
        Some(Limit(Bound::RawChunk)),
    ),
    (One(0, WIDE, &[]), &[], None),
    (
        One(
            0,
            Picture {
                channels: &[Y, Z],
                ..WIDE
            },
            &[],
        ),
        &[],
        Some(Limit(Bound::RawChunk)),
    ),
    (
        One(
            TILED,
            Picture {
                channels: SPARSE,
                ..TILES
            },
            &[],
        ),
        &[],
        Some(BadSampling {
            part: 0,
            channel: 1,
        }),
    ),
    (
        Many(&[
            PART_0,
            PartSpec {
                picture: Picture {
                    window: [0, 0, 0, -1],
                    ..ONE_PIXEL
                },
                ..PART_1
            },
        ]),
        &[],
        Some(BadWindow { part: 1 }),
    ),
    (
        Many(&[
            PART_0,
            PartSpec {
                chunks: 10,
                picture: Picture {
                    window: [0, 0, 0, 10],
                    ..ONE_PIXEL
                },
                ..PART_1
            },
        ]),
        &[],
        Some(ChunkCount {
            part: 1,
            said: 10,
            computed: 11,
        }),
    ),
    (
        Many(&[
            PartSpec {
                chunks: u32::MAX,
                ..PART_0
            },
            PART_0,
        ]),
        &[],
        Some(ChunkCount {
            part: 0,
            said: -1,
            computed: 1,
        }),
    ),
    (
        Many(&[PART_0, PART_1, PART_0]),
        &[],
        Some(TwicePart { part: 2 }),
    ),
    (
        Many(&[
            PART_0,
            PartSpec {
                chunks: 3,
                ..PART_0
            },
        ]),
        &[],
        Some(ChunkCount {
            part: 1,
            said: 3,
            computed: 1,
        }),
    ),
    (
        Many(&[PART_0]),
        &[(b"scanlineimage", b"?")],
        Some(BadPartType { part: 0 }),
    ),
    (
        Many(&[PartSpec {
            chunks: 1 << 20,
            picture: LONG,
            ..PART_0
        }]),
        &[],
        None,
    ),
    (
        Many(&[
            PartSpec {
                chunks: 1 << 20,
                picture: LONG,
                ..PART_0
            },
            PART_1,
        ]),
        &[],
        Some(Limit(Bound::Chunks)),
    ),
    (
        Many(&[PartSpec {
            chunks: 9,
            picture: Picture {
                channels: &[Y, Z],
                ..WIDE
            },
            ..PART_0
        }]),
        &[],
        Some(Limit(Bound::RawChunk)),
    ),
];

#[test]
fn first_faults(rt: HostRuntime) -> Result<(), Fail> {
    for cases in [FRONTS, PARTS] {
        for (head, edits, fault) in cases {
            let bytes = spell_edited(rt.alloc(), *head, edits)?;
            assert!(rt; fault_of(rt.alloc(), &bytes)? == *fault);
        }
    }
    Ok(())
}
