//! Required attributes that are missing, of another type or of another size, and values that no attribute may have.

use super::heads::{
    DEEP_ONE, Extra, IN_TILES, ONE, Spelled, TWO, fault_of, front, spell_edited, spell_with,
};
use HeaderFault::{
    BadChannels, BadDeepVersion, BadPartType, BadTiles, ChunkCount, FieldSize, Levels, Missing,
    WrongType,
};
use exr_attributes::{Field, HeaderFault};
use std::test::Fail;

/// A head, and an attribute that it requires: its name, its type, and a value of another size if there is one.
type Required = (
    Spelled,
    Field,
    &'static [u8],
    &'static [u8],
    Option<&'static [u8]>,
);

const REQUIRED: &[Required] = &[
    (ONE, Field::Channels, b"channels", b"chlist", None),
    (
        ONE,
        Field::Compression,
        b"compression",
        b"compression",
        Some(b"\0\0"),
    ),
    (
        ONE,
        Field::DataWindow,
        b"dataWindow",
        b"box2i",
        Some(&[0; 12]),
    ),
    (
        ONE,
        Field::DisplayWindow,
        b"displayWindow",
        b"box2i",
        Some(&[0; 17]),
    ),
    (ONE, Field::LineOrder, b"lineOrder", b"lineOrder", Some(b"")),
    (
        ONE,
        Field::PixelAspectRatio,
        b"pixelAspectRatio",
        b"float",
        Some(b"\0\0\x80"),
    ),
    (
        ONE,
        Field::ScreenWindowCenter,
        b"screenWindowCenter",
        b"v2f",
        Some(&[0; 4]),
    ),
    (
        ONE,
        Field::ScreenWindowWidth,
        b"screenWindowWidth",
        b"float",
        Some(&[0; 8]),
    ),
    (IN_TILES, Field::Tiles, b"tiles", b"tiledesc", Some(&[1; 8])),
    (TWO, Field::PartType, b"type", b"string", None),
    (TWO, Field::PartName, b"name", b"string", None),
    (TWO, Field::ChunkCount, b"chunkCount", b"int", None),
    (DEEP_ONE, Field::PartType, b"type", b"string", None),
    (DEEP_ONE, Field::Version, b"version", b"int", Some(b"\x01")),
];

#[test]
fn required_attributes(rt: HostRuntime) -> Result<(), Fail> {
    for (head, field, name, kind, value) in REQUIRED {
        let (part, field) = (0, *field);
        let there = front(rt.alloc(), name, kind)?;
        let bytes = spell_edited(rt.alloc(), *head, &[(&there, b"?")])?;
        let missing = Missing { part, field };
        assert!(rt; fault_of(rt.alloc(), &bytes)? == Some(missing));
        let retyped = front(rt.alloc(), name, b"?")?;
        let bytes = spell_edited(rt.alloc(), *head, &[(&there, &retyped)])?;
        let wrong = WrongType { part, field };
        assert!(rt; fault_of(rt.alloc(), &bytes)? == Some(wrong));
        if let Some(value) = value {
            let bytes = spell_with(rt.alloc(), *head, (name, kind, value))?;
            let sized = FieldSize { part, field };
            assert!(rt; fault_of(rt.alloc(), &bytes)? == Some(sized));
        }
    }
    Ok(())
}

/// A head, an attribute that stands in the place of its own, and its fault.
type Case = (Spelled, Extra, Option<HeaderFault>);

const NO_LIST: Option<HeaderFault> = Some(BadChannels { part: 0 });

const NO_TILES: Option<HeaderFault> = Some(BadTiles { part: 0 });

const LEVELS: Option<HeaderFault> = Some(Levels { part: 0 });

const CASES: &[Case] = &[
    // lists without an end, with bytes behind it, and with a channel that is cut
    (ONE, (b"channels", b"chlist", b""), NO_LIST),
    (ONE, (b"channels", b"chlist", b"\0\0"), NO_LIST),
    (
        ONE,
        (
            b"channels",
            b"chlist",
            b"Y\0\x01\0\0\0\0\0\0\0\x01\0\0\0\x01\0",
        ),
        NO_LIST,
    ),
    (
        ONE,
        (
            b"channels",
            b"chlist",
            b"Y\0\x01\0\0\0\0\0\0\0\x01\0\0\0\x01\0\0\0",
        ),
        NO_LIST,
    ),
    (ONE, (b"channels", b"chlist", b"\0"), None),
    // modes of levels and of rounding
    (
        IN_TILES,
        (b"tiles", b"tiledesc", b"\x02\0\0\0\x02\0\0\0\x10"),
        None,
    ),
    (
        IN_TILES,
        (b"tiles", b"tiledesc", b"\x02\0\0\0\x02\0\0\0\x01"),
        LEVELS,
    ),
    (
        IN_TILES,
        (b"tiles", b"tiledesc", b"\x02\0\0\0\x02\0\0\0\x12"),
        LEVELS,
    ),
    (
        IN_TILES,
        (b"tiles", b"tiledesc", b"\x02\0\0\0\x02\0\0\0\x03"),
        NO_TILES,
    ),
    (
        IN_TILES,
        (b"tiles", b"tiledesc", b"\x02\0\0\0\x02\0\0\0\x20"),
        NO_TILES,
    ),
    // versions and numbers of chunks of a deep part
    (
        DEEP_ONE,
        (b"version", b"int", b"\x02\0\0\0"),
        Some(BadDeepVersion { part: 0, said: 2 }),
    ),
    (
        DEEP_ONE,
        (b"version", b"int", b"\xff\xff\xff\xff"),
        Some(BadDeepVersion { part: 0, said: -1 }),
    ),
    (
        DEEP_ONE,
        (b"chunkCount", b"int", b"\x01"),
        Some(FieldSize {
            part: 0,
            field: Field::ChunkCount,
        }),
    ),
    (
        DEEP_ONE,
        (b"chunkCount", b"float", b"\x01\0\0\0"),
        Some(WrongType {
            part: 0,
            field: Field::ChunkCount,
        }),
    ),
    (
        DEEP_ONE,
        (b"chunkCount", b"int", b"\0\0\0\0"),
        Some(ChunkCount {
            part: 0,
            said: 0,
            computed: 1,
        }),
    ),
    (
        DEEP_ONE,
        (b"name", b"text", b"deep"),
        Some(WrongType {
            part: 0,
            field: Field::PartName,
        }),
    ),
    (
        DEEP_ONE,
        (b"type", b"string", b"mipmap"),
        Some(BadPartType { part: 0 }),
    ),
    // values that are not looked at
    (ONE, (b"displayWindow", b"box2i", &[0xff; 16]), None),
    (ONE, (b"pixelAspectRatio", b"float", b"\0\0\xc0\x7f"), None),
    (DEEP_ONE, (b"maxSamplesPerPixel", b"float", b""), None),
];

#[test]
fn values_of_attributes(rt: HostRuntime) -> Result<(), Fail> {
    for (head, extra, fault) in CASES {
        let bytes = spell_with(rt.alloc(), *head, *extra)?;
        assert!(rt; fault_of(rt.alloc(), &bytes)? == *fault);
    }
    Ok(())
}
