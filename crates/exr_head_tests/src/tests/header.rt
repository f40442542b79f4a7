//! Heads of files: their first faults, their texts, and what is written of them again.

use super::heads::{
    DEEP, DEEP_LINES, DEEP_ONE, DEEP_TILES, Extra, IN_TILES, LONG_NAMES, ONE, PART_0, PART_1,
    Spelled, TILED, TILES, TWO, TWO_PIXELS, fault_of, spell,
};
use Spelled::{Many, One};
use exr_attributes::HeaderFault;
use exr_fixtures::{ChannelSpec, ONE_PIXEL, PartSpec, Picture, Y};
use exr_header::{read_head, show_head, write_head};
use std::test::Fail;

/// Heads, and how many bytes they have.
const HEADS: &[(Spelled, usize)] = &[
    (ONE, 277),
    (One(0, TWO_PIXELS, &[]), 295),
    (IN_TILES, 305),
    (DEEP_ONE, 417),
    (TWO, 693),
];

#[test]
fn every_front_is_truncated(rt: HostRuntime) -> Result<(), Fail> {
    for (head, size) in HEADS {
        let bytes = spell(rt.alloc(), *head)?;
        assert!(rt; bytes.len() == *size);
        assert!(rt; fault_of(rt.alloc(), &bytes)? == None);
        for len in 0..bytes.len() {
            let front = bytes.get(..len).ok_or("a front")?;
            let ends = HeaderFault::Truncated { at: len as u64 };
            assert!(rt; fault_of(rt.alloc(), front)? == Some(ends));
        }
    }
    Ok(())
}

/// What the text of a head says of the attributes that follow the channels.
const SEVEN: &str = "attribute compression compression 1
attribute dataWindow box2i 16
attribute displayWindow box2i 16
attribute lineOrder lineOrder 1
attribute pixelAspectRatio float 4
attribute screenWindowCenter v2f 8
attribute screenWindowWidth float 4
";

/// A head, and the pieces of its text.
type Text = (Spelled, &'static [&'static str]);

const TEXTS: &[Text] = &[
    (
        ONE,
        &[
            "exr single parts 1
part 0 scan name - method 0 order 0 window 0 0 0 0 chunks 1
channel Y kind 1 linear 0 sampling 1 1
attribute channels chlist 19
",
            SEVEN,
        ],
    ),
    (
        One(
            0,
            Picture {
                channels: &[],
                window: [-1, 3, 0, 19],
                method: 3,
                order: 1,
                tiles: None,
            },
            &[],
        ),
        &[
            "exr single parts 1
part 0 scan name - method 3 order 1 window -1 3 0 19 chunks 2
attribute channels chlist 1
",
            SEVEN,
        ],
    ),
    (
        One(
            TILED,
            Picture { order: 2, ..TILES },
            &[(b"name", b"string", b"")],
        ),
        &[
            "exr single parts 1
part 0 tiles name  method 0 order 2 window 0 0 4 4 chunks 9
tiles 2 2 mode 0 rounding 0
channel Y kind 1 linear 0 sampling 1 1
attribute channels chlist 19
",
            SEVEN,
            "attribute tiles tiledesc 9
attribute name string 0
",
        ],
    ),
    (
        DEEP_ONE,
        &[
            "exr single parts 1
part 0 deepscan name deep method 0 order 0 window 0 0 1 0 chunks 1
channel Y kind 1 linear 0 sampling 1 1
channel Z kind 2 linear 0 sampling 1 1
attribute channels chlist 37
",
            SEVEN,
            "attribute name string 4
attribute type string 12
attribute version int 4
attribute chunkCount int 4
attribute maxSamplesPerPixel int 4
",
        ],
    ),
    (
        One(DEEP, TILES, DEEP_TILES),
        &[
            "exr single parts 1
part 0 deeptiles name - method 0 order 0 window 0 0 4 4 chunks 9
tiles 2 2 mode 0 rounding 0
channel Y kind 1 linear 0 sampling 1 1
attribute channels chlist 19
",
            SEVEN,
            "attribute tiles tiledesc 9
attribute type string 8
attribute version int 4
",
        ],
    ),
    (
        Many(&[
            PART_0,
            PartSpec {
                picture: TILES,
                name: b"a\\b c\xff",
                chunks: 9,
            },
        ]),
        &[
            "exr multi parts 2
part 0 scan name part0 method 0 order 0 window 0 0 0 0 chunks 1
channel Y kind 1 linear 0 sampling 1 1
attribute channels chlist 19
",
            SEVEN,
            "attribute name string 5
attribute type string 13
attribute chunkCount int 4
part 1 tiles name a\\x5cb\\x20c\\xff method 0 order 0 window 0 0 4 4 chunks 9
tiles 2 2 mode 0 rounding 0
channel Y kind 1 linear 0 sampling 1 1
attribute channels chlist 19
",
            SEVEN,
            "attribute tiles tiledesc 9
attribute name string 6
attribute type string 10
attribute chunkCount int 4
",
        ],
    ),
    // a name that is no text, and channels by other names, kinds and samplings
    (
        One(
            0,
            Picture {
                channels: &[
                    ChannelSpec {
                        name: b"left.R G",
                        kind: 0,
                        linear: 1,
                        sampling: (2, 1),
                    },
                    ChannelSpec {
                        name: b"~",
                        kind: 2,
                        linear: 255,
                        sampling: (1, 4),
                    },
                ],
                window: [2, -4, 3, 3],
                ..ONE_PIXEL
            },
            &[(b"name", b"text", b"no name")],
        ),
        &[
            "exr single parts 1
part 0 scan name - method 0 order 0 window 2 -4 3 3 chunks 8
channel left.R\\x20G kind 0 linear 1 sampling 2 1
channel ~ kind 2 linear 255 sampling 1 4
attribute channels chlist 44
",
            SEVEN,
            "attribute name text 7
",
        ],
    ),
    (
        One(LONG_NAMES, ONE_PIXEL, OPAQUE),
        &[
            "exr single parts 1
part 0 scan name - method 0 order 0 window 0 0 0 0 chunks 1
channel Y kind 1 linear 0 sampling 1 1
attribute channels chlist 19
",
            SEVEN,
            "attribute chromaticities chromaticities 32
attribute owner string 3
attribute preview preview 12
attribute aNameThatHasMoreThanThirtyOneBytes string 0
attribute x vendorThing 3
attribute a\\x20b matrix9 1
attribute timeCode timecode 8
",
        ],
    ),
];

/// Attributes that are not judged, among them one with a long name and two of types that no document names.
const OPAQUE: &[Extra] = &[
    (b"chromaticities", b"chromaticities", &[0; 32]),
    (b"owner", b"string", b"exr"),
    (
        b"preview",
        b"preview",
        b"\x01\0\0\0\x01\0\0\0\xff\xff\xff\xff",
    ),
    (b"aNameThatHasMoreThanThirtyOneBytes", b"string", b""),
    (b"x", b"vendorThing", b"\0\x01\x02"),
    (b"a b", b"matrix9", b"\xff"),
    (b"timeCode", b"timecode", &[0; 8]),
];

#[test]
fn texts_of_heads(rt: HostRuntime) -> Result<(), Fail> {
    for (spelled, pieces) in TEXTS {
        let bytes = spell(rt.alloc(), *spelled)?;
        let (head, _) = read_head(rt.alloc(), &bytes)?;
        let mut text = String::new(rt.alloc());
        for piece in *pieces {
            text.push_str(piece)?;
        }
        assert!(rt; show_head(rt.alloc(), &head)?.as_slice() == text.as_bytes());
        assert!(rt; write_head(rt.alloc(), &head)? == bytes);
    }
    Ok(())
}

const LONG_TYPE: &[Extra] = &[(b"a", b"aTypeThatHasMoreThanThirtyOneBytes", b"")];

/// A name of 31 bytes, and one of 32.
const NAME_31: ChannelSpec<'static> = ChannelSpec {
    name: b"a.channel.name.of.31.characters",
    ..Y
};

const NAME_32: ChannelSpec<'static> = ChannelSpec {
    name: b"a.channel.name.of.32.characters.",
    ..Y
};

/// The flags of a head that is read, and those of the head that is written again, of a picture and more attributes: bit 10
/// just for long names, bit 11 for deep parts and bit 9 for one part of tiles.
const FLAGS: &[(u32, u32, Picture<'static>, &[Extra])] = &[
    (LONG_NAMES, 0, ONE_PIXEL, &[]),
    (0, LONG_NAMES, ONE_PIXEL, OPAQUE),
    (0, LONG_NAMES, ONE_PIXEL, LONG_TYPE),
    (
        LONG_NAMES,
        0,
        Picture {
            channels: &[NAME_31],
            ..ONE_PIXEL
        },
        &[],
    ),
    (
        0,
        LONG_NAMES,
        Picture {
            channels: &[NAME_32],
            ..ONE_PIXEL
        },
        &[],
    ),
    (
        DEEP,
        0,
        ONE_PIXEL,
        &[(b"type", b"string", b"scanlineimage")],
    ),
    (DEEP, TILED, TILES, &[(b"type", b"string", b"tiledimage")]),
    (DEEP | TILED, DEEP, TWO_PIXELS, DEEP_LINES),
    (DEEP, DEEP, TILES, DEEP_TILES),
];

#[test]
fn flags_of_written_heads(rt: HostRuntime) -> Result<(), Fail> {
    for (read, written, picture, more) in FLAGS {
        let (head, _) = read_head(rt.alloc(), &spell(rt.alloc(), One(*read, *picture, more))?)?;
        let again = spell(rt.alloc(), One(*written, *picture, more))?;
        assert!(rt; write_head(rt.alloc(), &head)? == again);
    }
    Ok(())
}
