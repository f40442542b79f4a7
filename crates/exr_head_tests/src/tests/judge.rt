//! Headers judged from attributes: kinds by their names, and what the attributes of a part say.

ghost use Rattle.exr_judge.specs.Picture.{IsPicture};

use super::heads::{Extra, TILES, TWO_PIXELS, attributes_of};
use exr_attributes::{AttributeMap, Field, HeaderFault, read_attributes};
use exr_base::{Box2i, Cursor, Method, Refusal};
use exr_fixtures::{ONE_PIXEL, Picture};
use exr_judge::{Flags, Header, LineOrder, PartKind, Tiles, chunk_count, judged, typed_kind};
use std::alloc::Global;
use std::test::Fail;

/// What an attribute `type` says, the kind that it names, and whether that is tiled and deep.
const NAMES: &[(&[u8], PartKind, bool, bool)] = &[
    (b"scanlineimage", PartKind::Scan, false, false),
    (b"tiledimage", PartKind::Tiled, true, false),
    (b"deepscanline", PartKind::DeepScan, false, true),
    (b"deeptile", PartKind::DeepTiled, true, true),
];

/// Words that name no kind.
const NO_NAMES: &[&[u8]] = &[b"", b"Tiledimage", b"deeptiles", b"mipmap"];

#[test]
fn kinds_by_name(rt: HostRuntime) {
    for (text, kind, tiled, deep) in NAMES {
        assert!(rt; PartKind::named(text) == Some(*kind));
        assert!(rt; kind.is_tiled() == *tiled && kind.is_deep() == *deep);
    }
    for text in NO_NAMES {
        assert!(rt; PartKind::named(text).is_none());
    }
}

/// What is said of a part.
#[derive(Clone, Copy)]
struct Said {
    method: Method,
    window: Box2i,
    order: LineOrder,
    tiles: Option<Tiles>,
    channels: usize,
    attributes: usize,
    named: bool,
    chunks: u64,
}

const SAID: Said = Said {
    method: Method::No,
    window: Box2i {
        x0: 0,
        y0: 0,
        x1: 0,
        y1: 0,
    },
    order: LineOrder::Increasing,
    tiles: None,
    channels: 1,
    attributes: 8,
    named: false,
    chunks: 1,
};

const FLAT: Flags = Flags {
    multi: false,
    deep: false,
};

const DEEP: Flags = Flags {
    multi: false,
    deep: true,
};

const MULTI: Flags = Flags {
    multi: true,
    deep: false,
};

/// The flags of a file, the kind of its first part, the picture and the other attributes of it, and what they say.
struct Case {
    flags: Flags,
    kind: PartKind,
    picture: Picture<'static>,
    more: &'static [Extra],
    said: Result<Said, HeaderFault>,
}

const VERSION_1: Extra = (b"version", b"int", b"\x01\0\0\0");

const CASES: &[Case] = &[
    Case {
        flags: FLAT,
        kind: PartKind::Scan,
        picture: Picture {
            window: [-2, 3, 1, 20],
            method: 3,
            order: 1,
            ..ONE_PIXEL
        },
        more: &[(b"name", b"string", b"n")],
        said: Ok(Said {
            method: Method::Zip,
            window: Box2i {
                x0: -2,
                y0: 3,
                x1: 1,
                y1: 20,
            },
            order: LineOrder::Decreasing,
            attributes: 9,
            named: true,
            chunks: 2,
            ..SAID
        }),
    },
    Case {
        flags: FLAT,
        kind: PartKind::Tiled,
        picture: Picture { order: 2, ..TILES },
        more: &[],
        said: Ok(Said {
            window: Box2i {
                x0: 0,
                y0: 0,
                x1: 4,
                y1: 4,
            },
            order: LineOrder::Random,
            tiles: Some(Tiles {
                xsize: 2,
                ysize: 2,
                mode: 0,
                rounding: 0,
            }),
            attributes: 9,
            chunks: 9,
            ..SAID
        }),
    },
    // tiles that are not looked at, and a name that is no text
    Case {
        flags: FLAT,
        kind: PartKind::Scan,
        picture: TILES,
        more: &[(b"name", b"int", b"\x01\0\0\0")],
        said: Ok(Said {
            window: Box2i {
                x0: 0,
                y0: 0,
                x1: 4,
                y1: 4,
            },
            attributes: 10,
            chunks: 5,
            ..SAID
        }),
    },
    Case {
        flags: DEEP,
        kind: PartKind::DeepScan,
        picture: TWO_PIXELS,
        more: &[VERSION_1],
        said: Ok(Said {
            window: Box2i {
                x0: 0,
                y0: 0,
                x1: 1,
                y1: 0,
            },
            channels: 2,
            attributes: 9,
            ..SAID
        }),
    },
    Case {
        flags: DEEP,
        kind: PartKind::DeepScan,
        picture: TWO_PIXELS,
        more: &[],
        said: Err(HeaderFault::Missing {
            part: 0,
            field: Field::Version,
        }),
    },
    Case {
        flags: FLAT,
        kind: PartKind::Scan,
        picture: Picture {
            order: 2,
            ..ONE_PIXEL
        },
        more: &[],
        said: Err(HeaderFault::BadLineOrder { part: 0, number: 2 }),
    },
    Case {
        flags: FLAT,
        kind: PartKind::Tiled,
        picture: ONE_PIXEL,
        more: &[],
        said: Err(HeaderFault::Missing {
            part: 0,
            field: Field::Tiles,
        }),
    },
    Case {
        flags: MULTI,
        kind: PartKind::Scan,
        picture: ONE_PIXEL,
        more: &[],
        said: Err(HeaderFault::Missing {
            part: 0,
            field: Field::PartName,
        }),
    },
];

/// The attributes of a picture, and others.
fn map_of(alloc: Global, picture: &Picture, more: &[Extra]) -> Result<AttributeMap, Fail> {
    let bytes = attributes_of(alloc, picture, more)?;
    Ok(read_attributes(alloc, &mut Cursor::new(&bytes))?)
}

/// Whether a header says this.
fn says(header: &Header, said: &Said) -> bool
    requires { IsPicture header.now }
{
    header.method() == said.method
        && header.window() == said.window
        && header.order() == said.order
        && header.tiles() == said.tiles
        && header.channels().len() == said.channels
        && header.attributes().len() == said.attributes
        && header.part_name().is_some() == said.named
        && chunk_count(header) == said.chunks
}

/// Whether the first part of a file says what a case expects, or has its fault.
fn is_said(alloc: Global, case: &Case) -> Result<bool, Fail> {
    let map = map_of(alloc, &case.picture, case.more)?;
    let earlier: Vec<Header> = Vec::new(alloc);
    match judged(alloc, case.flags, &earlier, 0, case.kind, map) {
        Ok(header) => match &case.said {
            Ok(said) => Ok(header.kind() == case.kind && says(&header, said)),
            Err(_) => Ok(false),
        },
        Err(Refusal::Fault(fault)) => Ok(case.said.err() == Some(fault)),
        Err(Refusal::NoMemory) => Err(Fail::from("no memory")),
    }
}

#[test]
fn what_attributes_say(rt: HostRuntime) -> Result<(), Fail> {
    for case in CASES {
        assert!(rt; is_said(rt.alloc(), case)?);
    }
    for (attribute, kind) in TYPES {
        let map = map_of(rt.alloc(), &ONE_PIXEL, &[*attribute])?;
        assert!(rt; typed_kind(7, &map) == kind.map_err(Refusal::Fault));
    }
    Ok(())
}

/// Attributes, and the kind that `type` names among them for part 7.
const TYPES: &[(Extra, Result<PartKind, HeaderFault>)] = &[
    ((b"type", b"string", b"deeptile"), Ok(PartKind::DeepTiled)),
    (
        (b"Type", b"string", b"deeptile"),
        Err(HeaderFault::Missing {
            part: 7,
            field: Field::PartType,
        }),
    ),
    (
        (b"type", b"text", b"deeptile"),
        Err(HeaderFault::WrongType {
            part: 7,
            field: Field::PartType,
        }),
    ),
    (
        (b"type", b"string", b"mipmap"),
        Err(HeaderFault::BadPartType { part: 7 }),
    ),
];
