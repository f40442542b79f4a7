//! Heads made of given parts, and heads of the most parts, channels and bytes.

use super::heads::{
    DEEP_LINES, DEEP_ONE, IN_TILES, ONE, PART_0, PART_1, Spelled, TILES, TWO, TWO_PIXELS, fault_of,
    spell,
};
use Spelled::{Many, One};
use exr_attributes::{
    Attribute, AttributeMap, AttributeValue, Bound, Field, HeaderFault, PackedName,
};
use exr_base::Refusal;
use exr_fixtures::{
    ChannelSpec, ONE_PIXEL, PartSpec, Picture, Y, part_head, put_attribute, single_head,
};
use exr_header::{FileHead, PartKind, read_head, write_head};
use std::alloc::Global;
use std::test::Fail;

/// A head of which parts are taken, by their numbers and with the kinds that are given for them, whether they become one of
/// many, and the head that they make or its first fault.
type Case = (
    Spelled,
    bool,
    &'static [(usize, PartKind)],
    Result<Spelled, HeaderFault>,
);

const NO_TILES: HeaderFault = HeaderFault::Missing {
    part: 0,
    field: Field::Tiles,
};

const NO_TYPE: HeaderFault = HeaderFault::Missing {
    part: 0,
    field: Field::PartType,
};

use PartKind::{DeepScan, DeepTiled, Scan, Tiled};

const CASES: &[Case] = &[
    (ONE, false, &[(0, Scan)], Ok(ONE)),
    (ONE, false, &[(0, Tiled)], Err(NO_TILES)),
    (ONE, false, &[(0, DeepScan)], Err(NO_TYPE)),
    (ONE, true, &[(0, Scan)], Err(NO_TYPE)),
    (IN_TILES, false, &[(0, Tiled)], Ok(IN_TILES)),
    (IN_TILES, false, &[(0, Scan)], Ok(One(0, TILES, &[]))),
    (DEEP_ONE, false, &[(0, DeepScan)], Ok(DEEP_ONE)),
    (
        DEEP_ONE,
        false,
        &[(0, DeepTiled)],
        Err(HeaderFault::BadPartType { part: 0 }),
    ),
    (
        DEEP_ONE,
        false,
        &[(0, Scan)],
        Ok(One(0, TWO_PIXELS, DEEP_LINES)),
    ),
    (TWO, true, &[(0, Scan), (1, Scan)], Ok(TWO)),
    (
        TWO,
        true,
        &[(1, Scan), (0, Scan)],
        Ok(Many(&[PART_1, PART_0])),
    ),
    (TWO, true, &[(1, Scan)], Ok(Many(&[PART_1]))),
    (
        TWO,
        true,
        &[(0, Scan), (1, Tiled)],
        Err(HeaderFault::BadPartType { part: 1 }),
    ),
    (
        TWO,
        true,
        &[(0, Scan), (1, Scan), (0, Scan)],
        Err(HeaderFault::TwicePart { part: 2 }),
    ),
];

/// The parts of a head that are given.
fn given(
    alloc: Global,
    head: &FileHead,
    parts: &[(usize, PartKind)],
) -> Result<Vec<(PartKind, AttributeMap)>, Fail> {
    let mut given = Vec::new(alloc);
    for (number, kind) in parts {
        let part = head.parts().get(*number).ok_or("a part")?;
        given.push((*kind, part.attributes().copy(alloc)?))?;
    }
    Ok(given)
}

/// The bytes of the head of some parts, or its first fault.
fn made(
    alloc: Global,
    multi: bool,
    parts: Vec<(PartKind, AttributeMap)>,
) -> Result<Result<Vec<u8>, HeaderFault>, Fail> {
    if parts.is_empty() || (!multi && parts.len() != 1) {
        return Err(Fail::from("another number of parts"));
    }
    match FileHead::new(alloc, multi, parts) {
        Ok(head) if head.multi() == multi => Ok(Ok(write_head(alloc, &head)?)),
        Ok(_) => Err(Fail::from("another head")),
        Err(Refusal::Fault(fault)) => Ok(Err(fault)),
        Err(Refusal::NoMemory) => Err(Fail::from("no memory")),
    }
}

#[test]
fn heads_of_given_parts(rt: HostRuntime) -> Result<(), Fail> {
    for (source, multi, parts, outcome) in CASES {
        let (head, _) = read_head(rt.alloc(), &spell(rt.alloc(), *source)?)?;
        let parts = given(rt.alloc(), &head, parts)?;
        let expected = match outcome {
            Ok(head) => Ok(spell(rt.alloc(), *head)?),
            Err(fault) => Err(*fault),
        };
        assert!(rt; made(rt.alloc(), *multi, parts)? == expected);
    }
    Ok(())
}

/// Names of two letters, in rising order.
fn names(alloc: Global, count: usize) -> Result<Vec<[u8; 2]>, Fail> {
    let mut names = Vec::new(alloc);
    for high in b'A'..b'Z' {
        for low in b'@'..0x80 {
            if names.len() < count {
                names.push([high, low])?;
            }
        }
    }
    Ok(names)
}

/// How many there are, and the limit that is passed.
const MOST: &[(usize, Option<Bound>, Option<Bound>)] = &[
    (1024, None, None),
    (1025, Some(Bound::Parts), Some(Bound::Channels)),
];

#[test]
fn the_most_parts_and_channels(rt: HostRuntime) -> Result<(), Fail> {
    for (count, of_parts, of_channels) in MOST {
        let names = names(rt.alloc(), *count)?;
        let mut parts = Vec::new(rt.alloc());
        let mut channels = Vec::new(rt.alloc());
        for name in names.iter() {
            parts.push(PartSpec { name, ..PART_0 })?;
            channels.push(ChannelSpec { name, ..Y })?;
        }
        let head = part_head(rt.alloc(), &parts)?;
        assert!(rt; fault_of(rt.alloc(), &head)? == of_parts.map(HeaderFault::Limit));
        let picture = Picture {
            channels: &channels,
            ..ONE_PIXEL
        };
        let head = single_head(rt.alloc(), &picture, &[])?;
        assert!(rt; fault_of(rt.alloc(), &head)? == of_channels.map(HeaderFault::Limit));
    }
    Ok(())
}

#[test]
fn the_most_given_parts(rt: HostRuntime) -> Result<(), Fail> {
    let (head, _) = read_head(rt.alloc(), &spell(rt.alloc(), ONE)?)?;
    let parts = given(rt.alloc(), &head, &[(0, Scan); 1025])?;
    let fault = HeaderFault::Limit(Bound::Parts);
    assert!(rt; made(rt.alloc(), true, parts)? == Err(fault));
    Ok(())
}

/// A head of one pixel with a value of so many bytes.
fn head_of(alloc: Global, size: usize) -> Result<Vec<u8>, Fail> {
    let mut more = Vec::new(alloc);
    put_attribute(&mut more, b"a", b"t", &vec![in alloc; 0u8; size]?)?;
    Ok(single_head(alloc, &ONE_PIXEL, &more)?)
}

/// The size of the value that fills a head of 2^24 bytes.
const MOST_BYTES: usize = (1 << 24) - 277 - 8;

/// A small attribute.
fn small(alloc: Global) -> Result<(PackedName, Attribute), Fail> {
    let name = PackedName::new(alloc, b"b")?.ok_or("a name")?;
    let kind = name.copy(alloc)?;
    let value = AttributeValue::new(alloc, b"")?;
    Ok((name, Attribute { kind, value }))
}

#[test]
fn heads_of_16_mib(rt: HostRuntime) -> Result<(), Fail> {
    let limit = HeaderFault::Limit(Bound::HeadBytes);
    let greater = head_of(rt.alloc(), MOST_BYTES + 1)?;
    assert!(rt; fault_of(rt.alloc(), &greater)? == Some(limit));
    let bytes = head_of(rt.alloc(), MOST_BYTES)?;
    let (head, len) = read_head(rt.alloc(), &bytes)?;
    assert!(rt; len == 1 << 24);
    let mut parts = given(rt.alloc(), &head, &[(0, Scan)])?;
    for (_, map) in parts.iter_mut() {
        let (name, attribute) = small(rt.alloc())?;
        map.set(name, attribute)?;
    }
    assert!(rt; made(rt.alloc(), false, parts)? == Err(limit));
    let parts = given(rt.alloc(), &head, &[(0, Scan)])?;
    assert!(rt; made(rt.alloc(), false, parts)? == Ok(bytes));
    Ok(())
}
