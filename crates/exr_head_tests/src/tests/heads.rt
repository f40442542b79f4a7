//! Heads as tables write them, and their bytes.

use exr_attributes::HeaderFault;
use exr_base::Refusal;
use exr_fixtures::{
    ChannelSpec, ONE_PIXEL, PartSpec, Picture, Y, flagged_head, part_head, picture_attributes,
    put_attribute,
};
use exr_header::read_head;
use std::alloc::Global;
use std::test::Fail;

/// Bits of the version word: one part in tiles, long names, deep data, and many parts.
pub const TILED: u32 = 0x200;

pub const LONG_NAMES: u32 = 0x400;

pub const DEEP: u32 = 0x800;

/// An attribute: its name, its type and its value.
pub type Extra = (&'static [u8], &'static [u8], &'static [u8]);

/// Bytes of a head, and those that are put over their front where they come first.
pub type Edit = (&'static [u8], &'static [u8]);

/// A head.
#[derive(Clone, Copy)]
pub enum Spelled {
    /// One picture, under some flags, with more attributes.
    One(u32, Picture<'static>, &'static [Extra]),
    /// Many parts.
    Many(&'static [PartSpec<'static>]),
}

/// Five by five pixels in tiles of two by two.
pub const TILES: Picture<'static> = Picture {
    window: [0, 0, 4, 4],
    tiles: Some((2, 2)),
    ..ONE_PIXEL
};

/// The FLOAT channel `Z`.
pub const Z: ChannelSpec<'static> = ChannelSpec {
    name: b"Z",
    kind: 2,
    ..Y
};

/// Two pixels of the channels `Y` and `Z`.
pub const TWO_PIXELS: Picture<'static> = Picture {
    channels: &[Y, Z],
    window: [0, 0, 1, 0],
    ..ONE_PIXEL
};

/// What a deep part of one chunk of lines has besides.
pub const DEEP_LINES: &[Extra] = &[
    (b"name", b"string", b"deep"),
    (b"type", b"string", b"deepscanline"),
    (b"version", b"int", b"\x01\0\0\0"),
    (b"chunkCount", b"int", b"\x01\0\0\0"),
    (b"maxSamplesPerPixel", b"int", b"\xff\xff\xff\xff"),
];

/// What a deep part of tiles needs besides.
pub const DEEP_TILES: &[Extra] = &[
    (b"type", b"string", b"deeptile"),
    (b"version", b"int", b"\x01\0\0\0"),
];

/// A part of one pixel and one chunk.
pub const PART_0: PartSpec<'static> = PartSpec {
    picture: ONE_PIXEL,
    name: b"part0",
    chunks: 1,
};

pub const PART_1: PartSpec<'static> = PartSpec {
    name: b"part1",
    ..PART_0
};

/// The heads of one pixel, of tiles, of a deep part, and of two parts.
pub const ONE: Spelled = Spelled::One(0, ONE_PIXEL, &[]);

pub const IN_TILES: Spelled = Spelled::One(TILED, TILES, &[]);

pub const DEEP_ONE: Spelled = Spelled::One(DEEP, TWO_PIXELS, DEEP_LINES);

pub const TWO: Spelled = Spelled::Many(&[PART_0, PART_1]);

/// The bytes of attributes.
pub fn extras(alloc: Global, more: &[Extra]) -> Result<Vec<u8>, Fail> {
    let mut bytes = Vec::new(alloc);
    for (name, kind, value) in more {
        put_attribute(&mut bytes, name, kind, value)?;
    }
    Ok(bytes)
}

/// The attributes of a picture and more of them, and the zero that ends them.
pub fn attributes_of(alloc: Global, picture: &Picture, more: &[Extra]) -> Result<Vec<u8>, Fail> {
    let mut bytes = picture_attributes(alloc, picture)?;
    bytes.extend_from_slice(&extras(alloc, more)?)?;
    bytes.push(0)?;
    Ok(bytes)
}

/// The bytes of a head.
pub fn spell(alloc: Global, head: Spelled) -> Result<Vec<u8>, Fail> {
    Ok(match head {
        Spelled::One(flags, picture, more) => {
            flagged_head(alloc, flags, &picture, &extras(alloc, more)?)?
        }
        Spelled::Many(parts) => part_head(alloc, parts)?,
    })
}

/// The place where some bytes come first.
fn place_of(head: &[u8], old: &[u8]) -> Option<usize> {
    for place in 0..head.len() {
        if head.get(place..).is_some_and(|rest| rest.starts_with(old)) {
            return Some(place);
        }
    }
    None
}

/// The bytes of a head after some edits.
pub fn spell_edited(
    alloc: Global,
    head: Spelled,
    edits: &[(&[u8], &[u8])],
) -> Result<Vec<u8>, Fail> {
    let mut bytes = spell(alloc, head)?;
    for (old, new) in edits {
        let place = place_of(&bytes, old).ok_or("bytes of the head")?;
        for (byte, put) in bytes.iter_mut().skip(place).zip(*new) {
            *byte = *put;
        }
    }
    Ok(bytes)
}

/// The front of an attribute: its name, a zero, and its type.
pub fn front(alloc: Global, name: &[u8], kind: &[u8]) -> Result<Vec<u8>, Fail> {
    let mut bytes = name.to_vec(alloc)?;
    bytes.push(0)?;
    bytes.extend_from_slice(kind)?;
    Ok(bytes)
}

/// The bytes of a head of one part, in which an attribute of that name stands last in the place of the one that was there,
/// which has another name then.
pub fn spell_with(alloc: Global, head: Spelled, extra: Extra) -> Result<Vec<u8>, Fail> {
    let (name, kind, value) = extra;
    let there = front(alloc, name, b"")?;
    let mut bytes = spell_edited(alloc, head, &[(&there, b"?")])?;
    let _end = bytes.pop();
    put_attribute(&mut bytes, name, kind, value)?;
    bytes.push(0)?;
    Ok(bytes)
}

/// The fault of a head; `None` where it is read whole.
pub fn fault_of(alloc: Global, bytes: &[u8]) -> Result<Option<HeaderFault>, Fail> {
    match read_head(alloc, bytes) {
        Ok((_, len)) if len == bytes.len() => Ok(None),
        Ok(_) => Err(Fail::from("bytes are left")),
        Err(Refusal::Fault(fault)) => Ok(Some(fault)),
        Err(Refusal::NoMemory) => Err(Fail::from("no memory")),
    }
}
