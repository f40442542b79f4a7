//! The head of a file: the magic number, the version word, and the headers of its parts.

use crate::attributes::{put_attribute, put_string};
use crate::picture::{Picture, picture_attributes};
use exr_base::NoMemory;
use std::alloc::Global;

/// Bit 9 of the version word: the one part is in tiles.
const TILED: u32 = 0x200;

/// Bit 12 of the version word: the file has many parts.
const MULTI: u32 = 0x1000;

/// The magic number, and a version word of version 2 with some flags.
///
/// File Layout, "Components One and Two: Magic Number and Version Field".
fn front(alloc: Global, flags: u32) -> Result<Vec<u8>, NoMemory> {
    let mut to = Vec::new(alloc);
    to.extend_from_slice(b"v/1\x01")?;
    to.extend_from_slice(&(flags | 2).to_le_bytes())?;
    Ok(to)
}

/// The head of a file of one picture, with more attributes after its own: 277 bytes for `ONE_PIXEL` without more.
pub fn single_head(alloc: Global, picture: &Picture, more: &[u8]) -> Result<Vec<u8>, NoMemory> {
    let flags = if picture.tiles.is_some() { TILED } else { 0 };
    flagged_head(alloc, flags, picture, more)
}

/// The same under other flags, as a deep part or long names have them.
pub fn flagged_head(
    alloc: Global,
    flags: u32,
    picture: &Picture,
    more: &[u8],
) -> Result<Vec<u8>, NoMemory> {
    let mut to = front(alloc, flags)?;
    to.extend_from_slice(&picture_attributes(alloc, picture)?)?;
    to.extend_from_slice(more)?;
    to.push(0)?;
    Ok(to)
}

/// A part among others.
#[derive(Clone, Copy)]
pub struct PartSpec<'a> {
    pub picture: Picture<'a>,
    pub name: &'a [u8],
    /// How many chunks its header says that it has.
    pub chunks: u32,
}

/// The head of a file of parts, each of scan lines or tiles as its picture says.
///
/// File Layout, "Multi-Part and Deep Data".
pub fn part_head(alloc: Global, parts: &[PartSpec]) -> Result<Vec<u8>, NoMemory> {
    let mut to = front(alloc, MULTI)?;
    for part in parts {
        let kind: &[u8] = if part.picture.tiles.is_some() {
            b"tiledimage"
        } else {
            b"scanlineimage"
        };
        to.extend_from_slice(&picture_attributes(alloc, &part.picture)?)?;
        put_string(&mut to, b"name", part.name)?;
        put_string(&mut to, b"type", kind)?;
        put_attribute(&mut to, b"chunkCount", b"int", &part.chunks.to_le_bytes())?;
        to.push(0)?;
    }
    to.push(0)?;
    Ok(to)
}
