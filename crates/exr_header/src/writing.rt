//! Writing the head of a file.

ghost use Rattle.std.specs.Prelude.{◌≡◌, ◌≤◌, ◌++◌, OnOk, IfOk};
ghost use Rattle.std.specs.List.{list_any};
ghost use Rattle.exr_judge.specs.Kind.{is_deep};
ghost use Rattle.exr_header.specs.Head.{is_long_entry, is_long_channel, is_long_header, is_tiled_kind, bit_of, version_of, parts_spelling, head_from, head_spelling};
ghost use Rattle.exr_header.specs.Spells.{Spells, IsRead};

use crate::head::FileHead;
use exr_attributes::{Entry, write_attributes};
use exr_base::{Channel, NoMemory};
use exr_judge::{Header, PartKind};
use std::alloc::Global;

/// Whether an entry has a long name or a long type.
fn is_long_entry(entry: &Entry) -> bool
    ensures { result ≡ is_long_entry entry.now }
{
    entry.name.bytes().len() > 31 || entry.attribute.kind.bytes().len() > 31
}

/// Whether a channel has a long name.
fn is_long_channel(channel: &Channel) -> bool
    ensures { result ≡ is_long_channel channel.now }
{
    channel.name.bytes().len() > 31
}

/// Whether one of some entries has a long name.
fn has_long_entry(entries: &[Entry]) -> bool
    ensures { result ≡ list_any is_long_entry entries.now }
{
    entries.iter().any(|e| is_long_entry(e))
}

/// Whether one of some channels has a long name.
fn has_long_channel(channels: &[Channel]) -> bool
    ensures { result ≡ list_any is_long_channel channels.now }
{
    channels.iter().any(|c| is_long_channel(c))
}

/// Whether a header has a long name.
fn is_long_header(header: &Header) -> bool
    ensures { result ≡ is_long_header header.now }
{
    has_long_entry(header.attributes().entries()) || has_long_channel(header.channels())
}

/// A weight where a bit is set.
fn bit_of(set: bool, weight: u32) -> u32
    ensures exact { result ≡ bit_of set weight }
    ensures small { result ≤ weight }
{
    if set { weight } else { 0 }
}

/// Whether a kind is that of tiles that are not deep.
fn is_tiled_kind(kind: PartKind) -> bool
    ensures { result ≡ is_tiled_kind kind }
{
    match kind {
        PartKind::Tiled => true,
        PartKind::Scan | PartKind::DeepScan | PartKind::DeepTiled => false,
    }
}

/// Whether one of some parts has tiles and is not deep.
fn has_tiles(parts: &[Header]) -> bool
    ensures { result ≡ list_any (λ p. is_tiled_kind p.kind) parts.now }
{
    parts.iter().any(|p| is_tiled_kind(p.kind()))
}

/// Whether one of some parts has a long name.
fn has_long_names(parts: &[Header]) -> bool
    ensures { result ≡ list_any is_long_header parts.now }
{
    parts.iter().any(|p| is_long_header(p))
}

/// Whether one of some parts is deep.
fn has_deep_data(parts: &[Header]) -> bool
    ensures { result ≡ list_any (λ p. is_deep p.kind) parts.now }
{
    parts.iter().any(|p| p.kind().is_deep())
}

/// The version word of a head.
fn version_of(multi: bool, parts: &[Header]) -> u32
    ensures { result ≡ version_of (head_from multi parts.now) }
{
    let single_tiled = !multi && has_tiles(parts);
    2 + bit_of(single_tiled, 512)
        + bit_of(has_long_names(parts), 1024)
        + bit_of(has_deep_data(parts), 2048)
        + bit_of(multi, 4096)
}

/// Appends the headers of some parts.
fn write_parts(alloc: Global, parts: &[Header], to: &mut Vec<u8>) -> Result<(), NoMemory>
    ensures { OnOk result (to.new.items ≡ to.old.items ++ parts_spelling parts.now) }
{
    for part in parts {
        write_attributes(alloc, part.attributes(), to)?;
    }
    Ok(())
}

/// The bytes of a head of these parts.
pub(crate) fn spelling_of(alloc: Global, multi: bool, parts: &[Header]) -> Result<Vec<u8>, NoMemory>
    ensures { IfOk result (λ bytes. bytes.items ≡ head_spelling (head_from multi parts.now)) }
{
    let mut to = Vec::new(alloc);
    to.extend_from_slice(&[0x76, 0x2f, 0x31, 0x01])?;
    to.extend_from_slice(&version_of(multi, parts).to_le_bytes())?;
    write_parts(alloc, parts, &mut to)?;
    if multi {
        to.push(0)?;
    }
    Ok(to)
}

/// Writes a head: at most 2^24 bytes, which are read as this head, whatever follows them.
///
/// Of the version word bit 9 is set for a single tiled part, bit 10 where the name of an attribute, a type or a channel has
/// more than 31 bytes, bit 11 where a part is deep, bit 12 in a multi-part file.
///
/// File Layout, "Components One and Two: Magic Number and Version Field" and "Component Three: Header".
pub fn write_head(alloc: Global, head: &FileHead) -> Result<Vec<u8>, NoMemory>
    ensures value { IfOk result (λ bytes. bytes.items ≡ head_spelling head.now) }
    // What is written spells the head.
    ensures spells { IfOk result (λ bytes. Spells bytes.items head.now) }
    // What is written is read as the head, whatever follows.
    ensures again { IfOk result (λ bytes. IsRead bytes.items head.now) }
{
    spelling_of(alloc, head.multi(), head.parts())
}
