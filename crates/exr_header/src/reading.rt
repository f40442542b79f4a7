//! Reading the head of a file.

ghost use Rattle.std.specs.Prelude.{◌≡◌, ◌≤◌, ◌<◌, ◌+◌, ◌++◌, ◌^◌, ◌⊎◌, ℕ, List, [], All, length, take, sum_by, true, false, IfOk};
ghost use Rattle.exr_base.specs.Refusal.{Gives};
ghost use Rattle.exr_attributes.specs.Reading.{Reads};
ghost use Rattle.exr_judge.specs.Picture.{chunk_count_of, IsPicture};
ghost use Rattle.exr_header.specs.Head.{Head, head_from, has_bit, is_version, flags_of, word_at, version_at, kind_read, part_read, last_at, some_parts, parts_at, single_at, many_at, head_at, head_of};
ghost use Rattle.exr_header.specs.Settled.{IsCutShort, IsSettled};
ghost use Rattle.exr_header.specs.Spells.{Spells, head_read};

use crate::head::FileHead;
use exr_attributes::{
    AttributeMap, Bound, Field, HeaderFault, head_bytes, head_number, read_attributes,
};
use exr_base::{Cursor, Refusal};
use exr_judge::{Flags, Header, PartKind, chunk_count, judged, typed_kind};
use std::alloc::Global;

/// Whether a version word has the bit of a weight.
fn has_bit(weight: u32, word: u32) -> bool
    requires { 1 ≤ weight }
    ensures { result ≡ has_bit weight word }
{
    (word / weight) % 2 == 1
}

/// Whether a version word has version 2 and known bits alone.
fn is_version(word: u32) -> bool
    ensures { result ≡ is_version word }
{
    word % 512 == 2 && word / 512 < 16
}

/// The flags of a version word.
fn flags_of(word: u32) -> Flags
    ensures { result ≡ flags_of word }
{
    Flags {
        multi: has_bit(4096, word),
        deep: has_bit(2048, word),
    }
}

/// Reads the version word.
#[tactic(auto, unfolding(crate::specs::Head::word_at))]
fn version_word(from: &mut Cursor) -> Result<u32, Refusal<HeaderFault>>
    ensures { Reads (λ word. word) result from.new (word_at from.old) }
{
    let word = head_number(from)?;
    if !is_version(word) {
        return Err(Refusal::Fault(HeaderFault::BadVersion { word }));
    }
    Ok(word)
}

/// Reads the magic number and the version word.
#[tactic(auto, unfolding(crate::specs::Head::version_at))]
fn version(from: &mut Cursor) -> Result<u32, Refusal<HeaderFault>>
    ensures { Reads (λ word. word) result from.new (version_at from.old) }
{
    let first = head_bytes(from, 4)?;
    if first != [0x76, 0x2f, 0x31, 0x01].as_slice() {
        return Err(Refusal::Fault(HeaderFault::BadMagic));
    }
    version_word(from)
}

/// The kind of a part.
#[tactic(auto, unfolding(crate::specs::Head::kind_read))]
fn kind_read(word: u32, part: u32, map: &AttributeMap) -> Result<PartKind, Refusal<HeaderFault>>
    ensures { Gives (λ kind. kind) result (kind_read word part map.now) }
{
    if has_bit(4096, word) || has_bit(2048, word) {
        return typed_kind(part, map);
    }
    if has_bit(512, word) {
        Ok(PartKind::Tiled)
    } else {
        Ok(PartKind::Scan)
    }
}

/// The header that follows the `earlier` ones, which have `chunks` chunks.
#[tactic(auto, unfolding(crate::specs::Head::part_read))]
fn part_read(
    alloc: Global,
    word: u32,
    earlier: &[Header],
    chunks: u64,
    map: AttributeMap,
) -> Result<Header, Refusal<HeaderFault>>
    requires parts { length earlier.now < 2 ^ 32 }
    requires counted { chunks ≡ sum_by chunk_count_of earlier.now }
    requires few { chunks ≤ 2 ^ 20 }
    ensures exact { Gives (λ header. header) result (part_read word earlier.now map) }
    ensures picture { IfOk result IsPicture }
    ensures few { IfOk result (λ header. chunks + chunk_count_of header ≤ 2 ^ 20) }
{
    let kind = kind_read(word, earlier.len() as u32, &map)?;
    judged(alloc, flags_of(word), earlier, chunks, kind, map)
}

/// Reads what follows 1,024 headers: the zero that ends them.
#[tactic(auto, unfolding(crate::specs::Head::last_at))]
fn last(parts: Vec<Header>, from: &mut Cursor) -> Result<Vec<Header>, Refusal<HeaderFault>>
    ensures exact { Reads (λ parts. parts.items) result from.new (last_at parts.items from.old) }
    ensures same { IfOk result (λ all. all.items ≡ parts.items) }
{
    let byte = head_bytes(from, 1)?;
    if byte[0] != 0 {
        return Err(Refusal::Fault(HeaderFault::Limit(Bound::Parts)));
    }
    Ok(parts)
}

/// Reads the headers of a multi-part file, up to and including the zero that ends them.
fn parts(alloc: Global, word: u32, from: &mut Cursor) -> Result<Vec<Header>, Refusal<HeaderFault>>
    ensures exact { Reads (λ parts. parts.items) result from.new (parts_at 1024 word [] from.old) }
    ensures pictures { IfOk result (λ parts. All IsPicture parts.items) }
{
    let mut parts = Vec::new(alloc);
    let mut chunks = 0u64;
    for _i in 0..1024usize {
        let map = read_attributes(alloc, from)?;
        if map.len() == 0 {
            return some_parts(parts);
        }
        let part = part_read(alloc, word, parts.as_slice(), chunks, map)?;
        chunks += chunk_count(&part);
        parts.push(part)?;
    }
    last(parts, from)
}

/// The headers, if there is at least one.
fn some_parts(parts: Vec<Header>) -> Result<Vec<Header>, Refusal<HeaderFault>>
    ensures exact { Gives (λ parts. parts.items) result (some_parts parts.items) }
    ensures same { IfOk result (λ all. all.items ≡ parts.items) }
{
    if parts.is_empty() {
        return Err(Refusal::Fault(HeaderFault::Missing {
            part: 0,
            field: Field::Channels,
        }));
    }
    Ok(parts)
}

/// Reads the header of a file that is not multi-part.
#[tactic(auto, unfolding(crate::specs::Head::single_at))]
fn single(alloc: Global, word: u32, from: &mut Cursor) -> Result<Vec<Header>, Refusal<HeaderFault>>
    ensures exact { Reads (λ parts. head_from false parts.items) result from.new (single_at word from.old) }
    ensures pictures { IfOk result (λ parts. All IsPicture parts.items) }
{
    let map = read_attributes(alloc, from)?;
    let mut parts = Vec::new(alloc);
    let part = part_read(alloc, word, parts.as_slice(), 0, map)?;
    parts.push(part)?;
    Ok(parts)
}

/// Reads the headers of a multi-part file.
#[tactic(auto, unfolding(crate::specs::Head::many_at))]
fn many(alloc: Global, word: u32, from: &mut Cursor) -> Result<Vec<Header>, Refusal<HeaderFault>>
    ensures exact { Reads (λ parts. head_from true parts.items) result from.new (many_at word from.old) }
    ensures pictures { IfOk result (λ parts. All IsPicture parts.items) }
{
    let parts = parts(alloc, word, from)?;
    Ok(parts)
}

/// Reads whether the file is multi-part, and its headers.
#[tactic(auto, unfolding(crate::specs::Head::head_at))]
fn head(alloc: Global, from: &mut Cursor) -> Result<(bool, Vec<Header>), Refusal<HeaderFault>>
    ensures exact { Reads (λ x. head_from x.0 x.1.items) result from.new (head_at from.old) }
    ensures pictures { IfOk result (λ x. All IsPicture x.1.items) }
{
    let word = version(from)?;
    if has_bit(4096, word) {
        let parts = many(alloc, word, from)?;
        Ok((true, parts))
    } else {
        let parts = single(alloc, word, from)?;
        Ok((false, parts))
    }
}

/// The head at the front of some bytes, and its length in bytes.
#[tactic(auto, unfolding(crate::specs::Head::head_of))]
fn front_head(alloc: Global, bytes: &[u8]) -> Result<(FileHead, usize), Refusal<HeaderFault>>
    ensures { Gives (λ x. (x.0, x.1)) result (head_of bytes.now) }
{
    let mut from = Cursor::new(bytes);
    let (multi, parts) = head(alloc, &mut from)?;
    Ok((FileHead { multi, parts }, from.at()))
}

/// Reads the head that the bytes begin with, and its length in bytes. The slice is the whole input, or a prefix of it: what
/// is read of a prefix, other than that it ends too soon, is what is read of the whole, and so is whatever is read of more
/// than 2^24 bytes.
///
/// The fault is the first from the front; a part is validated after the zero that ends its header.
///
/// File Layout, "Components One and Two: Magic Number and Version Field" and "Component Three: Header".
pub fn read_head(alloc: Global, bytes: &[u8]) -> Result<(FileHead, usize), Refusal<HeaderFault>>
    // What is read, or which fault it is.
    ensures exact { Gives (λ x. (x.0, x.1)) result (head_of bytes.now) }
    // What is read is spelled so.
    ensures found { IfOk result (λ x. Spells (take x.1 bytes.now) x.0) }
    // What is spelled so is read, whatever follows.
    ensures again { (front : List ℕ) → (rest : List ℕ) → (h : Head) → bytes.now ≡ front ++ rest → Spells front h
        → Gives (λ x. (x.0, x.1)) result (head_read h (length front)) }
    // The head lies within the bytes, and within its limit.
    ensures inside { IfOk result (λ x. (x.1 ≤ length bytes.now) × (x.1 ≤ 2 ^ 24)) }
    // Unless the bytes end too soon, the same is read whatever follows them.
    ensures settled { IsCutShort bytes.now ⊎ IsSettled bytes.now }
{
    front_head(alloc, bytes)
}
