//! Reading the attributes of a header.

ghost use Rattle.std.specs.Prelude.{◌≡◌, ◌++◌, ℕ, List, [], length, Ok, IfOk};
ghost use Rattle.exr_base.specs.Cursor.{left_of};
ghost use Rattle.exr_attributes.specs.declared.attribute.Entry.{Entry};
ghost use Rattle.exr_attributes.specs.Spelling.{header_spelling, IsBytes};
ghost use Rattle.exr_attributes.specs.Pass.{IsPass};
ghost use Rattle.exr_attributes.specs.Reading.{Reads, text_at, kind_at, value_at, entry_at, next_at, header_at, moved, IsSpelledAt};

use crate::attribute::{Attribute, Entry};
use crate::fault::HeaderFault;
use crate::front::{HEAD_LIMIT, byte, head_bytes, head_number, past};
use crate::map::AttributeMap;
use crate::name::PackedName;
use crate::seconds::first_second;
use crate::value::AttributeValue;
use exr_base::{Cursor, NoMemory, Refusal};
use std::alloc::Global;

/// A text and the zero that ends it, which is among the next 256 bytes.
fn text(alloc: Global, from: &mut Cursor) -> Result<Vec<u8>, Refusal<HeaderFault>>
    ensures { Reads (λ text. text.items) result from.new (text_at from.old) }
{
    let start = from.at();
    let mut text = Vec::new(alloc);
    for _i in 0..256usize {
        let byte = byte(from)?;
        if byte == 0 {
            return Ok(text);
        }
        text.push(byte)?;
    }
    Err(Refusal::Fault(HeaderFault::BadName { at: start as u64 }))
}

/// The name of a type.
#[tactic(auto, unfolding(crate::specs::Reading::kind_at))]
fn kind(alloc: Global, from: &mut Cursor) -> Result<PackedName, Refusal<HeaderFault>>
    ensures { Reads (λ kind. kind) result from.new (kind_at from.old) }
{
    let start = from.at();
    let text = text(alloc, from)?;
    match PackedName::of(text) {
        Some(kind) => Ok(kind),
        None => Err(Refusal::Fault(HeaderFault::BadName { at: start as u64 })),
    }
}

/// A size and that many bytes.
#[tactic(auto, unfolding(crate::specs::Reading::value_at))]
fn value(alloc: Global, from: &mut Cursor) -> Result<AttributeValue, Refusal<HeaderFault>>
    ensures { Reads (λ value. value) result from.new (value_at from.old) }
{
    let start = from.at();
    let size = head_number(from)?;
    if size >= 1 << 31 {
        return Err(Refusal::Fault(HeaderFault::BadSize { at: start as u64 }));
    }
    let bytes = head_bytes(from, size as usize)?;
    Ok(AttributeValue::new(alloc, bytes)?)
}

/// The type and the value that follow the name of an attribute.
#[tactic(auto, unfolding(crate::specs::Reading::entry_at))]
fn entry(alloc: Global, name: PackedName, from: &mut Cursor) -> Result<Entry, Refusal<HeaderFault>>
    ensures { Reads (λ entry. entry) result from.new (entry_at name from.old) }
{
    let kind = kind(alloc, from)?;
    let value = value(alloc, from)?;
    let attribute = Attribute { kind, value };
    Ok(Entry { name, attribute })
}

/// The next attribute with its name; `None` at the zero that ends the header.
#[tactic(auto, unfolding(crate::specs::Reading::next_at))]
fn next(alloc: Global, from: &mut Cursor) -> Result<Option<Entry>, Refusal<HeaderFault>>
    ensures { Reads (λ next. next) result from.new (next_at from.old) }
{
    let text = text(alloc, from)?;
    match PackedName::of(text) {
        Some(name) => {
            let entry = entry(alloc, name, from)?;
            Ok(Some(entry))
        }
        None => Ok(None),
    }
}

/// Reads the attributes of one header, up to and including the zero that ends it.
///
/// Its faults are `Truncated`, `BadName`, `BadSize`, `Twice` and `Limit(HeadBytes)`, the first from the front; offsets count
/// from the start of the cursor's bytes. After an error the position of the cursor is unspecified.
///
/// File Layout, "Component Three: Header".
pub fn read_attributes(
    alloc: Global,
    from: &mut Cursor,
) -> Result<AttributeMap, Refusal<HeaderFault>>
    // What is read, or which fault it is.
    ensures exact { Reads (λ map. map) result from.new (header_at from.old) }
    // What is read is spelled so.
    ensures found { IsBytes from.old.whole → IfOk result
        (λ map. left_of from.old ≡ header_spelling map ++ left_of from.new) }
    // What is spelled so is read, whatever follows.
    ensures again { (es : List Entry) → (rest : List ℕ) → IsSpelledAt from.old es rest
        → Reads (λ map. map) result from.new (Ok (es, moved (length (header_spelling es)) from.old)) }
{
    header(alloc, from)
}

/// The attributes of one header.
///
/// Names are compared last: a repeated name comes before any later fault.
fn header(alloc: Global, from: &mut Cursor) -> Result<AttributeMap, Refusal<HeaderFault>>
    ensures { Reads (λ map. map) result from.new (header_at from.old) }
{
    let mut entries = Vec::new(alloc);
    let mut starts = Vec::new(alloc);
    let fault = pass(alloc, from, &mut entries, &mut starts)?;
    if let Some(second) = first_second(alloc, entries.as_slice())? {
        return Err(Refusal::Fault(HeaderFault::Twice { at: starts[second] }));
    }
    match fault {
        Some(fault) => Err(Refusal::Fault(fault)),
        None => Ok(AttributeMap::of(entries)),
    }
}

/// Reads entries and the offsets at which they begin, up to the zero that ends the header or to the fault it returns.
fn pass(
    alloc: Global,
    from: &mut Cursor,
    entries: &mut Vec<Entry>,
    starts: &mut Vec<u64>,
) -> Result<Option<HeaderFault>, NoMemory>
    requires none { entries.now.items ≡ [] }
    requires no_places { starts.now.items ≡ [] }
    ensures { IfOk result (IsPass from.old from.new entries.new.items starts.new.items) }
{
    for _i in 0..HEAD_LIMIT {
        let start = from.at();
        let entry = match next(alloc, from) {
            Ok(Some(entry)) => entry,
            Ok(None) => return Ok(None),
            Err(Refusal::Fault(fault)) => return Ok(Some(fault)),
            Err(Refusal::NoMemory) => return Err(NoMemory),
        };
        let _kind = entry.attribute.kind.bytes();
        let _value = entry.attribute.value.bytes();
        let _name = entry.name.bytes();
        entries.push(entry)?;
        starts.push(start as u64)?;
    }
    Ok(Some(past(from)))
}
