//! Writing the attributes of a header.

ghost use Rattle.std.specs.Prelude.{◌≡◌, ◌++◌, OnOk, OnErr};
ghost use Rattle.exr_attributes.specs.Spelling.{entry_spelling, header_spelling};

use crate::attribute::Entry;
use crate::map::AttributeMap;
use exr_base::NoMemory;
use std::alloc::Global;

/// Appends a header: its attributes, and the zero that ends it. Where memory runs out `to` is unchanged.
///
/// File Layout, "Component Three: Header".
pub fn write_attributes(alloc: Global, map: &AttributeMap, to: &mut Vec<u8>) -> Result<(), NoMemory>
    ensures ok { OnOk result (to.new.items ≡ to.old.items ++ header_spelling map.now) }
    ensures err { OnErr result (to.new.items ≡ to.old.items) }
{
    let mut text = Vec::new(alloc);
    for entry in map.entries() {
        write_entry(&mut text, entry)?;
    }
    text.push(0)?;
    to.extend_from_slice(&text)?;
    Ok(())
}

/// Appends one attribute with its name.
fn write_entry(text: &mut Vec<u8>, entry: &Entry) -> Result<(), NoMemory>
    ensures { OnOk result (text.new.items ≡ text.old.items ++ entry_spelling entry.now) }
{
    text.extend_from_slice(entry.name.bytes())?;
    text.push(0)?;
    text.extend_from_slice(entry.attribute.kind.bytes())?;
    text.push(0)?;
    let value = entry.attribute.value.bytes();
    text.extend_from_slice(&(value.len() as u32).to_le_bytes())?;
    text.extend_from_slice(value)?;
    Ok(())
}
