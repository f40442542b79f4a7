//! One attribute after another, as a header has them.

use exr_base::NoMemory;

/// Appends an attribute: its name, its type, the size of its value, and the value.
///
/// File Layout, "Component Three: Header", "Attribute Layout".
pub fn put_attribute(
    to: &mut Vec<u8>,
    name: &[u8],
    kind: &[u8],
    value: &[u8],
) -> Result<(), NoMemory> {
    to.extend_from_slice(name)?;
    to.push(0)?;
    to.extend_from_slice(kind)?;
    to.push(0)?;
    to.extend_from_slice(&value.len().to_le_bytes()[..4])?;
    to.extend_from_slice(value)?;
    Ok(())
}

/// Appends an attribute of the type `string`, as `name` and `type` are.
pub fn put_string(to: &mut Vec<u8>, name: &[u8], value: &[u8]) -> Result<(), NoMemory> {
    put_attribute(to, name, b"string", value)
}
