//! Attributes, with and without their names.

ghost use Rattle.std.specs.Prelude.{◌≡◌, IfOk};

use crate::name::PackedName;
use crate::value::AttributeValue;
use exr_base::NoMemory;
use std::alloc::Global;

/// The name of an attribute's type, and its value.
///
/// File Layout, "Component Three: Header": attribute type and attribute value.
#[derive(Drop, Debug)]
pub struct Attribute {
    pub kind: PackedName,
    pub value: AttributeValue,
}

/// An attribute with its name.
#[derive(Drop, Debug)]
pub struct Entry {
    pub name: PackedName,
    pub attribute: Attribute,
}

impl Attribute {
    /// A copy of the attribute.
    pub fn copy(&self, alloc: Global) -> Result<Attribute, NoMemory>
        ensures { IfOk result (λ attribute. attribute ≡ self.now) }
    {
        let kind = self.kind.copy(alloc)?;
        let value = AttributeValue::new(alloc, self.value.bytes())?;
        Ok(Attribute { kind, value })
    }
}

impl Entry {
    /// A copy of the entry.
    pub fn copy(&self, alloc: Global) -> Result<Entry, NoMemory>
        ensures { IfOk result (λ entry. entry ≡ self.now) }
    {
        let name = self.name.copy(alloc)?;
        let attribute = self.attribute.copy(alloc)?;
        Ok(Entry { name, attribute })
    }
}
