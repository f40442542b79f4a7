//! The attributes of a header by name, in the order of the file.
//!
//! A look-up is a linear search: a header has a few dozen attributes.

ghost use Rattle.std.specs.Prelude.{◌≡◌, ◌≤◌, false, [], length, slice_get, MatchOption, IfOk, OnOk, OnErr};
ghost use Rattle.std.specs.Option.{option_copied};
ghost use Rattle.exr_attributes.specs.Entry.{AreEntries, IsFirst, attribute_of, with_attribute, without, has_name};
ghost use Rattle.exr_attributes.specs.Spelling.{AreSized, AreAttributes};

use crate::attribute::{Attribute, Entry};
use crate::name::PackedName;
use exr_base::NoMemory;
use std::alloc::Global;
use std::marker::Model;

/// The attributes of one header, with distinct names, in the order of the file.
///
/// File Layout, "Component Three: Header".
#[derive(Drop, Debug)]
pub struct AttributeMap {
    entries: Vec<Entry>,
}

impl Model for AttributeMap {
    ghost use Rattle.std.specs.Prelude.{List};
    ghost use Rattle.exr_attributes.specs.declared.attribute.Entry.{Entry};
    ghost use Rattle.exr_attributes.specs.Spelling.{AreAttributes};

    ghost Value = { List Entry };

    ghost view = { λ m. m.entries.items };

    ghost invariant = { λ m. AreAttributes m.entries.items };
}

impl AttributeMap {
    /// An empty map.
    pub fn new(alloc: Global) -> AttributeMap
        ensures { result ≡ [] }
    {
        AttributeMap {
            entries: Vec::new(alloc),
        }
    }

    /// The number of attributes.
    pub fn len(&self) -> usize
        ensures { result ≡ length self.now }
    {
        self.entries.len()
    }

    /// All of them, in their order.
    pub fn entries(&self) -> &[Entry]
        ensures value { result.now ≡ self.now }
        ensures lawful { AreEntries self.now }
        ensures sized { AreSized self.now }
    {
        self.entries.as_slice()
    }

    /// The name and the attribute at an index; `None` exactly where it is not below `len`.
    pub fn at(&self, place: usize) -> Option<(&PackedName, &Attribute)>
        ensures { MatchOption result (length self.now ≤ place)
            (λ e. slice_get self.now place ≡ Some (record { name = e.0.now; attribute = e.1.now })) }
    {
        if place >= self.entries.len() {
            return None;
        }
        let entry = &self.entries[place];
        Some((&entry.name, &entry.attribute))
    }

    /// The attribute with a name; `None` exactly where there is none.
    pub fn get(&self, name: &PackedName) -> Option<&Attribute>
        ensures { option_copied result ≡ attribute_of name.now self.now }
    {
        self.find(name.bytes())
    }

    /// The attribute whose name has these bytes; `None` exactly where there is none.
    pub fn find(&self, name: &[u8]) -> Option<&Attribute>
        ensures { option_copied result ≡ attribute_of name.now self.now }
    {
        match place_of(self.entries.as_slice(), name) {
            Some(place) => Some(&self.entries[place].attribute),
            None => None,
        }
    }

    /// Replaces the attribute with that name, or appends it where there is none. Where memory runs out the map is
    /// unchanged.
    pub fn set(&mut self, name: PackedName, attribute: Attribute) -> Result<(), NoMemory>
        ensures ok { OnOk result (self.new ≡ with_attribute name attribute self.old) }
        ensures err { OnErr result (self.new ≡ self.old) }
    {
        let _kind = attribute.kind.bytes();
        let _value = attribute.value.bytes();
        match place_of(self.entries.as_slice(), name.bytes()) {
            Some(place) => {
                self.entries[place].attribute = attribute;
                Ok(())
            }
            None => {
                self.entries.push(Entry { name, attribute })?;
                Ok(())
            }
        }
    }

    /// Removes the attribute with a name; the later ones move up. Returns whether there was one.
    pub fn remove(&mut self, name: &PackedName) -> bool
        ensures there { result ≡ has_name name.now self.old }
        ensures rest { self.new ≡ without name.now self.old }
    {
        match place_of(self.entries.as_slice(), name.bytes()) {
            Some(place) => {
                let _removed = self.entries.remove(place);
                true
            }
            None => false,
        }
    }

    /// A copy of the map.
    pub fn copy(&self, alloc: Global) -> Result<AttributeMap, NoMemory>
        ensures { IfOk result (λ map. map ≡ self.now) }
    {
        let entries = copied(alloc, self.entries.as_slice())?;
        Ok(AttributeMap { entries })
    }

    /// The map of entries that were read.
    pub(crate) fn of(entries: Vec<Entry>) -> AttributeMap
        requires { AreAttributes entries.items }
        ensures { result ≡ entries.items }
    {
        AttributeMap { entries }
    }
}

/// The place of the first entry of a name.
fn place_of(entries: &[Entry], name: &[u8]) -> Option<usize>
    ensures { MatchOption result (has_name name.now entries.now ≡ false) (IsFirst name.now entries.now) }
{
    for i in 0..entries.len() {
        if name == entries[i].name.bytes() {
            return Some(i);
        }
    }
    None
}

/// A copy of the entries.
fn copied(alloc: Global, entries: &[Entry]) -> Result<Vec<Entry>, NoMemory>
    ensures { IfOk result (λ copies. copies.items ≡ entries.now) }
{
    let mut copies = Vec::new(alloc);
    for entry in entries {
        copies.push(entry.copy(alloc)?)?;
    }
    Ok(copies)
}
