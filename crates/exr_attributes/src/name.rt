//! Names of attributes and of types, each on the heap.
//!
//! A file can have a million attributes of ten bytes: a name that is kept inline would take 255 bytes each time.

ghost use Rattle.std.specs.Prelude.{◌≡◌, ⊤, nat_eq, IfOk};
ghost use Rattle.std.specs.Cmp.Lexicographic.{pointwise, slice_cmp};
ghost use Rattle.std.proofs.Common.{rules};
ghost use Rattle.std.specs.Cmp.Rules.{comparing};
ghost use Rattle.std.specs.Ordering.{nat_cmp, as_partial_cmp};
ghost use Rattle.exr_base.specs.Name.{name_of, IsName};

use exr_base::NoMemory;
use std::alloc::{AllocError, Global};
use std::cmp::Ordering;
use std::marker::Model;

/// A name of an attribute or of a type: 1 to 255 bytes, none of them zero. Its order is that of its bytes.
///
/// File Layout, "Component Three: Header": attribute names and types; "Components One and Two: Magic Number and
/// Version Field": long names.
#[derive(Drop, Debug)]
pub struct PackedName {
    bytes: Vec<u8>,
}

impl Model for PackedName {
    ghost use Rattle.std.specs.Prelude.{ℕ, List};
    ghost use Rattle.exr_base.specs.Name.{IsName};

    ghost Value = { List ℕ };

    ghost view = { λ n. n.bytes.items };

    ghost invariant = { λ n. IsName n.bytes.items };
}

impl PackedName {
    /// The name with these bytes; `None` where there is none, more than 255, or a zero among them.
    pub fn new(alloc: Global, bytes: &[u8]) -> Result<Option<PackedName>, NoMemory>
        ensures { IfOk result (λ name. name ≡ name_of bytes.now) }
    {
        if bytes.is_empty() || bytes.len() > 255 || bytes.contains(&0) {
            return Ok(None);
        }
        let bytes = Vec::from_slice(alloc, bytes)?;
        Ok(Some(PackedName { bytes }))
    }

    /// The same of bytes that were read.
    pub(crate) fn of(bytes: Vec<u8>) -> Option<PackedName>
        ensures { result ≡ name_of bytes.items }
    {
        if bytes.len() > 255 || bytes.is_empty() || bytes.contains(&0) {
            return None;
        }
        Some(PackedName { bytes })
    }

    /// Its bytes, 1 to 255 of them.
    pub fn bytes(&self) -> &[u8]
        ensures value { result.now ≡ self.now }
        ensures named { IsName self.now }
    {
        self.bytes.as_slice()
    }

    /// A copy of the name.
    pub fn copy(&self, alloc: Global) -> Result<PackedName, NoMemory>
        ensures { IfOk result (λ name. name ≡ self.now) }
    {
        let bytes = Vec::from_slice(alloc, self.bytes.as_slice())?;
        Ok(PackedName { bytes })
    }
}

impl PartialEq for PackedName {
    ghost eq = { pointwise nat_eq };

    ghost laws = { Prim.search (comparing, rules) };

    fn eq(&self, other: &PackedName) -> bool {
        self.bytes() == other.bytes()
    }
}

impl Eq for PackedName {
    ghost laws = { Prim.search (comparing, rules) };
}

impl PartialOrd for PackedName {
    ghost partial_cmp = { as_partial_cmp (slice_cmp nat_cmp) };

    ghost laws = { Prim.search (comparing, rules) };

    fn partial_cmp(&self, other: &PackedName) -> Option<Ordering> {
        Some(self.cmp(other))
    }
}

impl Ord for PackedName {
    ghost cmp = { slice_cmp nat_cmp };

    ghost total = { Prim.search (comparing, rules) };

    ghost matches_partial_cmp = { Prim.search (comparing, rules) };

    ghost matches_eq = { Prim.search (comparing, rules) };

    fn cmp(&self, other: &PackedName) -> Ordering {
        self.bytes().cmp(other.bytes())
    }
}
