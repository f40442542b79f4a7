//! The value of an attribute, as bytes.

ghost use Rattle.std.specs.Prelude.{◌≡◌, ◌<◌, ◌^◌, length, IfOk};

use exr_base::NoMemory;
use std::alloc::Global;
use std::marker::Model;

/// The bytes of an attribute's value, fewer than 2^31, without the size that precedes them in the file.
///
/// File Layout, "Component Three: Header": attribute value.
#[derive(Drop, Debug)]
pub struct AttributeValue {
    bytes: Vec<u8>,
}

impl Model for AttributeValue {
    ghost use Rattle.std.specs.Prelude.{ℕ, List, length, ◌<◌, ◌^◌};

    ghost Value = { List ℕ };

    ghost view = { λ v. v.bytes.items };

    ghost invariant = { λ v. length v.bytes.items < 2 ^ 31 };
}

impl AttributeValue {
    /// A value of these bytes.
    pub fn new(alloc: Global, bytes: &[u8]) -> Result<AttributeValue, NoMemory>
        requires { length bytes.now < 2 ^ 31 }
        ensures { IfOk result (λ value. value ≡ bytes.now) }
    {
        let bytes = Vec::from_slice(alloc, bytes)?;
        Ok(AttributeValue { bytes })
    }

    /// Its bytes.
    pub fn bytes(&self) -> &[u8]
        ensures value { result.now ≡ self.now }
        ensures sized { length self.now < 2 ^ 31 }
    {
        self.bytes.as_slice()
    }
}
