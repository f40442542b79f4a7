//! Files with some bytes changed.

use super::files::{File, bytes_of};
use std::alloc::Global;
use std::test::Fail;

/// Places in a file, and the bytes that are put there.
pub type Edits = &'static [(usize, u8)];

/// The bytes of a file after the edits.
pub fn edited(alloc: Global, file: &File, edits: Edits) -> Result<Vec<u8>, Fail> {
    let mut bytes = bytes_of(alloc, file)?;
    for (place, byte) in edits {
        *bytes.get_mut(*place).ok_or("a place")? = *byte;
    }
    Ok(bytes)
}
