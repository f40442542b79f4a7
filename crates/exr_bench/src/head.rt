//! The kernel of heads.

use crate::checksum::add_bytes;
use crate::stop::Stop;
use exr_header::{FileHead, read_head};
use std::alloc::Global;

/// Reads a head `repeats` times.
pub(crate) fn read(alloc: Global, bytes: &[u8], repeats: u32) -> Result<u64, Stop> {
    let mut sum = 0;
    for turn in 0..repeats {
        let (head, _) = read_head(alloc, bytes)?;
        let numbers = [attributes_of(&head), value_bytes_of(&head)];
        for number in numbers {
            sum = add_bytes(sum, number.to_le_bytes().as_slice(), turn, true);
        }
    }
    Ok(sum)
}

/// How many attributes the parts have.
fn attributes_of(head: &FileHead) -> u64 {
    let mut count = 0u64;
    for part in head.parts() {
        count = count.wrapping_add(part.attributes().len() as u64);
    }
    count
}

/// How many bytes their values have.
fn value_bytes_of(head: &FileHead) -> u64 {
    let mut bytes = 0u64;
    for part in head.parts() {
        for entry in part.attributes().entries() {
            bytes = bytes.wrapping_add(entry.attribute.value.bytes().len() as u64);
        }
    }
    bytes
}
