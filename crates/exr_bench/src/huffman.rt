//! The kernels of Huffman blocks.

use crate::checksum::{add_bytes, add_words};
use crate::front::{number, words_of};
use crate::stop::Stop;
use std::alloc::Global;

/// Unpacks a block, which comes after the number of its words, `repeats` times.
pub(crate) fn unpack(alloc: Global, bytes: &[u8], repeats: u32) -> Result<u64, Stop> {
    let (words, block) = number(bytes)?;
    if words == 0 || words > 1 << 25 {
        return Err(Stop::Form);
    }
    let mut sum = 0;
    for turn in 0..repeats {
        let found = exr_huffman::unpack(alloc, block, words)?;
        sum = add_words(sum, &found, turn, turn + 1 == repeats);
    }
    Ok(sum)
}

/// Packs the words of a file `repeats` times.
pub(crate) fn pack(alloc: Global, bytes: &[u8], repeats: u32) -> Result<u64, Stop> {
    let words = words_of(alloc, bytes)?;
    if words.len() == 0 || words.len() > 1 << 25 {
        return Err(Stop::Form);
    }
    let mut sum = 0;
    for turn in 0..repeats {
        let packed = exr_packing::pack(alloc, &words)?;
        sum = add_bytes(sum, &packed, turn, turn + 1 == repeats);
    }
    Ok(sum)
}
