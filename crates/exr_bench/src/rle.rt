//! The kernels of run lengths.

use crate::checksum::add_bytes;
use crate::front::number;
use crate::stop::Stop;
use std::alloc::Global;

/// Packs raw bytes `repeats` times.
pub(crate) fn pack(alloc: Global, raw: &[u8], repeats: u32) -> Result<u64, Stop> {
    let mut sum = 0;
    for turn in 0..repeats {
        let packed = exr_rle::pack(alloc, raw)?;
        sum = add_bytes(sum, &packed, turn, turn + 1 == repeats);
    }
    Ok(sum)
}

/// Unpacks packed data, which comes after the number of its raw bytes, `repeats` times.
pub(crate) fn unpack(alloc: Global, bytes: &[u8], repeats: u32) -> Result<u64, Stop> {
    let (raw, packed) = number(bytes)?;
    let mut sum = 0;
    for turn in 0..repeats {
        let found = exr_rle::unpack(alloc, packed, raw)?;
        sum = add_bytes(sum, &found, turn, turn + 1 == repeats);
    }
    Ok(sum)
}
