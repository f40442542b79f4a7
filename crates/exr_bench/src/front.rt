//! The numbers and words of a file.

ghost use Rattle.std.specs.Prelude.{◌≡◌, ◌<◌, ◌↔◌, ◌/◌, length, take, drop, vec_len, IfOk, IsErr};
ghost use Rattle.std.specs.Int.{w32, from_le_bytes};

use crate::stop::Stop;
use std::alloc::{AllocError, Global};

/// The number of four bytes, little endian, that bytes begin with, and the bytes after it.
pub(crate) fn number(bytes: &[u8]) -> Result<(usize, &[u8]), Stop>
    ensures value { IfOk result (λ found. found.0 ≡ from_le_bytes w32 (take 4 bytes.now)) }
    ensures behind { IfOk result (λ found. found.1.now ≡ drop 4 bytes.now) }
    ensures short { IsErr result ↔ (length bytes.now < 4) }
{
    if bytes.len() < 4 {
        return Err(Stop::Form);
    }
    let front = u32::from_le_bytes([bytes[0], bytes[1], bytes[2], bytes[3]]);
    Ok((front as usize, &bytes[4..]))
}

/// Words of two bytes each, little endian; an odd byte at the end is left out.
pub(crate) fn words_of(alloc: Global, bytes: &[u8]) -> Result<Vec<u16>, AllocError>
    ensures { IfOk result (λ words. vec_len words ≡ length bytes.now / 2) }
{
    let mut words = vec![in alloc; 0u16; bytes.len() / 2]?;
    fill_words(bytes, &mut words);
    Ok(words)
}

fn fill_words(bytes: &[u8], words: &mut [u16])
    requires { length words.old ≡ length bytes.now / 2 }
{
    for k in 0..words.len() {
        words[k] = u16::from_le_bytes([bytes[2 * k], bytes[2 * k + 1]]);
    }
}
