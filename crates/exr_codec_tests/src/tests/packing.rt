//! Words that are packed and read again: the 25 bytes of 512 words 0, the greatest word, runs at the border where they
//! begin to pay, and weights that make long codes.

use super::expect;
use exr_base::NoMemory;
use exr_codes::read_table;
use exr_huffman::unpack;
use exr_packing::pack;
use std::alloc::Global;
use std::test::Fail;

/// A word, how often it occurs, and its block: the word and the one after it, the number of bits, and the table, where the
/// word and the run symbol have codes of one bit; then the bits. A run takes ten bits: it is written for eleven codes of one
/// bit, and not for ten.
const RUNS: &[(u16, usize, &[u8])] = &[
    (
        0,
        512,
        &[
            0, 0, 0, 0, 1, 0, 0, 0, 2, 0, 0, 0, 20, 0, 0, 0, 0, 0, 0, 0, 0x04, 0x10, 0x7f, 0xdf,
            0xf0,
        ],
    ),
    (
        65535,
        256,
        &[
            255, 255, 0, 0, 0, 0, 1, 0, 2, 0, 0, 0, 10, 0, 0, 0, 0, 0, 0, 0, 0x04, 0x10, 0x7f, 0xc0,
        ],
    ),
    (
        65535,
        255,
        &[
            255, 255, 0, 0, 0, 0, 1, 0, 2, 0, 0, 0, 10, 0, 0, 0, 0, 0, 0, 0, 0x04, 0x10, 0x7f, 0x80,
        ],
    ),
    (
        0,
        11,
        &[
            0, 0, 0, 0, 1, 0, 0, 0, 2, 0, 0, 0, 11, 0, 0, 0, 0, 0, 0, 0, 0x04, 0x10, 0x00, 0x00,
        ],
    ),
    (
        0,
        12,
        &[
            0, 0, 0, 0, 1, 0, 0, 0, 2, 0, 0, 0, 10, 0, 0, 0, 0, 0, 0, 0, 0x04, 0x10, 0x42, 0xc0,
        ],
    ),
];

fn packed_of(alloc: Global, words: &[u16]) -> Result<Vec<u8>, NoMemory> {
    if words.is_empty() || words.len() > 1 << 25 {
        return Ok(Vec::new(alloc));
    }
    pack(alloc, words)
}

/// Whether packed data gives these words.
fn gives(alloc: Global, words: &[u16], packed: &[u8]) -> bool {
    if words.is_empty() || words.len() > 1 << 25 {
        return false;
    }
    match unpack(alloc, packed, words.len()) {
        Ok(again) => again.as_slice() == words,
        Err(_) => false,
    }
}

#[test]
fn runs(rt: HostRuntime) -> Result<(), Fail> {
    for (case, (word, count, block)) in RUNS.iter().enumerate() {
        let words = vec![in rt.alloc(); *word; *count]?;
        let packed = packed_of(rt.alloc(), &words)?;
        let is_right = packed.as_slice() == *block && gives(rt.alloc(), &words, &packed);
        expect(&rt, case, is_right);
    }
    Ok(())
}

/// Lists of few words.
const FEW: &[&[u16]] = &[&[0, 65535, 1, 65535, 65535, 7], &[7]];

#[test]
fn few_words(rt: HostRuntime) -> Result<(), Fail> {
    for (case, words) in FEW.iter().enumerate() {
        let packed = packed_of(rt.alloc(), words)?;
        expect(&rt, case, gives(rt.alloc(), words, &packed));
    }
    Ok(())
}

/// Weights 1, 1, 2, 3, 5 and so on up to 75,025, so that trees are merged one by one.
fn words_of_falling_weight(alloc: Global) -> Result<Vec<u16>, NoMemory> {
    let mut words = Vec::new(alloc);
    let mut weight = 1usize;
    let mut before = 0usize;
    for word in 0..25u16 {
        words.resize(words.len().saturating_add(weight), word)?;
        let next = weight.saturating_add(before);
        before = weight;
        weight = next;
    }
    Ok(words)
}

/// The lengths of their codes and of the run symbol's.
const LENGTHS: &[u8] = &[
    25, 25, 23, 22, 21, 20, 19, 18, 17, 16, 15, 14, 13, 12, 11, 10, 9, 8, 7, 6, 5, 4, 3, 2, 1, 24,
];

/// Whether a block has these lengths of codes in its table of 20 bytes.
fn has_lengths(alloc: Global, packed: &[u8]) -> Result<bool, NoMemory> {
    let Some(table) = packed.get(20..40) else {
        return Ok(false);
    };
    match read_table(alloc, table, 26)? {
        Some(lengths) => Ok(lengths.as_slice() == LENGTHS),
        None => Ok(false),
    }
}

#[test]
fn long_codes(rt: HostRuntime) -> Result<(), Fail> {
    let words = words_of_falling_weight(rt.alloc())?;
    expect(&rt, 0, words.len() == 196_417);
    let packed = packed_of(rt.alloc(), &words)?;
    expect(&rt, 1, gives(rt.alloc(), &words, &packed));
    expect(&rt, 2, has_lengths(rt.alloc(), &packed)?);
    Ok(())
}
