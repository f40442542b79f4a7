//! Blocks from outside: the 25 bytes of 512 words 0 and what edits of them make; words and symbols at the ends of their
//! ranges; and codes of every length.

ghost use Rattle.std.specs.Prelude.{◌^◌, ◌<◌, ◌≤◌};

use super::expect;
use HufFault::{BadRange, BadTable, RunFirst, Short, TooFew, TooMany};
use exr_base::{BitWriter, NoMemory, Refusal};
use exr_huffman::{HufFault, unpack};
use std::alloc::Global;
use std::test::Fail;

/// What unpacking gives: one word again and again, or a fault.
type Outcome = Result<u16, HufFault>;

// Symbols 0 and 1 with codes of one bit, and twenty data bits: twice the code of 0 and the run code followed by 255.
const ZEROS: &[u8] = &[
    0, 0, 0, 0, 1, 0, 0, 0, 2, 0, 0, 0, 20, 0, 0, 0, 0, 0, 0, 0, 0x04, 0x10, 0x7f, 0xdf, 0xf0,
];

/// The greatest word and the run symbol with codes of one bit, and ten data bits: the code of the word and the run code
/// followed by 254.
const GREATEST: &[u8] = &[
    255, 255, 0, 0, 0, 0, 1, 0, 2, 0, 0, 0, 10, 0, 0, 0, 0, 0, 0, 0, 0x04, 0x10, 0x7f, 0x80,
];

/// A run symbol that is the only symbol.
const RUN_ALONE: &[u8] = &[
    5, 0, 0, 0, 5, 0, 0, 0, 1, 0, 0, 0, 9, 0, 0, 0, 0, 0, 0, 0, 0x04, 0x00, 0x00,
];

/// Two words with codes, and a run symbol without one.
const NO_RUN: &[u8] = &[
    0, 0, 0, 0, 2, 0, 0, 0, 3, 0, 0, 0, 3, 0, 0, 0, 0, 0, 0, 0, 0x04, 0x10, 0x00, 0x40,
];

/// A block, places in it and the bytes that are put there, how many words are asked for, and what comes of it.
type Case = (&'static [u8], &'static [(usize, u8)], usize, Outcome);

const CASES: &[Case] = &[
    (ZEROS, &[(20, 0x04)], 512, Ok(0)),
    (ZEROS, &[(20, 0x04)], 511, Err(TooMany)),
    (ZEROS, &[(20, 0x04)], 513, Err(TooFew)),
    // for 2^25 words no memory is asked for
    (ZEROS, &[(20, 0x04)], 1 << 25, Err(TooFew)),
    (ZEROS, &[(0, 2)], 512, Err(BadRange)),
    (ZEROS, &[(6, 2)], 512, Err(BadRange)),
    (ZEROS, &[(8, 200)], 512, Err(Short)),
    (ZEROS, &[(8, 3)], 512, Err(BadTable)),
    (ZEROS, &[(21, 0x20)], 512, Err(BadTable)),
    (ZEROS, &[(21, 0x11)], 512, Err(BadTable)),
    (ZEROS, &[(20, 0xfc)], 512, Err(BadTable)),
    (ZEROS, &[(22, 0xff)], 512, Err(RunFirst)),
    (ZEROS, &[(12, 21)], 512, Err(TooMany)),
    (ZEROS, &[(12, 25)], 512, Err(Short)),
    (ZEROS, &[(12, 19)], 512, Err(TooFew)),
    (ZEROS, &[(12, 9)], 512, Err(TooFew)),
    // runs of 254 and of 255 more words, a run of none after the only word, and a run as the first code without its eight
    // bits
    (GREATEST, &[], 255, Ok(65535)),
    (GREATEST, &[(23, 0xc0)], 256, Ok(65535)),
    (GREATEST, &[(22, 0x40), (23, 0)], 1, Err(TooMany)),
    (GREATEST, &[(12, 1), (22, 0x80), (23, 0)], 1, Err(RunFirst)),
    (RUN_ALONE, &[], 1, Err(BadTable)),
];

/// Whether there are words, and each is this one.
fn are_all(words: &[u16], wanted: u16) -> bool {
    for word in words {
        if *word != wanted {
            return false;
        }
    }
    !words.is_empty()
}

/// Whether unpacking so many words gives this.
fn gives(alloc: Global, packed: &[u8], words: usize, outcome: Outcome) -> bool {
    if words == 0 || words > 1 << 25 {
        return false;
    }
    match unpack(alloc, packed, words) {
        Ok(words) => match outcome {
            Ok(wanted) => are_all(&words, wanted),
            Err(_) => false,
        },
        Err(Refusal::Fault(fault)) => outcome == Err(fault),
        Err(Refusal::NoMemory) => false,
    }
}

/// The block of a case.
fn edited(alloc: Global, block: &[u8], edits: &[(usize, u8)]) -> Result<Vec<u8>, NoMemory> {
    let mut bytes = block.to_vec(alloc)?;
    for (place, byte) in edits {
        if let Some(there) = bytes.get_mut(*place) {
            *there = *byte;
        }
    }
    Ok(bytes)
}

#[test]
fn edits_of_blocks(rt: HostRuntime) -> Result<(), Fail> {
    for (case, (block, edits, words, outcome)) in CASES.iter().enumerate() {
        let bytes = edited(rt.alloc(), block, edits)?;
        expect(&rt, case, gives(rt.alloc(), &bytes, *words, *outcome));
    }
    for len in 0..25usize {
        let front = ZEROS.get(..len).unwrap_or(ZEROS);
        expect(&rt, len, gives(rt.alloc(), front, 512, Err(Short)));
    }
    Ok(())
}

/// Codes of 1 to 58 bits, and one more of 58 for the run symbol, 6 bits each.
fn every_length(alloc: Global) -> Result<Vec<u8>, NoMemory> {
    let mut table = BitWriter::new(alloc);
    for len in 1..59u64 {
        table.push(6, len)?;
    }
    table.push(6, 58)?;
    Ok(table.finish())
}

/// Each word once and 255 more of the last one: a code of n bits is 1 after zeros, and the first one of 58 bits is 0.
fn every_code(alloc: Global) -> Result<Vec<u8>, NoMemory> {
    let mut bits = BitWriter::new(alloc);
    for zeros in 0..57u32 {
        bits.push(zeros, 0)?;
        bits.push(1, 1)?;
    }
    bits.push(58, 0)?;
    bits.push(58, 1)?;
    bits.push(8, 255)?;
    Ok(bits.finish())
}

/// The head of the block with these codes: the words 100 to 157, and 158 for runs.
const HEAD: &[u8] = &[
    100, 0, 0, 0, 158, 0, 0, 0, 45, 0, 0, 0, 0xf1, 0x06, 0, 0, 0, 0, 0, 0,
];

fn every_code_block(alloc: Global) -> Result<Vec<u8>, NoMemory> {
    let mut block = HEAD.to_vec(alloc)?;
    block.extend_from_slice(&every_length(alloc)?)?;
    block.extend_from_slice(&every_code(alloc)?)?;
    Ok(block)
}

// Words in their order, a run symbol without a code, and codes of every length.
#[test]
fn words_in_order(rt: HostRuntime) -> Result<(), Fail> {
    let words = unpack(rt.alloc(), NO_RUN, 3)?;
    expect(&rt, 0, words.as_slice() == [0u16, 1, 0].as_slice());
    let block = every_code_block(rt.alloc())?;
    let words = unpack(rt.alloc(), &block, 58 + 255)?;
    for (place, word) in words.iter().enumerate() {
        let wanted = place.min(57).wrapping_add(100);
        expect(&rt, place, usize::from(*word) == wanted);
    }
    Ok(())
}
