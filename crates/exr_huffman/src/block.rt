//! A block: its head of five numbers, the table of code lengths, and the data bits.

ghost use Rattle.std.specs.Prelude.{◌≡◌, ℕ, ◌+◌, ◌^◌, ◌<◌, ◌≤◌, List, length, take, drop, Result, Ok, Err, IfOk, IsErrOf};
ghost use Rattle.std.specs.Int.{w32, from_le_bytes};
ghost use Rattle.exr_base.specs.Refusal.{Gives};
ghost use Rattle.exr_huffman.specs.Blocks.{huffman_words_of, block_of, number_at};
ghost use Rattle.exr_base.specs.declared.refusal.Refusal.TheVariants as refusal;
ghost use Rattle.exr_huffman.specs.declared.fault.HufFault.{HufFault};
ghost use Rattle.exr_huffman.specs.Joined.{BlockHolds};
ghost use Rattle.exr_huffman.specs.Parts.{block_of_parts};

use crate::data::data_words;
use crate::fault::HufFault;
use exr_base::Refusal;
use exr_codes::{Decoder, read_table};
use std::alloc::Global;

/// The parts of a block: its least and greatest symbol, the bytes of its table, the number of its data bits, and the
/// bytes after the table.
#[derive(Drop)]
struct Parts<'a> {
    least: u32,
    greatest: u32,
    table: &'a [u8],
    bits: u32,
    behind: &'a [u8],
}

/// Number `k` of the head.
fn number(packed: &[u8], k: usize) -> u32
    requires inside { k < 4 }
    requires long { 20 ≤ length packed.now }
    ensures { result ≡ number_at packed.now k }
{
    let at = 4 * k;
    u32::from_le_bytes([packed[at], packed[at + 1], packed[at + 2], packed[at + 3]])
}

/// The parts, where the head is whole, the symbols are in range and the table is there.
#[tactic(auto, unfolding(crate::specs::Blocks::block_of))]
fn parts_of(packed: &[u8]) -> Result<Parts<'_>, Refusal<HufFault>>
    ensures value { Gives block_of_parts result (block_of packed.now) }
    ensures ordered { IfOk result (λ parts. parts.least ≤ parts.greatest) }
    ensures range { IfOk result (λ parts. parts.greatest ≤ 65536) }
    ensures short { IfOk result (λ parts. length parts.table.now < 2 ^ 32) }
{
    if packed.len() < 20 {
        return Err(Refusal::Fault(HufFault::Short));
    }
    let least = number(packed, 0);
    let greatest = number(packed, 1);
    if greatest < least || greatest > 65536 {
        return Err(Refusal::Fault(HufFault::BadRange));
    }
    let table_bytes = number(packed, 2) as usize;
    let behind_head = &packed[20..];
    if behind_head.len() < table_bytes {
        return Err(Refusal::Fault(HufFault::Short));
    }
    let (table, behind) = behind_head.split_at(table_bytes);
    Ok(Parts {
        least,
        greatest,
        table,
        bits: number(packed, 3),
        behind,
    })
}

/// The `words` words of a block, or the first thing that is wrong with it. Bytes after the data bits are not looked
/// at, nor are the bits that fill their last byte.
pub fn unpack(alloc: Global, packed: &[u8], words: usize) -> Result<Vec<u16>, Refusal<HufFault>>
    requires some { 0 < words }
    requires most { words ≤ 2 ^ 25 }
    // What is given is what the joined bits of tokens say that the block holds, or its first fault.
    ensures found { IfOk result (λ v. BlockHolds packed.now words (Ok v.items)) }
    ensures faults { (fault : HufFault) → IsErrOf result (refusal.Fault fault) → BlockHolds packed.now words (Err fault) }
    // What a block holds is given, unless memory runs out: no other words, and no other fault.
    ensures only { (outcome : Result (List ℕ) HufFault) → BlockHolds packed.now words outcome → Gives (λ v. v.items) result outcome }
    ensures exact { Gives (λ v. v.items) result (huffman_words_of packed.now words) }
{
    unpack_exactly(alloc, packed, words)
}

fn unpack_exactly(alloc: Global, packed: &[u8], words: usize) -> Result<Vec<u16>, Refusal<HufFault>>
    requires some { 0 < words }
    requires most { words ≤ 2 ^ 25 }
    ensures { Gives (λ v. v.items) result (huffman_words_of packed.now words) }
{
    let parts = parts_of(packed)?;
    let run = parts.greatest - parts.least;
    let Some(lengths) = read_table(alloc, parts.table, run as usize + 1)? else {
        return Err(Refusal::Fault(HufFault::BadTable));
    };
    if parts.behind.len() < (parts.bits as usize + 7) / 8 {
        return Err(Refusal::Fault(HufFault::Short));
    }
    let decoder = Decoder::new(alloc, lengths)?;
    data_words(
        alloc,
        parts.behind,
        parts.bits as u64,
        &decoder,
        parts.least,
        run,
        words,
    )
}
