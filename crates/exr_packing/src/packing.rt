//! The block of words: its head, the table of code lengths and the data bits.

ghost use Rattle.std.specs.Prelude.{◌≡◌, ℕ, ◌+◌, ◌*◌, ◌/◌, ◌^◌, ◌<◌, ◌≤◌, length, take, slice_index, IfOk, Ok};
ghost use Rattle.exr_codes.specs.Codes.{IsComplete};
ghost use Rattle.exr_huffman.specs.Blocks.{huffman_words_of};
ghost use Rattle.exr_huffman.specs.Tokens.{run_entry};
ghost use Rattle.exr_huffman.specs.Joined.{tokens_bits};
ghost use Rattle.exr_packing.specs.Packed.{head_of, block_with, pack_of, lengths_of, packed_tokens};
ghost use Rattle.exr_packing.specs.Costs.{cost_of, AreCoded};

use crate::plan::{Plan, plan_for};
use crate::words::{greatest_word, least_word};
use crate::writing::write_words;
use exr_base::NoMemory;
use exr_encoder::Encoder;
use std::alloc::Global;

/// Writes a number over four bytes, the low one first.
fn put_head(head: &mut [u8], least: u32, greatest: u32, table: u32, bits: u32)
    requires { length head.old ≡ 20 }
    ensures { head.new ≡ head_of least greatest table bits }
{
    let a = least.to_le_bytes();
    let b = greatest.to_le_bytes();
    let c = table.to_le_bytes();
    let d = bits.to_le_bytes();
    head.copy_from_slice(&[
        a[0], a[1], a[2], a[3], b[0], b[1], b[2], b[3], c[0], c[1], c[2], c[3], d[0], d[1], d[2],
        d[3], 0, 0, 0, 0,
    ]);
}

/// Writes a block into a slice with room for eight bytes more than the words' codes take. Gives the number of its
/// bytes.
fn write_block(
    out: &mut [u8],
    table: &[u8],
    encoder: &Encoder,
    least: u16,
    greatest: u16,
    words: &[u16],
) -> usize
    requires complete { IsComplete encoder.now }
    requires short { (k : ℕ) → slice_index encoder.now k ≤ 56 }
    requires coded { AreCoded least encoder.now words.now }
    requires run { 0 < slice_index encoder.now (run_entry encoder.now) }
    requires room { 8 * (20 + length table.now) + cost_of least encoder.now words.now + 64 ≤ 8 * length out.old }
    requires small { cost_of least encoder.now words.now < 2 ^ 32 }
    requires table { length table.now < 2 ^ 32 }
    ensures { take result out.new ≡ block_with least (greatest + 1) table.now (tokens_bits least encoder.now (packed_tokens least encoder.now words.now)) }
{
    let (head, behind) = out.split_at_mut(20);
    let (table_part, rest) = behind.split_at_mut(table.len());
    table_part.copy_from_slice(table);
    let bits = write_words(encoder, rest, least, words);
    put_head(
        head,
        least as u32,
        greatest as u32 + 1,
        table.len() as u32,
        bits as u32,
    );
    20 + table.len() + (bits as usize + 7) / 8
}

fn pack_exactly(alloc: Global, words: &[u16]) -> Result<Vec<u8>, NoMemory>
    requires some { 0 < length words.now }
    requires most { length words.now ≤ 2 ^ 25 }
    ensures { IfOk result (λ packed. packed.items ≡ pack_of words.now) }
{
    let least = least_word(words);
    let greatest = greatest_word(words);
    let Plan {
        table,
        encoder,
        cost,
    } = plan_for(alloc, words, least, greatest)?;
    let room = 20 + table.len() + (cost / 8) as usize + 9;
    let mut block = vec![in alloc; 0u8; room]?;
    let size = write_block(&mut block, &table, &encoder, least, greatest, words);
    block.truncate(size);
    Ok(block)
}

/// The Huffman block of words: code lengths by merging, and runs where they take fewer bits. Each code has 51 bits at
/// most (own).
pub fn pack(alloc: Global, words: &[u16]) -> Result<Vec<u8>, NoMemory>
    requires some { 0 < length words.now }
    requires most { length words.now ≤ 2 ^ 25 }
    ensures exact { IfOk result (λ packed. packed.items ≡ pack_of words.now) }
    // What was packed unpacks to the same words.
    ensures restores { IfOk result (λ packed. huffman_words_of packed.items (length words.now) ≡ Ok words.now) }
    ensures short { (k : ℕ) → slice_index (lengths_of words.now) k ≤ 51 }
{
    pack_exactly(alloc, words)
}
