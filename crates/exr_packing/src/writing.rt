//! The data bits of words: their codes, and runs where they take fewer bits.

ghost use Rattle.std.specs.Prelude.{◌≡◌, ℕ, ◌+◌, ◌-◌, ◌*◌, ◌/◌, ◌^◌, ◌<◌, ◌≤◌, ◌++◌, length, take, drop, slice_index};
ghost use Rattle.exr_base.specs.Bits.{bytes_of};
ghost use Rattle.exr_codes.specs.Codes.{IsComplete};
ghost use Rattle.exr_encoder.specs.Writing.{written};
ghost use Rattle.exr_huffman.specs.Tokens.{run_entry};
ghost use Rattle.exr_huffman.specs.Joined.{tokens_bits};
ghost use Rattle.exr_packing.specs.Packed.{equals_at, run_tokens, packed_tokens};
ghost use Rattle.exr_packing.specs.Costs.{cost_of, AreCoded};

use exr_encoder::{Encoder, Pen, put_times};

/// Number of words after place `at` that are equal to the word there, at most 255.
fn equals_after(words: &[u16], at: usize) -> usize
    requires { at < length words.now }
    ensures { result ≡ equals_at (slice_index words.now at) (drop (at + 1) words.now) }
{
    let word = words[at];
    let rest = &words[at + 1..];
    let mut count = 0;
    'equals: while count < 255 && count < rest.len() {
        if rest[count] != word {
            return count;
        }
        count += 1;
    }
    count
}

/// Number of words that are written together with the word at place `at`: none where at most one word after it is equal
/// to it, since a run of one never takes fewer bits, and else the equal ones, at most 255.
fn repeats_after(words: &[u16], at: usize) -> usize
    requires { at < length words.now }
    ensures many { 1 < equals_at (slice_index words.now at) (drop (at + 1) words.now) → result ≡ equals_at (slice_index words.now at) (drop (at + 1) words.now) }
    ensures few { equals_at (slice_index words.now at) (drop (at + 1) words.now) ≤ 1 → result ≡ 0 }
{
    if words.len() - at < 3 {
        return 0;
    }
    let word = words[at];
    let next = words[at + 1];
    let second = words[at + 2];
    if next != word || second != word {
        return 0;
    }
    equals_after(words, at)
}

/// Writes a word and `count` more of it. There must be room for `count + 1` codes of it and eight bytes.
fn put_words(encoder: &Encoder, pen: &mut Pen, out: &mut [u8], least: u16, word: u16, count: usize)
    requires complete { IsComplete encoder.now }
    requires short { (k : ℕ) → slice_index encoder.now k ≤ 56 }
    requires above { least ≤ word }
    requires coded { 0 < slice_index encoder.now (word - least) }
    requires run { 0 < slice_index encoder.now (run_entry encoder.now) }
    requires few { count < 256 }
    requires room { 8 * pen.old.at + pen.old.have + slice_index encoder.now (word - least) * (count + 1) + 64 ≤ 8 * length out.old }
    ensures bits { written pen.new.at pen.new.have pen.new.pending out.new ≡ written pen.old.at pen.old.have pen.old.pending out.old ++ tokens_bits least encoder.now (run_tokens least encoder.now word count) }
    ensures on { 8 * pen.new.at + pen.new.have ≤ 8 * pen.old.at + pen.old.have + slice_index encoder.now (word - least) * (count + 1) }
{
    let code = encoder.code((word - least) as usize);
    if count == 0 {
        pen.put(out, code.len, code.number);
        return;
    }
    let run = encoder.last_code();
    if ((code.len + run.len + 8) as usize) < code.len as usize * count {
        pen.put(out, code.len, code.number);
        pen.put(out, run.len, run.number);
        pen.put(out, 8, count as u64);
    } else {
        put_times(pen, out, code.len, code.number, count + 1);
    }
}

/// Writes the data bits of words into a slice with room for eight bytes more than their codes take. Gives the number
/// of bits.
pub(crate) fn write_words(encoder: &Encoder, out: &mut [u8], least: u16, words: &[u16]) -> u64
    requires complete { IsComplete encoder.now }
    requires short { (k : ℕ) → slice_index encoder.now k ≤ 56 }
    requires coded { AreCoded least encoder.now words.now }
    requires run { 0 < slice_index encoder.now (run_entry encoder.now) }
    requires room { cost_of least encoder.now words.now + 64 ≤ 8 * length out.old }
    requires small { cost_of least encoder.now words.now < 2 ^ 32 }
    ensures bits { result ≡ length (tokens_bits least encoder.now (packed_tokens least encoder.now words.now)) }
    ensures few { result ≤ cost_of least encoder.now words.now }
    ensures bytes { take ((result + 7) / 8) out.new ≡ bytes_of (tokens_bits least encoder.now (packed_tokens least encoder.now words.now)) }
{
    let mut pen = Pen::new();
    let mut at = 0;
    'words: while at < words.len() {
        let count = repeats_after(words, at);
        put_words(encoder, &mut pen, out, least, words[at], count);
        at += count + 1;
    }
    let bits = 8 * pen.at as u64 + pen.have as u64;
    pen.finish(out);
    bits
}
