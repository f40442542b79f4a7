//! The encoder of a complete table: the code of each entry as a number.

ghost use Rattle.std.specs.Prelude.{◌≡◌, ℕ, ◌-◌, ◌/◌, ◌^◌, ◌<◌, ◌≤◌, List, length, take, slice_index, IfOk};
ghost use Rattle.exr_codes.specs.Codes.{IsComplete, code_number, count_of, weight_above};

use crate::table::zeros_from;
use exr_base::NoMemory;
use std::alloc::Global;
use std::marker::Model;

/// A code: a number and how many bits it has.
#[derive(Clone, Copy)]
pub struct Code {
    pub number: u64,
    pub len: u32,
}

/// Which of the codes of its length each entry has. Gives how many codes there are of each length.
fn put_ranks(lengths: &[u8], ranks: &mut [u32]) -> [u32; 59]
    requires short { (k : ℕ) → slice_index lengths.now k ≤ 58 }
    requires few { length lengths.now < 2 ^ 32 }
    requires size { length ranks.old ≡ length lengths.now }
    ensures ranks { (k : ℕ) → 0 < slice_index lengths.now k → slice_index ranks.new k ≡ count_of (slice_index lengths.now k) (take k lengths.now) }
    ensures counts { (len : ℕ) → 0 < len → len ≤ 58 → slice_index result len ≡ count_of len lengths.now }
{
    let mut counts = [0u32; 59];
    let mut entry = 0;
    'entries: while entry < lengths.len() {
        let len = lengths[entry] as usize;
        if len > 0 {
            let rank = counts[len];
            ranks[entry] = rank;
            counts[len] = rank + 1;
            entry += 1;
        } else {
            entry += zeros_from(lengths, entry);
        }
    }
    counts
}

/// Where the codes of each length of a complete table begin, as numbers of that length, from how many there are of
/// each length.
fn firsts_of(lengths: &[u8], counts: &[u32; 59]) -> [u64; 59]
    requires complete { IsComplete lengths.now }
    requires counts { (len : ℕ) → 0 < len → len ≤ 58 → slice_index counts.now len ≡ count_of len lengths.now }
    ensures { (len : ℕ) → len ≤ 58 → slice_index result len ≡ weight_above len lengths.now / 2 ^ (58 - len) }
{
    let _ = lengths;
    let mut firsts = [0u64; 59];
    let mut taken = 0u64;
    let mut len = 58;
    'lengths: while len > 0 {
        taken += (counts[len] as u64) << (58 - len);
        firsts[len - 1] = taken >> (59 - len);
        len -= 1;
    }
    firsts
}

/// The encoder of a complete table, which contracts see as the table's lengths.
#[derive(Drop)]
pub struct Encoder {
    lengths: Vec<u8>,
    firsts: [u64; 59],
    ranks: Vec<u32>,
}

impl Model for Encoder {
    ghost use Rattle.std.specs.Prelude.{ℕ, List};
    ghost use Rattle.exr_encoder.specs.Encoding.{IsEncoder};

    ghost Value = { List ℕ };

    ghost view = { λ e. e.lengths.items };

    ghost invariant = { λ e. IsEncoder e.lengths.items e.firsts e.ranks.items };
}

impl Encoder {
    /// The encoder of a complete table.
    pub fn new(alloc: Global, lengths: Vec<u8>) -> Result<Encoder, NoMemory>
        requires complete { IsComplete lengths.items }
        requires few { length lengths.items < 2 ^ 32 }
        ensures { IfOk result (λ e. e ≡ lengths.items) }
    {
        let mut ranks = vec![in alloc; 0u32; lengths.len()]?;
        let counts = put_ranks(&lengths, &mut ranks);
        let firsts = firsts_of(&lengths, &counts);
        Ok(Encoder {
            lengths,
            firsts,
            ranks,
        })
    }

    /// The code of an entry that has one.
    pub fn code(&self, entry: usize) -> Code
        requires { 0 < slice_index self.now entry }
        ensures number { result.number ≡ code_number self.now entry }
        ensures len { result.len ≡ slice_index self.now entry }
    {
        let len = self.lengths[entry];
        Code {
            number: self.firsts[len as usize] + self.ranks[entry] as u64,
            len: len as u32,
        }
    }

    /// The code of the last entry, where it has one.
    pub fn last_code(&self) -> Code
        requires { 0 < slice_index self.now (length self.now - 1) }
        ensures number { result.number ≡ code_number self.now (length self.now - 1) }
        ensures len { result.len ≡ slice_index self.now (length self.now - 1) }
    {
        self.code(self.lengths.len() - 1)
    }
}
