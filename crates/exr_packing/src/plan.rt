//! What is known before any word is written: the table of code lengths, its encoder, and how much room the data bits
//! take at most.

ghost use Rattle.std.specs.Prelude.{◌≡◌, ℕ, ◌+◌, ◌*◌, ◌^◌, ◌<◌, ◌≤◌, length, slice_index, IfOk};
ghost use Rattle.exr_base.specs.Bits.{bytes_of};
ghost use Rattle.exr_encoder.specs.Spelling.{table_bits};
ghost use Rattle.exr_packing.specs.Packed.{least_of, greatest_of, weights_of, lengths_of};
ghost use Rattle.exr_packing.specs.Costs.{cost_below};

use crate::words::weigh;
use exr_base::NoMemory;
use exr_encoder::{Encoder, write_table};
use exr_merging::lengths_by_merging;
use std::alloc::Global;

/// How many bits the codes take, each as often as its weight says.
fn cost(weights: &[u32], lengths: &[u8]) -> u64
    requires few { length weights.now < 2 ^ 20 }
    requires same { length lengths.now ≡ length weights.now }
    ensures { result ≡ cost_below weights.now lengths.now (length weights.now) }
{
    let mut cost = 0;
    for (entry, weight) in weights.iter().enumerate() {
        cost += *weight as u64 * lengths[entry] as u64;
    }
    cost
}

/// The bytes of a table, its encoder, and the most bits that the words' codes take.
#[derive(Drop)]
pub(crate) struct Plan {
    pub(crate) table: Vec<u8>,
    pub(crate) encoder: Encoder,
    pub(crate) cost: u64,
}

/// The code lengths of words between the least and the greatest and of the run symbol, and how many bits the words'
/// codes take. The weights are let go of, so that the encoder may take their memory.
fn code_lengths(
    alloc: Global,
    words: &[u16],
    least: u16,
    greatest: u16,
) -> Result<(Vec<u8>, u64), NoMemory>
    requires some { 0 < length words.now }
    requires most { length words.now ≤ 2 ^ 25 }
    requires least { least ≡ least_of words.now }
    requires greatest { greatest ≡ greatest_of words.now }
    ensures lengths { IfOk result (λ found. found.0.items ≡ lengths_of words.now) }
    ensures cost { IfOk result (λ found. found.1 ≡ cost_below (weights_of words.now) (lengths_of words.now) (length (weights_of words.now))) }
{
    let weights = weigh(alloc, words, least, greatest)?;
    let lengths = lengths_by_merging(alloc, &weights)?;
    let cost = cost(&weights, &lengths);
    Ok((lengths, cost))
}

/// The plan for words between the least and the greatest.
pub(crate) fn plan_for(
    alloc: Global,
    words: &[u16],
    least: u16,
    greatest: u16,
) -> Result<Plan, NoMemory>
    requires some { 0 < length words.now }
    requires most { length words.now ≤ 2 ^ 25 }
    requires least { least ≡ least_of words.now }
    requires greatest { greatest ≡ greatest_of words.now }
    ensures table { IfOk result (λ plan. plan.table.items ≡ bytes_of (table_bits (lengths_of words.now))) }
    ensures encoder { IfOk result (λ plan. plan.encoder ≡ lengths_of words.now) }
    ensures cost { IfOk result (λ plan. plan.cost ≡ cost_below (weights_of words.now) (lengths_of words.now) (length (weights_of words.now))) }
{
    let (lengths, cost) = code_lengths(alloc, words, least, greatest)?;
    let table = write_table(alloc, &lengths)?;
    let encoder = Encoder::new(alloc, lengths)?;
    Ok(Plan {
        table,
        encoder,
        cost,
    })
}
