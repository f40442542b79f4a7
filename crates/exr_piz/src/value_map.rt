//! The value map as it is written, and words renumbered by it.

ghost use Rattle.std.specs.Prelude.{◌≡◌, ◌≢◌, ◌-◌, ◌*◌, ◌^◌, ◌<◌, ◌≤◌, ◌++◌, ℕ, List, length, map, slice_index, IfOk, OnOk};
ghost use Rattle.std.specs.Int.{w16, to_le_bytes};
ghost use Rattle.exr_piz.specs.Values.{map_front_of, rank_of, greatest_rank_of};
ghost use Rattle.exr_piz.specs.Marks.{IsMapOf};

use crate::marks::{
    greatest_word, put_map, put_marks, put_ranks, renumber, without_zeros_behind, zeros_in_front,
};
use exr_base::NoMemory;
use std::alloc::Global;

/// The value map of words: how it is stored, and the greatest rank.
#[derive(Drop)]
pub(crate) struct ValueMap {
    pub(crate) front: Vec<u8>,
    pub(crate) greatest: u16,
}

/// Replaces each word by its rank among 0 and the words. Tables have an entry for each value up to the greatest word.
pub(crate) fn renumber_words(alloc: Global, words: &mut [u16]) -> Result<ValueMap, NoMemory>
    ensures front { IfOk result (λ v. v.front.items ≡ map_front_of words.old) }
    ensures greatest { IfOk result (λ v. v.greatest ≡ greatest_rank_of words.old) }
    ensures ranks { OnOk result (words.new ≡ map (rank_of words.old) words.old) }
    ensures words { (k : ℕ) → slice_index words.old k < 2 ^ 16 }
{
    let size = greatest_word(words) as usize / 8 + 1;
    let mut marks = vec![in alloc; 0u8; 8 * size]?;
    let mut bytes = vec![in alloc; 0u8; size]?;
    let mut ranks = vec![in alloc; 0u16; 8 * size]?;
    let greatest = renumber_by(words, &mut marks, &mut bytes, &mut ranks);
    let front = front_of(alloc, &bytes)?;
    Ok(ValueMap { front, greatest })
}

/// Replaces each word by its rank, with tables that are zero at first. Leaves the bytes of the map in `bytes`, and gives
/// the greatest rank.
fn renumber_by(words: &mut [u16], marks: &mut [u8], bytes: &mut [u8], ranks: &mut [u16]) -> u16
    requires within { (k : ℕ) → k < length words.old → slice_index words.old k < length marks.old }
    requires none { (v : ℕ) → slice_index marks.old v ≡ 0 }
    requires some { 0 < length bytes.old }
    requires few { length bytes.old ≤ 8192 }
    requires marks { length marks.old ≡ 8 * length bytes.old }
    requires ranks { length ranks.old ≡ 8 * length bytes.old }
    ensures bytes { IsMapOf words.old bytes.new }
    ensures greatest { result ≡ greatest_rank_of words.old }
    ensures ranks { words.new ≡ map (rank_of words.old) words.old }
{
    put_marks(words, marks);
    put_map(marks, bytes);
    let greatest = put_ranks(marks, ranks);
    renumber(ranks, words);
    greatest
}

/// Where the first byte that is not zero stands, and where the last one ends; the same place where there is none.
fn used_part(bytes: &[u8]) -> (usize, usize)
    ensures ordered { result.0 ≤ result.1 }
    ensures within { result.1 ≤ length bytes.now }
    ensures before { (b : ℕ) → b < result.0 → slice_index bytes.now b ≡ 0 }
    ensures behind { (b : ℕ) → result.1 ≤ b → slice_index bytes.now b ≡ 0 }
    ensures first { result.0 < result.1 → slice_index bytes.now result.0 ≢ 0 }
    ensures last { result.0 < result.1 → slice_index bytes.now (result.1 - 1) ≢ 0 }
{
    let end = without_zeros_behind(bytes);
    if end == 0 {
        return (0, 0);
    }
    (zeros_in_front(bytes), end)
}

/// How a map of words is stored, of which the bytes are given but for zeros at its end.
fn front_of(alloc: Global, bytes: &[u8]) -> Result<Vec<u8>, NoMemory>
    requires few { length bytes.now ≤ 8192 }
    ensures { (words : List ℕ) → IsMapOf words bytes.now → IfOk result (λ front. front.items ≡ map_front_of words) }
{
    let (first, end) = used_part(bytes);
    if first == end {
        return joined(alloc, 8191, 0, &[]);
    }
    joined(alloc, first as u16, (end - 1) as u16, &bytes[first..end])
}

/// The two indexes and the bytes from one to the other.
fn joined(alloc: Global, least: u16, greatest: u16, bytes: &[u8]) -> Result<Vec<u8>, NoMemory>
    requires few { length bytes.now ≤ 8192 }
    ensures { IfOk result (λ front. front.items ≡ to_le_bytes w16 least ++ to_le_bytes w16 greatest ++ bytes.now) }
{
    let mut front = Vec::with_capacity(alloc, 4 + bytes.len())?;
    front.extend_from_slice(&least.to_le_bytes())?;
    front.extend_from_slice(&greatest.to_le_bytes())?;
    front.extend_from_slice(bytes)?;
    Ok(front)
}
