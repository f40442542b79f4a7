//! The least and the greatest of a list of words, and how often each word occurs.

ghost use Rattle.std.specs.Prelude.{◌≡◌, ℕ, ◌+◌, ◌-◌, ◌^◌, ◌<◌, ◌≤◌, length, slice_index, count_by, ◌==◌, if◌then◌else◌, IfOk, vec_len};
ghost use Rattle.exr_packing.specs.Packed.{least_of, greatest_of, weights_of};

use exr_base::NoMemory;
use std::alloc::Global;

/// The least word.
pub(crate) fn least_word(words: &[u16]) -> u16
    ensures { result ≡ least_of words.now }
{
    let mut least = u16::MAX;
    for word in words {
        least = least.min(*word);
    }
    least
}

/// The greatest word.
pub(crate) fn greatest_word(words: &[u16]) -> u16
    ensures { result ≡ greatest_of words.now }
{
    let mut greatest = 0u16;
    for word in words {
        greatest = greatest.max(*word);
    }
    greatest
}

/// Counts two entries, which may be one and the same. Both counts are read before either is written, so that words which
/// are repeated wait for one another only once in two words.
#[inline(always)]
fn count_two(counts: &mut [u32], first: usize, second: usize)
    requires first { first < length counts.old }
    requires second { second < length counts.old }
    requires few { slice_index counts.old first + 2 < 2 ^ 32 }
    requires small { slice_index counts.old second + 2 < 2 ^ 32 }
    ensures { (k : ℕ) → slice_index counts.new k ≡ slice_index counts.old k + (if k == first then 1 else 0) + (if k == second then 1 else 0) }
{
    let one = counts[first];
    let other = counts[second];
    counts[first] = one + 1;
    counts[second] = if first == second { one + 2 } else { other + 1 };
}

/// Counts how often each word occurs, from the least on.
fn count_words(words: &[u16], least: u16, counts: &mut [u32])
    requires few { length words.now < 2 ^ 32 }
    requires above { (k : ℕ) → k < length words.now → least ≤ slice_index words.now k }
    requires within { (k : ℕ) → k < length words.now → slice_index words.now k - least < length counts.old }
    requires none { (k : ℕ) → slice_index counts.old k ≡ 0 }
    ensures { (k : ℕ) → k < length counts.new → slice_index counts.new k ≡ count_by (λ w. w == least + k) words.now }
{
    let mut at = 0;
    'pairs: while words.len() - at >= 2 {
        let first = (words[at] - least) as usize;
        let second = (words[at + 1] - least) as usize;
        count_two(counts, first, second);
        at += 2;
    }
    if at < words.len() {
        counts[(words[at] - least) as usize] += 1;
    }
}

/// Writes the weights of the words from the least to the greatest, and of the run symbol after them, over zeros.
fn put_weights(words: &[u16], least: u16, greatest: u16, weights: &mut [u32])
    requires some { 0 < length words.now }
    requires few { length words.now < 2 ^ 32 }
    requires least { least ≡ least_of words.now }
    requires greatest { greatest ≡ greatest_of words.now }
    requires size { length weights.old ≡ greatest - least + 2 }
    requires none { (k : ℕ) → slice_index weights.old k ≡ 0 }
    ensures { weights.new ≡ weights_of words.now }
{
    count_words(words, least, weights);
    weights[(greatest - least) as usize + 1] = 1;
}

/// The weights of the words from the least to the greatest, and of the run symbol after them.
pub(crate) fn weigh(
    alloc: Global,
    words: &[u16],
    least: u16,
    greatest: u16,
) -> Result<Vec<u32>, NoMemory>
    requires some { 0 < length words.now }
    requires few { length words.now < 2 ^ 32 }
    requires least { least ≡ least_of words.now }
    requires greatest { greatest ≡ greatest_of words.now }
    ensures { IfOk result (λ v. v.items ≡ weights_of words.now) }
{
    let mut weights = vec![in alloc; 0u32; (greatest - least) as usize + 2]?;
    put_weights(words, least, greatest, &mut weights);
    Ok(weights)
}
