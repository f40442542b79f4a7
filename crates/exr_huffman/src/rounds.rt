//! Rounds of three codes: one filling of the window holds three codes of up to 20 bits, which are taken without a test
//! of the window between them. This is for data that has no table of fronts, as its codes are long.

ghost use Rattle.std.specs.Prelude.{◌≡◌, ℕ, true, ◌+◌, ◌*◌, ◌^◌, ◌<◌, ◌≤◌, Bool, List, length, take};
ghost use Rattle.exr_codes.specs.Codes.{IsComplete};
ghost use Rattle.exr_huffman.specs.Nexts.{data_rest};
ghost use Rattle.exr_huffman.specs.Reading.{HasRead};

use exr_codes::{Decoder, Window};

/// Writes the word whose code begins the window as word `count`, and moves past its code. Gives how many words there
/// are then: no more than before where the run symbol's code or one of more than 20 bits comes.
#[inline(always)]
fn take_code(
    words: &mut [u16],
    count: usize,
    window: &mut Window<'_>,
    bits: u64,
    decoder: &Decoder,
    least: u32,
    run: u32,
) -> usize
    requires complete { IsComplete decoder.now }
    requires run { length decoder.now ≡ run + 1 }
    requires range { least + run ≤ 65536 }
    requires there { bits ≤ 8 * length window.old.bytes.now }
    requires within { window.old.at + 20 ≤ bits }
    requires few { bits < 2 ^ 32 }
    requires have { 20 ≤ window.old.have }
    requires room { count < length words.old }
    ensures read { (wanted : ℕ) (all : List Bool) → length words.old ≤ wanted → HasRead least decoder.now wanted all (data_rest window.old.bytes.now bits window.old.at) (take count words.old) → HasRead least decoder.now wanted all (data_rest window.new.bytes.now bits window.new.at) (take result words.new) }
    ensures bytes { window.new.bytes.now ≡ window.old.bytes.now }
    ensures from { window.old.at ≤ window.new.at }
    ensures at { window.new.at ≤ window.old.at + 20 }
    ensures have { window.old.have ≤ window.new.have + 20 }
    ensures more { count ≤ result }
    ensures few { result ≤ count + 1 }
    ensures on { count < result → window.old.at < window.new.at }
{
    let _ = bits;
    let found = decoder.find(window.window);
    if found.entry == run || found.len > 20 {
        return count;
    }
    words[count] = (least + found.entry) as u16;
    window.skip(found.len);
    count + 1
}

/// Takes three codes, or those up to the first one that is not taken. Gives how many words there are then, and whether
/// each code was taken.
#[inline(always)]
fn take_three(
    words: &mut [u16],
    count: usize,
    window: &mut Window<'_>,
    bits: u64,
    decoder: &Decoder,
    least: u32,
    run: u32,
) -> (usize, bool)
    requires complete { IsComplete decoder.now }
    requires run { length decoder.now ≡ run + 1 }
    requires range { least + run ≤ 65536 }
    requires there { bits ≤ 8 * length window.old.bytes.now }
    requires within { window.old.at + 60 ≤ bits }
    requires few { bits < 2 ^ 32 }
    requires room { count + 3 ≤ length words.old }
    ensures read { (wanted : ℕ) (all : List Bool) → length words.old ≤ wanted → HasRead least decoder.now wanted all (data_rest window.old.bytes.now bits window.old.at) (take count words.old) → HasRead least decoder.now wanted all (data_rest window.new.bytes.now bits window.new.at) (take result.0 words.new) }
    ensures bytes { window.new.bytes.now ≡ window.old.bytes.now }
    ensures from { window.old.at ≤ window.new.at }
    ensures within { window.new.at ≤ bits }
    ensures more { count ≤ result.0 }
    ensures room { result.0 ≤ length words.new }
    ensures on { result.1 ≡ true → window.old.at < window.new.at }
{
    window.refill();
    let one = take_code(words, count, window, bits, decoder, least, run);
    if one == count {
        return (one, false);
    }
    let two = take_code(words, one, window, bits, decoder, least, run);
    if two == one {
        return (two, false);
    }
    let three = take_code(words, two, window, bits, decoder, least, run);
    (three, two < three)
}

/// Writes words from word `count` on, by three codes at a time, until a run or a longer code comes or an end is near.
/// Gives how many words there are then. Where the data has fewer than four bits a word, runs are near and nothing is
/// taken.
#[inline(always)]
pub(crate) fn take_rounds(
    words: &mut [u16],
    count: usize,
    window: &mut Window<'_>,
    bits: u64,
    decoder: &Decoder,
    least: u32,
    run: u32,
) -> usize
    requires complete { IsComplete decoder.now }
    requires run { length decoder.now ≡ run + 1 }
    requires range { least + run ≤ 65536 }
    requires there { bits ≤ 8 * length window.old.bytes.now }
    requires within { window.old.at ≤ bits }
    requires few { bits < 2 ^ 32 }
    requires room { count ≤ length words.old }
    ensures read { (wanted : ℕ) (all : List Bool) → length words.old ≤ wanted → HasRead least decoder.now wanted all (data_rest window.old.bytes.now bits window.old.at) (take count words.old) → HasRead least decoder.now wanted all (data_rest window.new.bytes.now bits window.new.at) (take result words.new) }
    ensures bytes { window.new.bytes.now ≡ window.old.bytes.now }
    ensures from { window.old.at ≤ window.new.at }
    ensures within { window.new.at ≤ bits }
    ensures more { count ≤ result }
    ensures room { result ≤ length words.new }
{
    let mut count = count;
    let mut going = bits / 4 >= words.len() as u64;
    'rounds: while going && words.len() - count >= 3 && bits - window.at >= 60 {
        let (after, more) = take_three(words, count, window, bits, decoder, least, run);
        count = after;
        going = more;
    }
    count
}
