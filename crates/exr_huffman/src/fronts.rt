//! The table of fronts: for each of the 4,096 numbers of 12 bits, the words whose codes it begins with, two where both
//! codes fit. So one look-up gives up to two words.

ghost use Rattle.std.specs.Prelude.{◌≡◌, ℕ, true, ◌+◌, ◌*◌, ◌^◌, ◌<◌, ◌≤◌, Bool, List, length, take, slice_index_or, IfOk};
ghost use Rattle.exr_codes.specs.Codes.{IsComplete};
ghost use Rattle.exr_huffman.specs.declared.fronts.Front.{Front};
ghost use Rattle.exr_huffman.specs.Fronts.{IsFront, AreFronts};
ghost use Rattle.exr_huffman.specs.Nexts.{data_rest};
ghost use Rattle.exr_huffman.specs.Reading.{HasRead};

use exr_base::NoMemory;
use exr_codes::{Decoder, Window};
use std::alloc::Global;

/// How many fronts there are.
pub(crate) const FRONTS: usize = 1 << 12;

/// The words that a front begins with, as many as `count` says, and how many bits their codes have. There are none
/// where the run symbol's code or a longer code begins it.
#[derive(Clone, Copy)]
pub(crate) struct Front {
    first: u16,
    second: u16,
    bits: u8,
    count: u8,
}

/// The words of a front.
fn front_of(decoder: &Decoder, front: u64, least: u32, run: u32) -> Front
    requires complete { IsComplete decoder.now }
    requires run { length decoder.now ≡ run + 1 }
    requires range { least + run ≤ 65536 }
    requires small { front < 4096 }
    ensures { IsFront least decoder.now front result }
{
    let window = front << 52;
    let first = decoder.find(window);
    if first.entry == run || first.len > 12 {
        return Front {
            first: 0,
            second: 0,
            bits: 0,
            count: 0,
        };
    }
    let second = decoder.find(window << first.len);
    if second.entry == run || second.len > 12 - first.len {
        return Front {
            first: (least + first.entry) as u16,
            second: 0,
            bits: first.len as u8,
            count: 1,
        };
    }
    Front {
        first: (least + first.entry) as u16,
        second: (least + second.entry) as u16,
        bits: (first.len + second.len) as u8,
        count: 2,
    }
}

/// Writes the words of all fronts.
fn lay_fronts(decoder: &Decoder, least: u32, run: u32, fronts: &mut [Front])
    requires complete { IsComplete decoder.now }
    requires run { length decoder.now ≡ run + 1 }
    requires range { least + run ≤ 65536 }
    requires size { length fronts.old ≡ 4096 }
    ensures { AreFronts least decoder.now fronts.new }
{
    for front in 0..fronts.len() {
        fronts[front] = front_of(decoder, front as u64, least, run);
    }
}

/// The table of fronts, or an empty one where it would not pay: for few bits, or where most codes are longer than a
/// front.
pub(crate) fn fronts_of(
    alloc: Global,
    decoder: &Decoder,
    least: u32,
    run: u32,
    bits: u64,
    wanted: usize,
) -> Result<Vec<Front>, NoMemory>
    requires complete { IsComplete decoder.now }
    requires run { length decoder.now ≡ run + 1 }
    requires range { least + run ≤ 65536 }
    requires most { wanted < 2 ^ 32 }
    ensures { IfOk result (λ v. AreFronts least decoder.now v.items) }
{
    if bits < 1 << 16 || bits > 10 * wanted as u64 {
        return Ok(Vec::new(alloc));
    }
    let none = Front {
        first: 0,
        second: 0,
        bits: 0,
        count: 0,
    };
    let mut fronts = vec![in alloc; none; FRONTS]?;
    lay_fronts(decoder, least, run, &mut fronts);
    Ok(fronts)
}

/// Writes the words of the front that the window begins with from word `count` on, and moves past their codes. Gives
/// how many words there are then.
#[inline(always)]
fn take_front(
    words: &mut [u16],
    count: usize,
    window: &mut Window<'_>,
    bits: u64,
    fronts: &[Front],
    decoder: &Decoder,
    least: u32,
) -> usize
    requires fronts { AreFronts least decoder.now fronts.now }
    requires size { length fronts.now ≡ 4096 }
    requires there { bits ≤ 8 * length window.old.bytes.now }
    requires within { window.old.at + 12 ≤ bits }
    requires few { bits < 2 ^ 32 }
    requires have { 12 ≤ window.old.have }
    requires room { count + 2 ≤ length words.old }
    ensures read { (wanted : ℕ) (all : List Bool) → length words.old ≤ wanted → HasRead least decoder.now wanted all (data_rest window.old.bytes.now bits window.old.at) (take count words.old) → HasRead least decoder.now wanted all (data_rest window.new.bytes.now bits window.new.at) (take result words.new) }
    ensures bytes { window.new.bytes.now ≡ window.old.bytes.now }
    ensures from { window.old.at ≤ window.new.at }
    ensures at { window.new.at ≤ window.old.at + 12 }
    ensures have { window.old.have ≤ window.new.have + 12 }
    ensures more { count ≤ result }
    ensures few { result ≤ count + 2 }
    ensures on { count < result → window.old.at < window.new.at }
{
    let _ = decoder;
    let _ = least;
    let _ = bits;
    let front = fronts[(window.window >> 52) as usize];
    words[count] = front.first;
    words[count + 1] = front.second;
    window.skip(front.bits as u32);
    count + front.count as usize
}

/// Takes five fronts, or those up to the first one that has no words. Gives how many words there are then, and whether
/// each front had some.
#[inline(always)]
fn take_five(
    words: &mut [u16],
    count: usize,
    window: &mut Window<'_>,
    bits: u64,
    fronts: &[Front],
    decoder: &Decoder,
    least: u32,
) -> (usize, bool)
    requires fronts { AreFronts least decoder.now fronts.now }
    requires size { length fronts.now ≡ 4096 }
    requires there { bits ≤ 8 * length window.old.bytes.now }
    requires within { window.old.at + 60 ≤ bits }
    requires few { bits < 2 ^ 32 }
    requires room { count + 10 ≤ length words.old }
    ensures read { (wanted : ℕ) (all : List Bool) → length words.old ≤ wanted → HasRead least decoder.now wanted all (data_rest window.old.bytes.now bits window.old.at) (take count words.old) → HasRead least decoder.now wanted all (data_rest window.new.bytes.now bits window.new.at) (take result.0 words.new) }
    ensures bytes { window.new.bytes.now ≡ window.old.bytes.now }
    ensures from { window.old.at ≤ window.new.at }
    ensures within { window.new.at ≤ bits }
    ensures more { count ≤ result.0 }
    ensures room { result.0 ≤ length words.new }
    ensures on { result.1 ≡ true → window.old.at < window.new.at }
{
    window.refill();
    let one = take_front(words, count, window, bits, fronts, decoder, least);
    if one == count {
        return (one, false);
    }
    let two = take_front(words, one, window, bits, fronts, decoder, least);
    if two == one {
        return (two, false);
    }
    let three = take_front(words, two, window, bits, fronts, decoder, least);
    if three == two {
        return (three, false);
    }
    let four = take_front(words, three, window, bits, fronts, decoder, least);
    if four == three {
        return (four, false);
    }
    let five = take_front(words, four, window, bits, fronts, decoder, least);
    (five, four < five)
}

/// Writes words from word `count` on, by five fronts at a time, until a run or a longer code comes or an end is near.
/// Gives how many words there are then.
#[inline(always)]
pub(crate) fn take_fronts(
    words: &mut [u16],
    count: usize,
    window: &mut Window<'_>,
    bits: u64,
    fronts: &[Front],
    decoder: &Decoder,
    least: u32,
) -> usize
    requires fronts { AreFronts least decoder.now fronts.now }
    requires size { length fronts.now ≡ 4096 }
    requires there { bits ≤ 8 * length window.old.bytes.now }
    requires within { window.old.at ≤ bits }
    requires few { bits < 2 ^ 32 }
    requires room { count ≤ length words.old }
    ensures read { (wanted : ℕ) (all : List Bool) → length words.old ≤ wanted → HasRead least decoder.now wanted all (data_rest window.old.bytes.now bits window.old.at) (take count words.old) → HasRead least decoder.now wanted all (data_rest window.new.bytes.now bits window.new.at) (take result words.new) }
    ensures bytes { window.new.bytes.now ≡ window.old.bytes.now }
    ensures from { window.old.at ≤ window.new.at }
    ensures within { window.new.at ≤ bits }
    ensures more { count ≤ result }
    ensures room { result ≤ length words.new }
{
    let mut count = count;
    let mut going = true;
    'rounds: while going && words.len() - count >= 10 && bits - window.at >= 60 {
        let (after, more) = take_five(words, count, window, bits, fronts, decoder, least);
        count = after;
        going = more;
    }
    count
}
