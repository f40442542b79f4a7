//! The data bits of a block: they are read code by code until all words are there.

ghost use Rattle.std.specs.Prelude.{◌≡◌, ◌≢◌, ℕ, ◌+◌, ◌-◌, ◌*◌, ◌^◌, ◌<◌, ◌≤◌, ◌++◌, Bool, false, List, length, take, replicate, slice_index, option_map, IfSome, MatchResult};
ghost use Rattle.exr_base.specs.Bits.{number_of};
ghost use Rattle.exr_base.specs.Refusal.{Gives};
ghost use Rattle.exr_codes.specs.Codes.{IsComplete, entry_at};
ghost use Rattle.exr_codes.specs.Windows.{IsCodeAt};
ghost use Rattle.exr_huffman.specs.Blocks.{data_bits, data_words_of, is_run};
ghost use Rattle.exr_codes.specs.Rest.{rest_at};
ghost use Rattle.exr_huffman.specs.Fronts.{AreFronts};
ghost use Rattle.exr_huffman.specs.Nexts.{IsNext, data_rest};
ghost use Rattle.exr_huffman.specs.Reading.{HasRead};

use crate::fault::HufFault;
use crate::fronts::{FRONTS, Front, fronts_of, take_fronts};
use crate::rounds::take_rounds;
use exr_base::Refusal;
use exr_codes::{Decoder, Found, Window};
use std::alloc::Global;

/// The code that begins the window, which is filled first where it does not hold the whole code, or few bits.
#[inline(always)]
fn find(decoder: &Decoder, window: &mut Window<'_>) -> Found
    requires { IsComplete decoder.now }
    ensures found { IsCodeAt decoder.now window.new.window result.entry result.len }
    ensures have { result.len ≤ window.new.have }
    ensures short { result.len ≤ 58 }
    ensures at { window.new.at ≡ window.old.at }
    ensures bytes { window.new.bytes.now ≡ window.old.bytes.now }
{
    if window.have < 20 {
        window.refill();
    }
    let found = decoder.find(window.window);
    if found.len <= window.have {
        return found;
    }
    window.refill();
    decoder.find(window.window)
}

/// The code that the data bits go on with, or None where they end before a whole one.
#[inline(always)]
fn find_whole(decoder: &Decoder, window: &mut Window<'_>, bits: u64) -> Option<Found>
    requires complete { IsComplete decoder.now }
    requires within { window.old.at ≤ bits }
    requires there { bits ≤ 8 * length window.old.bytes.now }
    ensures value { entry_at decoder.now (data_rest window.old.bytes.now bits window.old.at) ≡ option_map (λ found. found.entry) result }
    ensures len { IfSome result (λ found. slice_index decoder.now found.entry ≡ found.len) }
    ensures some { IfSome result (λ found. 0 < found.len) }
    ensures short { IfSome result (λ found. found.len ≤ 58) }
    ensures have { IfSome result (λ found. found.len ≤ window.new.have) }
    ensures whole { IfSome result (λ found. window.new.at + found.len ≤ bits) }
    ensures at { window.new.at ≡ window.old.at }
    ensures bytes { window.new.bytes.now ≡ window.old.bytes.now }
{
    let found = find(decoder, window);
    if found.len as u64 > bits - window.at {
        return None;
    }
    Some(found)
}

/// Whether the data bits begin with the code of the run symbol, entry `run`.
fn begins_with_run(decoder: &Decoder, window: &mut Window<'_>, bits: u64, run: u32) -> bool
    requires complete { IsComplete decoder.now }
    requires run { length decoder.now ≡ run + 1 }
    requires within { window.old.at ≤ bits }
    requires there { bits ≤ 8 * length window.old.bytes.now }
    ensures value { result ≡ is_run decoder.now (entry_at decoder.now (data_rest window.old.bytes.now bits window.old.at)) }
    ensures at { window.new.at ≡ window.old.at }
    ensures bytes { window.new.bytes.now ≡ window.old.bytes.now }
{
    match find_whole(decoder, window, bits) {
        Some(found) => found.entry == run,
        None => false,
    }
}

/// What the data bits go on with: a word, more of the word before, or no whole token.
enum Next {
    Word(u16),
    More(u16),
    Cut,
}

/// The eight bits of a run.
#[inline(always)]
fn take_count(window: &mut Window<'_>) -> u16
    requires there { window.old.at + 8 ≤ 8 * length window.old.bytes.now }
    requires fits { window.old.at + 8 < 2 ^ 64 }
    ensures value { result ≡ number_of (take 8 (rest_at window.old.bytes.now window.old.at)) }
    ensures at { window.new.at ≡ window.old.at + 8 }
    ensures bytes { window.new.bytes.now ≡ window.old.bytes.now }
{
    if window.have < 8 {
        window.refill();
    }
    let count = (window.window >> 56) as u16;
    window.skip(8);
    count
}

/// Writes a word `count` times.
fn put_copies(words: &mut [u16], at: usize, count: usize, word: u16)
    requires { at + count ≤ length words.old }
    ensures { take (at + count) words.new ≡ take at words.old ++ replicate count word }
{
    words[at..at + count].fill(word);
}

/// The token that the data bits go on with.
#[inline(always)]
fn next_token(decoder: &Decoder, window: &mut Window<'_>, bits: u64, least: u32, run: u32) -> Next
    requires complete { IsComplete decoder.now }
    requires run { length decoder.now ≡ run + 1 }
    requires range { least + run ≤ 65536 }
    requires within { window.old.at ≤ bits }
    requires there { bits ≤ 8 * length window.old.bytes.now }
    requires few { bits < 2 ^ 32 }
    ensures token { IsNext least decoder.now (data_rest window.old.bytes.now bits window.old.at) (data_rest window.old.bytes.now bits window.new.at) result }
    ensures on { result ≢ Next.Cut → window.old.at < window.new.at }
    ensures within { window.new.at ≤ bits }
    ensures bytes { window.new.bytes.now ≡ window.old.bytes.now }
{
    let Some(found) = find_whole(decoder, window, bits) else {
        return Next::Cut;
    };
    window.skip(found.len);
    if found.entry != run {
        return Next::Word((least + found.entry) as u16);
    }
    if bits - window.at < 8 {
        return Next::Cut;
    }
    Next::More(take_count(window))
}

/// Writes words from word `count` on, by fronts where there is a table of them and else by rounds of three codes, until
/// a token comes that these do not take or an end is near. Gives how many words there are then.
#[inline(always)]
fn take_words(
    words: &mut [u16],
    count: usize,
    window: &mut Window<'_>,
    bits: u64,
    fronts: &[Front],
    decoder: &Decoder,
    least: u32,
    run: u32,
) -> usize
    requires complete { IsComplete decoder.now }
    requires fronts { AreFronts least decoder.now fronts.now }
    requires run { length decoder.now ≡ run + 1 }
    requires range { least + run ≤ 65536 }
    requires there { bits ≤ 8 * length window.old.bytes.now }
    requires within { window.old.at ≤ bits }
    requires few { bits < 2 ^ 32 }
    requires room { count ≤ length words.old }
    ensures read { (wanted : ℕ) (all : List Bool) → length words.old ≤ wanted → HasRead least decoder.now wanted all (data_rest window.old.bytes.now bits window.old.at) (take count words.old) → HasRead least decoder.now wanted all (data_rest window.new.bytes.now bits window.new.at) (take result words.new) }
    ensures bytes { window.new.bytes.now ≡ window.old.bytes.now }
    ensures from { window.old.at ≤ window.new.at }
    ensures within { window.new.at ≤ bits }
    ensures more { count ≤ result }
    ensures room { result ≤ length words.new }
{
    if fronts.len() == FRONTS {
        take_fronts(words, count, window, bits, fronts, decoder, least)
    } else {
        take_rounds(words, count, window, bits, decoder, least, run)
    }
}

/// Fills a slice with the words that the data bits spell, if they are exactly as many.
fn fill_words(
    words: &mut [u16],
    window: &mut Window<'_>,
    bits: u64,
    decoder: &Decoder,
    fronts: &[Front],
    least: u32,
    run: u32,
) -> Result<(), HufFault>
    requires complete { IsComplete decoder.now }
    requires fronts { AreFronts least decoder.now fronts.now }
    requires run { length decoder.now ≡ run + 1 }
    requires range { least + run ≤ 65536 }
    requires front { window.old.at ≡ 0 }
    requires there { bits ≤ 8 * length window.old.bytes.now }
    requires few { bits < 2 ^ 32 }
    requires some { 0 < length words.old }
    requires word_first { is_run decoder.now (entry_at decoder.now (data_bits window.old.bytes.now bits)) ≡ false }
    ensures { MatchResult result (λ _. data_words_of least decoder.now (length words.old) (data_bits window.old.bytes.now bits) ≡ Ok words.new) (λ fault. data_words_of least decoder.now (length words.old) (data_bits window.old.bytes.now bits) ≡ Err fault) }
{
    let mut count = 0;
    let mut before = 0u16;
    'tokens: while window.at < bits {
        if count == words.len() {
            return Err(HufFault::TooMany);
        }
        match next_token(decoder, window, bits, least, run) {
            Next::Word(word) => {
                words[count] = word;
                count = take_words(words, count + 1, window, bits, fronts, decoder, least, run);
                before = words[count - 1];
            }
            Next::More(more) => {
                if more as usize > words.len() - count {
                    return Err(HufFault::TooMany);
                }
                put_copies(words, count, more as usize, before);
                count += more as usize;
            }
            Next::Cut => return Err(HufFault::TooFew),
        }
    }
    if count < words.len() {
        return Err(HufFault::TooFew);
    }
    Ok(())
}

/// The words that the data bits spell. A code and the eight bits after it give at most 255 words, so memory is
/// asked for only where the bits can spell all words.
pub(crate) fn data_words(
    alloc: Global,
    bytes: &[u8],
    bits: u64,
    decoder: &Decoder,
    least: u32,
    run: u32,
    wanted: usize,
) -> Result<Vec<u16>, Refusal<HufFault>>
    requires complete { IsComplete decoder.now }
    requires run { length decoder.now ≡ run + 1 }
    requires range { least + run ≤ 65536 }
    requires there { bits ≤ 8 * length bytes.now }
    requires few { bits < 2 ^ 32 }
    requires some { 0 < wanted }
    requires most { wanted < 2 ^ 32 }
    ensures { Gives (λ v. v.items) result (data_words_of least decoder.now wanted (data_bits bytes.now bits)) }
{
    let mut window = Window::new(bytes);
    if begins_with_run(decoder, &mut window, bits, run) {
        return Err(Refusal::Fault(HufFault::RunFirst));
    }
    if 3 * wanted as u64 > 85 * bits {
        return Err(Refusal::Fault(HufFault::TooFew));
    }
    let fronts = fronts_of(alloc, decoder, least, run, bits, wanted)?;
    let mut words = vec![in alloc; 0u16; wanted]?;
    match fill_words(&mut words, &mut window, bits, decoder, &fronts, least, run) {
        Ok(()) => Ok(words),
        Err(fault) => Err(Refusal::Fault(fault)),
    }
}
