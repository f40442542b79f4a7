//! Words, and the two bytes that each is stored in, the low one first.

ghost use Rattle.std.specs.Prelude.{◌≡◌, ℕ, ◌*◌, ◌<◌, length, map, slice_index};
ghost use Rattle.exr_piz.specs.Words.{words_from, bytes_from};

use crate::marks::greatest_word;
use crate::values::value_of;

/// Reads words from their bytes.
pub(crate) fn put_words(bytes: &[u8], words: &mut [u16])
    requires { length bytes.now ≡ 2 * length words.old }
    ensures exact { words.new ≡ words_from bytes.now }
    // The bytes of these words are the same.
    ensures restores { bytes_from words.new ≡ bytes.now }
{
    for (k, word) in words.iter_mut().enumerate() {
        *word = u16::from_le_bytes([bytes[2 * k], bytes[2 * k + 1]]);
    }
}

/// Replaces each word, a rank, by the value of that rank, or by 0 where there is none, and writes it as bytes. The greatest
/// word is found first: where it has a value, as in every block that a writer made, no word is compared.
pub(crate) fn put_bytes(values: &[u16], words: &[u16], bytes: &mut [u8])
    requires { length bytes.old ≡ 2 * length words.now }
    ensures { bytes.new ≡ bytes_from (map (slice_index values.now) words.now) }
{
    if (greatest_word(words) as usize) < values.len() {
        put_present(values, words, bytes);
    } else {
        put_compared(values, words, bytes);
    }
}

/// The same where each word has a value. It is not inlined, so that the loop has registers of its own.
#[inline(never)]
fn put_present(values: &[u16], words: &[u16], bytes: &mut [u8])
    requires size { length bytes.old ≡ 2 * length words.now }
    requires present { (k : ℕ) → k < length words.now → slice_index words.now k < length values.now }
    ensures { bytes.new ≡ bytes_from (map (slice_index values.now) words.now) }
{
    for (k, word) in words.iter().enumerate() {
        let value = values[*word as usize].to_le_bytes();
        bytes[2 * k] = value[0];
        bytes[2 * k + 1] = value[1];
    }
}

/// The same for any words.
#[inline(never)]
fn put_compared(values: &[u16], words: &[u16], bytes: &mut [u8])
    requires { length bytes.old ≡ 2 * length words.now }
    ensures { bytes.new ≡ bytes_from (map (slice_index values.now) words.now) }
{
    for (k, word) in words.iter().enumerate() {
        let value = value_of(values, *word).to_le_bytes();
        bytes[2 * k] = value[0];
        bytes[2 * k + 1] = value[1];
    }
}
