//! The checksum of what a kernel gave, repeat by repeat. It costs next to nothing beside a kernel, and needs each result.

ghost use Rattle.std.specs.Prelude.{◌≡◌, fold};
ghost use Rattle.exr_bench.specs.Checksum.{with_value, with_turn};

/// Adds what one repeat gave: one of its bytes, and all of them after the last repeat.
pub(crate) fn add_bytes(sum: u64, bytes: &[u8], turn: u32, is_last: bool) -> u64
    ensures { result ≡ with_turn sum bytes.now turn is_last }
{
    if is_last {
        return add_all_bytes(sum, bytes);
    }
    if bytes.len() == 0 {
        return add(sum, 0);
    }
    add(sum, u64::from(bytes[turn as usize % bytes.len()]))
}

/// Adds what one repeat gave: one of its words, and all of them after the last repeat.
pub(crate) fn add_words(sum: u64, words: &[u16], turn: u32, is_last: bool) -> u64
    ensures { result ≡ with_turn sum words.now turn is_last }
{
    if is_last {
        return add_all_words(sum, words);
    }
    if words.len() == 0 {
        return add(sum, 0);
    }
    add(sum, u64::from(words[turn as usize % words.len()]))
}

fn add(sum: u64, value: u64) -> u64
    ensures { result ≡ with_value sum value }
{
    sum.wrapping_mul(31).wrapping_add(value)
}

fn add_all_bytes(sum: u64, bytes: &[u8]) -> u64
    ensures { result ≡ fold with_value sum bytes.now }
{
    let mut sum = sum;
    for byte in bytes {
        sum = add(sum, u64::from(*byte));
    }
    sum
}

fn add_all_words(sum: u64, words: &[u16]) -> u64
    ensures { result ≡ fold with_value sum words.now }
{
    let mut sum = sum;
    for word in words {
        sum = add(sum, u64::from(*word));
    }
    sum
}
