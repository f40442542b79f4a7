//! Numbers in decimal digits (own).

ghost use Rattle.std.specs.Prelude.{◌≡◌, ◌^◌, ◌<◌, IfSome};
ghost use Rattle.exr_words.specs.Number.{number_of, number_within};

/// The most digits of a number, which may exceed 64 bits.
const MOST_DIGITS: usize = 20;

/// Parses a number of 1 to 20 digits.
fn number(text: &[u8]) -> Option<u128>
    ensures exact { result ≡ number_of text.now }
    ensures small { IfSome result (λ n. n < 10 ^ 20) }
{
    if text.is_empty() || text.len() > MOST_DIGITS {
        return None;
    }
    let mut sum = 0;
    for digit in text {
        if !digit.is_ascii_digit() {
            return None;
        }
        sum = 10 * sum + u128::from(*digit - b'0');
    }
    Some(sum)
}

/// Parses a number of 1 to 20 digits from `least` to `most`.
pub(crate) fn number_within(text: &[u8], least: u32, most: u32) -> Option<u32>
    ensures { result ≡ number_within least most text.now }
{
    let number = number(text)?;
    if number < u128::from(least) || number > u128::from(most) {
        return None;
    }
    Some(number as u32)
}

/// Parses a number up to 255.
pub(crate) fn byte(text: &[u8]) -> Option<u8>
    ensures { result ≡ number_within 0 255 text.now }
{
    u8::try_from(number_within(text, 0, 255)?).ok()
}
