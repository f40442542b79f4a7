//! Reading the bytes of a head: the headers at the front of a file, at most 2^24 bytes.

ghost use Rattle.std.specs.Prelude.{◌≡◌, length, IfOk};
ghost use Rattle.exr_attributes.specs.Reading.{Reads, past_of, bytes_at, byte_at, number_at};

use crate::fault::{Bound, HeaderFault};
use exr_base::{Cursor, Refusal};

/// The most bytes of a head (own).
pub const HEAD_LIMIT: usize = 1 << 24;

/// The next `n` bytes of a head.
///
/// `Truncated` where the input ends before them, `Limit(HeadBytes)` where they pass 2^24 and the input goes on. After an
/// error nothing is taken.
#[tactic(auto, unfolding(crate::specs::Reading::bytes_at))]
pub fn head_bytes<'a>(from: &mut Cursor<'a>, n: usize) -> Result<&'a [u8], Refusal<HeaderFault>>
    ensures exact { Reads (λ bytes. bytes.now) result from.new (bytes_at n from.old) }
    ensures long { IfOk result (λ bytes. length bytes.now ≡ n) }
{
    let room = HEAD_LIMIT.saturating_sub(from.at());
    if n > room {
        return Err(Refusal::Fault(past(from)));
    }
    match from.take(n) {
        Some(bytes) => Ok(bytes),
        None => Err(Refusal::Fault(past(from))),
    }
}

/// The fault of reading past the bytes that a head may have.
pub(crate) fn past(from: &Cursor) -> HeaderFault
    ensures { result ≡ past_of from.now }
{
    let at = from.at();
    let left = from.left();
    if at <= HEAD_LIMIT && left <= HEAD_LIMIT - at {
        HeaderFault::Truncated {
            at: (at + left) as u64,
        }
    } else {
        HeaderFault::Limit(Bound::HeadBytes)
    }
}

/// The next byte.
#[tactic(auto, unfolding(crate::specs::Reading::byte_at))]
pub(crate) fn byte(from: &mut Cursor) -> Result<u8, Refusal<HeaderFault>>
    ensures { Reads (λ byte. byte) result from.new (byte_at from.old) }
{
    let bytes = head_bytes(from, 1)?;
    Ok(bytes[0])
}

/// The next four bytes of a head as a number, low byte first. Its errors are those of [`head_bytes`].
#[tactic(auto, unfolding(crate::specs::Reading::number_at))]
pub fn head_number(from: &mut Cursor) -> Result<u32, Refusal<HeaderFault>>
    ensures { Reads (λ number. number) result from.new (number_at from.old) }
{
    let bytes = head_bytes(from, 4)?;
    Ok(u32::from_le_bytes([bytes[0], bytes[1], bytes[2], bytes[3]]))
}
