//! The parts of packed data, cut out of it.

ghost use Rattle.std.specs.Prelude.{◌≡◌, ◌+◌, ◌≤◌, length, take, drop, IfOk};
ghost use Rattle.std.specs.Int.{w16, w32, from_le_bytes};
ghost use Rattle.exr_base.specs.Refusal.{Gives};
ghost use Rattle.exr_piz.specs.Stored.{parts_of};
ghost use Rattle.exr_piz.specs.Cut.{parts_from};

use crate::fault::PizFault;
use exr_base::Refusal;

/// Where the bytes of the value map begin in it, those bytes, and the Huffman block.
#[derive(Drop)]
pub(crate) struct Parts<'a> {
    pub(crate) first: usize,
    pub(crate) map: &'a [u8],
    pub(crate) block: &'a [u8],
}

/// The number in two bytes, the low one first.
fn number_in_two(packed: &[u8], at: usize) -> usize
    requires { at + 2 ≤ length packed.now }
    ensures { result ≡ from_le_bytes w16 (take 2 (drop at packed.now)) }
{
    u16::from_le_bytes([packed[at], packed[at + 1]]) as usize
}

/// The number in four bytes, the low one first.
fn number_in_four(packed: &[u8], at: usize) -> usize
    requires { at + 4 ≤ length packed.now }
    ensures { result ≡ from_le_bytes w32 (take 4 (drop at packed.now)) }
{
    u32::from_le_bytes([packed[at], packed[at + 1], packed[at + 2], packed[at + 3]]) as usize
}

/// The parts, or the first thing that is wrong. Bytes after the block are not looked at.
#[tactic(auto, unfolding(crate::specs::Stored::parts_of))]
pub(crate) fn cut_parts(packed: &[u8]) -> Result<Parts<'_>, Refusal<PizFault>>
    ensures value { Gives parts_from result (parts_of packed.now) }
    ensures within { IfOk result (λ parts. parts.first + length parts.map.now ≤ 8192) }
{
    if packed.len() < 4 {
        return Err(Refusal::Fault(PizFault::Short));
    }
    let first = number_in_two(packed, 0);
    let last = number_in_two(packed, 2);
    if first > 8191 || last > 8191 {
        return Err(Refusal::Fault(PizFault::BadMap));
    }
    let size = (last + 1).saturating_sub(first);
    if packed.len() < 8 + size {
        return Err(Refusal::Fault(PizFault::Short));
    }
    let length = number_in_four(packed, 4 + size);
    if length >= 1 << 31 || packed.len() - (8 + size) < length {
        return Err(Refusal::Fault(PizFault::Short));
    }
    Ok(Parts {
        first,
        map: &packed[4..4 + size],
        block: &packed[8 + size..8 + size + length],
    })
}
