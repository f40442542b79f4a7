//! Unpacking: the tokens' bytes, their sums, and the halves together.

ghost use Rattle.std.specs.Prelude.{◌≡◌, List, ℕ, length, IfOk, IsTrue, Ok};
ghost use Rattle.exr_base.specs.Refusal.{Gives};
ghost use Rattle.exr_rle.specs.Token.{IsRleSpelling};
ghost use Rattle.exr_rle.specs.Unpacked.{bytes_spelled, counts, rle_of, raw_of, Unpacks};

use crate::broken::RleBroken;
use crate::halves::lay_together;
use crate::restore::restore;
use crate::tokens::{expand, spells};
use exr_base::Refusal;
use std::alloc::Global;

/// Unpacks `raw` bytes (own). `RleBroken` comes exactly where the packed data is not a list of whole tokens that give
/// `raw` bytes: any choice of runs is accepted, and all packed data must be used up.
/// Broken data takes no memory; else at most twice the raw bytes are held.
pub fn unpack(alloc: Global, packed: &[u8], raw: usize) -> Result<Vec<u8>, Refusal<RleBroken>>
    // The result is what the tokens give.
    ensures found { IfOk result (λ bytes. Unpacks packed.now raw bytes.items) }
    // Tokens that give `raw` bytes are unpacked, unless memory runs out.
    ensures only { (bytes : List ℕ) → IsRleSpelling packed.now bytes → length bytes ≡ raw → Gives (λ v. v.items) result (Ok (raw_of bytes)) }
    ensures exact { Gives (λ bytes. bytes.items) result (rle_of packed.now raw) }
{
    unpack_exactly(alloc, packed, raw)
}

fn unpack_exactly(alloc: Global, packed: &[u8], raw: usize) -> Result<Vec<u8>, Refusal<RleBroken>>
    ensures { Gives (λ bytes. bytes.items) result (rle_of packed.now raw) }
{
    if !spells(packed, raw) {
        return Err(Refusal::Fault(RleBroken));
    }
    let mut halves = vec![in alloc; 0u8; raw]?;
    let mut bytes = vec![in alloc; 0u8; raw]?;
    unpack_counted(packed, &mut halves, &mut bytes);
    Ok(bytes)
}

/// The raw bytes of packed data whose tokens were found to give as many as there is room for.
fn unpack_counted(packed: &[u8], halves: &mut [u8], raw: &mut [u8])
    requires counted { IsTrue (counts (bytes_spelled 0 packed.now) (length halves.old)) }
    requires room { length raw.old ≡ length halves.old }
    ensures { rle_of packed.now (length raw.old) ≡ Ok raw.new }
{
    expand(packed, halves);
    restore(halves);
    lay_together(halves, raw);
}
