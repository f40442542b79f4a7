//! The least lengths: for each of the 4,096 numbers of 12 bits, the least length of the codes that begin with it or that
//! it begins with. For a number that a shorter code begins this is that code's length.

ghost use Rattle.std.specs.Prelude.{◌≡◌, ℕ, ◌^◌, ◌<◌, ◌≤◌, length, slice_index, IfOk};
ghost use Rattle.exr_codes.specs.Codes.{IsComplete};
ghost use Rattle.exr_codes.specs.Decoding.{AreStarts, AreLeasts};

use crate::order::Starts;
use exr_base::NoMemory;
use std::alloc::Global;

/// Writes one length to the fronts from one to another.
fn lay(leasts: &mut [u8], from: usize, to: usize, least: u8)
    requires ordered { from ≤ to }
    requires within { to ≤ length leasts.old }
    ensures laid { (front : ℕ) → from ≤ front → front < to → slice_index leasts.new front ≡ least }
    ensures kept { (front : ℕ) → front < from → slice_index leasts.new front ≡ slice_index leasts.old front }
{
    for front in from..to {
        leasts[front] = least;
    }
}

/// Writes the least length of each front, beginning with the longest codes, which come first: a front has no code that is
/// shorter where it ends before the first one of these.
fn lay_leasts(lengths: &[u8], starts: &Starts, leasts: &mut [u8])
    requires complete { IsComplete lengths.now }
    requires starts { AreStarts lengths.now starts.now.firsts starts.now.places }
    requires size { length leasts.old ≡ 4096 }
    ensures { AreLeasts lengths.now leasts.new }
{
    let _ = lengths;
    let mut from = 0;
    let mut len = 58usize;
    'lengths: while len > 0 {
        let to = (starts.firsts[len - 1] >> 46) as usize;
        lay(leasts, from, to, len as u8);
        from = to;
        len -= 1;
    }
}

/// The least lengths of a complete table.
pub(crate) fn leasts_of(alloc: Global, lengths: &[u8], starts: &Starts) -> Result<Vec<u8>, NoMemory>
    requires complete { IsComplete lengths.now }
    requires starts { AreStarts lengths.now starts.now.firsts starts.now.places }
    ensures { IfOk result (λ v. AreLeasts lengths.now v.items) }
{
    let mut leasts = vec![in alloc; 0u8; 4096]?;
    lay_leasts(lengths, starts, &mut leasts);
    Ok(leasts)
}
