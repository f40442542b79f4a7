//! The values of a map as it is read, so that a word, which is a rank, finds its value.

ghost use Rattle.std.specs.Prelude.{◌≡◌, ℕ, ◌+◌, ◌*◌, ◌<◌, ◌≤◌, length, take, slice_index, IfOk};
ghost use Rattle.exr_piz.specs.Values.{values_of};

use exr_base::NoMemory;
use std::alloc::Global;

/// The values that are present in a map, rising, of which the bytes from byte `first` on are given. Room is taken for
/// the values that these bytes can mark.
pub(crate) fn stored_values(alloc: Global, first: usize, map: &[u8]) -> Result<Vec<u16>, NoMemory>
    requires { first + length map.now ≤ 8192 }
    ensures { IfOk result (λ values. values.items ≡ values_of first map.now) }
{
    let mut values = vec![in alloc; 0u16; 8 * map.len() + 1]?;
    let count = put_values(first, map, &mut values);
    values.truncate(count);
    Ok(values)
}

/// Writes the values from the front on. Gives their number.
fn put_values(first: usize, map: &[u8], values: &mut [u16]) -> usize
    requires within { first + length map.now ≤ 8192 }
    requires room { length values.old ≡ 8 * length map.now + 1 }
    ensures { take result values.new ≡ values_of first map.now }
{
    values[0] = 0;
    let mut count = 1;
    for v in (8 * first).max(1)..8 * (first + map.len()) {
        let marked = map[v / 8 - first] >> (v % 8) & 1;
        values[count] = v as u16;
        count += marked as usize;
    }
    count
}

/// The value of a rank, or 0 where there is none.
#[inline(always)]
pub(crate) fn value_of(values: &[u16], rank: u16) -> u16
    ensures { result ≡ slice_index values.now rank }
{
    if (rank as usize) < values.len() {
        values[rank as usize]
    } else {
        0
    }
}
