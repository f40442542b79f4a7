//! Spelling a table of code lengths, item by item.

ghost use Rattle.std.specs.Prelude.{◌≡◌, ℕ, ◌+◌, ◌-◌, ◌^◌, ◌<◌, ◌≤◌, ◌++◌, IsTrue, length, drop, slice_index, min, IfOk, OnOk};
ghost use Rattle.exr_base.specs.Bits.{bytes_of};
ghost use Rattle.exr_encoder.specs.Spelling.{table_bits, zeros_at, zeros_bits};

use exr_base::{BitWriter, NoMemory};
use std::alloc::Global;

/// Number of entries that one item can cover where `left` are left.
fn most_zeros(left: usize) -> usize
    ensures { result ≡ min 261 left }
{
    left.min(261)
}

/// Whether none of the eight entries from `from` on has a code.
fn is_clear(lengths: &[u8], from: usize) -> bool
    requires { from + 8 ≤ length lengths.now }
    ensures { IsTrue result → (k : ℕ) → k < 8 → slice_index lengths.now (from + k) ≡ 0 }
{
    let mut clear = true;
    for k in 0..8 {
        clear &= lengths[from + k] == 0;
    }
    clear
}

/// Number of entries without a code from `at` on, at most 261. Mostly many are, so eight are passed over at once.
pub(crate) fn zeros_from(lengths: &[u8], at: usize) -> usize
    requires { at < length lengths.now }
    ensures { result ≡ zeros_at (drop at lengths.now) }
{
    let most = most_zeros(lengths.len() - at);
    let mut count = 0;
    'eights: while most - count >= 8 && is_clear(lengths, at + count) {
        count += 8;
    }
    'zeros: while count < most {
        if lengths[at + count] != 0 {
            return count;
        }
        count += 1;
    }
    count
}

/// Writes a run of entries without a code.
fn write_zeros(writer: &mut BitWriter, count: usize) -> Result<(), NoMemory>
    requires some { 0 < count }
    requires few { count ≤ 261 }
    ensures { OnOk result (writer.new ≡ writer.old ++ zeros_bits count) }
{
    if count == 1 {
        return writer.push(6, 0);
    }
    if count <= 5 {
        return writer.push(6, 57 + count as u64);
    }
    writer.push(6, 63)?;
    writer.push(8, count as u64 - 6)
}

/// The bytes that spell a table of lengths of at most 58 bits, the last one filled with zero bits.
pub fn write_table(alloc: Global, lengths: &[u8]) -> Result<Vec<u8>, NoMemory>
    requires { (k : ℕ) → slice_index lengths.now k ≤ 58 }
    ensures { IfOk result (λ v. v.items ≡ bytes_of (table_bits lengths.now)) }
{
    let mut writer = BitWriter::new(alloc);
    let mut at = 0;
    'items: while at < lengths.len() {
        if lengths[at] != 0 {
            writer.push(6, lengths[at] as u64)?;
            at += 1;
        } else {
            let count = zeros_from(lengths, at);
            write_zeros(&mut writer, count)?;
            at += count;
        }
    }
    Ok(writer.finish())
}

#[cfg(test)]
mod tests {
    use super::*;
    use std::test::Fail;

    // Two codes of one bit are `04 10`. Between two codes of one bit, a single entry without a code is six zero bits,
    // three of them are the item 60, and seven are 63 followed by 1.
    #[test]
    fn tables(rt: HostRuntime) -> Result<(), Fail> {
        let two = write_table(rt.alloc(), &[1, 1])?;
        assert_eq!(rt; two.as_slice(), [0x04, 0x10].as_slice());
        let one_zero = write_table(rt.alloc(), &[1, 0, 1])?;
        assert_eq!(rt; one_zero.as_slice(), [0x04, 0x00, 0x40].as_slice());
        let three_zeros = write_table(rt.alloc(), &[1, 0, 0, 0, 1])?;
        assert_eq!(rt; three_zeros.as_slice(), [0x07, 0xc0, 0x40].as_slice());
        let seven_zeros = write_table(rt.alloc(), &[1, 0, 0, 0, 0, 0, 0, 0, 1])?;
        assert_eq!(rt; seven_zeros.as_slice(), [0x07, 0xf0, 0x10, 0x40].as_slice());
        Ok(())
    }
}
