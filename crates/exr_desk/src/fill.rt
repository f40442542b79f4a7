//! Numbers put at the entries of an offset table.

ghost use Rattle.std.specs.Prelude.{◌≡◌, ◌+◌, ◌<◌, ◌≤◌, ℕ, length, slice_index};
ghost use Rattle.std.specs.Int.{w64, to_le_bytes};
ghost use Rattle.exr_outside.specs.Sink.{replaced};
ghost use Rattle.exr_desk.specs.File.{filled};

// Puts a number in eight bytes, the low byte first.
fn put_number(bytes: &mut [u8], at: usize, number: u64)
    requires { at + 8 ≤ length bytes.old }
    ensures { bytes.new ≡ replaced at (to_le_bytes w64 number) bytes.old }
{
    bytes[at..at + 8].copy_from_slice(&number.to_le_bytes());
}

/// Puts the numbers at the entries of the turns, each in eight bytes, the low byte first.
pub fn fill(bytes: &mut [u8], entries: &[u64], turns: &[u32], numbers: &[u64])
    requires same { length numbers.now ≡ length turns.now }
    requires turns { (k : ℕ) → k < length turns.now → slice_index turns.now k < length entries.now }
    requires inside { (k : ℕ) → k < length entries.now → slice_index entries.now k + 8 ≤ length bytes.old }
    ensures bytes { bytes.new ≡ filled entries.now turns.now numbers.now bytes.old }
    ensures length { length bytes.new ≡ length bytes.old }
{
    for i in 0..turns.len() {
        let entry = entries[turns[i] as usize];
        put_number(bytes, entry as usize, numbers[i]);
    }
}
