//! Reading a complete table of code lengths from the bytes that spell it.

ghost use Rattle.std.specs.Prelude.{◌≡◌, ℕ, ◌+◌, ◌^◌, ◌<◌, ◌≤◌, length, replicate, slice_index, min, option_map, vec_len, None, Some, MatchOption, IfOk, IfSome};
ghost use Rattle.std.specs.List.{sum_by};
ghost use Rattle.exr_codes.specs.Codes.{weight_of, IsComplete};
ghost use Rattle.exr_codes.specs.Tables.{table_of, lengths_at, is_filling, is_full};

use crate::item::{Item, take_item};
use crate::reader::Reader;
use exr_base::NoMemory;
use std::alloc::Global;

/// What all codes of a complete table take.
const WHOLE: u64 = 1 << 58;

/// What a code of `len` bits takes of 2^58.
fn weight(len: u8) -> u64
    requires { len ≤ 58 }
    ensures value { result ≡ weight_of len }
    ensures small { result ≤ 2 ^ 58 }
{
    if len == 0 { 0 } else { 1 << (58 - len) }
}

/// Whether the bits that are left only fill a byte.
fn filling(reader: &mut Reader<'_>) -> bool
    ensures { result ≡ is_filling reader.old }
{
    if let Some(_) = reader.take(8) {
        return false;
    }
    'bits: while let Some(bit) = reader.take(1) {
        if bit != 0 {
            return false;
        }
    }
    true
}

/// What codes take with one more, or one more than all where they take more.
fn with_weight(total: u64, len: u8) -> u64
    requires short { len ≤ 58 }
    requires few { total ≤ 2 ^ 58 + 1 }
    ensures { result ≡ min (total + weight_of len) (2 ^ 58 + 1) }
{
    (total + weight(len)).min(WHOLE + 1)
}

/// Writes lengths over zeros, item by item. Says whether their codes take all of 2^58; None where the bits do not spell
/// all lengths.
fn fill_lengths(reader: &mut Reader<'_>, lengths: &mut [u8]) -> Option<bool>
    requires zeros { lengths.old ≡ replicate (length lengths.old) 0 }
    ensures value { MatchOption result (lengths_at (length lengths.old) reader.old ≡ None) (λ full. lengths_at (length lengths.old) reader.old ≡ Some (lengths.new, reader.new)) }
    ensures full { IfSome result (λ full. full ≡ is_full lengths.new) }
    ensures short { (k : ℕ) → slice_index lengths.new k ≤ 58 }
{
    let mut count = 0;
    let mut total = 0u64;
    'items: while count < lengths.len() {
        match take_item(reader) {
            Some(Item::Length(len)) => {
                lengths[count] = len;
                count += 1;
                total = with_weight(total, len);
            }
            Some(Item::Zeros(zeros)) => {
                if zeros as usize > lengths.len() - count {
                    return None;
                }
                count += zeros as usize;
            }
            None => return None,
        }
    }
    Some(total == WHOLE)
}

/// The complete table of `count` lengths that all of the bytes spell, or None where they spell none.
pub fn read_table(alloc: Global, bytes: &[u8], count: usize) -> Result<Option<Vec<u8>>, NoMemory>
    requires few { count < 2 ^ 32 }
    requires short { length bytes.now < 2 ^ 32 }
    ensures value { IfOk result (λ table. option_map (λ v. v.items) table ≡ table_of count bytes.now) }
    ensures complete { IfOk result (λ table. IfSome table (λ v. IsComplete v.items)) }
    ensures size { IfOk result (λ table. IfSome table (λ v. vec_len v ≡ count)) }
{
    let mut reader = Reader::new(bytes);
    let mut lengths = vec![in alloc; 0u8; count]?;
    let Some(full) = fill_lengths(&mut reader, &mut lengths) else {
        return Ok(None);
    };
    if filling(&mut reader) && full {
        Ok(Some(lengths))
    } else {
        Ok(None)
    }
}
