//! Packing: the halves apart, their differences, and the writer's runs and literals.

ghost use Rattle.std.specs.Prelude.{◌≡◌, ◌+◌, ◌/◌, ◌≤◌, length, take, IfOk, Ok};
ghost use Rattle.exr_rle.specs.Unpacked.{rle_of};
ghost use Rattle.exr_rle.specs.Packed.{rle_pack_of, tokens_of};
ghost use Rattle.exr_rle.specs.Token.{spelling_of};

use crate::halves::{put_differences, take_apart};
use crate::runs::{is_run, literal_at, run_at};
use crate::tokens::put_copy;
use exr_base::NoMemory;
use std::alloc::Global;

/// Packs raw bytes (own): three equal bytes begin a run, as long as possible up to 128; other bytes are literals up to
/// the next run or the end, at most 127 at a time. The result may be longer than the raw data, by at most one byte in
/// 127 and one more.
pub fn pack(alloc: Global, raw: &[u8]) -> Result<Vec<u8>, NoMemory>
    ensures exact { IfOk result (λ packed. packed.items ≡ rle_pack_of raw.now) }
    // What was packed unpacks to the same bytes.
    ensures restores { IfOk result (λ packed. rle_of packed.items (length raw.now) ≡ Ok raw.now) }
{
    pack_exactly(alloc, raw)
}

fn pack_exactly(alloc: Global, raw: &[u8]) -> Result<Vec<u8>, NoMemory>
    ensures { IfOk result (λ packed. packed.items ≡ rle_pack_of raw.now) }
{
    let mut bytes = vec![in alloc; 0u8; raw.len()]?;
    let mut packed = vec![in alloc; 0u8; raw.len() + raw.len() / 127 + 1]?;
    let used = pack_into(raw, &mut bytes, &mut packed);
    packed.truncate(used);
    Ok(packed)
}

/// Packs into a slice with room for the worst case. Answers how many bytes the packed data has.
fn pack_into(raw: &[u8], bytes: &mut [u8], into: &mut [u8]) -> usize
    requires as_long { length bytes.old ≡ length raw.now }
    requires room { length raw.now + length raw.now / 127 + 1 ≤ length into.old }
    ensures { take result into.new ≡ rle_pack_of raw.now }
{
    take_apart(raw, &mut into[..raw.len()]);
    put_differences(&into[..raw.len()], bytes);
    write_tokens(bytes, into)
}

/// The writer's tokens, spelled. Answers how many bytes they take.
fn write_tokens(bytes: &[u8], into: &mut [u8]) -> usize
    requires { length bytes.now + length bytes.now / 127 + 1 ≤ length into.old }
    ensures { take result into.new ≡ spelling_of (tokens_of bytes.now) }
{
    let mut at = 0;
    let mut to = 0;
    'tokens: while at < bytes.len() {
        if is_run(bytes, at) {
            let count = run_at(bytes, at);
            into[to] = (count - 1) as u8;
            into[to + 1] = bytes[at];
            at += count;
            to += 2;
        } else {
            let count = literal_at(bytes, at);
            into[to] = (256 - count) as u8;
            put_copy(into, to + 1, bytes, at, count);
            at += count;
            to += count + 1;
        }
    }
    to
}
