//! Bits in bytes, the high bit of each byte first: a reader over a slice and a writer into a vector.

ghost use Rattle.std.specs.Prelude.{◌≡◌, ℕ, ◌+◌, ◌*◌, ◌^◌, ◌<◌, ◌≤◌, ◌↔◌, ◌++◌, [], List, length, take, drop, IsNone, IfSome, IfNone, OnOk, OnErr, OnSome};
ghost use Rattle.exr_base.specs.Bits.{number_of, bits_of, bits_of_bytes, bytes_of};

use crate::refusal::NoMemory;
use std::alloc::Global;
use std::marker::Model;

/// The `n` bits from bit `at` on, as a number.
fn number_at(bytes: &[u8], at: u64, n: u32) -> u64
    requires width { n ≤ 64 }
    requires there { at + n ≤ 8 * length bytes.now }
    requires fits { at + n < 2 ^ 64 }
    ensures { result ≡ number_of (take n (drop at (bits_of_bytes bytes.now))) }
{
    let mut value = 0;
    let mut left = n;
    let mut place = at;
    'bytes: while left > 0 {
        let offset = (place % 8) as u32;
        let count = left.min(8 - offset);
        let byte = bytes[(place / 8) as usize];
        value = value << count | bits_within(byte, offset, count);
        left -= count;
        place += count as u64;
    }
    value
}

/// Bits `offset` to `offset + count` of a byte, its high bit being bit 0.
fn bits_within(byte: u8, offset: u32, count: u32) -> u64
    requires { offset + count ≤ 8 }
    ensures value { result ≡ number_of (take count (drop offset (bits_of 8 byte))) }
    ensures below { result < 2 ^ count }
{
    let above = byte as u64 >> (8 - offset - count);
    above & ((1 << count) - 1)
}

/// Reads numbers of `n` bits, one after another, from a slice. Its value in contracts is the list of bits that are left.
#[derive(Drop)]
pub struct BitReader<'a> {
    bytes: &'a [u8],
    at: u64,
    end: u64,
}

impl<'a> Model for BitReader<'a> {
    ghost use Rattle.std.specs.Prelude.{ℕ, ◌-◌, ◌*◌, ◌≤◌, Bool, List, length, take, drop};
    ghost use Rattle.exr_base.specs.Bits.{bits_of_bytes};

    ghost Value = { List Bool };

    ghost view = { λ r. take (r.end - r.at) (drop r.at (bits_of_bytes r.bytes.now)) };

    ghost invariant = { λ r. (r.at ≤ r.end) × (r.end ≤ 8 * length r.bytes.now) };
}

impl<'a> BitReader<'a> {
    /// A reader of the first `bits` bits of a slice.
    pub fn new(bytes: &'a [u8], bits: u64) -> BitReader<'a>
        requires { bits ≤ 8 * length bytes.now }
        ensures { result ≡ take bits (bits_of_bytes bytes.now) }
    {
        BitReader {
            bytes,
            at: 0,
            end: bits,
        }
    }

    /// The next `n` bits as a number; `None` where fewer are left, and nothing is taken then.
    pub fn take(&mut self, n: u32) -> Option<u64>
        requires { n ≤ 64 }
        ensures none { IsNone result ↔ (length self.old < n) }
        ensures value { IfSome result (λ number. number ≡ number_of (take n self.old)) }
        ensures rest { OnSome result (self.new ≡ drop n self.old) }
        ensures kept { IfNone result (self.new ≡ self.old) }
    {
        if self.end - self.at < n as u64 {
            return None;
        }
        let number = number_at(self.bytes, self.at, n);
        self.at += n as u64;
        Some(number)
    }
}

/// Writes numbers of `n` bits, one after another. Its value in contracts is the list of bits that were written.
#[derive(Drop)]
pub struct BitWriter {
    bytes: Vec<u8>,
    pending: u64,
    count: u32,
}

impl Model for BitWriter {
    ghost use Rattle.std.specs.Prelude.{◌+◌, ◌^◌, ◌<◌, ◌≤◌, Bool, List, ◌++◌, vec_len, vec_capacity};
    ghost use Rattle.exr_base.specs.Bits.{bits_of, bits_of_bytes};

    ghost Value = { List Bool };

    ghost view = { λ w. bits_of_bytes w.bytes.items ++ bits_of w.count w.pending };

    ghost invariant = { λ w. (w.count < 8) × (w.pending < 2 ^ w.count) × (0 < w.count → vec_len w.bytes < vec_capacity w.bytes) };
}

impl BitWriter {
    /// A writer that has written nothing.
    pub fn new(alloc: Global) -> BitWriter
        ensures { result ≡ [] }
    {
        BitWriter {
            bytes: Vec::new(alloc),
            pending: 0,
            count: 0,
        }
    }

    /// Appends `value` in `n` bits. Where memory runs out the writer is unchanged.
    pub fn push(&mut self, n: u32, value: u64) -> Result<(), NoMemory>
        requires width { n ≤ 64 }
        requires fits { value < 2 ^ n }
        ensures ok { OnOk result (self.new ≡ self.old ++ bits_of n value) }
        ensures err { OnErr result (self.new ≡ self.old) }
    {
        self.bytes.reserve(9)?;
        let mut left = n;
        'bits: while left > 0 {
            let count = left.min(8 - self.count);
            let part = value >> (left - count) & ((1 << count) - 1);
            self.pending = self.pending << count | part;
            self.count += count;
            left -= count;
            if self.count == 8 {
                self.bytes.push_reserved(self.pending as u8);
                self.pending = 0;
                self.count = 0;
            }
        }
        Ok(())
    }

    /// The bytes that were written, the last one filled up with zero bits.
    pub fn finish(self) -> Vec<u8>
        ensures { result.items ≡ bytes_of self }
    {
        let BitWriter {
            mut bytes,
            pending,
            count,
        } = self;
        if count > 0 {
            bytes.push_reserved((pending << (8 - count)) as u8);
        }
        bytes
    }
}
