//! The data of a chunk in the bytes that begin with it.

ghost use Rattle.std.specs.Prelude.{◌≡◌, ◌+◌, ◌≤◌, ◌^◌, ◌<◌, min, IfOk, IsTrue, length, take, drop, MatchResult, Ok, Err};
ghost use Rattle.std.specs.Int.{w32, w64, from_le_bytes};
ghost use Rattle.exr_block.specs.Sizes.{is_size, are_sizes};
ghost use Rattle.exr_stream.specs.Chunk.{first_bytes, entry_in, sizes_after, size_in, three_sizes, deep_sizes_in, data_in};

use exr_base::Method;
use exr_block::{ChunkFault, DeepSizes, are_sizes, is_size};

/// What is expected of a chunk.
#[derive(Drop, Debug)]
pub(crate) struct Expected {
    /// The fields that it begins with, at most 20 bytes.
    pub fields: Vec<u8>,
    /// Whether it is of a deep part.
    pub deep: bool,
    pub method: Method,
    /// Number of its raw bytes; of a deep chunk, of the raw sample count table.
    pub raw: u64,
}

/// The first `count` bytes, if there are that many.
#[tactic(auto, unfolding(crate::specs::Chunk::first_bytes))]
fn first_bytes<'b>(count: usize, bytes: &'b [u8]) -> Result<&'b [u8], ChunkFault>
    ensures exact { MatchResult result
        (λ found. first_bytes count bytes.now ≡ Ok found.now)
        (λ fault. first_bytes count bytes.now ≡ Err fault) }
    ensures size { IfOk result (λ found. length found.now ≡ count) }
    ensures there { IfOk result (λ found. count ≤ length bytes.now) }
{
    if bytes.len() < count {
        return Err(ChunkFault::Outside);
    }
    Ok(&bytes[..count])
}

impl Expected {
    /// Number of bytes to read of a chunk that is not deep: its fields, its size and its raw size, or what is left of the
    /// file.
    pub fn most(&self, left: u64) -> usize
        requires { length self.now.fields.items ≤ 20 }
        ensures { result ≡ min left (length self.now.fields.items + 4 + self.now.raw) }
    {
        let front = (self.fields.len() + 4) as u64;
        left.min(front.saturating_add(self.raw)) as usize
    }

    /// Number of bytes to read of a deep chunk before its sizes are known: its fields and its sizes, or what is left of the
    /// file.
    pub fn deep_front(&self, left: u64) -> usize
        requires { length self.now.fields.items ≤ 20 }
        ensures { result ≡ min left (length self.now.fields.items + 24) }
    {
        left.min((self.fields.len() + 24) as u64) as usize
    }

    /// The `count` bytes of the sizes of the data, after the fields, of the chunk that some bytes begin with.
    fn sizes_after<'b>(&self, count: usize, bytes: &'b [u8]) -> Result<&'b [u8], ChunkFault>
        requires short { length self.now.fields.items ≤ 20 }
        requires count { count ≤ 24 }
        ensures exact { MatchResult result
            (λ found. sizes_after self.now.fields.items count bytes.now ≡ Ok found.now)
            (λ fault. sizes_after self.now.fields.items count bytes.now ≡ Err fault) }
        ensures size { IfOk result (λ found. length found.now ≡ count) }
        ensures there { IfOk result (λ found. length self.now.fields.items + count ≤ length bytes.now) }
    {
        let fields = self.fields.as_slice();
        let name = fields.len();
        match first_bytes(name + count, bytes) {
            Ok(front) => {
                if &front[..name] != fields {
                    return Err(ChunkFault::WrongPlace);
                }
                Ok(&front[name..])
            }
            Err(fault) => Err(fault),
        }
    }

    /// The size of the data of the chunk, which is not deep, that some bytes begin with.
    fn size_in(&self, bytes: &[u8]) -> Result<u32, ChunkFault>
        requires { length self.now.fields.items ≤ 20 }
        ensures exact { result ≡ size_in self.now.fields.items self.now.method self.now.raw bytes.now }
        ensures fits { IfOk result (λ size. IsTrue (is_size self.now.method self.now.raw size)) }
        ensures there { IfOk result (λ size. length self.now.fields.items + 4 ≤ length bytes.now) }
    {
        match self.sizes_after(4, bytes) {
            Ok(four) => {
                let size = number(four, 0);
                if !is_size(self.method, self.raw, u64::from(size)) {
                    return Err(ChunkFault::WrongSize);
                }
                Ok(size)
            }
            Err(fault) => Err(fault),
        }
    }

    /// The data of the chunk, which is not deep, that some bytes begin with, or the first thing that is wrong with it.
    pub fn data_in<'b>(&self, bytes: &'b [u8]) -> Result<&'b [u8], ChunkFault>
        requires { length self.now.fields.items ≤ 20 }
        ensures exact { MatchResult result
            (λ found. data_in self.now.fields.items self.now.method self.now.raw bytes.now ≡ Ok found.now)
            (λ fault. data_in self.now.fields.items self.now.method self.now.raw bytes.now ≡ Err fault) }
        ensures size { IfOk result (λ found. IsTrue (is_size self.now.method self.now.raw (length found.now))) }
    {
        let fields = self.fields.as_slice();
        match self.size_in(bytes) {
            Ok(size) => first_bytes(size as usize, &bytes[fields.len() + 4..]),
            Err(fault) => Err(fault),
        }
    }

    /// The sizes of the data of the deep chunk that some bytes begin with.
    pub fn deep_sizes_in(&self, bytes: &[u8]) -> Result<DeepSizes, ChunkFault>
        requires { length self.now.fields.items ≤ 20 }
        ensures exact { result ≡ deep_sizes_in self.now.fields.items self.now.method self.now.raw bytes.now }
        ensures fits { IfOk result (λ sizes. IsTrue (are_sizes self.now.method self.now.raw sizes)) }
        ensures there { IfOk result (λ sizes. length self.now.fields.items + 24 ≤ length bytes.now) }
    {
        match self.sizes_after(24, bytes) {
            Ok(found) => {
                let sizes = three_sizes(found);
                if !are_sizes(self.method, self.raw, sizes) {
                    return Err(ChunkFault::WrongSize);
                }
                Ok(sizes)
            }
            Err(fault) => Err(fault),
        }
    }
}

/// The four bytes at a place, as a number.
fn number(bytes: &[u8], at: usize) -> u32
    requires { at + 4 ≤ length bytes.now }
    ensures { result ≡ from_le_bytes w32 (take 4 (drop at bytes.now)) }
{
    let b = &bytes[at..at + 4];
    u32::from_le_bytes([b[0], b[1], b[2], b[3]])
}

/// The eight bytes at a place, as a number.
fn long_number(bytes: &[u8], at: usize) -> u64
    requires { at + 8 ≤ length bytes.now }
    ensures { result ≡ from_le_bytes w64 (take 8 (drop at bytes.now)) }
{
    let b = &bytes[at..at + 8];
    u64::from_le_bytes([b[0], b[1], b[2], b[3], b[4], b[5], b[6], b[7]])
}

/// The sizes of the data of a deep chunk, one after the other.
#[tactic(auto, unfolding(crate::specs::Chunk::three_sizes))]
fn three_sizes(bytes: &[u8]) -> DeepSizes
    requires { length bytes.now ≡ 24 }
    ensures { result ≡ three_sizes bytes.now }
{
    DeepSizes {
        table: long_number(bytes, 0),
        samples: long_number(bytes, 8),
        unpacked: long_number(bytes, 16),
    }
}

/// The entry of a table of offsets that some bytes begin with.
#[tactic(auto, unfolding(crate::specs::Chunk::entry_in, crate::specs::Chunk::first_bytes))]
pub(crate) fn entry_in(bytes: &[u8]) -> Result<u64, ChunkFault>
    ensures { result ≡ entry_in bytes.now }
{
    if bytes.len() < 8 {
        return Err(ChunkFault::Outside);
    }
    let entry = long_number(bytes, 0);
    if entry == 0 {
        return Err(ChunkFault::Unwritten);
    }
    Ok(entry)
}
