//! The tokens of packed data: whether they give `raw` bytes, and those bytes.

ghost use Rattle.std.specs.Prelude.{◌≡◌, ◌+◌, ◌-◌, ◌≤◌, ◌++◌, nat_lt, if◌then◌else◌, length, take, drop, replicate, IsTrue, Some};
ghost use Rattle.exr_rle.specs.Unpacked.{bytes_spelled, counts};

/// Whether packed data is a list of whole tokens that give `raw` bytes. No memory is taken.
pub(crate) fn spells(packed: &[u8], raw: usize) -> bool
    ensures { result ≡ counts (bytes_spelled 0 packed.now) raw }
{
    let mut at = 0;
    let mut left = raw;
    'tokens: while at < packed.len() {
        let (taken, given) = lens_of(packed[at]);
        if taken > packed.len() - at || given > left {
            return false;
        }
        at += taken;
        left -= given;
    }
    left == 0
}

/// Number of bytes that a token with this count byte takes, and that it gives.
fn lens_of(count: u8) -> (usize, usize)
    ensures taken { result.0 ≡ (if nat_lt count 128 then 2 else 257 - count) }
    ensures given { result.1 ≡ (if nat_lt count 128 then count + 1 else 256 - count) }
{
    let count = usize::from(count);
    if count < 128 {
        (2, count + 1)
    } else {
        (257 - count, 256 - count)
    }
}

/// Writes the bytes that the tokens give.
pub(crate) fn expand(packed: &[u8], into: &mut [u8])
    requires { IsTrue (counts (bytes_spelled 0 packed.now) (length into.old)) }
    ensures { bytes_spelled 0 packed.now ≡ Some into.new }
{
    let mut at = 0;
    let mut to = 0;
    'tokens: while at < packed.len() {
        let count = packed[at] as usize;
        if count < 128 {
            put_run(into, to, packed[at + 1], count + 1);
            at += 2;
            to += count + 1;
        } else {
            let given = 256 - count;
            put_copy(into, to, packed, at + 1, given);
            at += given + 1;
            to += given;
        }
    }
}

/// Writes a byte `count` times. Bytes after it may change too: short runs are written as 32 bytes where there is room.
fn put_run(into: &mut [u8], to: usize, byte: u8, count: usize)
    requires { to + count ≤ length into.old }
    ensures { take (to + count) into.new ≡ take to into.old ++ replicate count byte }
{
    if count <= 32 && into.len() - to >= 32 {
        into[to..to + 32].fill(byte);
    } else {
        into[to..to + count].fill(byte);
    }
}

/// Copies `count` bytes. Bytes after them may change too: few bytes are copied as 32 where there is room.
pub(crate) fn put_copy(into: &mut [u8], to: usize, bytes: &[u8], from: usize, count: usize)
    requires room { to + count ≤ length into.old }
    requires there { from + count ≤ length bytes.now }
    ensures { take (to + count) into.new ≡ take to into.old ++ take count (drop from bytes.now) }
{
    if count <= 32 && bytes.len() - from >= 32 && into.len() - to >= 32 {
        into[to..to + 32].copy_from_slice(&bytes[from..from + 32]);
    } else {
        into[to..to + count].copy_from_slice(&bytes[from..from + count]);
    }
}
