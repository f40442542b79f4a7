//! Writing bits into a slice, eight bytes at a time: whole bytes are done, and the bits after them wait.

ghost use Rattle.std.specs.Prelude.{◌≡◌, ℕ, ◌+◌, ◌*◌, ◌/◌, ◌^◌, ◌<◌, ◌≤◌, ◌++◌, List, length, take};
ghost use Rattle.std.specs.Int.{w64, to_be_bytes};
ghost use Rattle.exr_base.specs.Bits.{bits_of, bytes_of};
ghost use Rattle.exr_encoder.specs.Writing.{written, times_bits};

/// Writes a number over eight bytes, the high one first; nothing is known of the bytes after them.
fn store(out: &mut [u8], at: usize, number: u64)
    requires { at + 8 ≤ length out.old }
    ensures { take (at + 8) out.new ≡ take at out.old ++ to_be_bytes w64 number }
{
    out[at..at + 8].copy_from_slice(&number.to_be_bytes());
}

/// Where the next bits of a slice go: `at` bytes are written, and `have` bits, the low ones of `pending`, wait for
/// their byte to be full.
#[derive(Clone, Copy)]
pub struct Pen {
    pub at: usize,
    pub have: u32,
    pub pending: u64,
    ghost few: { have < 8 },
    ghost below: { pending < 2 ^ have },
}

impl Pen {
    /// A pen at the front of a slice.
    pub fn new() -> Pen
        ensures at { result.at ≡ 0 }
        ensures have { result.have ≡ 0 }
    {
        Pen {
            at: 0,
            have: 0,
            pending: 0,
        }
    }

    /// Writes `number` in `len` bits. There is room for eight bytes more.
    pub fn put(&mut self, out: &mut [u8], len: u32, number: u64)
        requires some { 0 < len }
        requires width { len ≤ 56 }
        requires fits { number < 2 ^ len }
        requires room { self.old.at + 8 ≤ length out.old }
        ensures bits { written self.new.at self.new.have self.new.pending out.new ≡ written self.old.at self.old.have self.old.pending out.old ++ bits_of len number }
        ensures on { 8 * self.new.at + self.new.have ≡ 8 * self.old.at + self.old.have + len }
    {
        let have = self.have + len;
        let bits = self.pending << len | number;
        store(out, self.at, bits << (64 - have));
        self.at += (have / 8) as usize;
        self.have = have % 8;
        self.pending = bits & ((1 << (have % 8)) - 1);
    }

    /// Writes the bits that wait, filled up with zero bits. Gives the number of bytes written.
    pub fn finish(self, out: &mut [u8]) -> usize
        requires room { self.at < length out.old }
        ensures bytes { take result out.new ≡ bytes_of (written self.at self.have self.pending out.old) }
        ensures size { result ≡ (8 * self.at + self.have + 7) / 8 }
    {
        if self.have == 0 {
            return self.at;
        }
        out[self.at] = (self.pending << (8 - self.have)) as u8;
        self.at + 1
    }
}

/// Writes `number` in `len` bits, `times` times. There is room for eight bytes more than that.
pub fn put_times(pen: &mut Pen, out: &mut [u8], len: u32, number: u64, times: usize)
    requires some { 0 < len }
    requires width { len ≤ 56 }
    requires fits { number < 2 ^ len }
    requires room { 8 * pen.old.at + pen.old.have + len * times + 64 ≤ 8 * length out.old }
    ensures bits { written pen.new.at pen.new.have pen.new.pending out.new ≡ written pen.old.at pen.old.have pen.old.pending out.old ++ times_bits times (bits_of len number) }
    ensures on { 8 * pen.new.at + pen.new.have ≡ 8 * pen.old.at + pen.old.have + len * times }
{
    let mut left = times;
    'copies: while left > 0 {
        pen.put(out, len, number);
        left -= 1;
    }
}
