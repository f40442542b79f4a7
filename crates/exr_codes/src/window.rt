//! A window over the bits of a slice: the next ones are the high end of a number of 64 bits.

ghost use Rattle.std.specs.Prelude.{◌≡◌, ℕ, ◌+◌, ◌-◌, ◌*◌, ◌^◌, ◌<◌, ◌≤◌, ◌++◌, length, take, drop, replicate};
ghost use Rattle.exr_base.specs.Bits.{number_of, bits_of_bytes};
ghost use Rattle.exr_codes.specs.Windows.{IsWindow};
ghost use Rattle.exr_codes.specs.Rest.{rest_at};

/// The 64 bits after the first `offset` bits of nine bytes.
fn bits_of_nine(bytes: &[u8], offset: u32) -> u64
    requires long { 9 ≤ length bytes.now }
    requires small { offset < 8 }
    ensures { result ≡ number_of (take 64 (drop offset (bits_of_bytes bytes.now))) }
{
    let high = u64::from_be_bytes([
        bytes[0], bytes[1], bytes[2], bytes[3], bytes[4], bytes[5], bytes[6], bytes[7],
    ]);
    let low = bytes[8] as u64;
    high << offset | low >> (8 - offset)
}

/// At most nine bytes, filled up with zero bytes.
fn filled_up(rest: &[u8]) -> [u8; 9]
    requires { length rest.now ≤ 9 }
    ensures { result ≡ rest.now ++ replicate (9 - length rest.now) 0 }
{
    let mut last = [0u8; 9];
    for (place, byte) in rest.iter().enumerate() {
        last[place] = *byte;
    }
    last
}

/// The 64 bits from bit `at` on, with zero bits after the last byte.
fn bits_at(bytes: &[u8], at: u64) -> u64
    requires { at ≤ 8 * length bytes.now }
    ensures { result ≡ number_of (take 64 (rest_at bytes.now at)) }
{
    let rest = &bytes[(at / 8) as usize..];
    let offset = (at % 8) as u32;
    if rest.len() >= 9 {
        bits_of_nine(rest, offset)
    } else {
        bits_of_nine(&filled_up(rest), offset)
    }
}

/// The next bits of a slice: `have` of them are the high end of `window`, and `at` is the place of the first.
#[derive(Drop)]
pub struct Window<'a> {
    pub bytes: &'a [u8],
    pub at: u64,
    pub window: u64,
    pub have: u32,
    pub ghost within: { at ≤ 8 * length bytes.now },
    pub ghost few: { have ≤ 64 },
    pub ghost filled: { IsWindow have (rest_at bytes.now at) window },
}

impl<'a> Window<'a> {
    /// A window at the front of a slice.
    pub fn new(bytes: &'a [u8]) -> Window<'a>
        ensures bytes { result.bytes.now ≡ bytes.now }
        ensures at { result.at ≡ 0 }
    {
        Window {
            bytes,
            at: 0,
            window: 0,
            have: 0,
        }
    }

    /// Fills the window.
    #[inline(always)]
    pub fn refill(&mut self)
        ensures bytes { self.new.bytes.now ≡ self.old.bytes.now }
        ensures at { self.new.at ≡ self.old.at }
        ensures have { self.new.have ≡ 64 }
    {
        self.window = bits_at(self.bytes, self.at);
        self.have = 64;
    }

    /// Moves `n` bits on.
    #[inline(always)]
    pub fn skip(&mut self, n: u32)
        requires some { n < 64 }
        requires have { n ≤ self.old.have }
        requires within { self.old.at + n ≤ 8 * length self.old.bytes.now }
        requires fits { self.old.at + n < 2 ^ 64 }
        ensures bytes { self.new.bytes.now ≡ self.old.bytes.now }
        ensures at { self.new.at ≡ self.old.at + n }
        ensures have { self.new.have + n ≡ self.old.have }
    {
        self.window <<= n;
        self.have -= n;
        self.at += n as u64;
    }
}
