//! A place in a list of bytes, from which the next bytes are taken.

ghost use Rattle.std.specs.Prelude.{◌≡◌, ◌≤◌, ◌<◌, ◌+◌, length, take, MatchOption};
ghost use Rattle.exr_base.specs.Cursor.{left_of};

use std::marker::Model;

/// A place in a slice of bytes. It never passes the end.
#[derive(Drop, Debug)]
pub struct Cursor<'a> {
    bytes: &'a [u8],
    at: usize,
}

impl<'a> Model for Cursor<'a> {
    ghost use Rattle.std.specs.Prelude.{◌≤◌, length};
    ghost use Rattle.exr_base.specs.Cursor.{Position};

    ghost Value = { Position };

    ghost view = { λ c. record { whole = c.bytes.now; at = c.at } };

    ghost invariant = { λ c. c.at ≤ length c.bytes.now };
}

impl<'a> Cursor<'a> {
    /// A cursor at the front of these bytes.
    pub fn new(bytes: &'a [u8]) -> Cursor<'a>
        ensures { result ≡ record { whole = bytes.now; at = 0 } }
    {
        Cursor { bytes, at: 0 }
    }

    /// How many bytes were taken.
    pub fn at(&self) -> usize
        ensures { result ≡ self.now.at }
    {
        self.at
    }

    /// How many bytes are left.
    pub fn left(&self) -> usize
        ensures { result ≡ length (left_of self.now) }
    {
        self.bytes.len() - self.at
    }

    /// The next `n` bytes; `None` exactly where fewer are left, and nothing is taken then.
    pub fn take(&mut self, n: usize) -> Option<&'a [u8]>
        ensures none { MatchOption result (length (left_of self.old) < n) (λ _. n ≤ length (left_of self.old)) }
        ensures bytes { MatchOption result (self.new ≡ self.old) (λ bytes. bytes.now ≡ take n (left_of self.old)) }
        ensures moves { MatchOption result (self.new ≡ self.old)
            (λ _. self.new ≡ record { whole = self.old.whole; at = self.old.at + n }) }
    {
        let bytes = self.bytes;
        if bytes.len() - self.at < n {
            return None;
        }
        let from = self.at;
        self.at = from + n;
        Some(&bytes[from..from + n])
    }
}
