//! Reading numbers of a few bits through a window, which is filled once for many of them.

ghost use Rattle.std.specs.Prelude.{◌≡◌, ℕ, ◌*◌, ◌^◌, ◌<◌, ◌≤◌, ◌↔◌, length, take, drop, IsNone, IfSome, IfNone, OnSome};
ghost use Rattle.exr_base.specs.Bits.{number_of, bits_of_bytes};

use crate::window::Window;
use std::marker::Model;

/// Reads numbers of a given width off the front of a slice's bits. Contracts see the list of bits that are left.
#[derive(Drop)]
pub(crate) struct Reader<'a> {
    window: Window<'a>,
}

impl<'a> Model for Reader<'a> {
    ghost use Rattle.std.specs.Prelude.{ℕ, ◌^◌, ◌<◌, Bool, List, length};
    ghost use Rattle.exr_codes.specs.Rest.{bits_from};

    ghost Value = { List Bool };

    ghost view = { λ r. bits_from r.window.bytes.now r.window.at };

    ghost invariant = { λ r. length r.window.bytes.now < 2 ^ 32 };
}

impl<'a> Reader<'a> {
    /// A reader of all bits of a slice.
    pub(crate) fn new(bytes: &'a [u8]) -> Reader<'a>
        requires { length bytes.now < 2 ^ 32 }
        ensures { result ≡ bits_of_bytes bytes.now }
    {
        Reader {
            window: Window::new(bytes),
        }
    }

    /// The next `n` bits as a number, or None where fewer are left; nothing is then taken.
    #[inline(always)]
    pub(crate) fn take(&mut self, n: u32) -> Option<u64>
        requires some { 0 < n }
        requires width { n ≤ 32 }
        ensures none { IsNone result ↔ (length self.old < n) }
        ensures value { IfSome result (λ number. number ≡ number_of (take n self.old)) }
        ensures rest { OnSome result (self.new ≡ drop n self.old) }
        ensures kept { IfNone result (self.new ≡ self.old) }
    {
        if 8 * self.window.bytes.len() as u64 - self.window.at < n as u64 {
            return None;
        }
        if self.window.have < n {
            self.window.refill();
        }
        let number = self.window.window >> (64 - n);
        self.window.skip(n);
        Some(number)
    }
}
