//! Where the rows of planar data are read from.

ghost use Rattle.std.specs.Prelude.{◌≡◌, ◌≤◌, ◌+◌, ◌%◌, ℕ, List, length, take, drop};

/// Planar data that is read row by row: its bytes, or values that the bytes of a row are made from.
pub trait RowSource {
    // The planar data.
    ghost planar: { Self → List ℕ };

    /// Copies a row, from byte `from` of the planar data on, as many bytes as `into` has. A sample has 2 or 4 bytes, so
    /// both numbers are even.
    fn put_row(&self, from: usize, into: &mut [u8])
        requires within { from + length into.old ≤ length (planar self.now) }
        requires even_place { from % 2 ≡ 0 }
        requires even_size { length into.old % 2 ≡ 0 }
        ensures { into.new ≡ take (length into.old) (drop from (planar self.now)) };
}

/// Planar data in memory.
#[derive(Clone, Copy)]
pub(crate) struct PlanarBytes<'a> {
    pub(crate) bytes: &'a [u8],
}

impl RowSource for PlanarBytes<'_> {
    ghost planar = { λ source. source.bytes.now };

    #[inline(always)]
    fn put_row(&self, from: usize, into: &mut [u8]) {
        let end = from + into.len();
        into.copy_from_slice(&self.bytes[from..end]);
    }
}
