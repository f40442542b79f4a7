//! Where the rows of planar data are written to.

ghost use Rattle.std.specs.Prelude.{◌≡◌, ◌≤◌, ◌+◌, ◌%◌, ◌++◌, ℕ, List, length, take, drop};

/// Planar data that is written row by row: its bytes, or values that are made from the bytes of a row.
pub trait RowSink {
    // The planar data.
    ghost planar: { Self → List ℕ };

    // The memory that holds it, which no call changes for another.
    ghost memory: { Self → ℕ };

    /// Writes a row at byte `to` of the planar data. A sample has 2 or 4 bytes, so that and the size of the row are even.
    fn take_row(&mut self, to: usize, row: &[u8])
        requires within { to + length row.now ≤ length (planar self.old) }
        requires even_place { to % 2 ≡ 0 }
        requires even_size { length row.now % 2 ≡ 0 }
        ensures row { planar self.new ≡ take to (planar self.old) ++ (row.now ++ drop (length row.now) (drop to (planar self.old))) }
        ensures memory { memory self.new ≡ memory self.old };
}

/// Planar data in memory.
#[derive(Drop)]
pub(crate) struct PlanarSlice<'a> {
    pub(crate) bytes: &'a mut [u8],
}

impl RowSink for PlanarSlice<'_> {
    ghost planar = { λ sink. sink.bytes.now };

    ghost memory = { λ sink. sink.bytes.ghost_name };

    #[inline(always)]
    fn take_row(&mut self, to: usize, row: &[u8]) {
        let bytes = &mut *self.bytes;
        bytes[to..to + row.len()].copy_from_slice(row);
    }
}
