//! Words that are ranks, read as the planar data of their values.

ghost use Rattle.std.specs.Prelude.{map, slice_index};
ghost use Rattle.exr_piz.specs.Words.{bytes_from};

use crate::words::put_bytes;
use exr_planar::RowSource;

/// Words that are ranks, and the values of these ranks, rising. As planar data it is the bytes of the values.
#[derive(Clone, Copy)]
pub(crate) struct RankedWords<'a> {
    pub(crate) values: &'a [u16],
    pub(crate) words: &'a [u16],
}

impl RowSource for RankedWords<'_> {
    ghost planar = { λ ranked. bytes_from (map (slice_index ranked.values.now) ranked.words.now) };

    fn put_row(&self, from: usize, into: &mut [u8]) {
        let first = from / 2;
        let end = first + into.len() / 2;
        put_bytes(self.values, &self.words[first..end], into);
    }
}
