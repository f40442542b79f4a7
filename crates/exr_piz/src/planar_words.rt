//! Words that are written as planar data.

ghost use Rattle.exr_piz.specs.Words.{bytes_from};

use crate::words::put_words;
use exr_planar::RowSink;

/// Words as planar data: of each word its two bytes.
#[derive(Drop)]
pub(crate) struct PlanarWords<'a> {
    pub(crate) words: &'a mut [u16],
}

impl RowSink for PlanarWords<'_> {
    ghost planar = { λ sink. bytes_from sink.words.now };

    ghost memory = { λ sink. sink.words.ghost_name };

    fn take_row(&mut self, to: usize, row: &[u8]) {
        let words = &mut *self.words;
        let first = to / 2;
        let end = first + row.len() / 2;
        put_words(row, &mut words[first..end]);
    }
}
