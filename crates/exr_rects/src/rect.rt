//! Rectangles of bytes: rows of equal length, one pitch apart.
ghost use Rattle.std.specs.Prelude.{◌≡◌, ◌+◌, ◌*◌, ◌^◌, ◌<◌, ◌≤◌, length, map, take, drop, IsTrue, ◌↔◌, slice_index_or, slice_set, []};
ghost use Rattle.exr_rects.specs.Marks.{MarksRect, RectFits, in_rect, overwritten};

use crate::Sheet;

/// A rectangle of bytes in a buffer, seen as a list of rows: `rows` rows of `cols` bytes each, of which the first begins
/// at byte `from` of the buffer, and each other `pitch` bytes after the one before it.
#[derive(Drop)]
pub struct RectMut {
    sheet: Sheet<u8>,
    from: usize,
    rows: usize,
    cols: usize,
    pitch: usize,
    ghost inside: { MarksRect sheet.mine from rows cols pitch },
    ghost lies: { RectFits sheet.len from rows cols pitch },
    ghost apart: { cols ≤ pitch },
}

impl RectMut {
    ghost use Rattle.exr_rects.specs.Lending.{IsCut, IsWritten};
    ghost use Rattle.exr_rects.specs.Rects.{rect_rows, SameRect};

    /// Whether such a rectangle lies in a buffer of `len` bytes.
    #[tactic(auto, using(crate::proofs::Rows::fits_all, crate::proofs::Rows::last_fits))]
    pub fn fits(len: usize, from: usize, rows: usize, cols: usize, pitch: usize) -> bool
        ensures { IsTrue result ↔ RectFits len from rows cols pitch }
    {
        if rows == 0 {
            return true;
        }
        let Some(last) = (rows - 1).checked_mul(pitch) else {
            return false;
        };
        match last.checked_add(cols) {
            Some(end) => from <= len && end <= len - from,
            None => false,
        }
    }

    /// The rectangle of a sheet that owns its bytes.
    pub fn new(sheet: Sheet<u8>, from: usize, rows: usize, cols: usize, pitch: usize) -> RectMut
        requires inside { MarksRect sheet.mine from rows cols pitch }
        requires lies { RectFits sheet.len from rows cols pitch }
        requires apart { cols ≤ pitch }
        ensures sheet { result.sheet ≡ sheet }
        ensures place { (result.from ≡ from) × (result.rows ≡ rows) × (result.cols ≡ cols) × (result.pitch ≡ pitch) }
    {
        RectMut {
            sheet,
            from,
            rows,
            cols,
            pitch,
        }
    }

    /// The sheet, to be joined with others.
    pub fn into_sheet(self) -> Sheet<u8>
        ensures { result ≡ self.sheet }
    {
        self.sheet
    }

    /// The number of rows.
    pub fn rows(&self) -> usize
        ensures { result ≡ self.now.rows }
    {
        self.rows
    }

    /// The number of bytes in a row.
    pub fn cols(&self) -> usize
        ensures { result ≡ self.now.cols }
    {
        self.cols
    }

    /// The first `at` rows, and the others.
    pub fn split_rows(self, at: usize) -> (RectMut, RectMut)
        requires { at ≤ self.rows }
        ensures rows { (rect_rows result.0 ≡ take at (rect_rows self)) × (rect_rows result.1 ≡ drop at (rect_rows self)) }
        ensures sheets { IsCut (in_rect self.from at self.cols self.pitch) self.sheet result.0.sheet result.1.sheet }
        ensures upper { (result.0.from ≡ self.from) × (result.0.rows ≡ at) × (result.0.cols ≡ self.cols) × (result.0.pitch ≡ self.pitch) }
        ensures lower { (0 < result.1.rows → result.1.from ≡ self.from + at * self.pitch) × (at + result.1.rows ≡ self.rows) × (result.1.cols ≡ self.cols) × (result.1.pitch ≡ self.pitch) }
    {
        let RectMut {
            sheet,
            from,
            rows,
            cols,
            pitch,
        } = self;
        let below = row_start(from, at, rows, pitch);
        let (upper, lower) = sheet.cut(from, at, cols, pitch);
        (
            RectMut {
                sheet: upper,
                from,
                rows: at,
                cols,
                pitch,
            },
            RectMut {
                sheet: lower,
                from: below,
                rows: rows - at,
                cols,
                pitch,
            },
        )
    }

    /// The first `at` bytes of each row, and the others.
    pub fn split_cols(self, at: usize) -> (RectMut, RectMut)
        requires { at ≤ self.cols }
        ensures rows { (rect_rows result.0 ≡ map (take at) (rect_rows self)) × (rect_rows result.1 ≡ map (drop at) (rect_rows self)) }
        ensures sheets { IsCut (in_rect self.from self.rows at self.pitch) self.sheet result.0.sheet result.1.sheet }
        ensures left { (result.0.from ≡ self.from) × (result.0.rows ≡ self.rows) × (result.0.cols ≡ at) × (result.0.pitch ≡ self.pitch) }
        ensures right { (0 < self.rows → result.1.from ≡ self.from + at) × (result.1.rows ≡ self.rows) × (at + result.1.cols ≡ self.cols) × (result.1.pitch ≡ self.pitch) }
    {
        let RectMut {
            sheet,
            from,
            rows,
            cols,
            pitch,
        } = self;
        let beside = col_start(from, at, rows);
        let (left, right) = sheet.cut(from, rows, at, pitch);
        (
            RectMut {
                sheet: left,
                from,
                rows,
                cols: at,
                pitch,
            },
            RectMut {
                sheet: right,
                from: beside,
                rows,
                cols: cols - at,
                pitch,
            },
        )
    }

    /// Writes `bytes` into a row, from a column on.
    #[tactic(auto, using(crate::proofs::Rows::rows_written))]
    pub fn put(&mut self, row: usize, col: usize, bytes: &[u8])
        requires { (row < self.old.rows) × (col + length bytes.now ≤ self.old.cols) }
        ensures rows { rect_rows self.new ≡ slice_set (rect_rows self.old) row (overwritten (slice_index_or (rect_rows self.old) row []) col bytes.now) }
        ensures place { SameRect self.old self.new }
        ensures sheet { IsWritten self.old.sheet self.new.sheet (self.old.from + (row * self.old.pitch + col)) bytes.now }
    {
        let at = self.from + (row * self.pitch + col);
        self.sheet.run_mut(at, bytes.len()).copy_from_slice(bytes);
    }

    /// Reads the bytes of a row from a column on, as many as `into` has.
    #[tactic(auto, using(crate::proofs::Rows::row_part))]
    pub fn get(&self, row: usize, col: usize, into: &mut [u8])
        requires { (row < self.now.rows) × (col + length into.old ≤ self.now.cols) }
        ensures { into.new ≡ take (length into.old) (drop col (slice_index_or (rect_rows self.now) row [])) }
    {
        if into.is_empty() {
            return;
        }
        let at = self.from + (row * self.pitch + col);
        into.copy_from_slice(self.sheet.run(at, into.len()));
    }
}

// Where row `row` of `rows` begins. A rectangle that has no such row begins anywhere: the sum may be too large then.
fn row_start(from: usize, row: usize, rows: usize, pitch: usize) -> usize
    requires { row < rows → from + row * pitch < 2 ^ 64 }
    ensures { row < rows → result ≡ from + row * pitch }
{
    if row < rows { from + row * pitch } else { from }
}

// Where the rows begin from column `col` on. Where there are none, they begin anywhere.
fn col_start(from: usize, col: usize, rows: usize) -> usize
    requires { 0 < rows → from + col < 2 ^ 64 }
    ensures { 0 < rows → result ≡ from + col }
{
    if rows > 0 { from + col } else { from }
}
