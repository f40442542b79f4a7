//! What the tests do with a sheet: a rectangle of it is split, and each part is filled.
ghost use Rattle.std.specs.Prelude.{◌≡◌, ◌≤◌};
ghost use Rattle.std.specs.Thread.{IsSync};
ghost use Rattle.exr_rects.specs.Lending.{Keeps, IsWhole, IsAllOf, GivesBack, sheet_len};
ghost use Rattle.exr_rects.specs.Marks.{RectFits};
ghost use Rattle.exr_rects.specs.Rects.{rect_sheet};

use exr_rects::{RectMut, Sheet, with_sheet};
use std::thread::{Threads, join};

/// A rectangle, and the row and the column at which it is split.
#[derive(Clone, Copy)]
pub struct Place {
    pub from: usize,
    pub rows: usize,
    pub cols: usize,
    pub pitch: usize,
    pub row: usize,
    pub col: usize,
}

/// Fills each row with the first bytes of `line`.
pub fn fill_rows(rect: &mut RectMut, line: &[u8])
    ensures { Keeps (rect_sheet rect.old) (rect_sheet rect.new) }
{
    let n = rect.cols();
    if n <= line.len() {
        for row in 0..rect.rows() {
            rect.put(row, 0, &line[..n]);
        }
    }
}

/// The same, and gives the sheet back.
pub fn fill(mut rect: RectMut, line: &[u8]) -> Sheet<u8>
    ensures { Keeps (rect_sheet rect) result }
{
    fill_rows(&mut rect, line);
    rect.into_sheet()
}

/// Reads the three rows of four bytes that are five bytes apart, and then their first column, and writes 99 into the
/// column's second row.
pub fn write_left(sheet: Sheet<u8>) -> (Sheet<u8>, [u8; 12], [u8; 3])
    requires whole { IsWhole sheet }
    requires long { 14 ≤ sheet_len sheet }
    ensures { Keeps sheet result.0 }
{
    let (mine, rest) = sheet.cut(0, 3, 4, 5);
    let rect = RectMut::new(mine, 0, 3, 4, 5);
    let mut rows = [0; 12];
    rect.get(0, 0, &mut rows[..4]);
    rect.get(1, 0, &mut rows[4..8]);
    rect.get(2, 0, &mut rows[8..]);
    let (mut left, right) = rect.split_cols(1);
    let mut column = [0; 3];
    left.get(0, 0, &mut column[..1]);
    left.get(1, 0, &mut column[1..2]);
    left.get(2, 0, &mut column[2..]);
    left.put(1, 0, &[99]);
    let sheet = left.into_sheet().join(right.into_sheet()).join(rest);
    (sheet, rows, column)
}

/// Fills the upper part with 1 and the lower part with 2, each in a thread of its own.
pub fn fill_halves<R: Threads + Sync>(rt: &R, sheet: Sheet<u8>, place: Place) -> Sheet<u8>
    requires whole { IsWhole sheet }
    requires fits { RectFits (sheet_len sheet) place.from place.rows place.cols place.pitch }
    requires apart { place.cols ≤ place.pitch }
    requires split { place.row ≤ place.rows }
    ensures { Keeps sheet result }
{
    let (mine, rest) = sheet.cut(place.from, place.rows, place.cols, place.pitch);
    let rect = RectMut::new(mine, place.from, place.rows, place.cols, place.pitch);
    let (upper, lower) = rect.split_rows(place.row);
    let (upper, lower) = join(
        rt,
        move || -> Sheet<u8>
            ensures { Keeps (rect_sheet upper) result }
        { fill(upper, &[1; 16]) },
        move || -> Sheet<u8>
            ensures { Keeps (rect_sheet lower) result }
        { fill(lower, &[2; 16]) },
    );
    lower.join(upper).join(rest)
}

/// Fills the upper left part with 1, the upper right one with 2, the lower left one with 3 and the lower right one with 4.
pub fn fill_quarters(sheet: Sheet<u8>, place: Place) -> Sheet<u8>
    requires whole { IsWhole sheet }
    requires fits { RectFits (sheet_len sheet) place.from place.rows place.cols place.pitch }
    requires apart { place.cols ≤ place.pitch }
    requires split { (place.row ≤ place.rows) × (place.col ≤ place.cols) }
    ensures { Keeps sheet result }
{
    let (mine, rest) = sheet.cut(place.from, place.rows, place.cols, place.pitch);
    let rect = RectMut::new(mine, place.from, place.rows, place.cols, place.pitch);
    let (upper, lower) = rect.split_rows(place.row);
    let (upper_left, upper_right) = upper.split_cols(place.col);
    let (lower_left, lower_right) = lower.split_cols(place.col);
    let upper = fill(upper_left, &[1; 16]).join(fill(upper_right, &[2; 16]));
    let lower = fill(lower_right, &[4; 16]).join(fill(lower_left, &[3; 16]));
    lower.join(upper).join(rest)
}

/// The same on a slice, where the place is one of it.
pub fn fill_slice(into: &mut [u8], place: Place) -> bool {
    let fits = RectMut::fits(into.len(), place.from, place.rows, place.cols, place.pitch);
    if !fits || place.cols > place.pitch || place.row > place.rows || place.col > place.cols {
        return false;
    }
    let mut nothing = ();
    with_sheet(
        into,
        &mut nothing,
        place,
        |sheet: Sheet<u8>, nothing: (), place: Place| -> (Sheet<u8>, (), ())
            requires whole { IsWhole sheet }
            requires fits { RectFits (sheet_len sheet) place.from place.rows place.cols place.pitch }
            requires apart { place.cols ≤ place.pitch }
            requires split { (place.row ≤ place.rows) × (place.col ≤ place.cols) }
            ensures { Keeps sheet result.0 }
        { (fill_quarters(sheet, place), nothing, ()) },
    );
    true
}
