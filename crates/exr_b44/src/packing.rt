//! A plane of halves in cells.

ghost use Rattle.std.specs.Prelude.{◌≡◌, ℕ, ◌+◌, ◌-◌, ◌*◌, ◌/◌, ◌%◌, ◌^◌, ◌<◌, ◌≤◌, ◌⊎◌, ◌++◌, min, length, slice_index, take};
ghost use Rattle.std.specs.List.{flat_map, range_with_len};
ghost use Rattle.exr_b44.specs.Cell.{cell_of};
ghost use Rattle.exr_b44.specs.Lines.{IsCellIn};
ghost use Rattle.exr_b44.specs.Plane.{cells_for, cell_in, cells_of};

use crate::writing::pack_cell;

/// The cells of a plane of `ny` lines of `nx` halves, from a place on in a slice with room for 14 bytes a cell and four
/// more, which may change too. Answers where they end.
pub(crate) fn pack_plane(
    rows: &[u8],
    nx: usize,
    ny: usize,
    into: &mut [u8],
    to: usize,
    flat: bool,
) -> usize
    requires narrow { nx ≤ 2 ^ 20 }
    requires low { ny ≤ 2 ^ 20 }
    requires whole { length rows.now ≡ 2 * nx * ny }
    requires room { to + 14 * (cells_for nx * cells_for ny) + 4 ≤ length into.old }
    ensures cells { take result into.new ≡ take to into.old ++ cells_of nx ny flat rows.now }
    ensures few { result ≤ to + 14 * (cells_for nx * cells_for ny) }
{
    let mut at = to;
    for line in 0..ny.div_ceil(4) {
        at = pack_band(rows, nx, ny, line, into, at, flat);
    }
    at
}

/// The cells of four lines, or as many as there are. Answers where they end.
#[inline(always)]
fn pack_band(
    rows: &[u8],
    nx: usize,
    ny: usize,
    line: usize,
    into: &mut [u8],
    to: usize,
    flat: bool,
) -> usize
    requires narrow { nx ≤ 2 ^ 20 }
    requires low { ny ≤ 2 ^ 20 }
    requires whole { length rows.now ≡ 2 * nx * ny }
    requires there { line < cells_for ny }
    requires room { to + 14 * cells_for nx + 4 ≤ length into.old }
    ensures cells { take result into.new ≡ take to into.old ++ flat_map (λ n. cell_of (cell_in nx ny rows.now n) flat) (range_with_len (line * cells_for nx) (cells_for nx)) }
    ensures few { result ≤ to + 14 * cells_for nx }
{
    let mut cell = [0u8; 32];
    let mut at = to;
    for column in 0..nx.div_ceil(4) {
        take_cell(rows, nx, ny, column, line, &mut cell);
        at += pack_cell(&cell, into, at, flat);
    }
    at
}

/// A cell of a plane, as 32 bytes.
#[inline(always)]
fn take_cell(rows: &[u8], nx: usize, ny: usize, column: usize, line: usize, cell: &mut [u8])
    requires narrow { nx ≤ 2 ^ 20 }
    requires low { ny ≤ 2 ^ 20 }
    requires whole { length rows.now ≡ 2 * nx * ny }
    requires right { column < cells_for nx }
    requires below { line < cells_for ny }
    requires room { length cell.old ≡ 32 }
    ensures { IsCellIn rows.now cell.new nx ny column line 16 }
{
    if 4 * column + 4 <= nx && 4 * line + 4 <= ny {
        take_whole_cell(rows, nx, ny, column, line, cell);
    } else {
        take_cut_cell(rows, nx, ny, column, line, cell);
    }
}

/// A cell of which nothing is past the last column and line.
#[inline(always)]
fn take_whole_cell(rows: &[u8], nx: usize, ny: usize, column: usize, line: usize, cell: &mut [u8])
    requires narrow { nx ≤ 2 ^ 20 }
    requires low { ny ≤ 2 ^ 20 }
    requires whole { length rows.now ≡ 2 * nx * ny }
    requires right { 4 * column + 4 ≤ nx }
    requires below { 4 * line + 4 ≤ ny }
    requires room { length cell.old ≡ 32 }
    ensures { IsCellIn rows.now cell.new nx ny column line 16 }
{
    take_line(rows, nx, ny, column, line, 0, cell);
    take_line(rows, nx, ny, column, line, 1, cell);
    take_line(rows, nx, ny, column, line, 2, cell);
    take_line(rows, nx, ny, column, line, 3, cell);
}

/// One line of such a cell behind the ones before it.
#[inline(always)]
fn take_line(
    rows: &[u8],
    nx: usize,
    ny: usize,
    column: usize,
    line: usize,
    y: usize,
    cell: &mut [u8],
)
    requires narrow { nx ≤ 2 ^ 20 }
    requires low { ny ≤ 2 ^ 20 }
    requires whole { length rows.now ≡ 2 * nx * ny }
    requires right { 4 * column + 4 ≤ nx }
    requires below { 4 * line + 4 ≤ ny }
    requires inside { y < 4 }
    requires room { length cell.old ≡ 32 }
    requires before { IsCellIn rows.now cell.old nx ny column line (4 * y) }
    ensures { IsCellIn rows.now cell.new nx ny column line (4 * (y + 1)) }
{
    let at = 2 * ((4 * line + y) * nx + 4 * column);
    cell[8 * y..8 * y + 8].copy_from_slice(&rows[at..at + 8]);
}

/// A cell that goes past the last column or line, which are repeated.
#[inline(never)]
fn take_cut_cell(rows: &[u8], nx: usize, ny: usize, column: usize, line: usize, cell: &mut [u8])
    requires narrow { nx ≤ 2 ^ 20 }
    requires low { ny ≤ 2 ^ 20 }
    requires whole { length rows.now ≡ 2 * nx * ny }
    requires right { 1 ≤ nx }
    requires below { 1 ≤ ny }
    requires column { column < cells_for nx }
    requires line { line < cells_for ny }
    requires room { length cell.old ≡ 32 }
    ensures { IsCellIn rows.now cell.new nx ny column line 16 }
{
    for k in 0..16 {
        let x = (4 * column + k % 4).min(nx - 1);
        let y = (4 * line + k / 4).min(ny - 1);
        let at = 2 * (y * nx + x);
        let low = rows[at];
        let high = rows[at + 1];
        cell[2 * k] = low;
        cell[2 * k + 1] = high;
    }
}
