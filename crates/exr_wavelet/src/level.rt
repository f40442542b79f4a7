//! One level, in place on a slice.

ghost use Rattle.std.specs.Prelude.{◌≡◌, ℕ, ◌+◌, ◌*◌, ◌<◌, ◌≤◌, length};
ghost use Rattle.exr_wavelet.specs.Pair.{pair_by, square_by};
ghost use Rattle.exr_wavelet.specs.Level.{Matrix, square_at, put_square, put_column, put_line, squares_along, pairs_along, two_lines_of, level_by};
ghost use Rattle.exr_wavelet.specs.Places.{place_of, matrix_of, IsWithin, Becomes};

use crate::lines::step_both;
use crate::pair::{Square, Way, step, step_square};

/// The places of the words of a matrix in a slice: the first, the number of columns and lines, and the step between words.
#[derive(Clone, Copy)]
pub(crate) struct Grid {
    pub(crate) first: usize,
    pub(crate) nx: usize,
    pub(crate) ny: usize,
    pub(crate) step: usize,
}

impl Grid {
    /// The place of the word in column x of line y, which is below `len`.
    #[inline(always)]
    pub(crate) fn place(self, x: usize, y: usize, len: usize) -> usize
        requires within { IsWithin self len }
        requires spread { 1 ≤ self.step }
        requires column { x < self.nx }
        requires line { y < self.ny }
        ensures exact { result ≡ place_of self x y }
        ensures inside { result < len }
    {
        let at = self.first + (y * self.nx + x) * self.step;
        prove!(at < len);
        at
    }
}

/// Steps one square, from its least corner on.
#[inline(always)]
fn step_square_at(words: &mut [u16], grid: Grid, x: usize, y: usize, p: usize, way: Way, max: u16)
    requires within { IsWithin grid (length words.old) }
    requires spread { 1 ≤ grid.step }
    requires apart { 1 ≤ p }
    requires right { x + p < grid.nx }
    requires below { y + p < grid.ny }
    ensures { let M = matrix_of words.old grid in Becomes words.old words.new grid (put_square M x y p (square_by way max (square_at M x y p))) }
{
    let first = grid.place(x, y, words.len());
    let right = grid.place(x + p, y, words.len());
    let below = grid.place(x, y + p, words.len());
    let across = grid.place(x + p, y + p, words.len());
    let square = Square {
        first: words[first],
        right: words[right],
        below: words[below],
        across: words[across],
    };
    let stepped = step_square(way, max, square);
    words[first] = stepped.first;
    words[right] = stepped.right;
    words[below] = stepped.below;
    words[across] = stepped.across;
}

/// Steps one pair in a column.
#[inline(always)]
fn step_column_at(words: &mut [u16], grid: Grid, x: usize, y: usize, p: usize, way: Way, max: u16)
    requires within { IsWithin grid (length words.old) }
    requires spread { 1 ≤ grid.step }
    requires apart { 1 ≤ p }
    requires column { x < grid.nx }
    requires below { y + p < grid.ny }
    ensures { let M = matrix_of words.old grid in Becomes words.old words.new grid (put_column M x y p (pair_by way max (M x y) (M x (y + p)))) }
{
    let first = grid.place(x, y, words.len());
    let below = grid.place(x, y + p, words.len());
    let stepped = step(way, max, words[first], words[below]);
    words[first] = stepped.0;
    words[below] = stepped.1;
}

/// Steps one pair in a line.
#[inline(always)]
fn step_line_at(words: &mut [u16], grid: Grid, x: usize, y: usize, p: usize, way: Way, max: u16)
    requires within { IsWithin grid (length words.old) }
    requires spread { 1 ≤ grid.step }
    requires apart { 1 ≤ p }
    requires right { x + p < grid.nx }
    requires line { y < grid.ny }
    ensures { let M = matrix_of words.old grid in Becomes words.old words.new grid (put_line M x y p (pair_by way max (M x y) (M (x + p) y))) }
{
    let first = grid.place(x, y, words.len());
    let right = grid.place(x + p, y, words.len());
    let stepped = step(way, max, words[first], words[right]);
    words[first] = stepped.0;
    words[right] = stepped.1;
}

/// Steps the squares of two lines.
#[inline(always)]
fn step_squares(words: &mut [u16], grid: Grid, y: usize, p: usize, way: Way, max: u16)
    requires within { IsWithin grid (length words.old) }
    requires spread { 1 ≤ grid.step }
    requires apart { 1 ≤ p }
    requires wide { 2 * p ≤ grid.nx }
    requires below { y + p < grid.ny }
    ensures { Becomes words.old words.new grid (squares_along way max grid.nx p y (matrix_of words.old grid)) }
{
    if grid.step == 1 && p == 1 {
        return step_side_by_side(words, grid, y, way, max);
    }
    let size = 2 * p;
    for i in 0..grid.nx / size {
        step_square_at(words, grid, i * size, y, p, way, max);
    }
}

/// Steps the squares of two lines at the first level, where words are side by side.
#[inline(always)]
fn step_side_by_side(words: &mut [u16], grid: Grid, y: usize, way: Way, max: u16)
    requires within { IsWithin grid (length words.old) }
    requires spread { grid.step ≡ 1 }
    requires wide { 2 ≤ grid.nx }
    requires below { y + 1 < grid.ny }
    ensures { Becomes words.old words.new grid (squares_along way max grid.nx 1 y (matrix_of words.old grid)) }
{
    let first = grid.place(0, y, words.len());
    let last = grid.place(grid.nx - 1, y + 1, words.len());
    step_both(&mut words[first..last + 1], grid.nx, way, max);
}

/// Steps the pairs of a line.
#[inline(always)]
fn step_pairs(words: &mut [u16], grid: Grid, y: usize, p: usize, way: Way, max: u16)
    requires within { IsWithin grid (length words.old) }
    requires spread { 1 ≤ grid.step }
    requires apart { 1 ≤ p }
    requires wide { 2 * p ≤ grid.nx }
    requires line { y < grid.ny }
    ensures { Becomes words.old words.new grid (pairs_along way max grid.nx p y (matrix_of words.old grid)) }
{
    let size = 2 * p;
    for i in 0..grid.nx / size {
        step_line_at(words, grid, i * size, y, p, way, max);
    }
}

/// One level: each square, each pair of the odd column, each pair of the odd line.
#[inline(always)]
pub(crate) fn step_level(words: &mut [u16], grid: Grid, p: usize, way: Way, max: u16)
    requires within { IsWithin grid (length words.old) }
    requires spread { 1 ≤ grid.step }
    requires apart { 1 ≤ p }
    requires wide { 2 * p ≤ grid.nx }
    requires high { 2 * p ≤ grid.ny }
    ensures { Becomes words.old words.new grid (level_by way max grid.nx grid.ny p (matrix_of words.old grid)) }
{
    let size = 2 * p;
    for j in 0..grid.ny / size {
        step_two_lines(words, grid, j * size, p, way, max);
    }
    if grid.ny / p % 2 == 1 {
        step_pairs(words, grid, grid.ny / size * size, p, way, max);
    }
}

/// Steps the squares of two lines, and their pair in the odd column.
#[inline(always)]
fn step_two_lines(words: &mut [u16], grid: Grid, y: usize, p: usize, way: Way, max: u16)
    requires within { IsWithin grid (length words.old) }
    requires spread { 1 ≤ grid.step }
    requires apart { 1 ≤ p }
    requires wide { 2 * p ≤ grid.nx }
    requires below { y + p < grid.ny }
    ensures { Becomes words.old words.new grid (two_lines_of way max grid.nx p y (matrix_of words.old grid)) }
{
    step_squares(words, grid, y, p, way, max);
    if grid.nx / p % 2 == 1 {
        let x = grid.nx / (2 * p) * (2 * p);
        step_column_at(words, grid, x, y, p, way, max);
    }
}
