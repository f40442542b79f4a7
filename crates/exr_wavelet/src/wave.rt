//! All levels of the wavelet, in place.

ghost use Rattle.std.specs.Prelude.{◌≡◌, ◌≢◌, ℕ, ◌+◌, ◌*◌, ◌<◌, ◌≤◌, length, slice_index};
ghost use Rattle.exr_wavelet.specs.Level.{Matrix};
ghost use Rattle.exr_wavelet.specs.Wave.{wave_of, unwave_of, wave_below, unwave_below};
ghost use Rattle.exr_wavelet.specs.Places.{words_of, matrix_of, IsWithin, Becomes};

use crate::level::{Grid, step_level};
use crate::pair::Way;

/// The wavelet on a matrix of `nx` columns and `ny` lines of which word (x, y) is at `first + (y * nx + x) * step`.
/// `max` is the greatest word that the matrix is known to have: it chooses the pair step. No memory is taken (own).
pub fn encode(words: &mut [u16], first: usize, nx: usize, ny: usize, step: usize, max: u16)
    requires spread { 1 ≤ step }
    requires within { (x y : ℕ) → x < nx → y < ny → first + (y * nx + x) * step < length words.old }
    ensures placed { (x y : ℕ) → x < nx → y < ny → slice_index words.new (first + (y * nx + x) * step) ≡ wave_of max nx ny (words_of words.old first nx step) x y }
    // No other word changes.
    ensures others { (k : ℕ) → ((x y : ℕ) → x < nx → y < ny → k ≢ first + (y * nx + x) * step) → slice_index words.new k ≡ slice_index words.old k }
{
    let grid = Grid {
        first,
        nx,
        ny,
        step,
    };
    encode_levels(words, grid, max);
}

/// The inverse of `encode`, on the same places.
pub fn decode(words: &mut [u16], first: usize, nx: usize, ny: usize, step: usize, max: u16)
    requires spread { 1 ≤ step }
    requires within { (x y : ℕ) → x < nx → y < ny → first + (y * nx + x) * step < length words.old }
    ensures placed { (x y : ℕ) → x < nx → y < ny → slice_index words.new (first + (y * nx + x) * step) ≡ unwave_of max nx ny (words_of words.old first nx step) x y }
    // No other word changes.
    ensures others { (k : ℕ) → ((x y : ℕ) → x < nx → y < ny → k ≢ first + (y * nx + x) * step) → slice_index words.new k ≡ slice_index words.old k }
    // What was encoded from words of at most `max` comes back.
    ensures restores { (M : Matrix) → ((x y : ℕ) → x < nx → y < ny → M x y ≤ max) → ((x y : ℕ) → x < nx → y < ny → slice_index words.old (first + (y * nx + x) * step) ≡ wave_of max nx ny M x y)
        → (x y : ℕ) → x < nx → y < ny → slice_index words.new (first + (y * nx + x) * step) ≡ M x y }
{
    let grid = Grid {
        first,
        nx,
        ny,
        step,
    };
    decode_levels(words, grid, max);
}

/// The levels from the least step up.
#[inline(always)]
fn encode_levels(words: &mut [u16], grid: Grid, max: u16)
    requires spread { 1 ≤ grid.step }
    requires within { IsWithin grid (length words.old) }
    ensures { Becomes words.old words.new grid (wave_of max grid.nx grid.ny (matrix_of words.old grid)) }
{
    let side = grid.nx.min(grid.ny);
    let mut p = 1;
    'levels: while p <= side / 2 {
        step_level(words, grid, p, Way::Encode, max);
        p *= 2;
    }
}

/// The levels from the greatest step down.
#[inline(always)]
fn decode_levels(words: &mut [u16], grid: Grid, max: u16)
    requires spread { 1 ≤ grid.step }
    requires within { IsWithin grid (length words.old) }
    ensures { Becomes words.old words.new grid (unwave_of max grid.nx grid.ny (matrix_of words.old grid)) }
{
    let side = grid.nx.min(grid.ny);
    let mut p = 1;
    'steps: while p <= side / 2 {
        p *= 2;
    }
    'levels: while p > 1 {
        p /= 2;
        step_level(words, grid, p, Way::Decode, max);
    }
}
