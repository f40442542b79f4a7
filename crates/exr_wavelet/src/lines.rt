//! The squares of two lines of words that are side by side: most of the work, in a loop that a compiler turns into
//! vectors, since it is handed the two lines as slices of their own.

ghost use Rattle.std.specs.Prelude.{◌≡◌, ◌+◌, ◌*◌, ◌<◌, ◌++◌, length};
ghost use Rattle.exr_wavelet.specs.Pair.{square_by};
ghost use Rattle.exr_wavelet.specs.Level.{square_at, put_square, squares_along};
ghost use Rattle.exr_wavelet.specs.Places.{two_lines, matrix_of, Becomes};

use crate::pair::{Square, Way, step_square};

/// Steps the squares of two lines of `nx` words, one line after the other.
pub(crate) fn step_both(lines: &mut [u16], nx: usize, way: Way, max: u16)
    requires { length lines.old ≡ 2 * nx }
    ensures { Becomes lines.old lines.new (two_lines nx) (squares_along way max nx 1 0 (matrix_of lines.old (two_lines nx))) }
{
    let (top, bottom) = lines.split_at_mut(nx);
    step_lines(top, bottom, nx, way, max);
}

/// The same of two lines that are slices of their own. It is not inlined, so that a compiler sees them as apart.
#[inline(never)]
fn step_lines(top: &mut [u16], bottom: &mut [u16], nx: usize, way: Way, max: u16)
    requires top { length top.old ≡ nx }
    requires bottom { length bottom.old ≡ nx }
    ensures { let words = top.old ++ bottom.old in Becomes words (top.new ++ bottom.new) (two_lines nx) (squares_along way max nx 1 0 (matrix_of words (two_lines nx))) }
{
    for i in 0..nx / 2 {
        step_square_in(top, bottom, nx, i * 2, way, max);
    }
}

/// Steps the square in two columns of two lines.
#[inline(always)]
fn step_square_in(top: &mut [u16], bottom: &mut [u16], nx: usize, x: usize, way: Way, max: u16)
    requires top { length top.old ≡ nx }
    requires bottom { length bottom.old ≡ nx }
    requires right { x + 1 < nx }
    ensures { let words = top.old ++ bottom.old in let M = matrix_of words (two_lines nx) in Becomes words (top.new ++ bottom.new) (two_lines nx) (put_square M x 0 1 (square_by way max (square_at M x 0 1))) }
{
    let square = Square {
        first: top[x],
        right: top[x + 1],
        below: bottom[x],
        across: bottom[x + 1],
    };
    let stepped = step_square(way, max, square);
    top[x] = stepped.first;
    top[x + 1] = stepped.right;
    bottom[x] = stepped.below;
    bottom[x + 1] = stepped.across;
}
