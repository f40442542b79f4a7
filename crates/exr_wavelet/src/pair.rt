//! Two words as their mean and difference, and back, and the four words of a square.

ghost use Rattle.std.specs.Prelude.{◌≡◌, ◌+◌, ◌/◌, ◌%◌};
ghost use Rattle.exr_wavelet.specs.Pair.{above_least, pair_by, square_by, pair_of, back_of};

/// Which way the wavelet goes.
#[derive(Clone, Copy)]
pub(crate) enum Way {
    Encode,
    Decode,
}

/// The words at the corners of a square.
#[derive(Clone, Copy)]
pub(crate) struct Square {
    pub(crate) first: u16,
    pub(crate) right: u16,
    pub(crate) below: u16,
    pub(crate) across: u16,
}

/// The half of a sum, rounded down.
#[inline(always)]
fn half_sum(a: u16, b: u16) -> u16
    ensures { result ≡ (a + b) / 2 }
{
    ((u32::from(a) + u32::from(b)) / 2) as u16
}

/// The half of a sum of words with sign, rounded down. Each is first widened so that the sum fits, which is one
/// instruction in this form.
#[inline(always)]
fn signed_half_sum(a: u16, b: u16) -> u16
    ensures { result ≡ ((above_least a + above_least b) / 2 + 32768) % 65536 }
{
    let first = u32::from(a.wrapping_add(32768)).wrapping_sub(32768);
    let second = u32::from(b.wrapping_add(32768)).wrapping_sub(32768);
    (first.wrapping_add(second) / 2 & 0xffff) as u16
}

/// A mean and a difference.
#[inline(always)]
fn pair(max: u16, a: u16, b: u16) -> (u16, u16)
    ensures { result ≡ pair_of max a b }
{
    if max < 16384 {
        (signed_half_sum(a, b), a.wrapping_sub(b))
    } else {
        let moved = a.wrapping_add(32768);
        let mean = half_sum(moved, b);
        let mean = if moved < b {
            mean.wrapping_add(32768)
        } else {
            mean
        };
        (mean, moved.wrapping_sub(b))
    }
}

/// The two words of a mean and a difference.
#[inline(always)]
fn back(max: u16, mean: u16, difference: u16) -> (u16, u16)
    ensures { result ≡ back_of max mean difference }
{
    if max < 16384 {
        let half = (difference.wrapping_add(32768) / 2).wrapping_add(49152);
        let a = mean.wrapping_add(difference % 2).wrapping_add(half);
        (a, a.wrapping_sub(difference))
    } else {
        let b = mean.wrapping_sub(difference / 2);
        (difference.wrapping_add(b).wrapping_add(32768), b)
    }
}

/// One pair, either way.
#[inline(always)]
pub(crate) fn step(way: Way, max: u16, a: u16, b: u16) -> (u16, u16)
    ensures { result ≡ pair_by way max a b }
{
    match way {
        Way::Encode => pair(max, a, b),
        Way::Decode => back(max, a, b),
    }
}

/// One square, either way: rows and then columns, or columns and then rows.
#[inline(always)]
pub(crate) fn step_square(way: Way, max: u16, square: Square) -> Square
    ensures { result ≡ square_by way max square }
{
    match way {
        Way::Encode => {
            let top = pair(max, square.first, square.right);
            let bottom = pair(max, square.below, square.across);
            let left = pair(max, top.0, bottom.0);
            let right = pair(max, top.1, bottom.1);
            Square {
                first: left.0,
                right: right.0,
                below: left.1,
                across: right.1,
            }
        }
        Way::Decode => {
            let left = back(max, square.first, square.below);
            let right = back(max, square.right, square.across);
            let top = back(max, left.0, right.0);
            let bottom = back(max, left.1, right.1);
            Square {
                first: top.0,
                right: top.1,
                below: bottom.0,
                across: bottom.1,
            }
        }
    }
}
