//! A window of pixels, as `X0,Y0,X1,Y1` (own).

ghost use Rattle.std.specs.Prelude.{◌≡◌};
ghost use Rattle.exr_words.specs.Window.{coordinate_of, window_of};

use crate::number::number_within;
use exr_base::Box2i;

/// The greatest coordinate; the least is as far below zero.
const FARTHEST: u32 = 1 << 30;

/// Parses a window: four coordinates.
pub(crate) fn window(text: &str) -> Option<Box2i>
    ensures { result ≡ window_of text.now }
{
    let (x0, rest) = text.split_once(',')?;
    let (y0, rest) = rest.split_once(',')?;
    let (x1, y1) = rest.split_once(',')?;
    Some(Box2i {
        x0: coordinate(x0.as_bytes())?,
        y0: coordinate(y0.as_bytes())?,
        x1: coordinate(x1.as_bytes())?,
        y1: coordinate(y1.as_bytes())?,
    })
}

/// Parses a coordinate: digits, after a `-` where it is negative.
fn coordinate(text: &[u8]) -> Option<i32>
    ensures { result ≡ coordinate_of text.now }
{
    let (first, digits) = text.split_first()?;
    if *first == b'-' {
        let number = number_within(digits, 0, FARTHEST)?;
        return Some(-(number as i32));
    }
    let number = number_within(text, 0, FARTHEST)?;
    Some(number as i32)
}
