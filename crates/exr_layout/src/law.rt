//! What holds of every valid layout. The contract of the call is the law.

ghost use Rattle.std.specs.Prelude.{◌≡◌, ◌<◌};
ghost use Rattle.exr_layout.specs.Place.{Byte, IsNamed, place_of, placements_of};

use crate::layout::Layout;

/// Each byte of a sample that a layout names has a place of its own in the buffer. The call does nothing.
pub fn each_byte_has_its_place(layout: &Layout)
    // It lies in the buffer.
    ensures within { (k : Byte) → IsNamed layout.now.window (placements_of layout.now.planes) k
        → place_of layout.now.window (placements_of layout.now.planes) k < layout.now.buffer }
    // No other byte is stored there.
    ensures once { (j : Byte) → (k : Byte) → IsNamed layout.now.window (placements_of layout.now.planes) j
        → IsNamed layout.now.window (placements_of layout.now.planes) k
        → place_of layout.now.window (placements_of layout.now.planes) j
        ≡ place_of layout.now.window (placements_of layout.now.planes) k → j ≡ k }
{
    let _valid = layout.planes();
}
