//! The order of samples in a buffer, by name (own).

ghost use Rattle.std.specs.Prelude.{◌≡◌};
ghost use Rattle.exr_words.specs.Layout.{arrangement_of};

use exr_asked::Arrangement;

/// The arrangement with a name.
pub(crate) fn arrangement(name: &str) -> Option<Arrangement>
    ensures { result ≡ arrangement_of name.now }
{
    if name == "planar" {
        return Some(Arrangement::Planar);
    }
    if name == "lines" {
        return Some(Arrangement::Lines);
    }
    (name == "pixels").then_some(Arrangement::Pixels)
}
