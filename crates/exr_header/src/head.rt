//! The head of a file: whether it is multi-part, and the headers of its parts.

ghost use Rattle.std.specs.Prelude.{◌≡◌};

use exr_judge::Header;
use std::marker::Model;

/// The head of a file: whether it is multi-part, and its headers, exactly one where it is not.
///
/// File Layout, "Components One and Two: Magic Number and Version Field" and "Component Three: Header".
#[derive(Drop, Debug)]
pub struct FileHead {
    pub(crate) multi: bool,
    pub(crate) parts: Vec<Header>,
}

impl Model for FileHead {
    ghost use Rattle.exr_header.specs.Head.{Head, head_from};
    ghost use Rattle.exr_header.specs.Spells.{IsHead};

    ghost Value = { Head };

    ghost view = { λ h. head_from h.multi h.parts.items };

    ghost invariant = { λ h. IsHead (head_from h.multi h.parts.items) };
}

impl FileHead {
    ghost use Rattle.std.specs.Prelude.{◌≡◌, All};
    ghost use Rattle.exr_judge.specs.Picture.{IsPicture};
    ghost use Rattle.exr_header.specs.Spells.{IsHead};

    /// Whether the file is a multi-part file, which may have a single part too.
    pub fn multi(&self) -> bool
        ensures { result ≡ self.now.multi }
    {
        self.multi
    }

    /// The headers in the order of the file.
    pub fn parts(&self) -> &[Header]
        ensures value { result.now ≡ self.now.parts }
        ensures pictures { All IsPicture self.now.parts }
        ensures head { IsHead self.now }
    {
        self.parts.as_slice()
    }
}
