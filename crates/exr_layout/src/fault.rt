//! What can be wrong with a layout, and with a layout against a part (own). Planes and slices count from 0, slices
//! through all runs of all planes, in the order in which they are listed.

ghost use Rattle.std.specs.Prelude.{◌≡◌};
ghost use Rattle.exr_layout.specs.Fault.{layout_number_of, match_number_of};

use thiserror::Error;

/// Why planes are not a valid layout: the first test that they fail.
#[derive(Clone, Copy, Debug, PartialEq, Eq, Error)]
pub enum LayoutFault {
    /// The first plane without runs, or with a run without slices.
    #[error("plane {plane} is empty")]
    Empty { plane: u32 },
    /// The first plane with a base, an offset or a stride above 2^40, its runs and slices included.
    #[error("plane {plane} has an offset above 2^40")]
    Huge { plane: u32 },
    /// A slice has the name of an earlier one.
    #[error("slices {first} and {second} have one name")]
    TwiceChannel { first: u32, second: u32 },
    /// The sampling of a plane or a run is 0. Its first slice is named.
    #[error("slice {slice} has a sampling of 0")]
    ZeroSampling { slice: u32 },
    /// A slice, a run or a plane starts before the end of the one before it. The last slice of the one before and the
    /// first of the one that follows are named.
    #[error("slices {first} and {second} overlap")]
    Overlap { first: u32, second: u32 },
    /// The slices of a run end past its stride, or a row past its plane's. The last slice is named.
    #[error("slice {slice} ends past its stride")]
    ShortStride { slice: u32 },
    /// A plane ends past the buffer. Its last slice is named.
    #[error("slice {slice} ends past the buffer")]
    OutOfBuffer { slice: u32 },
}

impl LayoutFault {
    /// Its number in messages.
    pub fn number(&self) -> u32
        ensures { result ≡ layout_number_of self.now }
    {
        match self {
            LayoutFault::Empty { .. } => 1,
            LayoutFault::Huge { .. } => 2,
            LayoutFault::TwiceChannel { .. } => 3,
            LayoutFault::ZeroSampling { .. } => 4,
            LayoutFault::Overlap { .. } => 5,
            LayoutFault::ShortStride { .. } => 6,
            LayoutFault::OutOfBuffer { .. } => 7,
        }
    }
}

/// Why a layout does not fit a part: the first test that it fails.
#[derive(Clone, Copy, Debug, PartialEq, Eq, Error)]
pub enum MatchFault {
    /// The window is not within the data window.
    #[error("the window is not within the data window")]
    WindowOutside,
    /// The part has a channel of the slice's name, of another kind.
    #[error("slice {slice} has another kind than its channel")]
    KindDiffers { slice: u32 },
    /// The part has a channel of the slice's name, with another sampling in x or in y.
    #[error("slice {slice} has another sampling than its channel")]
    SamplingDiffers { slice: u32 },
}

impl MatchFault {
    /// Its number in messages.
    pub fn number(&self) -> u32
        ensures { result ≡ match_number_of self.now }
    {
        match self {
            MatchFault::WindowOutside => 1,
            MatchFault::KindDiffers { .. } => 2,
            MatchFault::SamplingDiffers { .. } => 3,
        }
    }
}
