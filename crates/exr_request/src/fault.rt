//! Why a request is refused (own). Slices count from 0, in the order in which their channels are listed.

ghost use Rattle.std.specs.Prelude.{◌≡◌};
ghost use Rattle.exr_request.specs.Fault.{request_number_of};

use exr_layout::{LayoutFault, MatchFault};
use thiserror::Error;

/// Why a request is refused: the first test that applies.
#[derive(Clone, Copy, Debug, PartialEq, Eq, Error)]
pub enum RequestFault {
    /// The file has no such part.
    #[error("no such part")]
    NoPart,
    /// The part is deep, and a choice was given that only the buffer of a flat part has: the layout, channels, padding, a fill
    /// or what the buffer begins as.
    #[error("a deep part takes no layout, channels, pad, fill or byte")]
    DeepWords,
    /// The window is empty, or not within the data window.
    #[error("the window is empty or not within the data window")]
    Window,
    /// A slice would share lines or pixels with the first one, and has another sampling.
    #[error("slice {slice} has another sampling than the first one")]
    Mixed { slice: u32 },
    /// The planes are no valid layout.
    #[error("no layout: {0}")]
    Layout(LayoutFault),
    /// The buffer would have more than 2^30 bytes.
    #[error("buffer too large")]
    TooLarge,
    /// The layout does not fit the part.
    #[error("no match: {0}")]
    Match(MatchFault),
    /// The pixels of a deep part have more than 2^30 bytes, with this chunk of the part for the first time.
    #[error("too large at chunk {index}")]
    DeepTooLarge { index: u32 },
}

impl RequestFault {
    /// The number by which the program names the fault (own).
    pub fn number(self) -> u8
        ensures { result ≡ request_number_of self }
    {
        match self {
            RequestFault::NoPart => 1,
            RequestFault::DeepWords => 2,
            RequestFault::Window => 3,
            RequestFault::Mixed { .. } => 4,
            RequestFault::Layout(_) => 5,
            RequestFault::TooLarge => 6,
            RequestFault::Match(_) => 7,
            RequestFault::DeepTooLarge { .. } => 11,
        }
    }
}
