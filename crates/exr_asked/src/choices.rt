//! What samples are chosen by, each where it was given.

ghost use Rattle.std.specs.Prelude.{◌≡◌};
ghost use Rattle.exr_asked.specs.Choices.{no_choices, choices_in};

use exr_base::{Box2i, Kind, Name};

/// The order of samples in a buffer (own).
#[derive(Clone, Copy, Debug, PartialEq, Eq)]
pub enum Arrangement {
    /// One plane per channel, one after another.
    Planar,
    /// Line by line, on each line one channel after another.
    Lines,
    /// Pixel by pixel, at each pixel one channel after another.
    Pixels,
}

/// A channel that is asked for (own).
#[derive(Drop, Debug)]
pub struct Wanted {
    /// Its name, whether the part has a channel of that name or not.
    pub name: Name,
    /// Its pixel type, where it was given.
    pub kind: Option<Kind>,
}

/// What samples are chosen by; a field is `None` where it was not given, and its default is taken where it is used (own).
#[derive(Drop, Debug)]
pub struct Choices {
    /// The number of the part, counted from 0.
    pub part: Option<u32>,
    /// The pixels. The window may be empty, and lie anywhere.
    pub window: Option<Box2i>,
    pub layout: Option<Arrangement>,
    /// The channels in their order, whether the part has them or not.
    pub channels: Option<Vec<Wanted>>,
    /// The bytes of padding after each line, or after each pixel.
    pub pad: Option<u32>,
    /// The bits of the samples of channels that the part does not have.
    pub fill: Option<u32>,
    /// What each byte of the buffer begins as.
    pub byte: Option<u8>,
    /// The number of threads that read.
    pub workers: Option<u32>,
}

impl Choices {
    /// The choices of which none was given.
    pub fn none() -> Choices
        ensures { choices_in result ≡ no_choices }
    {
        Choices {
            part: None,
            window: None,
            layout: None,
            channels: None,
            pad: None,
            fill: None,
            byte: None,
            workers: None,
        }
    }
}
