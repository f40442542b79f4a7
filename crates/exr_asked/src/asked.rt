//! What is asked of a part of a file: its choices, with the default where one was not given.

ghost use Rattle.std.specs.Prelude.{◌≡◌};
ghost use Rattle.exr_asked.specs.Choices.{choices_in, AreWithin};
ghost use Rattle.exr_asked.specs.Demand.{demand_of, demand_in, IsModest};

use crate::choices::{Arrangement, Choices, Wanted};
use exr_base::Box2i;

/// The samples that are asked of a part, and their order in a buffer (own).
#[derive(Drop, Debug)]
pub struct Asked {
    /// The number of the part, counted from 0.
    pub part: u32,
    /// The pixels; `None` for the data window.
    pub window: Option<Box2i>,
    pub layout: Arrangement,
    /// The channels in their order, at most 1,024, whether the part has them or not; `None` for all of the part.
    pub channels: Option<Vec<Wanted>>,
    /// The bytes of padding after each line, or after each pixel where samples are stored pixel by pixel: at most 65,535.
    pub pad: u32,
    /// The bits of the samples of channels that the part does not have.
    pub fill: u32,
    /// Whether a choice was given that a deep part does not take: the layout, the channels, the padding, the fill or what the
    /// buffer begins as.
    pub arranged: bool,
}

impl Asked {
    /// What some choices ask for: part 0, the data window, one plane per channel, all channels, no padding and zeros where
    /// none was given.
    pub fn new(choices: Choices) -> Asked
        ensures exact { demand_of result ≡ demand_in (choices_in choices) }
        // Choices within their limits ask for no more than a request takes.
        ensures modest { AreWithin (choices_in choices) → IsModest (demand_of result) }
    {
        let arranged = choices.layout.is_some()
            || choices.channels.is_some()
            || choices.pad.is_some()
            || choices.fill.is_some()
            || choices.byte.is_some();
        Asked {
            part: choices.part.unwrap_or(0),
            window: choices.window,
            layout: choices.layout.unwrap_or(Arrangement::Planar),
            channels: choices.channels,
            pad: choices.pad.unwrap_or(0),
            fill: choices.fill.unwrap_or(0),
            arranged,
        }
    }
}
