//! A desk takes the chunks of a file in any order, each at its turn, and writes the file: the front, the chunks in their
//! write order as soon as they can be written, and at the end the tables of offsets. What its sink holds after each call
//! is stated, and every refusal has its cause.
#![tactic(auto)]

mod accepted;
mod chunk;
mod desk;
mod filing;
mod fill;
mod stop;
mod waiting;

pub use chunk::{Front, Packed};
pub use desk::Desk;
pub use stop::{DeskCause, DeskOpenStop, DeskStop, Placed, TwiceChunk, WriteFault};
