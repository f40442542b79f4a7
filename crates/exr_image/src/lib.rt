//! The image of a window of a deep part, put together from the content of its chunks: the counts of the window's pixels,
//! and of each channel all their samples.
#![tactic(auto)]

mod bytes;
mod chunk;
mod image;
mod piece;
mod pieces;
mod pixel;
mod planes;
mod sizes;
mod tally;

pub use chunk::DeepChunk;
pub use image::DeepImage;
