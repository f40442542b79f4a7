//! Samples of a file, read chunk by chunk from a stream: those of a flat part into the buffer of a layout, those of a deep
//! part as an image. `check` tests all chunks.
#![tactic(auto)]

mod bands;
mod cause;
mod deep;
mod fetched;
mod jobs;
mod rounds;
mod sound;
mod target;
mod window;
mod work;

pub use cause::ReadCause;
pub use deep::{DeepStop, read_deep};
pub use sound::{CheckStop, check};
pub use target::Target;
pub use window::{read_chunks, read_first, read_window};
pub use work::{ReadStop, Work};
