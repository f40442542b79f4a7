//! Run-length packing of raw data, and back: `unpack` gives exactly the raw bytes of packed data, or says that it is
//! broken; `pack` gives exactly the writer's packed data, and what `pack` gave unpacks to the same bytes.
#![tactic(auto)]

mod broken;
mod halves;
mod packing;
mod restore;
mod runs;
mod tokens;
mod unpacking;

pub use broken::RleBroken;
pub use packing::pack;
pub use unpacking::unpack;
