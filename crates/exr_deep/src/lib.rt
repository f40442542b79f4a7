//! The content of a deep chunk, packed and raw: how many samples each pixel has, and the samples. `unpack_deep` gives
//! exactly the counts and samples that a chunk stands for, or its first fault; `pack_deep` gives exactly the chunk that a
//! writer stores, and what it gave unpacks to the same content.
#![tactic(auto)]

mod block;
mod counts;
mod fault;
mod packing;
mod sizes;
mod stored;
mod table;
mod unpacking;

pub use block::{DeepBlock, DeepPacked};
pub use fault::DeepFault;
pub use packing::pack_deep;
pub use sizes::{fits, height_of, sample_bytes, width_of};
pub use unpacking::unpack_deep;
