//! The data of one chunk, deep or not: as it is stored in a file, and raw. `unpack_block` gives exactly the raw content or
//! its first fault, `pack_block` exactly the data that a writer stores; `sizes_fit`, `fits` and `can_pack` say what each may
//! be given.
#![tactic(auto)]

mod body;
mod fault;
mod packing;
mod plain;
mod sizes;
mod unpacking;

pub use body::{Block, Body};
pub use exr_deep::{DeepBlock, DeepFault, DeepPacked};
pub use fault::ChunkFault;
pub use packing::{can_pack, fits, pack_block};
pub use sizes::{DeepSizes, are_sizes, is_size, raw_bytes, sizes_fit};
pub use unpacking::unpack_block;
