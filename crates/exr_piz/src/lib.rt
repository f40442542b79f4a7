//! PIZ: the words of a block are renumbered by their rank among the values that occur, go through the wavelet channel
//! by channel, and are packed as a Huffman block. `unpack` gives exactly the raw data that packed data stands for, or the
//! first thing that is wrong with it; `pack` gives exactly the writer's packed data, which unpacks to the same bytes.
#![tactic(auto)]

mod fault;
mod marks;
mod packing;
mod parts;
mod planar_words;
mod planes;
mod ranked;
mod unpacking;
mod value_map;
mod values;
mod words;

pub use fault::PizFault;
pub use packing::pack;
pub use unpacking::{unpack, unpack_into};
