//! B44 and B44A: halves in cells of 4 by 4, each in 14 bytes or 3, with loss. `unpack` gives exactly the raw data that
//! packed data stands for or says what is wrong with it, `pack` gives exactly the packed data, and unpacking what was
//! packed gives back each sample of 32 bits and of each cell of halves what its bytes keep.
#![tactic(auto)]

mod block;
mod channel;
mod fault;
mod flats;
mod lanes;
mod packing;
mod reading;
mod sizes;
mod stripe;
mod unpacking;
mod writing;

pub use block::{pack, unpack, unpack_into};
pub use fault::B44Fault;
