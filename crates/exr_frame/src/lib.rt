//! Samples between the raw bytes of a region and a buffer of strided planes: copied into the buffer, each byte to its
//! place and no other byte changed, and copied out of it again.
#![tactic(auto)]

mod copy_in;
mod copy_out;
mod gathering;
mod law;
mod rows;
mod scattering;
mod strip;

pub use gathering::gather;
pub use law::gather_gives_back;
pub use scattering::scatter;
