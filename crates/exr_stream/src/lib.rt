//! The chunks of a file from a source: its head and its tables of offsets are read once, each chunk when it is asked for.
#![tactic(auto)]

mod data;
mod fault;
mod fetch;
mod front;
mod stream;

pub use exr_opening::OpenFault;
pub use fault::FetchFault;
pub use stream::{OpenStop, Stream};
