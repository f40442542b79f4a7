//! Opening a file: reading its head from a source in few pieces.
#![tactic(auto)]

mod opening;

pub use opening::{OpenFault, Opened, open_head, read_piece};
