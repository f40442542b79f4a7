//! Complete tables of code lengths of at most 58 bits: their canonical codes, how a table is spelled in bits, and a
//! decoder that finds the one code that begins a window of bits.
#![tactic(auto)]

mod decoder;
mod item;
mod laws;
mod leasts;
mod order;
mod reader;
mod table;
mod window;

pub use decoder::{Decoder, Found};
pub use laws::codes_are_prefix_free;
pub use order::{Starts, starts_of};
pub use table::read_table;
pub use window::Window;
