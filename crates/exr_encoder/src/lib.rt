//! Writing with a complete table of code lengths: the bytes that spell the table, the code of each entry, and bits
//! laid one after the other.
#![tactic(auto)]

mod encoder;
mod laws;
mod pen;
mod table;

pub use encoder::{Code, Encoder};
pub use laws::table_is_read_again;
pub use pen::{Pen, put_times};
pub use table::write_table;
