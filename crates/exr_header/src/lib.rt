//! The head of a file: the headers of its parts, read from bytes and validated, written back, and shown as text. What
//! is read is exactly what the bytes spell, or the first fault from the front.
#![tactic(auto)]

mod given;
mod head;
mod laws;
mod reading;
mod show;
mod writing;

pub use exr_judge::{Channels, Header, LineOrder, PartKind, Tiles};
pub use head::FileHead;
pub use laws::spellings_are_prefix_free;
pub use reading::read_head;
pub use show::show_head;
pub use writing::write_head;
