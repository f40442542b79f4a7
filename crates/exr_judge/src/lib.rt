//! Validating the header of a part: from its attributes to its kind, channels, windows and tiles, or the first fault in the
//! stated order.
#![tactic(auto)]

mod channels;
mod checks;
mod fields;
mod header;
mod kind;
mod picture;
mod words;

pub use channels::Channels;
pub use checks::{chunk_count, judged};
pub use header::Header;
pub use kind::{Flags, LineOrder, PartKind, Tiles};
pub use picture::typed_kind;
