//! What every layer speaks of: samples and their kinds, channels, boxes of pixels, methods of compression, the
//! raw size of a region, exact readers of bytes and bits, and why a call can refuse.
#![tactic(auto)]

mod bits;
mod channel;
mod cursor;
mod method;
mod name;
mod refusal;
mod sampling;
mod shape;

pub use bits::{BitReader, BitWriter};
pub use channel::{Channel, Kind, copy_channels, find_channel};
pub use cursor::Cursor;
pub use method::Method;
pub use name::Name;
pub use refusal::{Failed, NoMemory, Refusal};
pub use sampling::{count_before, first_sample, pieces, sample_count, span};
pub use shape::{Box2i, Shape, is_side_inside};
