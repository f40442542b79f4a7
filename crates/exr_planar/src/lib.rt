//! Raw data regrouped channel by channel, and back: a method that packs each channel by itself works on planar data.
#![tactic(auto)]

mod lines;
mod planar;
mod rows;
mod sink;
mod source;

pub use planar::{from_planar, put_planar, put_planar_in, put_raw, put_raw_from, to_planar};
pub use sink::RowSink;
pub use source::RowSource;
