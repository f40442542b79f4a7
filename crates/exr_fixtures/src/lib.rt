//! OpenEXR files spelled byte by byte, for the tests of other crates: attributes, headers, heads, tables of offsets and
//! chunks. Nothing here calls the code that the tests are about, and nothing is validated, so that a test can spell
//! files that no reader accepts.
#![tactic(auto)]

mod attributes;
mod file;
mod head;
mod picture;

pub use attributes::{put_attribute, put_string};
pub use file::{file_of, line_chunk, put_offsets, tile_chunk};
pub use head::{PartSpec, flagged_head, part_head, single_head};
pub use picture::{ChannelSpec, ONE_PIXEL, Picture, Y, picture_attributes};
