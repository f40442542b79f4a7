//! The chunks of a file, computed from its headers: the region and the raw size of each, its place among the others and
//! the fields that name it, its offset table entry, and the order in which a writer writes them.
#![tactic(auto)]

mod fields;
mod geometry;
mod groups;
mod index;
mod laws;
mod part;
mod place;
mod raw;
mod region;
mod sides;
mod turns;
mod window;

pub use fields::chunk_fields;
pub use geometry::Geometry;
pub use laws::{each_pixel_has_one_chunk, no_chunk_is_larger};
pub use place::Place;
pub use turns::{chunk_at_its_turn, turn_of_its_chunk};
