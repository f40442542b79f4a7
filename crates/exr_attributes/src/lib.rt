//! The attributes of one header: a map from names to attributes that keeps their order, read from a file and written
//! back byte for byte; and the faults of headers.
#![tactic(auto)]

mod attribute;
mod fault;
mod front;
mod map;
mod name;
mod reading;
mod seconds;
mod value;
mod writing;

pub use attribute::{Attribute, Entry};
pub use fault::{Bound, Field, HeaderFault};
pub use front::{HEAD_LIMIT, head_bytes, head_number};
pub use map::AttributeMap;
pub use name::PackedName;
pub use reading::read_attributes;
pub use value::AttributeValue;
pub use writing::write_attributes;
