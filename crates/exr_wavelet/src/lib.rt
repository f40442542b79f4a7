//! The wavelet on a plane of 16-bit words, in place: `encode` is exactly the wavelet by place and `decode` exactly its
//! inverse, on the named places of a slice; no other word changes, no memory is taken, and decoding what was encoded from
//! words of at most `max` gives them back.
#![tactic(auto)]

mod level;
mod lines;
mod pair;
mod wave;

pub use wave::{decode, encode};
