//! Packing words into a Huffman block: their weights, the code lengths by merging, and the codes of the words, with
//! runs where they take fewer bits.
#![tactic(auto)]

mod packing;
mod plan;
mod words;
mod writing;

pub use packing::pack;
