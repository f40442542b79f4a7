//! Huffman blocks: lists of 16-bit words, packed with codes of at most 58 bits and runs of equal words.
#![tactic(auto)]

mod block;
mod data;
mod fault;
mod fronts;
mod rounds;

pub use block::unpack;
pub use fault::HufFault;
