//! Why packed data does not unpack.

use exr_huffman::HufFault;
use thiserror::Error;

/// The first thing that is wrong with packed data, in the order of reading.
#[derive(Clone, Copy, Debug, PartialEq, Eq, Error)]
pub enum PizFault {
    /// The two numbers of the value map, its bytes or the length of the Huffman block are not all there; or that length
    /// is negative, or more than the bytes that are left.
    #[error("the packed data is cut off")]
    Short,
    /// A number of the value map is above 8,191.
    #[error("the value map ends past its 8,192 bytes")]
    BadMap,
    /// The Huffman block does not unpack.
    #[error("{0}")]
    Huffman(HufFault),
}
