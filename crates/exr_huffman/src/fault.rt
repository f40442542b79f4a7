//! Why a block does not unpack.

use thiserror::Error;

/// The first thing that is wrong with a Huffman block, in the order of reading.
#[derive(Clone, Copy, Debug, PartialEq, Eq, Error)]
pub enum HufFault {
    /// The head of 20 bytes, the table or the data bits are not all there.
    #[error("the Huffman block is cut off")]
    Short,
    /// The least symbol is above the greatest, or the greatest is above 65,536.
    #[error("the Huffman block's symbols are out of range")]
    BadRange,
    /// The table's bytes do not spell a complete table of code lengths.
    #[error("the Huffman block's table is not complete")]
    BadTable,
    /// The first code is the run symbol's.
    #[error("the Huffman block begins with a run")]
    RunFirst,
    /// Bits are left when all words are there, or a run passes their number.
    #[error("the Huffman block has too many words")]
    TooMany,
    /// The bits end before all words are there.
    #[error("the Huffman block has too few words")]
    TooFew,
}
