//! Why a chunk could not be fetched.

use exr_block::ChunkFault;
use thiserror::Error;

/// Why a chunk could not be fetched.
#[derive(Clone, Copy, Debug, PartialEq, Eq, Error)]
pub enum FetchFault {
    /// The source failed.
    #[error("read fault")]
    Read,
    /// The first thing that is wrong with the chunk.
    #[error("chunk fault: {0}")]
    Chunk(ChunkFault),
}
