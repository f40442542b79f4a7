//! Why samples could not be read.

ghost use Rattle.std.specs.Prelude.{◌≡◌};
ghost use Rattle.exr_reader.specs.declared.cause.ReadCause.TheVariants as cause;

use exr_base::NoMemory;
use exr_block::ChunkFault;
use std::alloc::{AllocError, AllocFailed};
use thiserror::Error;

/// Why samples could not be read.
#[derive(Clone, Copy, Debug, PartialEq, Eq, Error)]
pub enum ReadCause {
    /// Memory ran out.
    #[error("no memory")]
    NoMemory,
    /// The source failed.
    #[error("read fault")]
    Read,
    /// The first chunk, by its index, that has a fault.
    #[error("chunk {index}: {fault}")]
    Chunk { index: u32, fault: ChunkFault },
}

impl From<AllocError> for ReadCause {
    ghost from_gives = { λ _ e. e ≡ cause.NoMemory };

    fn from(_error: AllocError) -> ReadCause {
        ReadCause::NoMemory
    }
}

impl From<NoMemory> for ReadCause {
    ghost from_gives = { λ _ e. e ≡ cause.NoMemory };

    fn from(_error: NoMemory) -> ReadCause {
        ReadCause::NoMemory
    }
}

impl<X: Drop> From<AllocFailed<X>> for ReadCause {
    ghost from_gives = { λ _ e. e ≡ cause.NoMemory };

    fn from(_error: AllocFailed<X>) -> ReadCause {
        ReadCause::NoMemory
    }
}
