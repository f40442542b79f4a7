//! What can be wrong with a chunk.

ghost use Rattle.std.specs.Prelude.{◌≡◌};
ghost use Rattle.exr_block.specs.Fault.{number_of};

use exr_b44::B44Fault;
use exr_base::Method;
use exr_deep::DeepFault;
use exr_piz::PizFault;
use thiserror::Error;

/// What is wrong with a chunk, in the order in which it is looked at (own).
#[derive(Clone, Copy, Debug, PartialEq, Eq, Error)]
pub enum ChunkFault {
    /// Its entry in the offset table is 0: it was never written.
    #[error("unwritten")]
    Unwritten,
    /// Its entry, its fields or its data do not lie in the file.
    #[error("outside of the file")]
    Outside,
    /// Its fields name another chunk than the entry is for.
    #[error("another chunk's place")]
    WrongPlace,
    /// Its data is larger than its raw data, or, without compression, of another size. In a deep chunk this holds of the
    /// table and of the samples; more than 2^26 bytes of samples unpacked is a wrong size too.
    #[error("wrong size")]
    WrongSize,
    /// Its data is packed by a method that is not read.
    #[error("unsupported method {}", .method.number())]
    Unsupported { method: Method },
    /// Its data is not the spelling of runs and literals that stand for the raw number of bytes.
    #[error("broken run lengths")]
    Rle,
    /// Its data does not unpack by PIZ.
    #[error("PIZ: {0}")]
    Piz(PizFault),
    /// Its data is not that of the cells and samples of the region.
    #[error("B44: {0}")]
    B44(B44Fault),
    /// The data of a deep chunk is not that of a number of samples for each pixel, and of the samples.
    #[error("deep: {0}")]
    Deep(DeepFault),
}

impl ChunkFault {
    /// The number by which the program names the fault, 1 to 9 (own).
    pub fn number(self) -> u8
        ensures { result ≡ number_of self }
    {
        match self {
            ChunkFault::Unwritten => 1,
            ChunkFault::Outside => 2,
            ChunkFault::WrongPlace => 3,
            ChunkFault::WrongSize => 4,
            ChunkFault::Unsupported { method: _ } => 5,
            ChunkFault::Rle => 6,
            ChunkFault::Piz(_) => 7,
            ChunkFault::B44(_) => 8,
            ChunkFault::Deep(_) => 9,
        }
    }
}
