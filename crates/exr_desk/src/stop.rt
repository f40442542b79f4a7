//! What a desk answers: where a chunk is now, and why a call was refused.

use crate::chunk::Packed;
use exr_base::Refusal;
use thiserror::Error;

/// Where a chunk is after it was put.
#[derive(Clone, Copy, Debug, PartialEq, Eq)]
pub enum Placed {
    /// It is in the sink, and so are those of all earlier turns.
    Written,
    /// It waits in memory, since this earlier turn has no chunk yet; it is the first of them.
    Waits { turn: u32 },
    /// It waits for good, since an append has failed: by so much, at least 1, the sink's count of failures has gone up
    /// since before the desk was opened.
    Broken { faults: u64 },
}

/// A chunk was put at a turn that has one already, and is given back. `word` is 4 where the first one was written, or its
/// write failed, and 2 where it waits.
#[derive(Debug, Drop, Error)]
#[error("a second chunk")]
pub struct TwiceChunk {
    pub word: u64,
    pub chunk: Packed,
}

/// A write failed. `at` is how many bytes were appended with success: the sink holds at least so many.
#[derive(Clone, Copy, Debug, PartialEq, Eq, Error)]
#[error("write failed after {at} bytes")]
pub struct WriteFault {
    pub at: u64,
}

/// A desk that could not be opened: its sink, and why.
#[derive(Debug)]
pub struct DeskOpenStop<K> {
    pub sink: K,
    pub cause: Refusal<WriteFault>,
}

/// Why a file could not be finished.
#[derive(Clone, Copy, Debug, PartialEq, Eq, Error)]
pub enum DeskCause {
    /// This turn never had a chunk; it is the first of them. Nothing was written in the call.
    #[error("no chunk at turn {turn}")]
    Missing { turn: u32 },
    /// A write failed, in this call or before; `at` is as in `WriteFault`.
    #[error("write failed after {at} bytes")]
    WriteFault { at: u64 },
}

/// A file that could not be finished: its sink, and why.
#[derive(Debug)]
pub struct DeskStop<K> {
    pub sink: K,
    pub cause: DeskCause,
}
