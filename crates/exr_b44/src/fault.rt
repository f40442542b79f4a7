//! Why packed data could not be unpacked.

use thiserror::Error;

/// What is wrong with packed data (own).
#[derive(Clone, Copy, Debug, PartialEq, Eq, Error)]
pub enum B44Fault {
    /// The data ends before the last sample.
    #[error("the data ends before the last sample")]
    Short,
    /// Bytes are left after the last sample.
    #[error("bytes are left after the last sample")]
    Long,
}
