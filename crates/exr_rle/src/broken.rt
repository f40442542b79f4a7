//! Why packed data could not be unpacked.

use thiserror::Error;

/// The packed data is not a list of whole runs and literals that give exactly the raw number of bytes.
#[derive(Clone, Copy, Debug, PartialEq, Eq, Error)]
#[error("the run lengths do not give the raw data")]
pub struct RleBroken;
