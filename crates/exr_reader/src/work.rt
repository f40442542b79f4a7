//! How a window is read, and where reading it stops.

ghost use Rattle.std.specs.Prelude.{◌≡◌};

use crate::cause::ReadCause;
use thiserror::Error;

/// How the chunks of a window are read (own).
#[derive(Clone, Copy, Debug, PartialEq, Eq)]
pub struct Work {
    /// How many threads unpack chunks, 1 to 16.
    pub workers: u32,
    /// How many chunks are judged before any of them is put, 1 to 16.
    pub round: u32,
}

/// Why a window could not be read, and how much of it was (own).
#[derive(Clone, Copy, Debug, PartialEq, Eq, Error)]
#[error("{cause}, after {rounds} rounds")]
pub struct ReadStop {
    pub cause: ReadCause,
    /// How many rounds of chunks were put before.
    pub rounds: u32,
}
