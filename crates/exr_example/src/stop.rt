//! Why the example stopped.

use std::alloc::{AllocError, AllocFailed};

/// Why the program stopped.
#[derive(Clone, Copy, Debug, PartialEq, Eq)]
pub enum Stop {
    /// Memory ran out.
    NoMemory,
    /// No file was named.
    Words,
    /// The file could not be opened or read.
    Read,
    /// What the file begins with is no head.
    Head,
    /// The first part has no such pixels or samples, or is of a kind that is not read so far.
    Part,
    /// A chunk of the window has a fault.
    Chunk,
    /// The samples could not be printed.
    Print,
}

impl Stop {
    /// What the program says of it.
    pub fn text(self) -> &'static str {
        match self {
            Stop::NoMemory => "no memory\n",
            Stop::Words => "exr_example FILE\n",
            Stop::Read => "the file could not be read\n",
            Stop::Head => "not an OpenEXR file, or its head has a fault\n",
            Stop::Part => "the first part has no such samples\n",
            Stop::Chunk => "a chunk has a fault\n",
            Stop::Print => "standard output could not be written\n",
        }
    }
}

impl From<AllocError> for Stop {
    fn from(_error: AllocError) -> Stop {
        Stop::NoMemory
    }
}

impl<X: Drop> From<AllocFailed<X>> for Stop {
    fn from(_error: AllocFailed<X>) -> Stop {
        Stop::NoMemory
    }
}
