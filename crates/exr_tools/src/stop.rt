//! Why a command stopped, with its status and its line.

ghost use Rattle.std.specs.Prelude.{◌≡◌, IfOk, string_bytes};
ghost use Rattle.exr_tools.specs.declared.stop.Stop.TheVariants as stop;
ghost use Rattle.exr_tools.specs.Stops.{stop_of_words, stop_of_opening, stop_of_request};
ghost use Rattle.exr_tools.specs.Texts.{status_of, file_line_of, line_of};

use exr_attributes::HeaderFault;
use exr_base::{NoMemory, Refusal};
use exr_block::ChunkFault;
use exr_opening::OpenFault;
use exr_request::RequestFault;
use exr_words::WordFault;
use std::alloc::{AllocError, AllocFailed, Global};
use thiserror::Error;

/// What is wrong with a file.
#[derive(Clone, Copy, Debug, PartialEq, Eq, Error)]
pub enum FileFault {
    /// It begins with no head; the first fault from the front.
    #[error("head fault: {0}")]
    Head(HeaderFault),
    /// A chunk has a fault; the first one, by its index in its part.
    #[error("part {part}: chunk {index}: {fault}")]
    Chunk {
        part: u32,
        index: u32,
        fault: ChunkFault,
    },
}

/// Why a command stopped. The program prints its line on standard error and ends with its status.
#[derive(Clone, Copy, Debug, PartialEq, Eq, Error)]
pub enum Stop {
    /// Memory ran out.
    #[error("no memory")]
    NoMemory,
    /// The word at this position, counted from 0, is invalid; or a required one is missing after the last.
    #[error("word {position}")]
    Words { position: u32 },
    /// A file has a fault; files are counted from 0, in the order of the words.
    #[error("file {file}: {fault}")]
    File { file: u32, fault: FileFault },
    /// A file could not be opened or read.
    #[error("read fault")]
    Read,
    /// A file could not be created or written, or standard output could not.
    #[error("write fault")]
    Write,
    /// What is asked of a file cannot be had.
    #[error("request fault: {0}")]
    Request(RequestFault),
}

impl Stop {
    /// The status that the program ends with.
    pub fn status(&self) -> u8
        ensures { result ≡ status_of self.now }
    {
        match self {
            Stop::NoMemory => 1,
            Stop::Words { position: _ } => 2,
            Stop::File { file: _, fault: _ } => 3,
            Stop::Read => 4,
            Stop::Write => 5,
            Stop::Request(_) => 6,
        }
    }
}

/// The line that the program prints for a stop, with its line feed.
pub fn stop_line(alloc: Global, stop: &Stop) -> Result<Vec<u8>, NoMemory>
    ensures { IfOk result (λ line. line.items ≡ line_of stop.now) }
{
    let line = match stop {
        Stop::NoMemory => format!(in alloc; "exr: no memory\n")?,
        Stop::Words { position } => format!(in alloc; "exr: word {position}\n")?,
        Stop::File { file, fault } => file_line(alloc, *file, *fault)?,
        Stop::Read => format!(in alloc; "exr: read fault\n")?,
        Stop::Write => format!(in alloc; "exr: write fault\n")?,
        Stop::Request(fault) => {
            let number = fault.number();
            format!(in alloc; "exr: request fault {number}\n")?
        }
    };
    Ok(line.into_bytes())
}

/// The line of a fault of a file.
fn file_line(alloc: Global, file: u32, fault: FileFault) -> Result<String, NoMemory>
    ensures { IfOk result (λ line. string_bytes line ≡ file_line_of file fault) }
{
    match fault {
        FileFault::Head(fault) => {
            let number = fault.number();
            Ok(format!(in alloc; "exr: file {file} head fault {number}\n")?)
        }
        FileFault::Chunk { part, index, fault } => {
            let number = fault.number();
            Ok(format!(in alloc; "exr: file {file} part {part} chunk {index} fault {number}\n")?)
        }
    }
}

/// The stop of what opening an input is refused for; inputs are counted from 0.
pub(crate) fn opening_stop(file: u32, refusal: Refusal<OpenFault>) -> Stop
    ensures { result ≡ stop_of_opening file refusal }
{
    match refusal {
        Refusal::Fault(OpenFault::Read) => Stop::Read,
        Refusal::Fault(OpenFault::Head(fault)) => Stop::File {
            file,
            fault: FileFault::Head(fault),
        },
        Refusal::NoMemory => Stop::NoMemory,
    }
}

impl From<NoMemory> for Stop {
    ghost from_gives = { λ _ e. e ≡ stop.NoMemory };

    fn from(_error: NoMemory) -> Stop {
        Stop::NoMemory
    }
}

impl From<Refusal<WordFault>> for Stop {
    ghost from_gives = { λ refusal e. e ≡ stop_of_words refusal };

    fn from(refusal: Refusal<WordFault>) -> Stop {
        match refusal {
            Refusal::Fault(WordFault { position }) => Stop::Words { position },
            Refusal::NoMemory => Stop::NoMemory,
        }
    }
}

impl From<Refusal<RequestFault>> for Stop {
    ghost from_gives = { λ refusal e. e ≡ stop_of_request refusal };

    fn from(refusal: Refusal<RequestFault>) -> Stop {
        match refusal {
            Refusal::Fault(fault) => Stop::Request(fault),
            Refusal::NoMemory => Stop::NoMemory,
        }
    }
}

impl From<AllocError> for Stop {
    ghost from_gives = { λ _ e. e ≡ stop.NoMemory };

    fn from(_error: AllocError) -> Stop {
        Stop::NoMemory
    }
}

impl<X: Drop> From<AllocFailed<X>> for Stop {
    ghost from_gives = { λ _ e. e ≡ stop.NoMemory };

    fn from(_error: AllocFailed<X>) -> Stop {
        Stop::NoMemory
    }
}
