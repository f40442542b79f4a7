//! An open file of the system, with its name and a count of the calls on it that failed.

ghost use Rattle.std.specs.Prelude.{◌≡◌, IfOk, Ok};
ghost use Rattle.exr_outside.specs.Count.{HasCause};

use crate::counts::count_failure;
use exr_base::Failed;
use std::fs::File;
use std::io;

/// A file of the system under the name by which it was opened or created.
#[derive(Drop)]
pub struct SystemFile {
    pub(crate) file: File,
    pub(crate) name: String,
    pub(crate) faults: u64,
}

impl SystemFile {
    /// Before any failure.
    pub fn new(file: File, name: String) -> SystemFile
        ensures name { result.name ≡ name }
        ensures faults { result.faults ≡ 0 }
    {
        SystemFile {
            file,
            name,
            faults: 0,
        }
    }
}

/// What a call on the system answered; an error is a failure, which is counted.
pub fn answer_of<T>(answer: io::Result<T>, faults: &mut u64) -> Result<T, Failed>
    ensures value { IfOk result (λ value. answer ≡ Ok value) }
    ensures cause { HasCause faults.old faults.new result }
{
    match answer {
        Ok(value) => Ok(value),
        Err(_) => {
            count_failure(faults);
            Err(Failed)
        }
    }
}
