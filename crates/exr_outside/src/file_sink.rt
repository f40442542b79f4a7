//! Sinks over the system: a file, and standard output.

ghost use Rattle.std.specs.Prelude.{◌≡◌, ◌≤◌, [], false, IfOk, Ok, length, string_bytes};
ghost use Rattle.exr_outside.specs.Count.{HasCause};
ghost use Rattle.exr_outside.specs.Sink.{TakesSome};
ghost use Rattle.exr_outside.specs.Files.{IsNewSink};

use crate::counts::count_failure;
use crate::system_file::SystemFile;
use crate::{Printer, Sink};
use exr_base::Failed;
use std::fs::File;
use std::io;
use std::io::Write;
use std::os::unix::fs::FileExt;

// What a write of some bytes answers: an error of the system is a failure, and so is a write that takes nothing.
fn taken_of(written: io::Result<usize>, wanted: usize, faults: &mut u64) -> Result<usize, Failed>
    requires { IfOk written (λ count. count ≤ wanted) }
    ensures some { IfOk result (TakesSome wanted) }
    ensures cause { HasCause faults.old faults.new result }
{
    match written {
        Ok(count) if count > 0 || wanted == 0 => Ok(count),
        _ => {
            count_failure(faults);
            Err(Failed)
        }
    }
}

/// A file of the system that was created. What it holds is not known to contracts; each error of the system and each
/// write that took nothing is counted.
#[derive(Drop)]
pub struct FileSink {
    created: SystemFile,
}

impl FileSink {
    // The file of a name, as it was created.
    pub(crate) fn new(file: File, name: String) -> FileSink
        ensures { IsNewSink ⟦<FileSink as Printer>⟧.means (string_bytes name) result }
    {
        FileSink {
            created: SystemFile::new(file, name),
        }
    }
}

impl Printer for FileSink {
    ghost means = { record {
      tells = false;
      name = λ s. string_bytes s.created.name;
      holds = λ _. [];
      faults = λ s. s.created.faults;
    } };

    fn append(&mut self, bytes: &[u8]) -> Result<usize, Failed>
        // What the system is not asked.
        ensures nothing { length bytes.now ≡ 0 → result ≡ Ok 0 }
        ensures some { IfOk result (TakesSome (length bytes.now)) }
        ensures name { self.new.created.name ≡ self.old.created.name }
        ensures cause { HasCause self.old.created.faults self.new.created.faults result }
    {
        if bytes.is_empty() {
            return Ok(0);
        }
        let written = self.created.file.write(bytes);
        taken_of(written, bytes.len(), &mut self.created.faults)
    }

    fn faults(&self) -> u64 {
        self.created.faults
    }
}

impl Sink for FileSink {
    fn name(&self) -> &str {
        self.created.name.as_str()
    }

    fn write_at(&mut self, pos: u64, bytes: &[u8]) -> Result<usize, Failed>
        // What the system is not asked.
        ensures nothing { length bytes.now ≡ 0 → result ≡ Ok 0 }
        ensures some { IfOk result (TakesSome (length bytes.now)) }
        ensures name { self.new.created.name ≡ self.old.created.name }
        ensures cause { HasCause self.old.created.faults self.new.created.faults result }
    {
        if bytes.is_empty() {
            return Ok(0);
        }
        let written = self.created.file.write_at(bytes, pos);
        taken_of(written, bytes.len(), &mut self.created.faults)
    }
}

/// Standard output. It has no name, what it holds is not known to contracts, and failures are counted as for a file.
#[derive(Drop)]
pub struct OutSink<R: Print + Drop> {
    rt: R,
    faults: u64,
}

impl<R: Print + Drop> OutSink<R> {
    /// Standard output of this runtime, before any failure.
    pub fn new(rt: R) -> OutSink<R>
        ensures { IsNewSink ⟦<OutSink<R> as Printer>⟧.means [] result }
    {
        OutSink { rt, faults: 0 }
    }
}

impl<R: Print + Drop> Printer for OutSink<R> {
    ghost means = { record {
      tells = false;
      name = λ _. [];
      holds = λ _. [];
      faults = λ s. s.faults;
    } };

    fn append(&mut self, bytes: &[u8]) -> Result<usize, Failed>
        // What the system is not asked.
        ensures nothing { length bytes.now ≡ 0 → result ≡ Ok 0 }
        ensures some { IfOk result (TakesSome (length bytes.now)) }
        ensures cause { HasCause self.old.faults self.new.faults result }
    {
        if bytes.is_empty() {
            return Ok(0);
        }
        let written = io::writer(&self.rt).write(bytes);
        taken_of(written, bytes.len(), &mut self.faults)
    }

    fn faults(&self) -> u64 {
        self.faults
    }
}
