//! The files of the system by name.

ghost use Rattle.std.specs.Prelude.{◌≡◌, [], false, IfOk};
ghost use Rattle.exr_outside.specs.Count.{CountsFailure, CountsReturn};
ghost use Rattle.exr_outside.specs.Files.{IsNewSource, IsNewSink};

use crate::counts::{count_failure, count_refusal};
use crate::file_sink::FileSink;
use crate::file_source::FileSource;
use crate::{Files, Printer, RealWorld, Source};
use exr_base::{Failed, Refusal};
use std::alloc::Global;
use std::fs::File;

/// The files of the system, reached by a runtime. What they hold is not known to contracts; each error of the system is a
/// failure.
#[derive(Drop)]
pub struct RealFiles<R: std::rt::Files<File = File> + Drop> {
    rt: R,
    alloc: Global,
    read_faults: u64,
    write_faults: u64,
}

impl<R: std::rt::Files<File = File> + Drop> RealFiles<R> {
    /// The files of this runtime, before any failure.
    pub fn new(rt: R, alloc: Global) -> RealFiles<R>
        ensures read_faults { ⟦<RealFiles<R> as Files<RealWorld>>⟧.means.read_faults result ≡ 0 }
        ensures write_faults { ⟦<RealFiles<R> as Files<RealWorld>>⟧.means.write_faults result ≡ 0 }
    {
        RealFiles {
            rt,
            alloc,
            read_faults: 0,
            write_faults: 0,
        }
    }
}

impl<R: std::rt::Files<File = File> + Drop> Files<RealWorld> for RealFiles<R> {
    type In = FileSource;

    type Out = FileSink;

    ghost means = { record {
      tells = false;
      kept = λ _. [];
      opened = λ _. [];
      created = λ _. [];
      read_faults = λ f. f.read_faults;
      write_faults = λ f. f.write_faults;
    } };

    fn open(&mut self, name: &str) -> Result<FileSource, Refusal<Failed>> {
        let own_name = String::from_str(self.alloc, name)?;
        match File::open(&self.rt, name) {
            Ok(file) => Ok(FileSource::new(file, own_name)),
            Err(_) => {
                count_failure(&mut self.read_faults);
                Err(Refusal::Fault(Failed))
            }
        }
    }

    fn create(&mut self, name: &str) -> Result<FileSink, Refusal<Failed>> {
        let own_name = String::from_str(self.alloc, name)?;
        match File::create(&self.rt, name) {
            Ok(file) => Ok(FileSink::new(file, own_name)),
            Err(_) => {
                count_failure(&mut self.write_faults);
                Err(Refusal::Fault(Failed))
            }
        }
    }

    fn back_in(&mut self, source: FileSource) {
        if source.faults() > 0 {
            count_failure(&mut self.read_faults);
        }
    }

    fn back_out(&mut self, sink: FileSink) {
        if sink.faults() > 0 {
            count_failure(&mut self.write_faults);
        }
    }

    fn read_faults(&self) -> u64 {
        self.read_faults
    }

    fn write_faults(&self) -> u64 {
        self.write_faults
    }
}
