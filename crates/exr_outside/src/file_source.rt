//! A source over a file of the system.

ghost use Rattle.std.specs.Prelude.{◌≡◌, ◌≤◌, ◌^◌, [], false, IfOk, Ok, length, string_bytes};
ghost use Rattle.exr_outside.specs.Count.{HasCause};
ghost use Rattle.exr_outside.specs.Source.{IsSameSource};
ghost use Rattle.exr_outside.specs.Files.{IsNewSource};

use crate::Source;
use crate::system_file::{SystemFile, answer_of};
use exr_base::Failed;
use std::fs::File;
use std::os::unix::fs::FileExt;

// The system takes offsets below this one.
const END_OF_OFFSETS: u64 = 1 << 63;

/// An open file of the system. What it holds is not known to contracts; each error that the system answers is counted.
#[derive(Drop)]
pub struct FileSource {
    opened: SystemFile,
}

impl FileSource {
    // The file of a name, as it was opened.
    pub(crate) fn new(file: File, name: String) -> FileSource
        ensures { IsNewSource ⟦<FileSource as Source>⟧.means (string_bytes name) result }
    {
        FileSource {
            opened: SystemFile::new(file, name),
        }
    }
}

impl Source for FileSource {
    ghost means = { record {
      tells = false;
      name = λ s. string_bytes s.opened.name;
      content = λ _. [];
      faults = λ s. s.opened.faults;
    } };

    fn name(&self) -> &str {
        self.opened.name.as_str()
    }

    fn len(&mut self) -> Result<u64, Failed> {
        let metadata = answer_of(self.opened.file.metadata(), &mut self.opened.faults)?;
        Ok(metadata.len())
    }

    fn read_at(&mut self, pos: u64, into: &mut [u8]) -> Result<usize, Failed>
        // What the system is not asked.
        ensures nothing { length into.old ≡ 0 → result ≡ Ok 0 }
        ensures past { 2 ^ 63 ≤ pos → result ≡ Ok 0 }
        ensures bound { IfOk result (λ count. count ≤ length into.old) }
        ensures same { IsSameSource ⟦<FileSource as Source>⟧.means self.old self.new }
        ensures cause { HasCause self.old.opened.faults self.new.opened.faults result }
    {
        if into.is_empty() || pos >= END_OF_OFFSETS {
            return Ok(0);
        }
        answer_of(self.opened.file.read_at(into, pos), &mut self.opened.faults)
    }

    fn faults(&self) -> u64 {
        self.opened.faults
    }
}
