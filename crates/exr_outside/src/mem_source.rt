//! A source in memory, with a list of the calls that are to fail.

ghost use Rattle.std.specs.Prelude.{◌≡◌, ◌↔◌, ◌-◌, min, true, IsErr, IfOk, length};
ghost use Rattle.exr_outside.specs.Count.{HasCause};
ghost use Rattle.exr_outside.specs.Source.{ReadsPiece};
ghost use Rattle.exr_outside.specs.Fakes.{IsNamed, IsUnnamed, counted, faults_after, new_source};

use crate::Source;
use crate::calls::Calls;
use exr_base::{Failed, NoMemory};
use std::alloc::Global;
use std::marker::Model;

/// A source over bytes in memory, which contracts know. A call fails exactly where its number is listed, each kind of call
/// counted from 0.
#[derive(Drop)]
pub struct MemSource {
    name: String,
    bytes: Vec<u8>,
    len_calls: Calls,
    read_calls: Calls,
    faults: u64,
}

impl Model for MemSource {
    ghost use Rattle.std.specs.Prelude.{◌≡◌, string_bytes};
    ghost use Rattle.exr_outside.specs.Fakes.{MemSourceState, IsUnnamed};

    ghost Value = { MemSourceState };

    ghost view = { λ s. record {
      name = string_bytes s.name;
      bytes = s.bytes.items;
      len_calls = s.len_calls;
      read_calls = s.read_calls;
      faults = s.faults;
    } };

    ghost invariant = { λ s. IsUnnamed s.len_calls → IsUnnamed s.read_calls → s.faults ≡ 0 };
}

impl MemSource {
    /// A source of this name and these bytes; the lists name the calls of `len` and of `read_at` that are to fail.
    pub fn new(
        alloc: Global,
        name: &str,
        bytes: Vec<u8>,
        len_fails: Vec<u64>,
        read_fails: Vec<u64>,
    ) -> Result<MemSource, NoMemory>
        ensures { IfOk result (λ s. s ≡ new_source name.now bytes.items len_fails.items read_fails.items) }
    {
        Ok(MemSource {
            name: String::from_str(alloc, name)?,
            bytes,
            len_calls: Calls::new(len_fails),
            read_calls: Calls::new(read_fails),
            faults: 0,
        })
    }
}

impl Source for MemSource {
    ghost means = { record {
      tells = true;
      name = λ s. s.name;
      content = λ s. s.bytes;
      faults = λ s. s.faults;
    } };

    fn name(&self) -> &str {
        self.name.as_str()
    }

    fn len(&mut self) -> Result<u64, Failed>
        ensures fails { IsErr result ↔ IsNamed self.old.len_calls }
        ensures length { IfOk result (λ n. n ≡ length self.old.bytes) }
        ensures state { self.new ≡ record self.old {
          len_calls = counted self.old.len_calls;
          faults = faults_after result self.old.faults;
        } }
        ensures cause { HasCause self.old.faults self.new.faults result }
    {
        self.len_calls.make(&mut self.faults)?;
        Ok(self.bytes.len() as u64)
    }

    fn read_at(&mut self, pos: u64, into: &mut [u8]) -> Result<usize, Failed>
        ensures fails { IsErr result ↔ IsNamed self.old.read_calls }
        ensures piece { IfOk result (ReadsPiece self.old.bytes pos into.old into.new) }
        ensures whole { IfOk result (λ count. count ≡ min (length into.old) (length self.old.bytes - pos)) }
        ensures state { self.new ≡ record self.old {
          read_calls = counted self.old.read_calls;
          faults = faults_after result self.old.faults;
        } }
        ensures cause { HasCause self.old.faults self.new.faults result }
    {
        self.read_calls.make(&mut self.faults)?;
        let from = (pos as usize).min(self.bytes.len());
        let count = into.len().min(self.bytes.len() - from);
        into[..count].copy_from_slice(&self.bytes[from..from + count]);
        Ok(count)
    }

    fn faults(&self) -> u64
        ensures value { result ≡ self.now.faults }
        ensures unnamed { IsUnnamed self.now.len_calls → IsUnnamed self.now.read_calls → result ≡ 0 }
    {
        self.faults
    }
}
