//! A sink in memory, with room for a number of bytes and lists of the calls that are to fail.

ghost use Rattle.std.specs.Prelude.{◌≡◌, ◌↔◌, ◌⊎◌, ◌+◌, ◌-◌, ◌<◌, ◌≤◌, ◌∷◌, ◌++◌, min, true, IsErr, IfOk, OnOk, OnErr, length, take};
ghost use Rattle.exr_outside.specs.Count.{HasCause};
ghost use Rattle.exr_outside.specs.Sink.{replaced, ReplacesPrefix};
ghost use Rattle.exr_outside.specs.Fakes.{IsNamed, IsUnnamed, counted, faults_after, new_sink};

use crate::calls::Calls;
use crate::counts::count_failure;
use crate::shelf::{Shelf, shelve};
use crate::{Printer, Sink};
use exr_base::{Failed, NoMemory};
use std::alloc::Global;
use std::marker::Model;

/// A sink in memory; contracts know what it holds. A call fails exactly where its number is listed, each kind of call
/// counted from 0, and an `append` of some bytes also where the room is used up.
#[derive(Drop)]
pub struct MemSink {
    name: String,
    bytes: Vec<u8>,
    room: usize,
    append_calls: Calls,
    write_calls: Calls,
    faults: u64,
    shelf: Box<Shelf>,
}

impl Model for MemSink {
    ghost use Rattle.std.specs.Prelude.{◌<◌, ◌≤◌, string_bytes, vec_capacity, vec_len};
    ghost use Rattle.exr_outside.specs.Fakes.{MemSinkState, IsUnnamed};

    ghost Value = { MemSinkState };

    ghost view = { λ s. record {
      name = string_bytes s.name;
      bytes = s.bytes.items;
      room = s.room;
      append_calls = s.append_calls;
      write_calls = s.write_calls;
      faults = s.faults;
    } };

    ghost invariant = { λ s. (vec_len s.bytes ≤ s.room)
        × (s.room ≤ vec_capacity s.bytes)
        × (IsUnnamed s.append_calls → IsUnnamed s.write_calls → 0 < s.faults → s.room ≤ vec_len s.bytes) };
}

impl MemSink {
    ghost use Rattle.exr_outside.specs.Shelf.{shelved, shelved_in};

    /// A sink of this name that holds nothing, with room for `room` bytes; the lists name the calls of `append` and
    /// of `write_at` that are to fail.
    pub fn new(
        alloc: Global,
        name: &str,
        room: usize,
        append_fails: Vec<u64>,
        write_fails: Vec<u64>,
    ) -> Result<MemSink, NoMemory>
        ensures { IfOk result (λ s. s ≡ new_sink name.now room append_fails.items write_fails.items) }
    {
        let shelf = Shelf {
            name: String::new(alloc),
            bytes: Vec::new(alloc),
            before: None,
        };
        Ok(MemSink {
            name: String::from_str(alloc, name)?,
            bytes: Vec::with_capacity(alloc, room)?,
            room,
            append_calls: Calls::new(append_fails),
            write_calls: Calls::new(write_fails),
            faults: 0,
            shelf: Box::new(alloc, shelf)?,
        })
    }

    /// What it holds.
    pub fn bytes(&self) -> &[u8]
        ensures { result.now ≡ self.now.bytes }
    {
        &self.bytes
    }

    // Its box, with its name and what it held, in front of what was kept before.
    pub(crate) fn into_shelf(self, before: Option<Box<Shelf>>) -> Box<Shelf>
        ensures { shelved result.value ≡ (self.name, self.bytes) ∷ shelved_in before }
    {
        let MemSink {
            name,
            bytes,
            room: _,
            append_calls: _,
            write_calls: _,
            faults: _,
            shelf,
        } = self;
        shelve(shelf, name, bytes, before)
    }
}

impl Printer for MemSink {
    ghost means = { record {
      tells = true;
      name = λ s. s.name;
      holds = λ s. s.bytes;
      faults = λ s. s.faults;
    } };

    fn append(&mut self, bytes: &[u8]) -> Result<usize, Failed>
        ensures fails { IsErr result
            ↔ (IsNamed self.old.append_calls ⊎ ((0 < length bytes.now) × (self.old.room ≤ length self.old.bytes))) }
        ensures added { IfOk result (λ count. self.new.bytes ≡ self.old.bytes ++ take count bytes.now) }
        ensures whole { IfOk result (λ count. count ≡ min (length bytes.now) (self.old.room - length self.old.bytes)) }
        ensures failed { OnErr result (self.new.bytes ≡ self.old.bytes) }
        ensures state { self.new ≡ record self.old {
          bytes = self.new.bytes;
          append_calls = counted self.old.append_calls;
          faults = faults_after result self.old.faults;
        } }
        ensures cause { HasCause self.old.faults self.new.faults result }
    {
        let named = self.append_calls.is_next_named();
        let count = bytes.len().min(self.room - self.bytes.len());
        if named || (count == 0 && !bytes.is_empty()) {
            count_failure(&mut self.faults);
            return Err(Failed);
        }
        self.bytes.extend_from_slice(&bytes[..count]).unwrap();
        Ok(count)
    }

    fn faults(&self) -> u64
        ensures value { result ≡ self.now.faults }
        ensures unnamed { IsUnnamed self.now.append_calls → IsUnnamed self.now.write_calls
            → 0 < result → self.now.room ≤ length self.now.bytes }
    {
        self.faults
    }
}

impl Sink for MemSink {
    fn name(&self) -> &str {
        self.name.as_str()
    }

    fn write_at(&mut self, pos: u64, bytes: &[u8]) -> Result<usize, Failed>
        requires { pos + length bytes.now ≤ length self.old.bytes }
        ensures fails { IsErr result ↔ IsNamed self.old.write_calls }
        ensures replaced { OnOk result (self.new.bytes ≡ replaced pos bytes.now self.old.bytes) }
        ensures whole { IfOk result (λ count. count ≡ length bytes.now) }
        ensures part { OnErr result (ReplacesPrefix pos bytes.now self.old.bytes self.new.bytes) }
        ensures failed { OnErr result (self.new.bytes ≡ self.old.bytes) }
        ensures state { self.new ≡ record self.old {
          bytes = self.new.bytes;
          write_calls = counted self.old.write_calls;
          faults = faults_after result self.old.faults;
        } }
        ensures cause { HasCause self.old.faults self.new.faults result }
    {
        self.write_calls.make(&mut self.faults)?;
        let from = pos as usize;
        self.bytes[from..from + bytes.len()].copy_from_slice(bytes);
        Ok(bytes.len())
    }
}
