//! Files in memory: what there is to open, which calls are to fail, and all that was asked and given back.

ghost use Rattle.std.specs.Prelude.{◌≡◌, ◌↔◌, ◌⊎◌, IsTrue, ◌+◌, ◌++◌, [], ◌∷◌, map, true, IsNone, IfOk, OnOk, OnErr, Some, All, option_map, reverse, string_bytes};
ghost use Rattle.exr_outside.specs.Count.{CountsFailure, CountsReturn};
ghost use Rattle.exr_outside.specs.Files.{NotesName};
ghost use Rattle.exr_outside.specs.Fakes.{IsNamed, counted, FailsWhere, failures_after, named_files, AreOf, bytes_under, file_of, new_source, new_sink};

use crate::calls::Calls;
use crate::counts::{count_failure, count_refusal};
use crate::shelf::{Shelf, find_kept};
use crate::{Files, MemSink, MemSource, Printer, Source, World};
use exr_base::{Failed, NoMemory, Refusal};
use std::alloc::Global;
use std::marker::{Model, PhantomData};

/// The numbers of the calls that are to fail, each kind counted from 0: those of `open` and `create`, and those of
/// each source and each sink.
#[derive(Drop)]
pub struct Fails {
    pub opens: Vec<u64>,
    pub creates: Vec<u64>,
    pub lens: Vec<u64>,
    pub reads: Vec<u64>,
    pub appends: Vec<u64>,
    pub writes: Vec<u64>,
}

/// Files in memory; contracts know what was asked for and given back. A call fails exactly where its number is listed, and
/// an `open` also where there is no such name.
#[derive(Drop)]
pub struct MemFiles<W: World> {
    alloc: Global,
    files: Vec<(String, Vec<u8>)>,
    room: usize,
    open_calls: Calls,
    create_calls: Calls,
    lens: Vec<u64>,
    reads: Vec<u64>,
    appends: Vec<u64>,
    writes: Vec<u64>,
    opened: Vec<String>,
    created: Vec<String>,
    kept: Option<Box<Shelf>>,
    read_faults: u64,
    write_faults: u64,
    world: PhantomData<W>,
}

impl<W: World> Model for MemFiles<W> {
    ghost use Rattle.std.specs.Prelude.{map, reverse, string_bytes};
    ghost use Rattle.exr_outside.specs.Fakes.{MemFilesState, AreOf, named_files};
    ghost use Rattle.exr_outside.specs.Shelf.{shelved_in};

    ghost Value = { MemFilesState };

    ghost view = { λ f. record {
      files = named_files f.files.items;
      room = f.room;
      open_calls = f.open_calls;
      create_calls = f.create_calls;
      lens = f.lens.items;
      reads = f.reads.items;
      appends = f.appends.items;
      writes = f.writes.items;
      opened = map string_bytes f.opened.items;
      created = map string_bytes f.created.items;
      kept = reverse (shelved_in f.kept);
      read_faults = f.read_faults;
      write_faults = f.write_faults;
    } };

    ghost invariant = { λ f. AreOf W.bytes_of (named_files f.files.items) };
}

// Adds a name to those asked.
fn note(alloc: Global, names: &mut Vec<String>, name: &str) -> Result<(), NoMemory>
    ensures ok { OnOk result (map string_bytes names.new.items ≡ map string_bytes names.old.items ++ name.now ∷ []) }
    ensures err { OnErr result (map string_bytes names.new.items ≡ map string_bytes names.old.items) }
{
    names.push(String::from_str(alloc, name)?)?;
    Ok(())
}

// The bytes of the first file of a name.
fn find_file<'a>(files: &'a [(String, Vec<u8>)], name: &str) -> Option<&'a [u8]>
    ensures { option_map (λ bytes. bytes.now) result
        ≡ file_of (named_files files.now) name.now }
{
    for (file_name, bytes) in files {
        if file_name.as_str() == name {
            return Some(bytes);
        }
    }
    None
}

// Whether the first file of the name has these bytes.
fn is_found(files: &[(String, Vec<u8>)], name: &str, bytes: &[u8]) -> bool
    ensures { IsTrue result ↔ (bytes.now ≡ bytes_under (named_files files.now) name.now) }
{
    match find_file(files, name) {
        Some(found) => bytes == found,
        None => bytes.is_empty(),
    }
}

/// Whether each file is the one that is found under its name, as where their names are distinct. Then there is a world
/// of which they are, the one that gives what is found.
pub fn are_of_one_world(files: &[(String, Vec<u8>)]) -> bool
    ensures { IsTrue result ↔ AreOf (bytes_under (named_files files.now)) (named_files files.now) }
{
    for (name, bytes) in files {
        if !is_found(files, name.as_str(), bytes) {
            return false;
        }
    }
    true
}

// A new source over the first file of a name; it fails just where there is none.
fn source_of(
    alloc: Global,
    files: &[(String, Vec<u8>)],
    name: &str,
    lens: &[u64],
    reads: &[u64],
) -> Result<MemSource, Refusal<Failed>>
    ensures fails { FailsWhere result (IsNone (file_of (named_files files.now) name.now)) }
    ensures found { IfOk result (λ source. file_of (named_files files.now) name.now ≡ Some source.bytes) }
    ensures fresh { IfOk result (λ source. source ≡ new_source name.now source.bytes lens.now reads.now) }
{
    let Some(bytes) = find_file(files, name) else {
        return Err(Refusal::Fault(Failed));
    };
    let bytes = Vec::from_slice(alloc, bytes)?;
    let lens = Vec::from_slice(alloc, lens)?;
    let reads = Vec::from_slice(alloc, reads)?;
    Ok(MemSource::new(alloc, name, bytes, lens, reads)?)
}

// A new sink.
fn sink_of(
    alloc: Global,
    name: &str,
    room: usize,
    appends: &[u64],
    writes: &[u64],
) -> Result<MemSink, NoMemory>
    ensures { IfOk result (λ sink. sink ≡ new_sink name.now room appends.now writes.now) }
{
    let appends = Vec::from_slice(alloc, appends)?;
    let writes = Vec::from_slice(alloc, writes)?;
    MemSink::new(alloc, name, room, appends, writes)
}

impl<W: World> MemFiles<W> {
    /// Files with these names and bytes to open, of which W knows. Each sink has this room.
    pub fn new(
        alloc: Global,
        files: Vec<(String, Vec<u8>)>,
        room: usize,
        fails: Fails,
    ) -> Result<MemFiles<W>, NoMemory>
        requires { AreOf W.bytes_of (named_files files.items) }
        ensures { IfOk result (λ f. f ≡ record {
          files = named_files files.items;
          room = room;
          open_calls = record { fails = fails.opens.items; made = 0 };
          create_calls = record { fails = fails.creates.items; made = 0 };
          lens = fails.lens.items;
          reads = fails.reads.items;
          appends = fails.appends.items;
          writes = fails.writes.items;
          opened = [];
          created = [];
          kept = [];
          read_faults = 0;
          write_faults = 0;
        }) }
    {
        let Fails {
            opens,
            creates,
            lens,
            reads,
            appends,
            writes,
        } = fails;
        Ok(MemFiles {
            alloc,
            files,
            room,
            open_calls: Calls::new(opens),
            create_calls: Calls::new(creates),
            lens,
            reads,
            appends,
            writes,
            opened: Vec::new(alloc),
            created: Vec::new(alloc),
            kept: None,
            read_faults: 0,
            write_faults: 0,
            world: PhantomData,
        })
    }

    /// What the sink of this name held that was given back last, or None where none was.
    pub fn kept(&self, name: &str) -> Option<&[u8]>
        ensures { option_map (λ bytes. bytes.now) result ≡ file_of (reverse self.now.kept) name.now }
    {
        find_kept(&self.kept, name)
    }
}

impl<W: World> Files<W> for MemFiles<W> {
    type In = MemSource;

    type Out = MemSink;

    ghost means = { record {
      tells = true;
      kept = λ f. f.kept;
      opened = λ f. f.opened;
      created = λ f. f.created;
      read_faults = λ f. f.read_faults;
      write_faults = λ f. f.write_faults;
    } };

    fn open(&mut self, name: &str) -> Result<MemSource, Refusal<Failed>>
        ensures fails { FailsWhere result
            (IsNamed self.old.open_calls ⊎ IsNone (file_of self.old.files name.now)) }
        ensures found { IfOk result (λ source. file_of self.old.files name.now ≡ Some source.bytes) }
        ensures fresh { IfOk result (λ source.
            source ≡ new_source name.now source.bytes self.old.lens self.old.reads) }
        ensures content { IfOk result (λ source. source.bytes ≡ W.bytes_of name.now) }
        ensures asked { NotesName result name.now self.old.opened self.new.opened }
        ensures state { self.new ≡ record self.old {
          open_calls = counted self.old.open_calls;
          opened = self.new.opened;
          read_faults = failures_after result self.old.read_faults;
        } }
        ensures cause { CountsFailure self.old.read_faults self.new.read_faults result }
    {
        let named = self.open_calls.is_next_named();
        note(self.alloc, &mut self.opened, name)?;
        let source = if named {
            Err(Refusal::Fault(Failed))
        } else {
            source_of(self.alloc, &self.files, name, &self.lens, &self.reads)
        };
        count_refusal(&mut self.read_faults, &source);
        source
    }

    fn create(&mut self, name: &str) -> Result<MemSink, Refusal<Failed>>
        ensures fails { FailsWhere result (IsNamed self.old.create_calls) }
        ensures fresh { IfOk result (λ sink.
            sink ≡ new_sink name.now self.old.room self.old.appends self.old.writes) }
        ensures asked { NotesName result name.now self.old.created self.new.created }
        ensures state { self.new ≡ record self.old {
          create_calls = counted self.old.create_calls;
          created = self.new.created;
          write_faults = failures_after result self.old.write_faults;
        } }
        ensures cause { CountsFailure self.old.write_faults self.new.write_faults result }
    {
        let named = self.create_calls.is_next_named();
        note(self.alloc, &mut self.created, name)?;
        if named {
            count_failure(&mut self.write_faults);
            return Err(Refusal::Fault(Failed));
        }
        Ok(sink_of(self.alloc, name, self.room, &self.appends, &self.writes)?)
    }

    fn back_in(&mut self, source: MemSource)
        ensures state { self.new ≡ record self.old { read_faults = self.new.read_faults } }
        ensures cause { CountsReturn source.faults self.old.read_faults self.new.read_faults }
    {
        if source.faults() > 0 {
            count_failure(&mut self.read_faults);
        }
    }

    fn back_out(&mut self, sink: MemSink)
        ensures state { self.new ≡ record self.old {
          kept = self.old.kept ++ (sink.name, sink.bytes) ∷ [];
          write_faults = self.new.write_faults;
        } }
        ensures cause { CountsReturn sink.faults self.old.write_faults self.new.write_faults }
    {
        if sink.faults() > 0 {
            count_failure(&mut self.write_faults);
        }
        self.kept = Some(sink.into_shelf(self.kept.take()));
    }

    fn read_faults(&self) -> u64 {
        self.read_faults
    }

    fn write_faults(&self) -> u64 {
        self.write_faults
    }
}
