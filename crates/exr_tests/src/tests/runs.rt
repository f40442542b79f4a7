//! One run of the top call over a file in memory, and what came of it.

ghost use Rattle.std.specs.Prelude.{◌<◌, ◌^◌, length};
ghost use Rattle.exr_outside.specs.Fakes.{named_files, AreOf};

use exr_base::NoMemory;
use exr_outside::{Fails, Files, MemFiles, MemSink, PlainGate, World, are_of_one_world};
use exr_tools::{Stop, run};
use std::alloc::{AllocError, Global};
use std::marker::Brand;
use std::process::Abort;
use std::test::Fail;
use std::thread::Threads;

/// A kind of call: of the set of files, of a file that is read, of one that is written, and of standard output.
#[derive(Clone, Copy)]
pub enum Call {
    Open,
    Create,
    Len,
    Read,
    Append,
    Print,
}

/// The call that is to fail: its kind, and its number among those of its kind, counted from 0.
pub type Failing = Option<(Call, u64)>;

/// How many bytes a file that is written has room for, and standard output.
pub const ROOM: usize = 1 << 12;

/// What came of a run: why it stopped if it did, what was written under `b`, what was printed, and the counts of failures.
#[derive(Drop)]
pub struct Outcome {
    pub stop: Option<Stop>,
    pub written: Option<Vec<u8>>,
    pub printed: Vec<u8>,
    pub read_faults: u64,
    pub write_faults: u64,
}

impl Outcome {
    /// Whether this is the stop, and nothing was created or printed.
    pub fn is_refused(&self, stop: Stop) -> bool {
        self.stop == Some(stop) && self.written.is_none() && self.printed.is_empty()
    }

    /// Whether the calls of reading and of writing failed so often.
    pub fn has_faults(&self, read: u64, write: u64) -> bool {
        self.read_faults == read && self.write_faults == write
    }
}

/// Ends the test where an answer is not that of its case. Cases are counted from 0.
pub fn expect(rt: &impl Abort, case: usize, is_right: bool) {
    assert!(rt; is_right, "case {case}");
}

/// The calls of the set of files and of its files that are to fail, and those of standard output.
fn fails_of(alloc: Global, failing: Failing) -> Result<(Fails, Vec<u64>), AllocError> {
    let mut fails = Fails {
        opens: Vec::new(alloc),
        creates: Vec::new(alloc),
        lens: Vec::new(alloc),
        reads: Vec::new(alloc),
        appends: Vec::new(alloc),
        writes: Vec::new(alloc),
    };
    let mut prints = Vec::new(alloc);
    if let Some((call, number)) = failing {
        match call {
            Call::Open => fails.opens.push(number)?,
            Call::Create => fails.creates.push(number)?,
            Call::Len => fails.lens.push(number)?,
            Call::Read => fails.reads.push(number)?,
            Call::Append => fails.appends.push(number)?,
            Call::Print => prints.push(number)?,
        }
    }
    Ok((fails, prints))
}

/// Runs the words over one file `a` of these bytes.
pub fn outcome_of(
    rt: &(impl Abort + Threads + Sync),
    alloc: Global,
    words: &[&str],
    bytes: &[u8],
    failing: Failing,
) -> Result<Outcome, Fail> {
    let mut texts = Vec::new(alloc);
    for word in words {
        texts.push(String::from_str(alloc, word)?)?;
    }
    let mut files = Vec::new(alloc);
    files.push((String::from_str(alloc, "a")?, bytes.to_vec(alloc)?))?;
    assert!(rt; are_of_one_world(&files));
    assert!(rt; texts.len() < 1 << 32);
    Ok(ran::<_, Brand>(rt, alloc, &texts, files, failing)?)
}

/// Extracts from a file of these bytes, with more words.
pub fn extracted(
    rt: &(impl Abort + Threads + Sync),
    alloc: Global,
    bytes: &[u8],
    more: &[&str],
    failing: Failing,
) -> Result<Outcome, Fail> {
    let mut words = Vec::new(alloc);
    words.extend_from_slice(&["extract", "in=a", "out=b"])?;
    words.extend_from_slice(more)?;
    outcome_of(rt, alloc, &words, bytes, failing)
}

fn ran<R: Threads + Sync, W: World>(
    rt: &R,
    alloc: Global,
    words: &[String],
    files: Vec<(String, Vec<u8>)>,
    failing: Failing,
) -> Result<Outcome, NoMemory>
    requires world { AreOf W.bytes_of (named_files files.items) }
    requires few { length words.now < 2 ^ 32 }
{
    let (fails, prints) = fails_of(alloc, failing)?;
    let mut files = MemFiles::<W>::new(alloc, files, ROOM, fails)?;
    let mut out = MemSink::new(alloc, "", ROOM, prints, Vec::new(alloc))?;
    let stop = run::<_, W, _, _, _>(rt, alloc, words, &mut files, &mut out, &PlainGate).err();
    let written = match files.kept("b") {
        Some(bytes) => Some(bytes.to_vec(alloc)?),
        None => None,
    };
    Ok(Outcome {
        stop,
        written,
        printed: out.bytes().to_vec(alloc)?,
        read_faults: files.read_faults(),
        write_faults: files.write_faults(),
    })
}
