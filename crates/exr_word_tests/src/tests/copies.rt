//! A copy of one file to another over the traits alone, as a command works: which call fails, and what is kept then.

ghost use Rattle.exr_outside.specs.Fakes.{named_files, AreOf};

use super::expect;
use exr_base::{Failed, Refusal};
use exr_outside::{
    CutShort, Fails, Files, MemFiles, World, append_all, are_of_one_world, read_all,
};
use std::alloc::Global;
use std::marker::Brand;
use std::process::Abort;
use std::test::Fail;

/// All bytes of a file, which is opened and given back.
fn input<W: World, F: Files<W>>(
    alloc: Global,
    files: &mut F,
    name: &str,
) -> Result<Vec<u8>, Refusal<Failed>> {
    let mut source = files.open(name)?;
    let bytes = read_all(alloc, &mut source);
    files.back_in(source);
    bytes
}

/// Creates a file with these bytes, and gives it back.
fn output<W: World, F: Files<W>>(
    files: &mut F,
    name: &str,
    bytes: &[u8],
) -> Result<(), Refusal<Failed>> {
    let mut sink = files.create(name)?;
    let done = append_all(&mut sink, bytes);
    files.back_out(sink);
    match done {
        Ok(()) => Ok(()),
        Err(CutShort { .. }) => Err(Refusal::Fault(Failed)),
    }
}

/// Copies a file.
pub fn copy<W: World, F: Files<W>>(
    alloc: Global,
    files: &mut F,
    from: &str,
    to: &str,
) -> Result<(), Refusal<Failed>> {
    let bytes = input::<W, F>(alloc, files, from)?;
    output::<W, F>(files, to, &bytes)
}

/// The numbers of the calls that are to fail: of open, create, len, read and append.
type Named = [&'static [u64]; 5];

const NONE: Named = [&[], &[], &[], &[], &[]];

const OPEN: Named = [&[0], &[], &[], &[], &[]];

const CREATE: Named = [&[], &[0], &[], &[], &[]];

const LEN: Named = [&[], &[], &[0], &[], &[]];

const READ: Named = [&[], &[], &[], &[0], &[]];

const APPEND: Named = [&[], &[], &[], &[], &[0]];

const LATER: Named = [&[1], &[1], &[1], &[1], &[1]];

/// The file that is copied, the room of the other, the calls that are to fail, how often reading and writing failed, and
/// what is kept.
type Case = (&'static str, usize, Named, u64, u64, Option<&'static str>);

const CASES: &[Case] = &[
    ("in", 5, NONE, 0, 0, Some("bytes")),
    ("in", 9, LATER, 0, 0, Some("bytes")),
    ("empty", 0, APPEND, 0, 0, Some("")),
    ("missing", 9, NONE, 1, 0, None),
    ("in", 9, OPEN, 1, 0, None),
    ("in", 9, LEN, 1, 0, None),
    ("in", 9, READ, 1, 0, None),
    ("in", 9, CREATE, 0, 1, None),
    ("in", 9, APPEND, 0, 1, Some("")),
    ("in", 3, NONE, 0, 1, Some("byt")),
    ("in", 0, NONE, 0, 1, Some("")),
];

/// The calls that are to fail.
fn fails_of(alloc: Global, named: Named) -> Result<Fails, Fail> {
    let [opens, creates, lens, reads, appends] = named;
    Ok(Fails {
        opens: opens.to_vec(alloc)?,
        creates: creates.to_vec(alloc)?,
        lens: lens.to_vec(alloc)?,
        reads: reads.to_vec(alloc)?,
        appends: appends.to_vec(alloc)?,
        writes: Vec::new(alloc),
    })
}

/// Files of these names and bytes.
fn files_of(alloc: Global, files: &[(&str, &str)]) -> Result<Vec<(String, Vec<u8>)>, Fail> {
    let mut all = Vec::new(alloc);
    for (name, bytes) in files {
        all.push((
            String::from_str(alloc, name)?,
            bytes.as_bytes().to_vec(alloc)?,
        ))?;
    }
    Ok(all)
}

/// What comes of a copy of one of two files.
#[derive(Drop)]
struct Outcome {
    done: bool,
    read_faults: u64,
    write_faults: u64,
    kept: Option<Vec<u8>>,
}

/// Copies one of these files.
fn copied<W: World>(
    alloc: Global,
    files: Vec<(String, Vec<u8>)>,
    from: String,
    room: usize,
    fails: Fails,
) -> Result<Outcome, Fail>
    requires { AreOf W.bytes_of (named_files files.items) }
{
    let mut files = MemFiles::<W>::new(alloc, files, room, fails)?;
    let answer = copy::<W, _>(alloc, &mut files, from.as_str(), "out");
    let kept = match files.kept("out") {
        Some(bytes) => Some(bytes.to_vec(alloc)?),
        None => None,
    };
    Ok(Outcome {
        done: answer.is_ok(),
        read_faults: files.read_faults(),
        write_faults: files.write_faults(),
        kept,
    })
}

/// Copies one of two files in memory.
fn outcome_of(
    rt: &impl Abort,
    alloc: Global,
    from: &str,
    room: usize,
    named: Named,
) -> Result<Outcome, Fail> {
    let fails = fails_of(alloc, named)?;
    let mut files = Vec::new(alloc);
    files.push((String::from_str(alloc, "in")?, b"bytes".to_vec(alloc)?))?;
    files.push((String::from_str(alloc, "empty")?, Vec::new(alloc)))?;
    assert!(rt; are_of_one_world(&files));
    copied::<Brand>(alloc, files, String::from_str(alloc, from)?, room, fails)
}

/// Whether a copy failed so often in reading and in writing, and kept this.
fn is_outcome(outcome: &Outcome, read_faults: u64, write_faults: u64, kept: Option<&str>) -> bool {
    let is_kept = match (&outcome.kept, kept) {
        (Some(bytes), Some(text)) => bytes.as_slice() == text.as_bytes(),
        (None, None) => true,
        _ => false,
    };
    is_kept
        && outcome.read_faults == read_faults
        && outcome.write_faults == write_faults
        && outcome.done == (read_faults == 0 && write_faults == 0)
}

#[test]
fn copies_in_memory(rt: HostRuntime) -> Result<(), Fail> {
    for (case, (from, room, named, read_faults, write_faults, kept)) in CASES.iter().enumerate() {
        let outcome = outcome_of(&rt, rt.alloc(), from, *room, *named)?;
        expect(
            &rt,
            case,
            is_outcome(&outcome, *read_faults, *write_faults, *kept),
        );
    }
    Ok(())
}

/// Two files by their names and bytes, and whether they are of one world.
const WORLDS: &[(&[(&str, &str)], bool)] = &[
    (&[("a", "x"), ("b", "x")], true),
    (&[("a", "x"), ("a", "x")], true),
    (&[("a", "x"), ("a", "y")], false),
    (&[("a", ""), ("a", "y")], false),
];

#[test]
fn files_of_one_world(rt: HostRuntime) -> Result<(), Fail> {
    for (case, (files, are)) in WORLDS.iter().enumerate() {
        let files = files_of(rt.alloc(), files)?;
        expect(&rt, case, are_of_one_world(&files) == *are);
    }
    Ok(())
}
