//! Whole files that were damaged: `check` and `extract` have to agree on the same bytes.

ghost use Rattle.exr_outside.specs.Fakes.{named_files, AreOf};

use crate::picture::{check_words, command, extract_words};
use exr_base::NoMemory;
use exr_block::ChunkFault;
use exr_outside::{Fails, MemFiles, MemSink, World, are_of_one_world};
use exr_tools::{FileFault, Stop};
use std::alloc::Global;
use std::marker::Brand;
use std::thread::Threads;

/// Files below this number of bytes are changed in every way; in others single bits are changed.
const CHANGED_WHOLLY: usize = 1000;

/// How many bytes the output has room for, and standard output.
const ROOM: usize = 1 << 12;

/// How many prefixes and changes of a file were tried, and how often the two commands did not agree.
#[derive(Clone, Copy, Drop)]
pub struct Tally {
    pub prefixes: u64,
    pub changes: u64,
    pub other: u64,
}

/// The words of both commands.
#[derive(Drop)]
struct Commands {
    check: Vec<String>,
    extract: Vec<String>,
}

/// What came of a command: why it stopped if it did, whether it printed, and whether there is an output.
#[derive(Clone, Copy, Drop)]
struct Answer {
    stop: Option<Stop>,
    printed: bool,
    made: bool,
}

/// Tries each prefix of a file, and the file with one byte, or one bit, changed.
pub fn damaged_whole<R: Threads + Sync>(
    rt: &R,
    alloc: Global,
    bytes: &[u8],
) -> Result<Tally, Stop> {
    let commands = Commands {
        check: check_words(alloc, "a")?,
        extract: extract_words(alloc, "a", "b", "")?,
    };
    let mut tally = Tally {
        prefixes: 0,
        changes: 0,
        other: 0,
    };
    for place in 0..bytes.len() {
        tally.prefixes = tally.prefixes.wrapping_add(1);
        let prefix = Vec::from_slice(alloc, &bytes[..place])?;
        compare(rt, alloc, &commands, prefix, &mut tally.other)?;
        change(rt, alloc, &commands, bytes, place, &mut tally)?;
    }
    Ok(tally)
}

/// Tries a file with the byte of a place changed.
fn change<R: Threads + Sync>(
    rt: &R,
    alloc: Global,
    commands: &Commands,
    bytes: &[u8],
    place: usize,
    tally: &mut Tally,
) -> Result<(), Stop> {
    for bits in 1..=255u8 {
        if bytes.len() >= CHANGED_WHOLLY && bits.count_ones() != 1 {
            continue;
        }
        let mut changed = Vec::from_slice(alloc, bytes)?;
        if let Some(byte) = changed.get_mut(place) {
            *byte ^= bits;
        }
        tally.changes = tally.changes.wrapping_add(1);
        compare(rt, alloc, commands, changed, &mut tally.other)?;
    }
    Ok(())
}

/// Runs both commands on a file of these bytes, and counts where they do not agree.
fn compare<R: Threads + Sync>(
    rt: &R,
    alloc: Global,
    commands: &Commands,
    bytes: Vec<u8>,
    other: &mut u64,
) -> Result<(), Stop> {
    let mut files = Vec::new(alloc);
    files.push((String::from_str(alloc, "a")?, bytes))?;
    if !are_of_one_world(&files) {
        return Err(Stop::Read);
    }
    if !ran::<_, Brand>(rt, alloc, commands, files)? {
        *other = other.wrapping_add(1);
    }
    Ok(())
}

/// Runs both commands on files in memory, and answers whether they agree.
fn ran<R: Threads + Sync, W: World>(
    rt: &R,
    alloc: Global,
    commands: &Commands,
    files: Vec<(String, Vec<u8>)>,
) -> Result<bool, NoMemory>
    requires { AreOf W.bytes_of (named_files files.items) }
{
    let fails = Fails {
        opens: Vec::new(alloc),
        creates: Vec::new(alloc),
        lens: Vec::new(alloc),
        reads: Vec::new(alloc),
        appends: Vec::new(alloc),
        writes: Vec::new(alloc),
    };
    let mut files = MemFiles::<W>::new(alloc, files, ROOM, fails)?;
    let checked = answer_to(rt, alloc, &commands.check, &mut files)?;
    let extracted = answer_to(rt, alloc, &commands.extract, &mut files)?;
    Ok(
        is_clean(&checked)
            && is_clean(&extracted)
            && !checked.made
            && agree(checked.stop, extracted.stop),
    )
}

/// Runs the command of some words.
fn answer_to<R: Threads + Sync, W: World>(
    rt: &R,
    alloc: Global,
    words: &[String],
    files: &mut MemFiles<W>,
) -> Result<Answer, NoMemory> {
    let mut out = MemSink::new(alloc, "", ROOM, Vec::new(alloc), Vec::new(alloc))?;
    let stop = command::<R, W, MemFiles<W>, MemSink>(rt, alloc, words, files, &mut out).err();
    Ok(Answer {
        stop,
        printed: !out.bytes().is_empty(),
        made: files.kept("b").is_some(),
    })
}

/// Whether a command that stopped left nothing, and another one printed.
fn is_clean(answer: &Answer) -> bool {
    match answer.stop {
        Some(_) => !answer.printed && !answer.made,
        None => answer.printed,
    }
}

/// Whether `check` and `extract` of the first part may stop so on the same bytes.
fn agree(checked: Option<Stop>, extracted: Option<Stop>) -> bool {
    if is_head_fault(checked) {
        return checked == extracted;
    }
    match extracted {
        None => passes(checked, 1, 0),
        Some(
            Stop::File {
                file: _,
                fault: FileFault::Chunk { part, index, fault },
            },
        ) => match fault {
            ChunkFault::Unsupported { method: _ } => passes(checked, part, index.saturating_add(1)),
            _ => checked == extracted,
        },
        Some(Stop::Request(_)) => passes(checked, 0, 0),
        Some(_) => false,
    }
}

/// Whether a stop is a fault of the head.
fn is_head_fault(stop: Option<Stop>) -> bool {
    match stop {
        Some(
            Stop::File {
                file: _,
                fault: FileFault::Head(_),
            },
        ) => true,
        _ => false,
    }
}

/// Whether `check` found no fault before a chunk.
fn passes(checked: Option<Stop>, from_part: u32, from_index: u32) -> bool {
    match checked {
        None => true,
        Some(
            Stop::File {
                file: _,
                fault: FileFault::Chunk {
                    part,
                    index,
                    fault: _,
                },
            },
        ) => part > from_part || (part == from_part && index >= from_index),
        Some(_) => false,
    }
}
