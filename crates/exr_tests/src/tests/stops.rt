//! The words, the calls that fail, and the statuses and lines of stops.

use super::deep::TWO_DEEP;
use super::files::{File, ONE, PARTS, TILES, bytes_of};
use super::methods::ZEROS;
use super::runs::{Call, Outcome, ROOM, expect, extracted, outcome_of};
use exr_attributes::HeaderFault;
use exr_block::ChunkFault;
use exr_tools::{FileFault, RequestFault, Stop, stop_line};
use std::process::Abort;
use std::test::Fail;
use std::thread::Threads;

/// Words, and the position of the first that is invalid or missing.
const WORDS: &[(&[&str], u32)] = &[
    (&[], 0),
    (&["extract"], 1),
    (&["extract", "in=a"], 2),
    (&["extract", "out=b"], 2),
    (&["extract", "in=a", "out="], 2),
    (&["extract", "in=", "out=b"], 1),
    (&["extract", "in=a", "in=a"], 2),
    (&["extract", "in=a", "out=b", "out=b"], 3),
    (&["extract", "in=a", "out=b", "part="], 3),
    (&["extract", "part=4294967296", "in=a", "out=b"], 1),
    (&["extract", "in=a", "out=b", "workers=0"], 3),
    (&["extract", "in=a", "out=b", "workers=17"], 3),
    (&["extract", "window=0,0,0", "in=a", "out=b"], 1),
    (&["extract", "in=a", "pad=65536", "out=b"], 2),
    (&["extract", "in=a", "out=b", "byte=256"], 3),
    (&["extract", "in=a", "out=b", "layout=rows"], 3),
    (&["extract", "in=a", "out=b", "channels=A,,B"], 3),
    (&["extract", "in=a", "out=b", "channels=A:double"], 3),
    (&["Extract", "in=a", "out=b"], 0),
    (&["--help"], 0),
    (&["in=a", "out=b"], 0),
    (&["header"], 1),
    (&["header", "in=a", "out=b"], 2),
];

#[test]
fn words(rt: HostRuntime) -> Result<(), Fail> {
    let bytes = bytes_of(rt.alloc(), &ONE)?;
    for (case, (words, position)) in WORDS.iter().enumerate() {
        let got = outcome_of(&rt, rt.alloc(), words, &bytes, None)?;
        let position = *position;
        expect(&rt, case, got.is_refused(Stop::Words { position }));
    }
    Ok(())
}

/// Names of files that are not there.
const MISSING: &[&[&str]] = &[
    &["extract", "in=c", "out=b"],
    &["extract", "in=in=a", "out=b"],
];

#[test]
fn missing_files(rt: HostRuntime) -> Result<(), Fail> {
    let bytes = bytes_of(rt.alloc(), &ONE)?;
    for (case, words) in MISSING.iter().enumerate() {
        let got = outcome_of(&rt, rt.alloc(), words, &bytes, None)?;
        expect(
            &rt,
            case,
            got.stop == Some(Stop::Read) && got.has_faults(1, 0),
        );
    }
    Ok(())
}

/// Whether a file was begun and not finished: what it holds is a beginning of the whole, and less.
fn is_begun(written: Option<&[u8]>, whole: Option<&[u8]>) -> bool {
    match (written, whole) {
        (Some(written), Some(whole)) => {
            written.len() < whole.len() && whole.starts_with(written)
        }
        _ => false,
    }
}

/// Whether a run stopped since a call of this kind failed: its count has gone up, and nothing is printed. What was written is
/// a beginning of what a run without failures writes, if it writes a file.
fn is_stop_of(call: Call, got: &Outcome, whole: Option<&[u8]>) -> bool {
    let written = got.written.as_deref();
    let (stop, read, write, is_kept) = match call {
        Call::Open | Call::Len | Call::Read => (Stop::Read, 1, 0, written.is_none()),
        Call::Create => (Stop::Write, 0, 1, written.is_none()),
        Call::Append => (Stop::Write, 0, 1, is_begun(written, whole)),
        Call::Print => (Stop::Write, 0, 0, written == whole),
    };
    got.printed.is_empty() && got.stop == Some(stop) && got.has_faults(read, write) && is_kept
}

/// Lets a call fail, and says whether it was made: then the run stops for it.
fn stops_at(
    rt: &(impl Abort + AllocGlobal + Threads + Sync),
    words: &[&str],
    bytes: &[u8],
    call: Call,
    number: u64,
    whole: Option<&[u8]>,
) -> Result<bool, Fail> {
    let got = outcome_of(rt, rt.alloc(), words, bytes, Some((call, number)))?;
    let is_made = got.stop.is_some();
    let is_right = if is_made {
        is_stop_of(call, &got, whole)
    } else {
        got.written.as_deref() == whole && !got.printed.is_empty()
    };
    assert!(rt; is_right, "call {number}");
    Ok(is_made)
}

/// How many calls of a kind a run makes, each of which stops the run where it fails.
fn count_of(
    rt: &(impl Abort + AllocGlobal + Threads + Sync),
    words: &[&str],
    bytes: &[u8],
    call: Call,
    whole: Option<&[u8]>,
) -> Result<u64, Fail> {
    for number in 0..1000 {
        if !stops_at(rt, words, bytes, call, number, whole)? {
            return Ok(number);
        }
    }
    Err("fewer calls")?
}

/// The kinds of calls, each with how often `extract` makes it at least.
const CALLS: [(Call, u64); 6] = [
    (Call::Open, 1),
    (Call::Create, 1),
    (Call::Len, 1),
    (Call::Read, 2),
    (Call::Append, 1),
    (Call::Print, 1),
];

/// The same of `check`, which creates nothing.
const OF_CHECK: [(Call, u64); 4] = [
    (Call::Open, 1),
    (Call::Len, 1),
    (Call::Read, 2),
    (Call::Print, 1),
];

/// The files whose calls fail in turn.
const FILES: &[File] = &[ONE, TILES, ZEROS, PARTS, TWO_DEEP];

/// The words of `extract`.
const EXTRACT: &[&str] = &["extract", "in=a", "out=b"];

#[test]
fn calls_that_fail(rt: HostRuntime) -> Result<(), Fail> {
    for file in FILES {
        let bytes = bytes_of(rt.alloc(), file)?;
        let whole = extracted(&rt, rt.alloc(), &bytes, &[], None)?
            .written
            .ok_or("a file")?;
        for (call, least) in CALLS {
            let count = count_of(&rt, EXTRACT, &bytes, call, Some(&whole))?;
            assert!(rt; count >= least);
        }
    }
    Ok(())
}

#[test]
fn calls_of_check_that_fail(rt: HostRuntime) -> Result<(), Fail> {
    for file in FILES {
        let bytes = bytes_of(rt.alloc(), file)?;
        for (call, least) in OF_CHECK {
            let count = count_of(&rt, &["check", "in=a"], &bytes, call, None)?;
            assert!(rt; count >= least);
        }
    }
    Ok(())
}

// Where the room of the file that is written is used up, a beginning of the samples stands in it.
#[test]
fn no_room(rt: HostRuntime) -> Result<(), Fail> {
    let bytes = bytes_of(rt.alloc(), &ONE)?;
    let got = extracted(&rt, rt.alloc(), &bytes, &["pad=5000"], None)?;
    assert!(rt; got.stop == Some(Stop::Write) && got.has_faults(0, 1) && got.printed.is_empty());
    let written = got.written.ok_or("a file")?;
    assert!(rt; written.len() == ROOM && written.starts_with(b"\0<\0\0"));
    Ok(())
}

/// Calls of `header` that fail, and the stop.
const OF_HEADER: [(Call, Stop); 4] = [
    (Call::Open, Stop::Read),
    (Call::Len, Stop::Read),
    (Call::Read, Stop::Read),
    (Call::Print, Stop::Write),
];

#[test]
fn calls_of_header_that_fail(rt: HostRuntime) -> Result<(), Fail> {
    let bytes = bytes_of(rt.alloc(), &ONE)?;
    for (case, (call, stop)) in OF_HEADER.iter().enumerate() {
        let failing = Some((*call, 0));
        let got = outcome_of(&rt, rt.alloc(), &["header", "in=a"], &bytes, failing)?;
        expect(&rt, case, got.stop == Some(*stop) && got.printed.is_empty());
    }
    Ok(())
}

/// Stops, with their statuses and lines.
const LINES: [(Stop, u8, &str); 7] = [
    (Stop::NoMemory, 1, "exr: no memory\n"),
    (Stop::Words { position: 2 }, 2, "exr: word 2\n"),
    (
        Stop::File {
            file: 0,
            fault: FileFault::Head(HeaderFault::BadMagic),
        },
        3,
        "exr: file 0 head fault 5\n",
    ),
    (
        Stop::File {
            file: 0,
            fault: FileFault::Chunk {
                part: 1,
                index: 7,
                fault: ChunkFault::Rle,
            },
        },
        3,
        "exr: file 0 part 1 chunk 7 fault 6\n",
    ),
    (Stop::Read, 4, "exr: read fault\n"),
    (Stop::Write, 5, "exr: write fault\n"),
    (
        Stop::Request(RequestFault::TooLarge),
        6,
        "exr: request fault 6\n",
    ),
];

#[test]
fn lines(rt: HostRuntime) -> Result<(), Fail> {
    for (case, (stop, status, line)) in LINES.iter().enumerate() {
        let found = stop_line(rt.alloc(), stop)?;
        let is_right = stop.status() == *status && found.as_slice() == line.as_bytes();
        expect(&rt, case, is_right);
    }
    Ok(())
}
