//! The objects in memory: which call fails, how much a call takes, and what is held then.

use super::{expect, source_of};
use exr_base::{Failed, NoMemory};
use exr_outside::{
    CutShort, Gate, MemSink, MemSource, PlainGate, Printer, Sink, Source, append_all, rise,
    write_all_at,
};
use std::alloc::Global;
use std::test::Fail;

/// A position, how many bytes are asked for, and those that are read, or that the call fails.
type Read = (u64, usize, Option<&'static str>);

const READS: &[Read] = &[
    (0, 3, Some("abc")),
    (1, 3, None),
    (1, 3, Some("bcd")),
    (2, 3, Some("cd")),
    (0, 0, None),
    (4, 3, Some("")),
    (u64::MAX, 3, Some("")),
    (0, 0, Some("")),
];

/// Whether the next read of a source gives these bytes, or fails.
fn reads_so(source: &mut MemSource, (pos, size, wanted): &Read) -> bool {
    let mut into = [b'.'; 3];
    let read = source.read_at(*pos, &mut into[..(*size).min(3)]);
    match wanted {
        Some(text) => read == Ok(text.len()) && into.starts_with(text.as_bytes()),
        None => read.is_err(),
    }
}

#[test]
fn a_source_reads_and_fails_where_named(rt: HostRuntime) -> Result<(), Fail> {
    let mut source = source_of(rt.alloc(), b"abcd", &[0], &[1, 4])?;
    expect(&rt, 0, source.len() == Err(Failed));
    expect(&rt, 1, source.len() == Ok(4));
    for (case, read) in READS.iter().enumerate() {
        expect(&rt, case, reads_so(&mut source, read));
    }
    expect(&rt, 3, source.faults() == 3 && source.name() == "in");
    Ok(())
}

/// A sink of five bytes whose calls of these numbers fail.
fn sink_of(alloc: Global, appends: &[u64], writes: &[u64]) -> Result<MemSink, NoMemory> {
    let appends = appends.to_vec(alloc)?;
    let writes = writes.to_vec(alloc)?;
    MemSink::new(alloc, "out", 5, appends, writes)
}

/// A piece that is appended, how much of it is taken, or that the call fails, and what is held then.
type Piece = (&'static str, Option<usize>, &'static str);

const PIECES: &[Piece] = &[
    ("abc", Some(3), "abc"),
    ("d", None, "abc"),
    ("def", Some(2), "abcde"),
    ("", Some(0), "abcde"),
    ("f", None, "abcde"),
];

/// Whether so much of a piece is taken, and this is held then.
fn takes_so(sink: &mut MemSink, (piece, taken, held): &Piece) -> bool {
    let found = sink.append(piece.as_bytes()).ok();
    found == *taken && sink.bytes() == held.as_bytes()
}

#[test]
fn a_sink_takes_what_it_has_room_for(rt: HostRuntime) -> Result<(), Fail> {
    let mut sink = sink_of(rt.alloc(), &[1], &[0])?;
    for (case, piece) in PIECES.iter().enumerate() {
        expect(&rt, case, takes_so(&mut sink, piece));
    }
    expect(&rt, 2, sink.faults() == 2 && sink.name() == "out");
    Ok(())
}

/// What a write over the middle of the five bytes answers, and what is held then.
const WRITES: &[(Result<(), CutShort>, &str)] = &[
    (Err(CutShort { taken: 0 }), "abcde"),
    (Ok(()), "aBCde"),
];

#[test]
fn whole_writes_are_cut_short(rt: HostRuntime) -> Result<(), Fail> {
    let mut sink = sink_of(rt.alloc(), &[], &[0])?;
    expect(&rt, 0, append_all(&mut sink, b"abc") == Ok(()));
    let short = Err(CutShort { taken: 2 });
    expect(&rt, 1, append_all(&mut sink, b"def") == short);
    for (case, (answer, held)) in WRITES.iter().enumerate() {
        assert!(rt; sink.bytes().len() == 5);
        let found = write_all_at(&mut sink, 1, b"BC");
        expect(
            &rt,
            case,
            found == *answer && sink.bytes() == held.as_bytes(),
        );
    }
    expect(&rt, 2, sink.faults() == 2);
    Ok(())
}

/// Two counts of failures, and by how much the count went up.
const COUNTS: &[(u64, u64, u64)] = &[
    (0, 0, 0),
    (3, 5, 2),
    (u64::MAX - 1, u64::MAX, 1),
    (u64::MAX, u64::MAX, 1),
];

#[test]
fn counts_and_gates(rt: HostRuntime) -> Result<(), Fail> {
    for (case, (before, now, more)) in COUNTS.iter().enumerate() {
        expect(&rt, case, rise(*before, *now) == *more);
    }
    PlainGate.pass(0, false);
    PlainGate.pass(0, true);
    let text = format!(in rt.alloc(); "{}", CutShort { taken: 2 })?;
    expect(&rt, 0, text.as_str() == "cut short after 2 bytes");
    Ok(())
}
