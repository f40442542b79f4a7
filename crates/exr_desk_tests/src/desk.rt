//! Files of three chunks, whose table entries are in falling order, by rising turn and as the chunks come.

ghost use Rattle.std.specs.Prelude.{◌≡◌, ◌<◌, [], IfOk, length};
ghost use Rattle.exr_desk.specs.File.{IsFront};

use crate::one_byte::OneByte;
use exr_base::Refusal;
use exr_desk::{
    Desk, DeskCause, DeskOpenStop, DeskStop, Front, Packed, Placed, TwiceChunk, WriteFault,
};
use exr_outside::{MemSink, Printer, Sink};
use std::alloc::{AllocError, Global};
use std::process::Abort;
use std::test::Fail;

const CHUNKS: [&[u8]; 3] = [b"aaa", b"b", b"cc"];

/// The front alone, the whole file, and the front with entries filled in.
const FRONT: &[u8] = b"hd\0\0\0\0\0\0\0\0\0\0\0\0\0\0\0\0\0\0\0\0\0\0\0\0";

const WHOLE: &[u8] = b"hd\x1e\0\0\0\0\0\0\0\x1d\0\0\0\0\0\0\0\x1a\0\0\0\0\0\0\0aaabcc";

/// The same with the chunks in the order 2, 0, 1.
const FREE: &[u8] = b"hd\x1a\0\0\0\0\0\0\0\x1f\0\0\0\0\0\0\0\x1c\0\0\0\0\0\0\0ccaaab";

/// What is put at which turn, and what each put answers: where the chunk is, or the word of a turn that has one.
type Puts = &'static [(u32, Result<Placed, u64>)];

struct Case {
    /// Whether chunks are written as they come.
    free: bool,
    /// The room of the sink, and its calls of `append` and of `write_at` that are to fail.
    room: usize,
    appends: &'static [u64],
    writes: &'static [u64],
    puts: Puts,
    /// How finishing ends, and what the sink holds then.
    end: Result<(), DeskCause>,
    held: &'static [u8],
}

const WAITS: Result<Placed, u64> = Ok(Placed::Waits { turn: 0 });

const WRITTEN: Result<Placed, u64> = Ok(Placed::Written);

const BROKEN: Result<Placed, u64> = Ok(Placed::Broken { faults: 1 });

const CASES: [Case; 10] = [
    // The last turn first, and a turn twice: while it waits, and when it was written.
    Case {
        free: false,
        room: 99,
        appends: &[],
        writes: &[],
        puts: &[
            (2, WAITS),
            (1, WAITS),
            (1, Err(2)),
            (0, WRITTEN),
            (0, Err(4)),
        ],
        end: Ok(()),
        held: WHOLE,
    },
    // In order.
    Case {
        free: false,
        room: 32,
        appends: &[],
        writes: &[],
        puts: &[(0, WRITTEN), (1, WRITTEN), (2, WRITTEN)],
        end: Ok(()),
        held: WHOLE,
    },
    // Turn 1 is missing.
    Case {
        free: false,
        room: 99,
        appends: &[],
        writes: &[],
        puts: &[(0, WRITTEN), (2, Ok(Placed::Waits { turn: 1 }))],
        end: Err(DeskCause::Missing { turn: 1 }),
        held: b"hd\0\0\0\0\0\0\0\0\0\0\0\0\0\0\0\0\0\0\0\0\0\0\0\0aaa",
    },
    // Nothing was put.
    Case {
        free: false,
        room: 99,
        appends: &[],
        writes: &[],
        puts: &[],
        end: Err(DeskCause::Missing { turn: 0 }),
        held: FRONT,
    },
    // The first chunk's append fails.
    Case {
        free: false,
        room: 99,
        appends: &[1],
        writes: &[],
        puts: &[
            (0, BROKEN),
            (0, Err(4)),
            (1, BROKEN),
            (1, Err(2)),
            (2, BROKEN),
        ],
        end: Err(DeskCause::WriteFault { at: 26 }),
        held: FRONT,
    },
    // Room for the front and two bytes of the first chunk.
    Case {
        free: false,
        room: 28,
        appends: &[],
        writes: &[],
        puts: &[(1, WAITS), (0, BROKEN), (2, BROKEN)],
        end: Err(DeskCause::WriteFault { at: 28 }),
        held: b"hd\0\0\0\0\0\0\0\0\0\0\0\0\0\0\0\0\0\0\0\0\0\0\0\0aa",
    },
    // The write of the tables fails.
    Case {
        free: false,
        room: 99,
        appends: &[],
        writes: &[0],
        puts: &[(1, WAITS), (0, WRITTEN), (2, WRITTEN)],
        end: Err(DeskCause::WriteFault { at: 32 }),
        held: b"hd\0\0\0\0\0\0\0\0\0\0\0\0\0\0\0\0\0\0\0\0\0\0\0\0aaabcc",
    },
    // As they come, and a turn twice.
    Case {
        free: true,
        room: 99,
        appends: &[],
        writes: &[],
        puts: &[(2, WRITTEN), (0, WRITTEN), (2, Err(4)), (1, WRITTEN)],
        end: Ok(()),
        held: FREE,
    },
    // As they come; turn 0 is missing.
    Case {
        free: true,
        room: 99,
        appends: &[],
        writes: &[],
        puts: &[(2, WRITTEN), (1, WRITTEN)],
        end: Err(DeskCause::Missing { turn: 0 }),
        held: b"hd\0\0\0\0\0\0\0\0\0\0\0\0\0\0\0\0\0\0\0\0\0\0\0\0ccb",
    },
    // As they come; the second chunk's append fails.
    Case {
        free: true,
        room: 99,
        appends: &[2],
        writes: &[],
        puts: &[
            (1, WRITTEN),
            (0, BROKEN),
            (2, BROKEN),
            (2, Err(2)),
            (0, Err(4)),
        ],
        end: Err(DeskCause::WriteFault { at: 27 }),
        held: b"hd\0\0\0\0\0\0\0\0\0\0\0\0\0\0\0\0\0\0\0\0\0\0\0\0b",
    },
];

/// A front of two bytes and a table of three entries, that of turn 0 the last.
fn front(alloc: Global, free: bool) -> Result<Front, AllocError>
    ensures { IfOk result (λ front. IsFront front.bytes.items front.entries.items × (length front.entries.items ≡ 3)) }
{
    let entries = vec![in alloc; 18u64, 10, 2]?;
    let mut bytes = vec![in alloc; 0u8; 26]?;
    bytes[0] = b'h';
    bytes[1] = b'd';
    Ok(Front {
        bytes,
        entries,
        free,
    })
}

/// A sink with room for some bytes, and the calls of `append` and of `write_at` that are to fail.
fn sink(alloc: Global, room: usize, appends: &[u64], writes: &[u64]) -> Result<MemSink, Fail>
    ensures { IfOk result (λ sink. sink.bytes ≡ []) }
{
    let appends = appends.to_vec(alloc)?;
    let writes = writes.to_vec(alloc)?;
    Ok(MemSink::new(alloc, "out", room, appends, writes)?)
}

/// Puts the chunk of a turn, and what the put answers: where it is, or the word of a turn that has one.
fn put_one<K: Sink>(
    alloc: Global,
    desk: &mut Desk<K>,
    turn: u32,
) -> Result<Result<Placed, u64>, Fail>
    requires turn { turn < 3 }
    requires turns { length desk.old.entries ≡ 3 }
    ensures turns { length desk.new.entries ≡ 3 }
{
    let bytes = CHUNKS[turn as usize].to_vec(alloc)?;
    if bytes.len() > 3 {
        return Err("a long chunk".into());
    }
    match desk.put(turn, Packed { bytes }) {
        Ok(placed) => Ok(Ok(placed)),
        Err(TwiceChunk { word, chunk }) => {
            if chunk.bytes.as_slice() != CHUNKS[turn as usize] {
                return Err("another chunk came back".into());
            }
            Ok(Err(word))
        }
    }
}

/// Puts chunks at their turns, and compares the answers.
fn put_all(rt: &impl Abort, alloc: Global, desk: &mut Desk<MemSink>, puts: Puts) -> Result<(), Fail>
    requires { length desk.old.entries ≡ 3 }
{
    for (turn, answer) in puts {
        let turn = *turn;
        assert!(rt; turn < 3);
        let placed = put_one(alloc, desk, turn)?;
        assert_eq!(rt; placed, *answer, "turn {turn}");
    }
    Ok(())
}

fn try_case(rt: &impl Abort, alloc: Global, case: &Case) -> Result<(), Fail> {
    let sink = sink(alloc, case.room, case.appends, case.writes)?;
    let mut desk = match Desk::open(alloc, front(alloc, case.free)?, sink) {
        Ok(desk) => desk,
        Err(DeskOpenStop { sink: _, cause: _ }) => return Err("not opened".into()),
    };
    let put = put_all(rt, alloc, &mut desk, case.puts);
    let (end, sink) = match desk.finish() {
        Ok(sink) => (Ok(()), sink),
        Err(DeskStop { sink, cause }) => (Err(cause), sink),
    };
    put?;
    assert_eq!(rt; end, case.end);
    assert_eq!(rt; sink.bytes(), case.held);
    Ok(())
}

#[test]
fn chunks_are_put_and_the_file_is_finished(rt: HostRuntime) -> Result<(), Fail> {
    for case in &CASES {
        try_case(&rt, rt.alloc(), case)?;
    }
    Ok(())
}

#[test]
fn a_front_that_is_not_written(rt: HostRuntime) -> Result<(), Fail> {
    let alloc = rt.alloc();
    for (room, at) in [(0, 0), (5, 5)] {
        let sink = sink(alloc, room, &[], &[])?;
        let (sink, cause) = match Desk::open(alloc, front(alloc, false)?, sink) {
            Ok(desk) => {
                match desk.finish() {
                    Ok(_sink) => {}
                    Err(DeskStop { sink: _, cause: _ }) => {}
                }
                return Err("opened".into());
            }
            Err(DeskOpenStop { sink, cause }) => (sink, cause),
        };
        assert_eq!(rt; cause, Refusal::Fault(WriteFault { at }));
        assert_eq!(rt; sink.bytes().len() as u64, at);
        assert_eq!(rt; sink.faults(), 1);
    }
    Ok(())
}

/// Puts the chunks from the last to the first.
fn put_falling<K: Sink>(alloc: Global, desk: &mut Desk<K>) -> Result<(), Fail>
    requires { length desk.old.entries ≡ 3 }
{
    let last = put_one(alloc, desk, 2)?;
    let second = put_one(alloc, desk, 1)?;
    let first = put_one(alloc, desk, 0)?;
    if last == WAITS && second == WAITS && first == WRITTEN {
        Ok(())
    } else {
        Err("another answer".into())
    }
}

/// What a sink that takes one byte a call holds in the end.
fn write_by_one_byte(alloc: Global) -> Result<OneByte, Fail> {
    let sink = OneByte {
        bytes: Vec::new(alloc),
        faults: 0,
    };
    let mut desk = match Desk::open(alloc, front(alloc, false)?, sink) {
        Ok(desk) => desk,
        Err(DeskOpenStop { sink: _, cause: _ }) => return Err("not opened".into()),
    };
    let put = put_falling(alloc, &mut desk);
    let end = match desk.finish() {
        Ok(sink) => Some(sink),
        Err(DeskStop { sink: _, cause: _ }) => None,
    };
    put?;
    match end {
        Some(sink) => Ok(sink),
        None => Err("not finished".into()),
    }
}

#[test]
fn a_sink_takes_one_byte_a_call(rt: HostRuntime) -> Result<(), Fail> {
    let sink = write_by_one_byte(rt.alloc())?;
    assert_eq!(rt; sink.bytes.as_slice(), WHOLE);
    assert_eq!(rt; sink.faults, 0);
    Ok(())
}
