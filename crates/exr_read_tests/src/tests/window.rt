//! Windows of small files: the rounds in which they are read, where reading stops and what is put before, which chunks are
//! looked at, and what the gate is told of them.

ghost use Rattle.exr_asked.specs.Demand.{demand_of, IsModest};

use super::asked::{ALL, Request, asked_of};
use super::expect;
use super::stream::source_of;
use exr_asked::Asked;
use exr_base::NoMemory;
use exr_block::ChunkFault;
use exr_fixtures::{ONE_PIXEL, Picture, file_of, line_chunk, single_head, tile_chunk};
use exr_layout::match_part;
use exr_outside::{Gate, MemSource};
use exr_reader::{ReadCause, ReadStop, Work, read_window};
use exr_request::{Granted, request};
use exr_stream::{OpenStop, Stream};
use std::alloc::Global;
use std::marker::Brand;
use std::sync::atomic::{AtomicU64, Ordering};
use std::test::Fail;
use std::thread::Threads;

// ---- what the gate is told

/// A gate that keeps a checksum of what it is told.
#[derive(Drop)]
struct Teller {
    told: AtomicU64,
}

impl Gate for Teller {
    fn pass(&self, job: u32, done: bool) {
        let told = self.told.load(Ordering::SeqCst);
        self.told.store(and_told(told, job, done), Ordering::SeqCst);
    }
}

/// The checksum of what a gate was told, and of one thing more.
fn and_told(told: u64, job: u32, done: bool) -> u64 {
    told.wrapping_mul(31)
        .wrapping_add(u64::from(job).wrapping_mul(2))
        .wrapping_add(if done { 3 } else { 2 })
}

/// The checksum of so many jobs from a first one on, of which each is done before the next one begins.
fn told_of(first: u32, count: u32) -> u64 {
    let mut told = 0;
    for job in first..first.saturating_add(count) {
        told = and_told(told, job, false);
        told = and_told(told, job, true);
    }
    told
}

// ---- reading

/// What came of reading a window: why it stopped if it did, the buffer, whose bytes began as 0xee, and what the gate was
/// told.
#[derive(Drop)]
struct Outcome {
    stop: Option<ReadStop>,
    buffer: Vec<u8>,
    told: u64,
}

/// Reads what is asked of the first part of an open file.
fn read_stream<R: Threads + Sync>(
    rt: &R,
    alloc: Global,
    stream: &mut Stream<Brand, MemSource>,
    asked: &Asked,
    round: u32,
) -> Result<Outcome, Fail>
    requires { IsModest (demand_of asked.now) }
{
    if stream.head().parts().is_empty() || round == 0 {
        return Err("no part".into());
    }
    let Ok(Granted::Flat(granted)) = request(alloc, stream.head(), asked) else {
        return Err("refused".into());
    };
    let part = stream.header(0);
    if part.kind().is_deep() {
        return Err("a deep part".into());
    }
    let Ok(plan) = match_part(alloc, &granted.layout, part) else {
        return Err("no match".into());
    };
    let mut buffer = vec![in alloc; 0xeeu8; granted.layout.buffer() as usize]?;
    let gate = Teller {
        told: AtomicU64::new(0),
    };
    let stop = read_window(
        rt,
        alloc,
        stream,
        0,
        &granted.layout,
        &plan,
        Work { workers: 1, round },
        &gate,
        buffer.as_mut_slice(),
    )
    .err();
    Ok(Outcome {
        stop,
        buffer,
        told: gate.told.load(Ordering::SeqCst),
    })
}

/// The same of a file, one of whose reads fails.
fn outcome_of<R: Threads + Sync>(
    rt: &R,
    alloc: Global,
    bytes: Vec<u8>,
    failing: u64,
    request: &Request,
    round: u32,
) -> Result<Outcome, Fail> {
    let asked = asked_of(alloc, request)?;
    let source = source_of(alloc, bytes, &[failing])?;
    match Stream::<Brand, MemSource>::open(alloc, source) {
        Ok(mut stream) => {
            let outcome = read_stream(rt, alloc, &mut stream, &asked, round);
            let _source = stream.into_source();
            outcome
        }
        Err(
            OpenStop {
                source: _source,
                cause: _cause,
            },
        ) => Err("not opened".into()),
    }
}

/// Whether reading stopped so, left these bytes, and told this.
fn is_outcome(got: &Outcome, stop: Option<ReadStop>, buffer: &[u8], told: u64) -> bool {
    got.stop == stop && got.buffer.as_slice() == buffer && got.told == told
}

// ---- lines

/// What is wrong with the chunk of one line.
#[derive(Clone, Copy)]
enum Flaw {
    None,
    /// It says that it is the line below.
    Misplaced(u8),
    /// It has this data.
    Broken(u8, &'static [u8]),
}

/// A file of twenty lines of one pixel under RLE, lines of it that are read, and what comes of that.
#[derive(Clone, Copy)]
struct Case {
    /// The column of the pixels and the line of the first one.
    corner: (i32, i32),
    flaw: Flaw,
    /// The chunk whose read fails.
    failing: u64,
    /// The first and the last line that are read, counted from the first one.
    lines: (u8, u8),
    /// Whether a byte follows each line of the buffer.
    padded: bool,
    round: u32,
    stop: Option<ReadStop>,
    /// How many lines are put.
    put: usize,
    /// How many chunks are looked at.
    seen: u32,
}

/// All lines, in rounds of 16.
const WHOLE: Case = Case {
    corner: (0, 0),
    flaw: Flaw::None,
    failing: 100,
    lines: (0, 19),
    padded: false,
    round: 16,
    stop: None,
    put: 20,
    seen: 20,
};

/// The eighteenth line says that it is another one.
const MISPLACED: Case = Case {
    flaw: Flaw::Misplaced(17),
    stop: Some(ReadStop {
        cause: WRONG_PLACE,
        rounds: 1,
    }),
    put: 16,
    seen: 18,
    ..WHOLE
};

const WRONG_PLACE: ReadCause = ReadCause::Chunk {
    index: 17,
    fault: ChunkFault::WrongPlace,
};

/// Three lines in rounds of two, with a byte after each.
const THREE: Case = Case {
    lines: (3, 5),
    padded: true,
    round: 2,
    put: 3,
    seen: 3,
    ..WHOLE
};

const FAR: i32 = 1 << 30;

const CASES: &[Case] = &[
    WHOLE,
    Case { round: 1, ..WHOLE },
    Case { round: 3, ..WHOLE },
    // at the greatest and the least coordinates
    Case {
        corner: (FAR, FAR - 19),
        ..WHOLE
    },
    Case {
        corner: (-FAR, -FAR),
        round: 3,
        ..WHOLE
    },
    Case {
        corner: (FAR, -FAR),
        lines: (19, 19),
        put: 1,
        seen: 1,
        ..WHOLE
    },
    Case {
        corner: (-FAR, FAR - 19),
        lines: (19, 19),
        round: 1,
        put: 1,
        seen: 1,
        ..WHOLE
    },
    // chunks that the window does not meet are not looked at, and bytes after each line stay
    THREE,
    Case {
        flaw: Flaw::Misplaced(2),
        ..THREE
    },
    Case {
        flaw: Flaw::Misplaced(6),
        ..THREE
    },
    // a round is judged whole before any of it is put
    MISPLACED,
    Case {
        round: 1,
        stop: Some(ReadStop {
            cause: WRONG_PLACE,
            rounds: 17,
        }),
        put: 17,
        ..MISPLACED
    },
    Case {
        round: 3,
        stop: Some(ReadStop {
            cause: WRONG_PLACE,
            rounds: 5,
        }),
        put: 15,
        ..MISPLACED
    },
    Case {
        round: 5,
        stop: Some(ReadStop {
            cause: WRONG_PLACE,
            rounds: 3,
        }),
        put: 15,
        ..MISPLACED
    },
    Case {
        flaw: Flaw::Broken(4, b"\x02"),
        round: 2,
        stop: Some(ReadStop {
            cause: ReadCause::Chunk {
                index: 4,
                fault: ChunkFault::Rle,
            },
            rounds: 0,
        }),
        put: 0,
        seen: 2,
        ..THREE
    },
    Case {
        flaw: Flaw::Broken(7, b"\x02"),
        round: 3,
        stop: Some(ReadStop {
            cause: ReadCause::Chunk {
                index: 7,
                fault: ChunkFault::Rle,
            },
            rounds: 2,
        }),
        put: 6,
        seen: 8,
        ..WHOLE
    },
    Case {
        flaw: Flaw::Broken(0, b"abc"),
        stop: Some(ReadStop {
            cause: ReadCause::Chunk {
                index: 0,
                fault: ChunkFault::WrongSize,
            },
            rounds: 0,
        }),
        put: 0,
        seen: 1,
        ..WHOLE
    },
    // a read that fails, also before a chunk that has a fault, and after the last one
    Case {
        failing: 0,
        stop: Some(ReadStop {
            cause: ReadCause::Read,
            rounds: 0,
        }),
        put: 0,
        seen: 1,
        ..WHOLE
    },
    Case {
        failing: 4,
        round: 3,
        stop: Some(ReadStop {
            cause: ReadCause::Read,
            rounds: 1,
        }),
        put: 3,
        seen: 5,
        ..WHOLE
    },
    Case {
        failing: 16,
        stop: Some(ReadStop {
            cause: ReadCause::Read,
            rounds: 1,
        }),
        put: 16,
        seen: 17,
        ..MISPLACED
    },
    Case {
        failing: 18,
        ..MISPLACED
    },
    Case {
        failing: 20,
        ..WHOLE
    },
];

/// The chunk of a line, whose sample has the number of the line as its low byte.
fn chunk_of(alloc: Global, case: &Case, number: u8) -> Result<Vec<u8>, NoMemory> {
    let (_, top) = case.corner;
    let line = top.wrapping_add(i32::from(number));
    let sample = [number, 0x3c];
    match case.flaw {
        Flaw::Misplaced(place) if place == number => {
            line_chunk(alloc, None, line.wrapping_add(1), &sample)
        }
        Flaw::Broken(place, data) if place == number => line_chunk(alloc, None, line, data),
        _ => line_chunk(alloc, None, line, &sample),
    }
}

/// The file of a case.
fn lines_of(alloc: Global, case: &Case) -> Result<Vec<u8>, NoMemory> {
    let (column, top) = case.corner;
    let picture = Picture {
        window: [column, top, column, top.wrapping_add(19)],
        method: 1,
        ..ONE_PIXEL
    };
    let mut chunks = Vec::new(alloc);
    for number in 0..20 {
        chunks.push(chunk_of(alloc, case, number)?)?;
    }
    file_of(alloc, &single_head(alloc, &picture, b"")?, &chunks)
}

/// The buffer of a case after reading.
fn buffer_of(alloc: Global, case: &Case) -> Result<Vec<u8>, NoMemory> {
    let (first, last) = case.lines;
    let mut buffer = Vec::new(alloc);
    for (place, number) in (first..=last).enumerate() {
        let is_put = place < case.put;
        buffer.push(if is_put { number } else { 0xee })?;
        buffer.push(if is_put { 0x3c } else { 0xee })?;
        if case.padded {
            buffer.push(0xee)?;
        }
    }
    Ok(buffer)
}

/// What a case asks for.
fn request_of(case: &Case) -> Request {
    let (column, top) = case.corner;
    let (first, last) = case.lines;
    let first = top.wrapping_add(i32::from(first));
    let last = top.wrapping_add(i32::from(last));
    Request {
        window: Some([column, first, column, last]),
        pad: u16::from(case.padded),
        ..ALL
    }
}

/// Whether reading the lines of a case ends as the case says.
fn is_read<R: Threads + Sync>(rt: &R, alloc: Global, case: &Case) -> Result<bool, Fail> {
    // the head and the tables are read first
    let failing = case.failing.wrapping_add(2);
    let file = lines_of(alloc, case)?;
    let got = outcome_of(rt, alloc, file, failing, &request_of(case), case.round)?;
    let (first, _) = case.lines;
    let told = told_of(u32::from(first), case.seen);
    Ok(is_outcome(&got, case.stop, &buffer_of(alloc, case)?, told))
}

#[test]
fn lines_in_rounds(rt: HostRuntime) -> Result<(), Fail> {
    for (number, case) in CASES.iter().enumerate() {
        expect(&rt, number, is_read(&rt, rt.alloc(), case)?);
    }
    Ok(())
}

// ---- tiles

/// The tiles of 64 by 64 pixels of a picture of 65 by 65: their columns and rows, and how many samples they have.
const TILES: &[(u8, u8, u16)] = &[(0, 0, 4096), (1, 0, 64), (0, 1, 64), (1, 1, 1)];

const IN_TILES: Picture<'static> = Picture {
    window: [0, 0, 64, 64],
    tiles: Some((64, 64)),
    ..ONE_PIXEL
};

/// A tile, each of whose samples has the number of the tile as its low byte.
fn tile_of(alloc: Global, column: u8, row: u8, samples: u16) -> Result<Vec<u8>, NoMemory> {
    let sample = [tile_at(column, row), 0x3c];
    let mut data = Vec::new(alloc);
    for _ in 0..samples {
        data.extend_from_slice(&sample)?;
    }
    tile_chunk(alloc, None, (u32::from(column), u32::from(row)), &data)
}

/// The file of these tiles.
fn tiles(alloc: Global) -> Result<Vec<u8>, NoMemory> {
    let mut chunks = Vec::new(alloc);
    for (column, row, samples) in TILES {
        chunks.push(tile_of(alloc, *column, *row, *samples)?)?;
    }
    file_of(alloc, &single_head(alloc, &IN_TILES, b"")?, &chunks)
}

/// The number of a tile, counted row by row.
fn tile_at(column: u8, row: u8) -> u8 {
    match (column, row) {
        (0, 0) => 0,
        (1, 0) => 1,
        (0, 1) => 2,
        _ => 3,
    }
}

/// Appends the samples of a line from one column to another.
fn put_line(samples: &mut Vec<u8>, y: u8, x0: u8, x1: u8) -> Result<(), NoMemory> {
    for x in x0..=x1 {
        samples.push(tile_at(x / 64, y / 64))?;
        samples.push(0x3c)?;
    }
    Ok(())
}

/// The samples of the first column and line of a window to its last ones.
fn samples_of(alloc: Global, [x0, y0, x1, y1]: [u8; 4]) -> Result<Vec<u8>, NoMemory> {
    let mut samples = Vec::new(alloc);
    for y in y0..=y1 {
        put_line(&mut samples, y, x0, x1)?;
    }
    Ok(samples)
}

/// Windows, and the first tile that they meet and how many.
const MET: &[([u8; 4], u8, u8)] = &[
    ([0, 0, 0, 0], 0, 1),
    ([63, 63, 63, 63], 0, 1),
    ([64, 0, 64, 63], 1, 1),
    ([0, 64, 63, 64], 2, 1),
    ([64, 64, 64, 64], 3, 1),
    ([63, 63, 64, 64], 0, 4),
    ([0, 0, 64, 64], 0, 4),
];

/// Whether reading a window ends so, and the gate is told of these tiles.
fn is_met<R: Threads + Sync>(
    rt: &R,
    alloc: Global,
    (window, first, count): ([u8; 4], u8, u8),
    failing: u64,
    stop: Option<ReadStop>,
    buffer: &[u8],
) -> Result<bool, Fail> {
    let [x0, y0, x1, y1] = window;
    let request = Request {
        window: Some([x0.into(), y0.into(), x1.into(), y1.into()]),
        ..ALL
    };
    let got = outcome_of(rt, alloc, tiles(alloc)?, failing, &request, 16)?;
    let told = told_of(u32::from(first), u32::from(count));
    Ok(is_outcome(&got, stop, buffer, told))
}

/// A round whose reading failed.
const FAILED: Option<ReadStop> = Some(ReadStop {
    cause: ReadCause::Read,
    rounds: 0,
});

// A window takes one read for each tile that it meets, after those of the head and the tables: the last of them fails, or
// the one after it.
#[test]
fn tiles_that_a_window_meets(rt: HostRuntime) -> Result<(), Fail> {
    let alloc = rt.alloc();
    for (number, case) in MET.iter().enumerate() {
        let (window, _, count) = *case;
        let behind = u64::from(count).wrapping_add(2);
        let samples = samples_of(alloc, window)?;
        expect(
            &rt,
            number,
            is_met(&rt, alloc, *case, behind, None, &samples)?,
        );
        let last = behind.wrapping_sub(1);
        let empty = vec![in alloc; 0xeeu8; samples.len()]?;
        expect(
            &rt,
            number,
            is_met(&rt, alloc, *case, last, FAILED, &empty)?,
        );
    }
    Ok(())
}
