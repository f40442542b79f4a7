//! What `check` prints of files, and what it stops at.

use super::deep::{FALLING, TWO_DEEP};
use super::edits::{Edits, edited};
use super::files::{BARE, BROKEN_RIGHT, File, MISPLACED, ONE, PARTS, SAMPLED, TILES, UNREAD_LEFT};
use super::methods::{CELLS, RLE, ZEROS, ZIP, ZIPPED, ZIPPED_LARGE};
use super::runs::{expect, outcome_of};
use exr_attributes::HeaderFault;
use exr_block::ChunkFault;
use exr_deep::DeepFault;
use exr_tools::{FileFault, Stop};
use std::test::Fail;

/// The words of `check`, without workers and with as many as there can be.
const WORDS: [&[&str]; 2] = [&["check", "in=a"], &["check", "in=a", "workers=16"]];

/// A file, its edits, and the report on it.
const REPORTS: &[(File, Edits, &str)] = &[
    (ONE, &[], "part 0 chunks 1 unread 0\nok\n"),
    // data of the raw size is raw under any method; smaller data is packed
    (ONE, &[(75, ZIP)], "part 0 chunks 1 unread 0\nok\n"),
    (
        ONE,
        &[(75, ZIP), (289, 1)],
        "part 0 chunks 1 unread 1\nok\n",
    ),
    (ZIPPED, &[], "part 0 chunks 3 unread 2\nok\n"),
    (SAMPLED, &[], "part 0 chunks 4 unread 0\nok\n"),
    (TILES, &[], "part 0 chunks 9 unread 0\nok\n"),
    (BARE, &[], "part 0 chunks 1 unread 0\nok\n"),
    (ZEROS, &[], "part 0 chunks 3 unread 0\nok\n"),
    (CELLS, &[], "part 0 chunks 1 unread 0\nok\n"),
    (
        PARTS,
        &[],
        "part 0 chunks 1 unread 0\npart 1 chunks 2 unread 0\nok\n",
    ),
    (
        UNREAD_LEFT,
        &[],
        "part 0 chunks 1 unread 1\npart 1 chunks 2 unread 0\nok\n",
    ),
    (TWO_DEEP, &[], "part 0 chunks 1 unread 0\nok\n"),
    // under ZIPS, with raw samples, and with samples one byte smaller
    (TWO_DEEP, &[(93, 2)], "part 0 chunks 1 unread 0\nok\n"),
    (
        TWO_DEEP,
        &[(93, 2), (437, 17)],
        "part 0 chunks 1 unread 1\nok\n",
    ),
];

// The report is printed, and nothing is created.
#[test]
fn reports(rt: HostRuntime) -> Result<(), Fail> {
    for (case, (file, edits, report)) in REPORTS.iter().enumerate() {
        let bytes = edited(rt.alloc(), file, edits)?;
        for words in WORDS {
            let got = outcome_of(&rt, rt.alloc(), words, &bytes, None)?;
            let is_right = got.stop.is_none()
                && got.written.is_none()
                && got.printed.as_slice() == report.as_bytes()
                && got.has_faults(0, 0);
            expect(&rt, case, is_right);
        }
    }
    Ok(())
}

/// A file, its edits, and its fault.
const FAULTS: &[(File, Edits, FileFault)] = &[
    (ONE, &[(0, 0)], FileFault::Head(HeaderFault::BadMagic)),
    (
        ONE,
        &[(75, 10)],
        FileFault::Head(HeaderFault::UnknownCompression {
            part: 0,
            number: 10,
        }),
    ),
    (
        ONE,
        &[(277, 0), (278, 0)],
        FileFault::Chunk {
            part: 0,
            index: 0,
            fault: ChunkFault::Unwritten,
        },
    ),
    (
        ONE,
        &[(75, RLE), (289, 1)],
        FileFault::Chunk {
            part: 0,
            index: 0,
            fault: ChunkFault::Rle,
        },
    ),
    (
        MISPLACED,
        &[],
        FileFault::Chunk {
            part: 0,
            index: 17,
            fault: ChunkFault::WrongPlace,
        },
    ),
    (
        BROKEN_RIGHT,
        &[],
        FileFault::Chunk {
            part: 1,
            index: 1,
            fault: ChunkFault::WrongSize,
        },
    ),
    // two chunks that are not read, and one larger than its raw data
    (
        ZIPPED_LARGE,
        &[],
        FileFault::Chunk {
            part: 0,
            index: 2,
            fault: ChunkFault::WrongSize,
        },
    ),
    (
        FALLING,
        &[],
        FileFault::Chunk {
            part: 0,
            index: 0,
            fault: ChunkFault::Deep(DeepFault::CountsFall { pixel: 2 }),
        },
    ),
];

// The first fault stops it, with status 3, and nothing is printed or created.
#[test]
fn faults(rt: HostRuntime) -> Result<(), Fail> {
    for (case, (file, edits, fault)) in FAULTS.iter().enumerate() {
        let bytes = edited(rt.alloc(), file, edits)?;
        let fault = *fault;
        let stop = Stop::File { file: 0, fault };
        for words in WORDS {
            let got = outcome_of(&rt, rt.alloc(), words, &bytes, None)?;
            let is_right = got.is_refused(stop) && got.has_faults(0, 0) && stop.status() == 3;
            expect(&rt, case, is_right);
        }
    }
    Ok(())
}
