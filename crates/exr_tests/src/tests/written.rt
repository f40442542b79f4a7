//! What `extract` writes of files: all samples of a part, windows, channels, layouts, padding and fills.

use super::files::{BARE, FAR, File, KINDS, ONE, PARTS, SAMPLED, THREE, TILES, UNLIKE, bytes_of};
use super::methods::{CELLS, FLAT_CELLS, RUNS, ZEROS};
use super::runs::{Outcome, expect, extracted};
use exr_tools::Stop;
use std::alloc::Global;
use std::process::Abort;
use std::test::Fail;
use std::thread::Threads;

/// A file, the words after the names of the two files, and what is written.
type Row = (File, &'static [&'static str], &'static [u8]);

/// Whether a run wrote these bytes and printed how many they are, and no call failed.
fn is_written(alloc: Global, got: &Outcome, wanted: &[u8]) -> Result<bool, Fail> {
    let count = wanted.len();
    let line = format!(in alloc; "extract bytes {count}\n")?;
    Ok(
        got.stop.is_none()
            && got.written.as_deref() == Some(wanted)
            && got.printed.as_slice() == line.as_bytes()
            && got.has_faults(0, 0),
    )
}

// The samples are written, and their number is printed.
#[test]
fn samples(rt: HostRuntime) -> Result<(), Fail> {
    let alloc = rt.alloc();
    for rows in [PLANES, REQUESTS, UNPACKED] {
        for (case, (file, more, wanted)) in rows.iter().enumerate() {
            let got = extracted(&rt, alloc, &bytes_of(alloc, file)?, more, None)?;
            expect(&rt, case, is_written(alloc, &got, wanted)?);
        }
    }
    Ok(())
}

/// All samples of a part, as planes.
const PLANES: &[Row] = &[
    (ONE, &[], b"\0<"),
    (
        THREE,
        &[],
        b"aBbBcBdBeBfBgBhBiBjBkBlB\
          aGbGcGdGeGfGgGhGiGjGkGlG\
          aRbRcRdReRfRgRhRiRjRkRlR",
    ),
    (KINDS, &[], b"aaaIbbbIcccIdddIaYbYcYdYaaaZbbbZcccZdddZ"),
    (SAMPLED, &[], b"aCbCcCdC"),
    (UNLIKE, &[], b"aCaYbYcYdY"),
    (
        TILES,
        &[],
        b"AYBYCYDYEYFYGYHYIYJYKYLYMYNYOYPYQYRYSYTYUYVYWYXYYY",
    ),
    (PARTS, &["part=0"], b"aL"),
    (PARTS, &["part=1"], b"aRbRcR"),
    (BARE, &[], b""),
    (FAR, &[], b"\0<"),
    (
        FAR,
        &["window=1073741824,-1073741824,1073741824,-1073741824"],
        b"\0<",
    ),
];

/// Windows, and the channels, layouts, padding and fills of buffers.
const REQUESTS: &[Row] = &[
    (THREE, &["window=1,1,2,2", "channels=G"], b"fGgGjGkG"),
    (
        THREE,
        &["layout=lines", "window=1,1,2,2", "pad=1", "byte=46"],
        b"fBgBfGgGfRgR.jBkBjGkGjRkR.",
    ),
    (
        THREE,
        &["layout=pixels", "window=2,0,3,1", "pad=2", "byte=45"],
        b"cBcGcR--dBdGdR--gBgGgR--hBhGhR--",
    ),
    (
        THREE,
        &["channels=R,A,B", "fill=31353", "window=2,0,3,0"],
        b"cRdRyzyzcBdB",
    ),
    (
        THREE,
        &[
            "channels=R,A:float,B",
            "fill=2054781047",
            "layout=pixels",
            "window=3,2,3,2",
        ],
        b"lRwxyzlB",
    ),
    (
        KINDS,
        &[
            "channels=Z:float,I,Y:half",
            "layout=pixels",
            "window=0,-1,0,0",
        ],
        b"bbbZbbbIbYdddZdddIdY",
    ),
    (
        KINDS,
        &["layout=lines", "channels=I,Y"],
        b"aaaIbbbIaYbYcccIdddIcYdY",
    ),
    (SAMPLED, &["window=-1,-1,1,1"], b"dC"),
    (SAMPLED, &["window=-1,-1,-1,-1"], b""),
    (SAMPLED, &["window=-2,1,1,1", "layout=lines", "pad=3"], b""),
    (
        SAMPLED,
        &["window=-2,0,0,0", "layout=pixels", "pad=1", "byte=255"],
        b"cC\xffdC\xff",
    ),
    (UNLIKE, &["channels=Y", "layout=lines"], b"aYbYcYdY"),
    (UNLIKE, &["window=1,0,1,1"], b"bYdY"),
    (
        TILES,
        &["window=1,1,3,3", "workers=16"],
        b"GYHYIYLYMYNYQYRYSY",
    ),
    (TILES, &["window=4,4,4,4"], b"YY"),
    (
        PARTS,
        &["part=1", "window=1,0,2,0", "channels=A:uint,Y", "fill=7"],
        b"\x07\0\0\0\x07\0\0\0bRcR",
    ),
];

/// Samples that are unpacked, and windows that cut cells at both edges.
const UNPACKED: &[Row] = &[
    (RUNS, &[], b"\0<\0<\0<\0<\0<\0<\0<\0<aYbYcYdYeYfYgYhY"),
    (RUNS, &["window=3,0,4,1"], b"\0<\0<dYeY"),
    (ZEROS, &["window=3,31,4,64", "layout=lines"], &[0; 136]),
    (
        CELLS,
        &[],
        b"\x01<\x01<\x01<\x01<\0=\0=\0=\
          \x01<\x01<\x01<\x01<\0=\0=\0=\
          \x01<\x01<\x01<\x01<\0=\0=\0=\
          \x01<\x01<\x01<!<\0=\0=\0=\
          \0>\0>\0>\0>\0?\0?\0?\
          \0>\0>\0>\0>\0?\0?\0?\
          \0>\0>\0>\0>\0?\0?\0?",
    ),
    (
        CELLS,
        &["window=2,2,5,5"],
        b"\x01<\x01<\0=\0=\x01<!<\0=\0=\0>\0>\0?\0?\0>\0>\0?\0?",
    ),
    (
        FLAT_CELLS,
        &[],
        b"\0@\0@\0@\0@\0@\0@\0@\0@\0@aaaI\
          \0<\0<\0<\0<\0=\0=\0<\0<\0<\0<\0=\0=\0<\0<\0<\0<\0=\0=\0<\0<\0<\0<\0=\0=\
          \0>\0>\0>\0>\0?\0?\0>\0>\0>\0>\0?\0?",
    ),
    (
        FLAT_CELLS,
        &["window=3,3,4,4", "byte=1"],
        b"\0@\0<\0=\0>\0?",
    ),
    (FLAT_CELLS, &["window=5,5,5,5"], b"\0?"),
];

// As many channels as a request may name, and one more.
#[test]
fn a_thousand_channels(rt: HostRuntime) -> Result<(), Fail> {
    let bytes = bytes_of(rt.alloc(), &ONE)?;
    let mut list = String::from_str(rt.alloc(), "channels=Y")?;
    for number in 1..1024u32 {
        list.push_str(format!(in rt.alloc(); ",c{number}")?.as_str())?;
    }
    let more = ["layout=pixels", "fill=770", list.as_str()];
    let got = extracted(&rt, rt.alloc(), &bytes, &more, None)?;
    let written = got.written.ok_or("a file")?;
    assert!(rt; written.len() == 2048 && written.starts_with(b"\0<\x02\x03"));
    list.push_str(",d")?;
    let got = extracted(&rt, rt.alloc(), &bytes, &[list.as_str()], None)?;
    assert!(rt; got.stop == Some(Stop::Words { position: 3 }));
    Ok(())
}
