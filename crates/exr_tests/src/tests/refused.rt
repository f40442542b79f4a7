//! Files and requests that are refused: each fault of a head, of a chunk and of a request.

use super::edits::{Edits, edited};
use super::files::{
    BARE, DEEP, File, KINDS, MISCOUNTED, ONE, PARTS, REPEATED, SAME_NAMES, THREE, TILES, UNLIKE,
    VAST, bytes_of,
};
use super::methods::{B44, B44A, CELLS, PIZ, PXR24, RLE, ZEROS, ZIP};
use super::runs::{expect, extracted, outcome_of};
use exr_attributes::{Bound, Field, HeaderFault};
use exr_b44::B44Fault;
use exr_base::Method;
use exr_block::ChunkFault;
use exr_huffman::HufFault;
use exr_piz::PizFault;
use exr_tools::{FileFault, LayoutFault, MatchFault, RequestFault, Stop};
use std::process::Abort;
use std::test::Fail;
use std::thread::Threads;

/// Checks that extracting from a file stops so, that nothing was created or printed, and that no call failed.
fn check_stop(
    rt: &(impl Abort + AllocGlobal + Threads + Sync),
    case: usize,
    bytes: &[u8],
    more: &[&str],
    stop: Stop,
) -> Result<(), Fail> {
    let got = extracted(rt, rt.alloc(), bytes, more, None)?;
    expect(rt, case, got.is_refused(stop) && got.has_faults(0, 0));
    Ok(())
}

/// Edits of a file, and the fault of its head.
const HEADS: &[(File, Edits, HeaderFault)] = &[
    (ONE, &[(271, 0x7f)], HeaderFault::Truncated { at: 295 }),
    (ONE, &[(195, 0)], HeaderFault::BadName { at: 195 }),
    (ONE, &[(27, 0x80)], HeaderFault::BadSize { at: 24 }),
    (ONE, &[(0, 0)], HeaderFault::BadMagic),
    (ONE, &[(4, 1)], HeaderFault::BadVersion { word: 1 }),
    (ONE, &[(5, 0x20)], HeaderFault::BadVersion { word: 8194 }),
    (
        ONE,
        &[(24, 0x12)],
        HeaderFault::Missing {
            part: 0,
            field: Field::Compression,
        },
    ),
    (
        ONE,
        &[(5, 2)],
        HeaderFault::Missing {
            part: 0,
            field: Field::Tiles,
        },
    ),
    (
        ONE,
        &[(5, 8)],
        HeaderFault::Missing {
            part: 0,
            field: Field::PartType,
        },
    ),
    (
        ONE,
        &[(5, 0x10)],
        HeaderFault::Missing {
            part: 0,
            field: Field::PartType,
        },
    ),
    (
        ONE,
        &[(17, 0x78)],
        HeaderFault::WrongType {
            part: 0,
            field: Field::Channels,
        },
    ),
    (ONE, &[(30, 3)], HeaderFault::BadChannels { part: 0 }),
    (ONE, &[(38, 0)], HeaderFault::BadChannels { part: 0 }),
    (ONE, &[(28, 0)], HeaderFault::BadChannels { part: 0 }),
    (ONE, &[(46, 1)], HeaderFault::BadChannels { part: 0 }),
    (ONE, &[(97, 1)], HeaderFault::BadWindow { part: 0 }),
    (
        ONE,
        &[(38, 2)],
        HeaderFault::BadSampling {
            part: 0,
            channel: 0,
        },
    ),
    (
        ONE,
        &[(75, 10)],
        HeaderFault::UnknownCompression {
            part: 0,
            number: 10,
        },
    ),
    (
        ONE,
        &[(177, 3)],
        HeaderFault::BadLineOrder { part: 0, number: 3 },
    ),
    (
        ONE,
        &[(177, 2)],
        HeaderFault::BadLineOrder { part: 0, number: 2 },
    ),
    (ONE, &[(108, 0x7f)], HeaderFault::Limit(Bound::Coordinates)),
    (ONE, &[(107, 0x20)], HeaderFault::Limit(Bound::Side)),
    (
        ONE,
        &[(173, 2)],
        HeaderFault::FieldSize {
            part: 0,
            field: Field::LineOrder,
        },
    ),
    (TILES, &[(295, 0)], HeaderFault::BadTiles { part: 0 }),
    (TILES, &[(303, 1)], HeaderFault::Levels { part: 0 }),
    (SAME_NAMES, &[], HeaderFault::TwicePart { part: 1 }),
    (
        MISCOUNTED,
        &[],
        HeaderFault::ChunkCount {
            part: 0,
            said: 2,
            computed: 1,
        },
    ),
    (PARTS, &[(316, 0x78)], HeaderFault::BadPartType { part: 0 }),
    (
        DEEP,
        &[(320, 2)],
        HeaderFault::BadDeepVersion { part: 0, said: 2 },
    ),
    (REPEATED, &[], HeaderFault::Twice { at: 276 }),
];

#[test]
fn heads(rt: HostRuntime) -> Result<(), Fail> {
    for (case, (file, edits, fault)) in HEADS.iter().enumerate() {
        let fault = FileFault::Head(*fault);
        let stop = Stop::File { file: 0, fault };
        let bytes = edited(rt.alloc(), file, edits)?;
        check_stop(&rt, case, &bytes, &[], stop)?;
        let got = outcome_of(&rt, rt.alloc(), &["header", "in=a"], &bytes, None)?;
        expect(&rt, case, got.is_refused(stop));
    }
    Ok(())
}

/// A file and its edits, the number of a part and of one of its chunks, and the fault of the chunk.
type Row = (File, Edits, u32, u32, ChunkFault);

/// The places, sizes and ends of chunks.
const PLACES: &[Row] = &[
    (ONE, &[(277, 0), (278, 0)], 0, 0, ChunkFault::Unwritten),
    (ONE, &[(278, 2)], 0, 0, ChunkFault::Outside),
    (ONE, &[(284, 0x80)], 0, 0, ChunkFault::Outside),
    (ONE, &[(278, 0)], 0, 0, ChunkFault::WrongPlace),
    (ONE, &[(285, 1)], 0, 0, ChunkFault::WrongPlace),
    (ONE, &[(289, 3)], 0, 0, ChunkFault::WrongSize),
    (ONE, &[(289, 1)], 0, 0, ChunkFault::WrongSize),
    (ONE, &[(30, 2)], 0, 0, ChunkFault::WrongSize),
    (THREE, &[(401, 0)], 0, 2, ChunkFault::WrongPlace),
    (TILES, &[(385, 1)], 0, 0, ChunkFault::WrongPlace),
];

/// One pixel whose chunk has less data than two bytes, under each method, and data that is not that of its method.
const PACKED: &[Row] = &[
    (ONE, &[(75, RLE), (289, 1)], 0, 0, ChunkFault::Rle),
    (
        ONE,
        &[(75, PIZ), (289, 1)],
        0,
        0,
        ChunkFault::Piz(PizFault::Short),
    ),
    (
        ONE,
        &[(75, B44), (289, 1)],
        0,
        0,
        ChunkFault::B44(B44Fault::Short),
    ),
    (
        ONE,
        &[(75, B44A), (289, 0)],
        0,
        0,
        ChunkFault::B44(B44Fault::Short),
    ),
    (
        ONE,
        &[(75, 2), (289, 1)],
        0,
        0,
        ChunkFault::Unsupported {
            method: Method::Zips,
        },
    ),
    (
        ONE,
        &[(75, ZIP), (289, 1)],
        0,
        0,
        ChunkFault::Unsupported {
            method: Method::Zip,
        },
    ),
    (
        ONE,
        &[(75, PXR24), (289, 1)],
        0,
        0,
        ChunkFault::Unsupported {
            method: Method::Pxr24,
        },
    ),
    (
        ONE,
        &[(75, 8), (289, 1)],
        0,
        0,
        ChunkFault::Unsupported {
            method: Method::Dwaa,
        },
    ),
    (
        ONE,
        &[(75, 9), (289, 1)],
        0,
        0,
        ChunkFault::Unsupported {
            method: Method::Dwab,
        },
    ),
    (
        ONE,
        &[(75, B44), (34, 1), (289, 1)],
        0,
        0,
        ChunkFault::Unsupported {
            method: Method::B44,
        },
    ),
    (
        ONE,
        &[(75, B44A), (34, 1), (289, 1)],
        0,
        0,
        ChunkFault::Unsupported {
            method: Method::B44a,
        },
    ),
    // the third byte of the first cell says that it has three bytes
    (CELLS, &[(295, 52)], 0, 0, ChunkFault::B44(B44Fault::Long)),
    // the value map ends past 8,192 bytes
    (
        ZEROS,
        &[(310, 0x20)],
        0,
        0,
        ChunkFault::Piz(PizFault::BadMap),
    ),
    // the code lengths of the Huffman block are 1 and 2
    (
        ZEROS,
        &[(338, 0x20)],
        0,
        0,
        ChunkFault::Piz(PizFault::Huffman(HufFault::BadTable)),
    ),
    // bits that begin with a run
    (
        ZEROS,
        &[(339, 0xff)],
        0,
        0,
        ChunkFault::Piz(PizFault::Huffman(HufFault::RunFirst)),
    ),
];

// Each file is refused for its chunk.
#[test]
fn chunks(rt: HostRuntime) -> Result<(), Fail> {
    for rows in [PLACES, PACKED] {
        for (case, (file, edits, part, index, fault)) in rows.iter().enumerate() {
            let (part, index, fault) = (*part, *index, *fault);
            let fault = FileFault::Chunk { part, index, fault };
            let bytes = edited(rt.alloc(), file, edits)?;
            check_stop(&rt, case, &bytes, &[], Stop::File { file: 0, fault })?;
        }
    }
    Ok(())
}

/// Edits of one pixel after which it is extracted. Where the data has the raw size it is raw, whatever the method and the
/// channel's pLinear byte say. The bits that the head and the version word have beside are not looked at.
const RAW: &[Edits] = &[
    &[(75, RLE)],
    &[(75, 2)],
    &[(75, ZIP)],
    &[(75, PIZ)],
    &[(75, PXR24)],
    &[(75, B44), (34, 1)],
    &[(75, B44A), (34, 1)],
    &[(75, 8)],
    &[(75, 9)],
    &[(5, 4)],
    &[(34, 1)],
    &[(177, 1)],
];

#[test]
fn raw_data(rt: HostRuntime) -> Result<(), Fail> {
    for (case, edits) in RAW.iter().enumerate() {
        let bytes = edited(rt.alloc(), &ONE, edits)?;
        let got = extracted(&rt, rt.alloc(), &bytes, &[], None)?;
        let is_right = got.stop.is_none() && got.written.as_deref() == Some(b"\0<".as_slice());
        expect(&rt, case, is_right);
    }
    Ok(())
}

/// A file, more words, and why the request is refused: the first test that applies.
const REQUESTS: &[(File, &[&str], RequestFault)] = &[
    (ONE, &["part=1", "window=0,0,1,0"], RequestFault::NoPart),
    (PARTS, &["part=2"], RequestFault::NoPart),
    (ONE, &["window=0,0,1,0"], RequestFault::Window),
    (ONE, &["window=0,0,-1,0"], RequestFault::Window),
    (ONE, &["window=0,0,0,-1"], RequestFault::Window),
    (
        ONE,
        &["window=-1073741824,0,1073741824,0"],
        RequestFault::Window,
    ),
    (
        ONE,
        &["channels=Y,Y", "window=0,1,0,1"],
        RequestFault::Window,
    ),
    (
        TILES,
        &["channels=Y:uint", "window=4,4,5,4"],
        RequestFault::Window,
    ),
    (UNLIKE, &["layout=lines"], RequestFault::Mixed { slice: 1 }),
    (
        UNLIKE,
        &["channels=A,B,C,C", "layout=pixels"],
        RequestFault::Mixed { slice: 2 },
    ),
    (
        ONE,
        &["channels=Y,A,A"],
        RequestFault::Layout(LayoutFault::TwiceChannel {
            first: 1,
            second: 2,
        }),
    ),
    (
        ONE,
        &["channels=Y,Y:float"],
        RequestFault::Layout(LayoutFault::TwiceChannel {
            first: 0,
            second: 1,
        }),
    ),
    (
        BARE,
        &["layout=lines"],
        RequestFault::Layout(LayoutFault::Empty { plane: 0 }),
    ),
    (
        BARE,
        &["layout=pixels"],
        RequestFault::Layout(LayoutFault::Empty { plane: 0 }),
    ),
    (
        VAST,
        &["channels=Y,A"],
        RequestFault::Layout(LayoutFault::Huge { plane: 1 }),
    ),
    (VAST, &["channels=Y"], RequestFault::TooLarge),
    (
        ONE,
        &["channels=Y:float"],
        RequestFault::Match(MatchFault::KindDiffers { slice: 0 }),
    ),
    (
        THREE,
        &["channels=R,A,G:uint,B:float", "layout=pixels"],
        RequestFault::Match(MatchFault::KindDiffers { slice: 2 }),
    ),
    (
        KINDS,
        &["channels=I:uint,Z:half"],
        RequestFault::Match(MatchFault::KindDiffers { slice: 1 }),
    ),
];

#[test]
fn requests(rt: HostRuntime) -> Result<(), Fail> {
    for (case, (file, more, fault)) in REQUESTS.iter().enumerate() {
        let bytes = bytes_of(rt.alloc(), file)?;
        check_stop(&rt, case, &bytes, more, Stop::Request(*fault))?;
    }
    Ok(())
}

/// Requests for a deep part, and for a part that is not there beside it.
const DEEP_PARTS: &[(&[&str], Stop)] = &[
    (
        &["part=0", "window=0,0,9,9"],
        Stop::Request(RequestFault::Window),
    ),
    (
        &["part=0", "pad=1", "window=0,0,9,9"],
        Stop::Request(RequestFault::DeepWords),
    ),
    (&["part=1"], Stop::Request(RequestFault::NoPart)),
];

#[test]
fn deep_parts(rt: HostRuntime) -> Result<(), Fail> {
    let bytes = bytes_of(rt.alloc(), &DEEP)?;
    for (case, (more, stop)) in DEEP_PARTS.iter().enumerate() {
        check_stop(&rt, case, &bytes, more, *stop)?;
    }
    Ok(())
}

/// The bits of a byte.
const BITS: [u8; 8] = [1, 2, 4, 8, 16, 32, 64, 128];

/// Whether a file is extracted, or refused with nothing created or printed.
fn is_extracted_or_refused(
    rt: &(impl Abort + AllocGlobal + Threads + Sync),
    bytes: &[u8],
) -> Result<bool, Fail> {
    let got = extracted(rt, rt.alloc(), bytes, &[], None)?;
    Ok(match got.stop {
        Some(stop) => [3, 6].contains(&stop.status()) && got.is_refused(stop),
        None => got.written.is_some() && !got.printed.is_empty(),
    })
}

// A file with one bit changed is extracted, or it is refused and nothing is created or printed.
#[test]
fn changed_bits(rt: HostRuntime) -> Result<(), Fail> {
    let whole = bytes_of(rt.alloc(), &ONE)?;
    for place in 0..whole.len() {
        for bit in BITS {
            let mut bytes = Vec::from_slice(rt.alloc(), &whole)?;
            if let Some(byte) = bytes.get_mut(place) {
                *byte ^= bit;
            }
            expect(&rt, place, is_extracted_or_refused(&rt, &bytes)?);
        }
    }
    Ok(())
}

/// The fault of one pixel's file that ends here, within its head or its chunk.
fn fault_of_end(end: usize) -> FileFault {
    if end < 277 {
        FileFault::Head(HeaderFault::Truncated { at: end as u64 })
    } else {
        FileFault::Chunk {
            part: 0,
            index: 0,
            fault: ChunkFault::Outside,
        }
    }
}

// A file that is cut off ends within its head or its chunk; after the chunk there may be more.
#[test]
fn ends_of_files(rt: HostRuntime) -> Result<(), Fail> {
    let mut bytes = bytes_of(rt.alloc(), &ONE)?;
    for end in 0..bytes.len() {
        let fault = fault_of_end(end);
        let stop = Stop::File { file: 0, fault };
        check_stop(&rt, end, &bytes[..end], &[], stop)?;
    }
    bytes.extend_from_slice(b"more")?;
    let got = extracted(&rt, rt.alloc(), &bytes, &[], None)?;
    assert!(rt; got.stop.is_none());
    Ok(())
}
