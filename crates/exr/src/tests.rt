//! The texts of the program, and the numbers of statuses and faults in them.

use crate::about::Asked;
use crate::faults::{
    CHUNK_FAULTS, HEAD_FAULTS, LAYOUT_FAULTS, MATCH_FAULTS, REQUEST_FAULTS, STATUSES,
};
use exr_attributes::{Bound, Field, HeaderFault};
use exr_b44::B44Fault;
use exr_base::Method;
use exr_block::{ChunkFault, DeepFault};
use exr_piz::PizFault;
use exr_tools::{FileFault, LayoutFault, MatchFault, RequestFault, Stop};
use std::process::Abort;
use std::test::Fail;

#[test]
fn help_and_version(rt: HostRuntime) -> Result<(), Fail> {
    let help = Asked::of("--help")
        .ok_or("a text")?
        .text()
        .first()
        .ok_or("a page")?;
    assert!(rt; help.ends_with("\n"));
    assert!(rt; !help.contains("  7  "));
    for line in help.lines() {
        assert!(rt; line.len() <= 80, "{line}");
    }
    for word in [
        "exr header in=a.exr",
        "exr check in=a.exr\n",
        "exr extract in=a.exr out=b.raw\n",
        "window=",
        "channels=",
        "layout=pixels",
        "pad=",
        "fill=",
        "byte=",
        "workers=",
        "--help",
        "--version",
        "--faults",
        "  3  ",
        "  6  ",
    ] {
        assert!(rt; help.contains(word), "{word}");
    }
    let version = Asked::of("--version").ok_or("a text")?.text();
    assert_eq!(rt; version, ["exr 0.1.0\n"].as_slice());
    assert!(rt; Asked::of("help").is_none());
    Ok(())
}

/// The name of a fault, which its debug text begins with.
fn name_of(shown: &str) -> &str {
    let name = match shown.split_once(' ') {
        Some((name, _)) => name,
        None => shown,
    };
    match name.split_once('(') {
        Some((name, _)) => name,
        None => name,
    }
}

/// Checks that a section has the line of a number and a name.
fn lists<R: Abort + AllocGlobal>(
    rt: &R,
    section: &str,
    number: u64,
    shown: &str,
) -> Result<(), Fail> {
    let name = name_of(shown);
    let wanted = format!(in rt.alloc(); "{number}  {name} ")?;
    let mut found = false;
    for line in section.lines() {
        found |= line.trim_start().starts_with(wanted.as_str());
    }
    assert!(rt; found, "{wanted}");
    Ok(())
}

/// How many statuses or faults a section has: a line each, which begins with a space.
fn lines_of<R: Abort>(rt: &R, section: &str) -> usize {
    let mut count = 0usize;
    for line in section.lines() {
        assert!(rt; line.len() <= 80, "{line}");
        if line.starts_with(" ") {
            count = count.saturating_add(1);
        }
    }
    count
}

const STOPS: [Stop; 6] = [
    Stop::NoMemory,
    Stop::Words { position: 0 },
    Stop::File {
        file: 0,
        fault: FileFault::Head(HeaderFault::BadMagic),
    },
    Stop::Read,
    Stop::Write,
    Stop::Request(RequestFault::NoPart),
];

#[test]
fn statuses(rt: HostRuntime) -> Result<(), Fail> {
    for stop in STOPS {
        let shown = format!(in rt.alloc(); "{stop:?}")?;
        lists(&rt, STATUSES, u64::from(stop.status()), shown.as_str())?;
    }
    // and status 0
    assert_eq!(rt; lines_of(&rt, STATUSES), STOPS.len() + 1);
    Ok(())
}

const OF_HEADS: [HeaderFault; 21] = [
    HeaderFault::Truncated { at: 0 },
    HeaderFault::BadName { at: 0 },
    HeaderFault::BadSize { at: 0 },
    HeaderFault::Twice { at: 0 },
    HeaderFault::BadMagic,
    HeaderFault::BadVersion { word: 0 },
    HeaderFault::Missing {
        part: 0,
        field: Field::Channels,
    },
    HeaderFault::WrongType {
        part: 0,
        field: Field::Channels,
    },
    HeaderFault::BadChannels { part: 0 },
    HeaderFault::BadWindow { part: 0 },
    HeaderFault::BadSampling {
        part: 0,
        channel: 0,
    },
    HeaderFault::BadTiles { part: 0 },
    HeaderFault::UnknownCompression { part: 0, number: 0 },
    HeaderFault::BadLineOrder { part: 0, number: 0 },
    HeaderFault::BadPartType { part: 0 },
    HeaderFault::TwicePart { part: 0 },
    HeaderFault::ChunkCount {
        part: 0,
        said: 0,
        computed: 0,
    },
    HeaderFault::Limit(Bound::Parts),
    HeaderFault::Levels { part: 0 },
    HeaderFault::BadDeepVersion { part: 0, said: 0 },
    HeaderFault::FieldSize {
        part: 0,
        field: Field::Channels,
    },
];

#[test]
fn faults_of_heads(rt: HostRuntime) -> Result<(), Fail> {
    for fault in OF_HEADS {
        let shown = format!(in rt.alloc(); "{fault:?}")?;
        lists(&rt, HEAD_FAULTS, u64::from(fault.number()), shown.as_str())?;
    }
    assert_eq!(rt; lines_of(&rt, HEAD_FAULTS), OF_HEADS.len());
    Ok(())
}

const OF_CHUNKS: [ChunkFault; 9] = [
    ChunkFault::Unwritten,
    ChunkFault::Outside,
    ChunkFault::WrongPlace,
    ChunkFault::WrongSize,
    ChunkFault::Unsupported {
        method: Method::Zip,
    },
    ChunkFault::Rle,
    ChunkFault::Piz(PizFault::Short),
    ChunkFault::B44(B44Fault::Short),
    ChunkFault::Deep(DeepFault::TableBroken),
];

#[test]
fn faults_of_chunks(rt: HostRuntime) -> Result<(), Fail> {
    for fault in OF_CHUNKS {
        let shown = format!(in rt.alloc(); "{fault:?}")?;
        lists(&rt, CHUNK_FAULTS, u64::from(fault.number()), shown.as_str())?;
    }
    assert_eq!(rt; lines_of(&rt, CHUNK_FAULTS), OF_CHUNKS.len());
    Ok(())
}

const OF_REQUESTS: [RequestFault; 8] = [
    RequestFault::NoPart,
    RequestFault::DeepWords,
    RequestFault::Window,
    RequestFault::Mixed { slice: 0 },
    RequestFault::Layout(LayoutFault::Empty { plane: 0 }),
    RequestFault::TooLarge,
    RequestFault::Match(MatchFault::WindowOutside),
    RequestFault::DeepTooLarge { index: 0 },
];

const OF_LAYOUTS: [LayoutFault; 7] = [
    LayoutFault::Empty { plane: 0 },
    LayoutFault::Huge { plane: 0 },
    LayoutFault::TwiceChannel {
        first: 0,
        second: 0,
    },
    LayoutFault::ZeroSampling { slice: 0 },
    LayoutFault::Overlap {
        first: 0,
        second: 0,
    },
    LayoutFault::ShortStride { slice: 0 },
    LayoutFault::OutOfBuffer { slice: 0 },
];

const OF_MATCHES: [MatchFault; 3] = [
    MatchFault::WindowOutside,
    MatchFault::KindDiffers { slice: 0 },
    MatchFault::SamplingDiffers { slice: 0 },
];

#[test]
fn faults_of_requests_and_layouts(rt: HostRuntime) -> Result<(), Fail> {
    for fault in OF_REQUESTS {
        let shown = format!(in rt.alloc(); "{fault:?}")?;
        lists(
            &rt,
            REQUEST_FAULTS,
            u64::from(fault.number()),
            shown.as_str(),
        )?;
    }
    for fault in OF_LAYOUTS {
        let shown = format!(in rt.alloc(); "{fault:?}")?;
        lists(
            &rt,
            LAYOUT_FAULTS,
            u64::from(fault.number()),
            shown.as_str(),
        )?;
    }
    for fault in OF_MATCHES {
        let shown = format!(in rt.alloc(); "{fault:?}")?;
        lists(&rt, MATCH_FAULTS, u64::from(fault.number()), shown.as_str())?;
    }
    assert_eq!(rt; lines_of(&rt, REQUEST_FAULTS), OF_REQUESTS.len());
    assert_eq!(rt; lines_of(&rt, LAYOUT_FAULTS), OF_LAYOUTS.len());
    assert_eq!(rt; lines_of(&rt, MATCH_FAULTS), OF_MATCHES.len());
    Ok(())
}
