//! Raw data regrouped channel by channel, and back: lines without samples, a pixel at the edge, channels of unlike kinds
//! and samplings.

ghost use Rattle.exr_judge.specs.Picture.{IsPicture};

use super::expect;
use super::heads::head_of;
use exr_base::{NoMemory, Shape};
use exr_fixtures::{ChannelSpec, ONE_PIXEL, Picture, Y};
use exr_header::Header;
use exr_planar::{from_planar, to_planar};
use std::alloc::Global;
use std::test::Fail;

const A: ChannelSpec<'static> = ChannelSpec { name: b"A", ..Y };

const I: ChannelSpec<'static> = ChannelSpec {
    name: b"I",
    kind: 0,
    ..Y
};

/// Samples at each second column, and at each second line.
const COLUMNS: ChannelSpec<'static> = ChannelSpec {
    name: b"B",
    sampling: (2, 1),
    ..Y
};

const LINES: ChannelSpec<'static> = ChannelSpec {
    name: b"C",
    sampling: (1, 2),
    ..Y
};

const BOTH: ChannelSpec<'static> = ChannelSpec {
    name: b"D",
    sampling: (2, 2),
    ..Y
};

/// Channels, the first column and line of a region and its last ones, raw data, and the same channel by channel.
type Case = (
    &'static [ChannelSpec<'static>],
    [i32; 4],
    &'static [u8],
    &'static [u8],
);

const FAR: i32 = 1 << 30;

const CASES: &[Case] = &[
    (&[], [0, 0, 3, 3], b"", b""),
    (&[A], [-1, -1, 1, 0], b"aabbccddeeff", b"aabbccddeeff"),
    (&[A, Y], [0, 0, 0, 0], b"aAbB", b"aAbB"),
    (&[A, Y], [FAR, -FAR, FAR, -FAR], b"aAbB", b"aAbB"),
    (
        &[A, Y],
        [-FAR, FAR - 1, -FAR, FAR],
        b"aAyYbBzZ",
        b"aAbByYzZ",
    ),
    (
        &[A, Y],
        [0, 0, 1, 1],
        b"aAbByYzZcCdDwWxX",
        b"aAbBcCdDyYzZwWxX",
    ),
    (
        &[A, I],
        [0, 0, 0, 2],
        b"aAijklbBmnopcCqrst",
        b"aAbBcCijklmnopqrst",
    ),
    (
        &[A, COLUMNS],
        [-2, 0, 1, 1],
        b"aabbccddMMNNeeffgghhOOPP",
        b"aabbccddeeffgghhMMNNOOPP",
    ),
    (&[A, LINES], [0, -2, 0, 1], b"aaMMbbccNNdd", b"aabbccddMMNN"),
    (
        &[BOTH, Y],
        [0, 0, 1, 3],
        b"MMaabbccddNNeeffgghh",
        b"MMNNaabbccddeeffgghh",
    ),
    (&[LINES, BOTH], [0, 0, 1, 1], b"aabbMM", b"aabbMM"),
    (&[BOTH], [-2, -2, 1, 1], b"aabbccdd", b"aabbccdd"),
];

/// Whether raw data of a part's data window is this channel by channel, and that is the raw data again.
fn is_regrouped(alloc: Global, part: &Header, raw: &[u8], planar: &[u8]) -> Result<bool, NoMemory>
    requires { IsPicture part.now }
{
    let shape = Shape {
        channels: part.channels(),
        region: part.window(),
    };
    let size = shape.raw_size();
    if raw.len() as u64 != size || planar.len() as u64 != size {
        return Ok(false);
    }
    let found = to_planar(alloc, &shape, raw)?;
    let again = from_planar(alloc, &shape, planar)?;
    Ok(found.as_slice() == planar && again.as_slice() == raw)
}

/// The same of a case.
fn is_right(alloc: Global, (channels, window, raw, planar): Case) -> Result<bool, Fail> {
    let picture = Picture {
        channels,
        window,
        ..ONE_PIXEL
    };
    let head = head_of(alloc, &picture)?;
    match head.parts() {
        [part] => Ok(is_regrouped(alloc, part, raw, planar)?),
        _ => Ok(false),
    }
}

#[test]
fn channel_by_channel(rt: HostRuntime) -> Result<(), Fail> {
    for (number, case) in CASES.iter().enumerate() {
        expect(&rt, number, is_right(rt.alloc(), *case)?);
    }
    Ok(())
}
