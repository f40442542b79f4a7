//! Samples copied into buffers and out of them again, by worked values: pixels, planes and rows after rows with padding,
//! a window that cuts a chunk, samples at each second pixel, and fills.

ghost use Rattle.std.specs.Prelude.{◌≡◌, ◌≤ℤ◌};
ghost use Rattle.exr_base.specs.Shape.{IsRegion};
ghost use Rattle.exr_judge.specs.Picture.{IsPicture};

use super::planes::{PlainPlane, planes_of};
use exr_base::{Box2i, Kind, Shape};
use exr_fixtures::{ChannelSpec, ONE_PIXEL, Picture, Y, single_head};
use exr_frame::{gather, scatter};
use exr_header::{Header, read_head};
use exr_layout::{Layout, has_few_slices, match_part};
use std::alloc::Global;
use std::test::Fail;

/// Boxes of pixels that the cases name.
#[derive(Clone, Copy)]
enum Pixels {
    /// Two lines of four columns, at negative places.
    All,
    FirstLine,
    LastLine,
    /// Two columns of the last line.
    Middle,
}

fn box_of(pixels: Pixels) -> Box2i
    ensures region { IsRegion result }
    ensures columns { result.x0 ≤ℤ result.x1 }
    ensures rows { result.y0 ≤ℤ result.y1 }
{
    match pixels {
        Pixels::All => Box2i {
            x0: -2,
            y0: -2,
            x1: 1,
            y1: -1,
        },
        Pixels::FirstLine => Box2i {
            x0: -2,
            y0: -2,
            x1: 1,
            y1: -2,
        },
        Pixels::LastLine => Box2i {
            x0: -2,
            y0: -1,
            x1: 1,
            y1: -1,
        },
        Pixels::Middle => Box2i {
            x0: -1,
            y0: -1,
            x1: 0,
            y1: -1,
        },
    }
}

/// The raw bytes of a region that are copied into a buffer of bytes 255, and what it holds then.
#[derive(Clone, Copy)]
struct Case {
    planes: &'static [PlainPlane],
    window: Pixels,
    buffer: u64,
    channels: &'static [ChannelSpec<'static>],
    region: Pixels,
    raw: &'static [u8],
    into: &'static [u8],
}

const A: ChannelSpec<'static> = ChannelSpec { name: b"A", ..Y };

const TWO_CHANNELS: &[ChannelSpec<'static>] = &[A, ChannelSpec { name: b"B", ..Y }];

/// `C` has samples at each second column of each second line.
const ONE_OF_FOUR: &[ChannelSpec<'static>] = &[
    A,
    ChannelSpec {
        name: b"C",
        sampling: (2, 2),
        ..Y
    },
];

/// FLOAT samples.
const DEPTH: &[ChannelSpec<'static>] = &[ChannelSpec {
    name: b"Z",
    kind: 2,
    ..Y
}];

/// Raw bytes, each its number.
const RAW: &[u8] = &[
    1, 2, 3, 4, 5, 6, 7, 8, 9, 10, 11, 12, 13, 14, 15, 16, 17, 18, 19, 20, 21, 22, 23, 24, 25, 26,
    27, 28, 29, 30, 31, 32,
];

/// `B` and `A` side by side in each pixel, with a byte between pixels, before the first row and after each.
const PIXELS: &[PlainPlane] = &[(
    1,
    20,
    1,
    &[(
        0,
        5,
        1,
        &[(b'B', Kind::Half, 0, 0), (b'A', Kind::Half, 2, 0)],
    )],
)];

const CASES: [Case; 8] = [
    Case {
        planes: PIXELS,
        window: Pixels::All,
        buffer: 41,
        channels: TWO_CHANNELS,
        region: Pixels::All,
        raw: RAW,
        into: &[
            255, 9, 10, 1, 2, 255, 11, 12, 3, 4, 255, 13, 14, 5, 6, 255, 15, 16, 7, 8, 255, 25, 26,
            17, 18, 255, 27, 28, 19, 20, 255, 29, 30, 21, 22, 255, 31, 32, 23, 24, 255,
        ],
    },
    Case {
        planes: PIXELS,
        window: Pixels::All,
        buffer: 41,
        channels: TWO_CHANNELS,
        region: Pixels::FirstLine,
        raw: &[1, 2, 3, 4, 5, 6, 7, 8, 9, 10, 11, 12, 13, 14, 15, 16],
        into: &[
            255, 9, 10, 1, 2, 255, 11, 12, 3, 4, 255, 13, 14, 5, 6, 255, 15, 16, 7, 8, 255, 255,
            255, 255, 255, 255, 255, 255, 255, 255, 255, 255, 255, 255, 255, 255, 255, 255, 255,
            255, 255,
        ],
    },
    // a plane each, the rows of `A` a byte apart
    Case {
        planes: &[
            (0, 9, 1, &[(0, 2, 1, &[(b'A', Kind::Half, 0, 0)])]),
            (18, 8, 1, &[(0, 2, 1, &[(b'B', Kind::Half, 0, 0)])]),
        ],
        window: Pixels::All,
        buffer: 34,
        channels: TWO_CHANNELS,
        region: Pixels::All,
        raw: RAW,
        into: &[
            1, 2, 3, 4, 5, 6, 7, 8, 255, 17, 18, 19, 20, 21, 22, 23, 24, 255, 9, 10, 11, 12, 13,
            14, 15, 16, 25, 26, 27, 28, 29, 30, 31, 32,
        ],
    },
    // the row of `B` after that of `A`, with a byte between rows
    Case {
        planes: &[(
            0,
            18,
            1,
            &[
                (0, 2, 1, &[(b'A', Kind::Half, 0, 0)]),
                (9, 2, 1, &[(b'B', Kind::Half, 0, 0)]),
            ],
        )],
        window: Pixels::All,
        buffer: 35,
        channels: TWO_CHANNELS,
        region: Pixels::All,
        raw: RAW,
        into: &[
            1, 2, 3, 4, 5, 6, 7, 8, 255, 9, 10, 11, 12, 13, 14, 15, 16, 255, 17, 18, 19, 20, 21,
            22, 23, 24, 255, 25, 26, 27, 28, 29, 30, 31, 32,
        ],
    },
    // a window that cuts the chunk, and a slice that no channel of the part has
    Case {
        planes: &[
            (0, 4, 1, &[(0, 2, 1, &[(b'A', Kind::Half, 0, 0)])]),
            (5, 4, 1, &[(0, 2, 1, &[(b'Z', Kind::Half, 0, 0x0807)])]),
        ],
        window: Pixels::Middle,
        buffer: 10,
        channels: TWO_CHANNELS,
        region: Pixels::All,
        raw: RAW,
        into: &[19, 20, 21, 22, 255, 7, 8, 7, 8, 255],
    },
    // samples, and a fill, at each second column of each second line
    Case {
        planes: SPARSE,
        window: Pixels::All,
        buffer: 27,
        channels: ONE_OF_FOUR,
        region: Pixels::All,
        raw: &[
            1, 2, 3, 4, 5, 6, 7, 8, 9, 10, 11, 12, 13, 14, 15, 16, 17, 18, 19, 20,
        ],
        into: &[
            1, 2, 3, 4, 5, 6, 7, 8, 13, 14, 15, 16, 17, 18, 19, 20, 9, 10, 255, 11, 12, 7, 8, 255,
            7, 8, 255,
        ],
    },
    // a line on which neither has samples
    Case {
        planes: SPARSE,
        window: Pixels::All,
        buffer: 27,
        channels: ONE_OF_FOUR,
        region: Pixels::LastLine,
        raw: &[1, 2, 3, 4, 5, 6, 7, 8],
        into: &[
            255, 255, 255, 255, 255, 255, 255, 255, 1, 2, 3, 4, 5, 6, 7, 8, 255, 255, 255, 255,
            255, 255, 255, 255, 255, 255, 255,
        ],
    },
    // samples of four bytes and a fill of four, with a byte between them
    Case {
        planes: &[(
            0,
            18,
            1,
            &[(
                0,
                9,
                1,
                &[
                    (b'Z', Kind::Float, 0, 0),
                    (b'Y', Kind::Uint, 5, 0x1413_1211),
                ],
            )],
        )],
        window: Pixels::Middle,
        buffer: 18,
        channels: DEPTH,
        region: Pixels::Middle,
        raw: &[1, 2, 3, 4, 5, 6, 7, 8],
        into: &[
            1, 2, 3, 4, 255, 17, 18, 19, 20, 5, 6, 7, 8, 255, 17, 18, 19, 20,
        ],
    },
];

const SPARSE: &[PlainPlane] = &[
    (0, 8, 1, &[(0, 2, 1, &[(b'A', Kind::Half, 0, 0)])]),
    (16, 5, 2, &[(0, 3, 2, &[(b'C', Kind::Half, 0, 0)])]),
    (21, 5, 2, &[(0, 3, 2, &[(b'Z', Kind::Half, 0, 0x0807)])]),
];

/// The layout of a case.
fn layout_of(alloc: Global, case: &Case) -> Result<Layout, Fail> {
    let planes = planes_of(alloc, case.planes)?;
    if !has_few_slices(planes.as_slice()) {
        return Err(Fail::from("too many slices"));
    }
    match Layout::new(planes, box_of(case.window), case.buffer) {
        Ok(layout) => Ok(layout),
        Err(_) => Err(Fail::from("no layout")),
    }
}

/// A buffer of bytes 255 into which the raw bytes of a region were copied. Where it has all channels of the region, they
/// are copied out again.
fn copied(
    alloc: Global,
    layout: &Layout,
    part: &Header,
    region: Box2i,
    raw: &[u8],
) -> Result<Vec<u8>, Fail>
    requires part { IsPicture part.now }
    requires region { IsRegion region }
{
    let Ok(plan) = match_part(alloc, layout, part) else {
        return Err(Fail::from("no plan"));
    };
    let shape = Shape {
        channels: part.channels(),
        region,
    };
    let mut into = vec![in alloc; 255u8; layout.buffer() as usize]?;
    if shape.raw_size() != raw.len() as u64 || raw.len() > 32 {
        return Err(Fail::from("another size"));
    }
    scatter(layout, &plan, &shape, raw, into.as_mut_slice());
    if plan.is_full() && region.is_inside(layout.window()) {
        let again = gather(alloc, layout, &plan, &shape, into.as_slice())?;
        if again.as_slice() != raw {
            return Err(Fail::from("other bytes"));
        }
    }
    Ok(into)
}

/// The buffer of a case.
fn buffer_of(alloc: Global, case: &Case) -> Result<Vec<u8>, Fail> {
    let layout = layout_of(alloc, case)?;
    let picture = Picture {
        channels: case.channels,
        window: [-2, -2, 1, -1],
        ..ONE_PIXEL
    };
    let (head, _) = read_head(alloc, &single_head(alloc, &picture, b"")?)?;
    let [part] = head.parts() else {
        return Err(Fail::from("one part"));
    };
    copied(alloc, &layout, part, box_of(case.region), case.raw)
}

#[test]
fn samples_in_buffers(rt: HostRuntime) -> Result<(), Fail> {
    for case in CASES {
        let into = buffer_of(rt.alloc(), &case)?;
        assert_eq!(rt; into.as_slice(), case.into);
    }
    Ok(())
}
