//! Layouts by worked values: each fault by its first slice or plane, and layouts matched with the channels of a part.

use super::planes::{PlainPlane, PlainSlice, planes_of};
use exr_base::{Box2i, Kind, Refusal};
use exr_fixtures::{ChannelSpec, ONE_PIXEL, Picture, Y, single_head};
use exr_header::read_head;
use exr_layout::{Layout, LayoutFault, MatchFault, has_few_slices, match_part};
use std::alloc::Global;
use std::test::Fail;

/// Two pixels.
const WINDOW: Box2i = Box2i {
    x0: 0,
    y0: 0,
    x1: 1,
    y1: 0,
};

/// The slices `A` and `B`, side by side, and with an overlap of one byte.
const PAIR: &[PlainSlice] = &[(b'A', Kind::Half, 0, 0), (b'B', Kind::Half, 2, 0)];

const CROSSED: &[PlainSlice] = &[(b'A', Kind::Half, 0, 0), (b'B', Kind::Half, 1, 0)];

const PAIRS: &[PlainPlane] = &[(0, 8, 1, &[(0, 4, 1, PAIR)])];

/// Planes, the bytes of the buffer, and the first fault of the layout over two pixels.
type Case = (&'static [PlainPlane], u64, Option<LayoutFault>);

const CASES: [Case; 12] = [
    (PAIRS, 8, None),
    // the greatest offset
    (&[(1 << 40, 8, 1, &[(0, 4, 1, PAIR)])], (1 << 40) + 8, None),
    (
        &[(0, 8, 1, &[(0, 4, 1, PAIR)]), (0, 8, 1, &[])],
        8,
        Some(LayoutFault::Empty { plane: 1 }),
    ),
    (
        &[(0, (1 << 40) + 1, 1, &[(0, 4, 1, PAIR)])],
        8,
        Some(LayoutFault::Huge { plane: 0 }),
    ),
    (
        &[(0, 8, 1, &[(0, 4, 1, PAIR)]), (0, 8, 1, &[(0, 4, 1, PAIR)])],
        16,
        Some(LayoutFault::TwiceChannel {
            first: 0,
            second: 2,
        }),
    ),
    (
        &[(0, 8, 0, &[(0, 4, 1, PAIR)])],
        8,
        Some(LayoutFault::ZeroSampling { slice: 0 }),
    ),
    (
        &[(0, 8, 1, &[(0, 4, 0, PAIR)])],
        8,
        Some(LayoutFault::ZeroSampling { slice: 0 }),
    ),
    (
        &[(0, 8, 1, &[(0, 2, 1, CROSSED)])],
        8,
        Some(LayoutFault::Overlap {
            first: 0,
            second: 1,
        }),
    ),
    (
        &[(0, 8, 1, &[(0, 3, 1, PAIR)])],
        8,
        Some(LayoutFault::ShortStride { slice: 1 }),
    ),
    (
        &[(0, 7, 1, &[(0, 4, 1, PAIR)])],
        8,
        Some(LayoutFault::ShortStride { slice: 1 }),
    ),
    (
        &[(0, 8, 1, &[(0, 4, 1, PAIR)])],
        7,
        Some(LayoutFault::OutOfBuffer { slice: 1 }),
    ),
    (
        &[(1, 8, 1, &[(0, 4, 1, PAIR)])],
        8,
        Some(LayoutFault::OutOfBuffer { slice: 1 }),
    ),
];

/// A layout over two pixels, or the first fault.
fn layout_of(
    alloc: Global,
    table: &[PlainPlane],
    buffer: u64,
) -> Result<Result<Layout, LayoutFault>, Fail> {
    let planes = planes_of(alloc, table)?;
    if !has_few_slices(planes.as_slice()) {
        return Err(Fail::from("too many slices"));
    }
    Ok(Layout::new(planes, WINDOW, buffer))
}

/// The first fault of planes over two pixels.
fn fault_of(alloc: Global, table: &[PlainPlane], buffer: u64) -> Result<Option<LayoutFault>, Fail> {
    match layout_of(alloc, table, buffer)? {
        Ok(layout) => {
            if layout.buffer() == buffer && layout.window() == WINDOW {
                Ok(None)
            } else {
                Err(Fail::from("another layout"))
            }
        }
        Err(fault) => Ok(Some(fault)),
    }
}

#[test]
fn faults_of_layouts(rt: HostRuntime) -> Result<(), Fail> {
    for (planes, buffer, fault) in CASES {
        assert_eq!(rt; fault_of(rt.alloc(), planes, buffer)?, fault);
    }
    assert_eq!(rt; LayoutFault::Empty { plane: 0 }.number(), 1);
    assert_eq!(rt; LayoutFault::OutOfBuffer { slice: 0 }.number(), 7);
    assert_eq!(rt; MatchFault::WindowOutside.number(), 1);
    assert_eq!(rt; MatchFault::SamplingDiffers { slice: 0 }.number(), 3);
    Ok(())
}

/// The last column of a part of two lines, its channel, and what differs from the layout of `A` and `B`.
type Match = (i32, ChannelSpec<'static>, Option<MatchFault>);

const A: ChannelSpec<'static> = ChannelSpec { name: b"A", ..Y };

const MATCHES: [Match; 5] = [
    (1, A, None),
    (0, A, Some(MatchFault::WindowOutside)),
    (
        1,
        ChannelSpec { kind: 2, ..A },
        Some(MatchFault::KindDiffers { slice: 0 }),
    ),
    (
        1,
        ChannelSpec {
            sampling: (2, 1),
            ..A
        },
        Some(MatchFault::SamplingDiffers { slice: 0 }),
    ),
    (
        1,
        ChannelSpec {
            sampling: (1, 2),
            ..A
        },
        Some(MatchFault::SamplingDiffers { slice: 0 }),
    ),
];

/// What differs between the layout of `A` and `B` and a part; `None` where the part's channel is that of `A`.
fn difference(alloc: Global, right: i32, channel: ChannelSpec) -> Result<Option<MatchFault>, Fail> {
    let Ok(layout) = layout_of(alloc, PAIRS, 8)? else {
        return Err(Fail::from("no layout"));
    };
    let picture = Picture {
        channels: &[channel],
        window: [0, 0, right, 1],
        ..ONE_PIXEL
    };
    let (head, _) = read_head(alloc, &single_head(alloc, &picture, b"")?)?;
    let [part] = head.parts() else {
        return Err(Fail::from("one part"));
    };
    match match_part(alloc, &layout, part) {
        Ok(plan) => {
            if plan.slice_count() == 2 && plan.channel(0) == Some(0) && plan.channel(1).is_none() {
                Ok(None)
            } else {
                Err(Fail::from("another plan"))
            }
        }
        Err(Refusal::Fault(fault)) => Ok(Some(fault)),
        Err(Refusal::NoMemory) => Err(Fail::from("memory")),
    }
}

#[test]
fn slices_and_channels(rt: HostRuntime) -> Result<(), Fail> {
    for (right, channel, fault) in MATCHES {
        assert_eq!(rt; difference(rt.alloc(), right, channel)?, fault);
    }
    Ok(())
}
