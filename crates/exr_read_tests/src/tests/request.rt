//! Requests: the bytes of buffers and the places of slices in them, and each reason to refuse.

use super::asked::{ALL, Request, asked_of};
use super::expect;
use exr_base::{Box2i, Kind, Name, NoMemory, Refusal};
use exr_fixtures::{ChannelSpec, ONE_PIXEL, Picture, Y, flagged_head};
use exr_header::read_head;
use exr_layout::{LayoutFault, MatchFault, Plan, Run};
use exr_request::{Arrangement, Asked, Choices, Fitted, Granted, RequestFault, Wanted, request};
use std::alloc::Global;
use std::test::Fail;

/// A slice in a buffer: where its plane begins and the bytes from one of its rows to the next, its place in a row and the
/// bytes from one column to the next, and its channel.
type Placed = (u64, u64, u64, u64, Option<u32>);

/// The picture of a part, what is asked of it, and the bytes of the buffer with its slices, or why that is refused.
type Case = (
    Picture<'static>,
    Request,
    Result<(u64, &'static [Placed]), RequestFault>,
);

const B: ChannelSpec<'static> = ChannelSpec { name: b"B", ..Y };

const G: ChannelSpec<'static> = ChannelSpec { name: b"G", ..Y };

const R: ChannelSpec<'static> = ChannelSpec { name: b"R", ..Y };

const Z: ChannelSpec<'static> = ChannelSpec {
    name: b"Z",
    kind: 2,
    ..Y
};

/// Samples at each second column, and at each second line too.
const U: ChannelSpec<'static> = ChannelSpec {
    name: b"U",
    sampling: (2, 1),
    ..Y
};

const HALVED: ChannelSpec<'static> = ChannelSpec {
    sampling: (2, 2),
    ..Y
};

/// Four by three pixels.
const COLOURS: Picture<'static> = Picture {
    channels: &[B, G, R],
    window: [0, 0, 3, 2],
    ..ONE_PIXEL
};

const DEPTH: Picture<'static> = Picture {
    channels: &[G, Z],
    window: [0, 0, 3, 2],
    ..ONE_PIXEL
};

/// Four by four pixels about (0, 0).
const SPARSE: Picture<'static> = Picture {
    channels: &[HALVED],
    window: [-2, -2, 1, 1],
    ..ONE_PIXEL
};

const MIXED: Picture<'static> = Picture {
    channels: &[U, Y],
    window: [-2, -2, 1, 1],
    ..ONE_PIXEL
};

/// 2^29 pixels and 32,768 more.
const LARGE: Picture<'static> = Picture {
    window: [0, 0, 32767, 16384],
    ..ONE_PIXEL
};

/// Two pixels whose last one stands at the greatest column and line, or whose first one at the least.
const END: Picture<'static> = Picture {
    window: [(1 << 30) - 1, 1 << 30, 1 << 30, 1 << 30],
    ..ONE_PIXEL
};

const BEGINNING: Picture<'static> = Picture {
    window: [-(1 << 30), -(1 << 30), 1 - (1 << 30), -(1 << 30)],
    ..ONE_PIXEL
};

const PIXELS: Request = Request {
    layout: Arrangement::Pixels,
    ..ALL
};

const LINES: Request = Request {
    layout: Arrangement::Lines,
    ..ALL
};

const WINDOW: Result<(u64, &[Placed]), RequestFault> = Err(RequestFault::Window);

const CASES: &[Case] = &[
    // pixel by pixel, line by line and plane by plane, also with padding
    (
        COLOURS,
        Request { pad: 2, ..PIXELS },
        Ok((
            96,
            &[
                (0, 32, 0, 8, Some(0)),
                (0, 32, 2, 8, Some(1)),
                (0, 32, 4, 8, Some(2)),
            ],
        )),
    ),
    (
        DEPTH,
        LINES,
        Ok((72, &[(0, 24, 0, 2, Some(0)), (0, 24, 8, 4, Some(1))])),
    ),
    (
        DEPTH,
        ALL,
        Ok((72, &[(0, 8, 0, 2, Some(0)), (24, 16, 0, 4, Some(1))])),
    ),
    (
        DEPTH,
        Request { pad: 1, ..LINES },
        Ok((75, &[(0, 25, 0, 2, Some(0)), (0, 25, 8, 4, Some(1))])),
    ),
    (
        DEPTH,
        Request { pad: 1, ..ALL },
        Ok((78, &[(0, 9, 0, 2, Some(0)), (27, 17, 0, 4, Some(1))])),
    ),
    // channels of the request, of which the part lacks one
    (
        ONE_PIXEL,
        Request {
            channels: Some(&[(b"Y", None), (b"A", None)]),
            ..ALL
        },
        Ok((4, &[(0, 2, 0, 2, Some(0)), (2, 2, 0, 2, None)])),
    ),
    (
        DEPTH,
        Request {
            channels: Some(&[(b"Z", Some(Kind::Float)), (b"A", Some(Kind::Uint))]),
            ..PIXELS
        },
        Ok((96, &[(0, 32, 0, 8, Some(1)), (0, 32, 4, 8, None)])),
    ),
    (
        ONE_PIXEL,
        Request {
            channels: Some(&[(b"Y", None), (b"Y", None)]),
            ..ALL
        },
        Err(RequestFault::Layout(LayoutFault::TwiceChannel {
            first: 0,
            second: 1,
        })),
    ),
    (
        ONE_PIXEL,
        Request {
            channels: Some(&[(b"A", None), (b"Y", Some(Kind::Float))]),
            ..ALL
        },
        Err(RequestFault::Match(MatchFault::KindDiffers { slice: 1 })),
    ),
    // windows, also of pixels without samples
    (SPARSE, ALL, Ok((8, &[(0, 4, 0, 2, Some(0))]))),
    (
        SPARSE,
        Request {
            window: Some([-1, -1, 1, 1]),
            ..ALL
        },
        Ok((2, &[(0, 2, 0, 2, Some(0))])),
    ),
    (
        SPARSE,
        Request {
            window: Some([1, 1, 1, 1]),
            ..ALL
        },
        Ok((0, &[(0, 0, 0, 2, Some(0))])),
    ),
    (
        ONE_PIXEL,
        Request {
            window: Some([0, 0, 1, 0]),
            ..ALL
        },
        WINDOW,
    ),
    (
        ONE_PIXEL,
        Request {
            window: Some([0, 0, -1, 0]),
            ..ALL
        },
        WINDOW,
    ),
    (END, ALL, Ok((4, &[(0, 4, 0, 2, Some(0))]))),
    (
        END,
        Request {
            window: Some([1 << 30, 1 << 30, 1 << 30, 1 << 30]),
            ..ALL
        },
        Ok((2, &[(0, 2, 0, 2, Some(0))])),
    ),
    (BEGINNING, ALL, Ok((4, &[(0, 4, 0, 2, Some(0))]))),
    (
        BEGINNING,
        Request {
            window: Some([i32::MIN, i32::MIN, i32::MAX, i32::MAX]),
            ..ALL
        },
        WINDOW,
    ),
    // the largest buffer, and a larger one
    (
        LARGE,
        Request {
            window: Some([0, 1, 32767, 16384]),
            ..ALL
        },
        Ok((1073741824, &[(0, 65536, 0, 2, Some(0))])),
    ),
    (LARGE, ALL, Err(RequestFault::TooLarge)),
    // a part that is not there, and a method that is no matter of a request
    (
        Picture {
            method: 3,
            ..ONE_PIXEL
        },
        ALL,
        Ok((2, &[(0, 2, 0, 2, Some(0))])),
    ),
    (
        ONE_PIXEL,
        Request { part: 1, ..ALL },
        Err(RequestFault::NoPart),
    ),
    // channels of unlike samplings
    (
        MIXED,
        LINES,
        Ok((48, &[(0, 12, 0, 2, Some(0)), (0, 12, 4, 2, Some(1))])),
    ),
    (MIXED, PIXELS, Err(RequestFault::Mixed { slice: 1 })),
];

/// Appends the slices of a run, whose plane begins at `base` and has rows `stride` bytes apart.
fn put_run(
    placed: &mut Vec<Placed>,
    (base, stride): (u64, u64),
    run: &Run,
    plan: &Plan,
) -> Result<(), NoMemory> {
    for slice in &run.slices {
        let number = placed.len();
        if number >= plan.slice_count() {
            return Err(NoMemory);
        }
        let place = run.at.saturating_add(slice.at);
        placed.push((base, stride, place, run.stride, plan.channel(number)))?;
    }
    Ok(())
}

/// The slices of what is granted.
fn placed_in(alloc: Global, granted: &Fitted) -> Result<Vec<Placed>, NoMemory> {
    let mut placed = Vec::new(alloc);
    for plane in granted.layout.planes() {
        for run in &plane.runs {
            put_run(&mut placed, (plane.base, plane.stride), run, &granted.plan)?;
        }
    }
    Ok(placed)
}

/// What is granted of the head of a picture under some flags of the version word, and with more attributes, or why that is
/// refused.
fn answered(
    alloc: Global,
    (flags, picture, more): (u32, &Picture, &[u8]),
    asked: &Request,
) -> Result<Result<Granted, Refusal<RequestFault>>, Fail> {
    let (head, _) = read_head(alloc, &flagged_head(alloc, flags, picture, more)?)?;
    let asked = asked_of(alloc, asked)?;
    Ok(request(alloc, &head, &asked))
}

/// Whether a case is answered as it says.
fn is_right(alloc: Global, (picture, asked, wanted): &Case) -> Result<bool, Fail> {
    match answered(alloc, (0, picture, b""), asked)? {
        Ok(Granted::Flat(granted)) => match wanted {
            Ok((bytes, slices)) => Ok(
                granted.layout.buffer() == *bytes
                    && placed_in(alloc, &granted)?.as_slice() == *slices,
            ),
            Err(_) => Ok(false),
        },
        Err(Refusal::Fault(fault)) => Ok(wanted.err() == Some(fault)),
        _ => Ok(false),
    }
}

#[test]
fn answers(rt: HostRuntime) -> Result<(), Fail> {
    for (number, case) in CASES.iter().enumerate() {
        expect(&rt, number, is_right(rt.alloc(), case)?);
    }
    Ok(())
}

/// The flag of a file with a deep part, and the attributes that such a part has besides.
const DEEP: (u32, &[u8]) = (
    0x800,
    b"type\0string\0\x0c\0\0\0deepscanlineversion\0int\0\x04\0\0\0\x01\0\0\0",
);

/// One pixel.
const PIXEL: Box2i = Box2i {
    x0: 0,
    y0: 0,
    x1: 0,
    y1: 0,
};

/// What is asked of a deep part, and its window or why it is refused.
const OF_DEEP: &[(Request, Result<Box2i, RequestFault>)] = &[
    (ALL, Ok(PIXEL)),
    (
        Request {
            window: Some([0, 0, 0, 0]),
            ..ALL
        },
        Ok(PIXEL),
    ),
    (
        Request {
            arranged: true,
            ..ALL
        },
        Err(RequestFault::DeepWords),
    ),
    // the words before the window
    (
        Request {
            arranged: true,
            window: Some([7, 7, 7, 7]),
            ..ALL
        },
        Err(RequestFault::DeepWords),
    ),
    (
        Request {
            window: Some([7, 7, 7, 7]),
            ..ALL
        },
        Err(RequestFault::Window),
    ),
    (
        Request {
            window: Some([0, 0, -1, 0]),
            ..ALL
        },
        Err(RequestFault::Window),
    ),
    // a part that is not there before the words
    (
        Request {
            part: 1,
            arranged: true,
            ..ALL
        },
        Err(RequestFault::NoPart),
    ),
];

#[test]
fn deep_parts(rt: HostRuntime) -> Result<(), Fail> {
    let (flags, more) = DEEP;
    for (number, (asked, wanted)) in OF_DEEP.iter().enumerate() {
        let is_right = match answered(rt.alloc(), (flags, &ONE_PIXEL, more), asked)? {
            Ok(Granted::Deep(window)) => *wanted == Ok(window),
            Err(Refusal::Fault(fault)) => *wanted == Err(fault),
            _ => false,
        };
        expect(&rt, number, is_right);
    }
    Ok(())
}

/// Whether a part, padding and a fill are asked for, and samples in planes or in lines, and whether a deep part does not
/// take that.
fn asks(asked: &Asked, numbers: (u32, u32, u32), layout: Arrangement, arranged: bool) -> bool {
    let (part, pad, fill) = numbers;
    asked.part == part
        && asked.pad == pad
        && asked.fill == fill
        && asked.layout == layout
        && asked.arranged == arranged
        && asked.window.is_none()
}

#[test]
fn choices(rt: HostRuntime) -> Result<(), Fail> {
    let asked = Asked::new(Choices::none());
    expect(&rt, 0, asks(&asked, (0, 0, 0), Arrangement::Planar, false));
    expect(&rt, 1, asked.channels.is_none());
    let wanted = Wanted {
        name: Name::new(b"Y").ok_or("a name")?,
        kind: Some(Kind::Half),
    };
    let asked = Asked::new(Choices {
        part: Some(1),
        window: None,
        layout: Some(Arrangement::Lines),
        channels: Some(vec![in rt.alloc(); wanted]?),
        pad: Some(2),
        fill: Some(3),
        byte: Some(4),
        workers: Some(5),
    });
    expect(&rt, 2, asks(&asked, (1, 2, 3), Arrangement::Lines, true));
    let count = match &asked.channels {
        Some(channels) => channels.len(),
        None => 0,
    };
    expect(&rt, 3, count == 1);
    Ok(())
}

/// Why a request is refused, and the number of that.
const NUMBERS: &[(RequestFault, u8)] = &[
    (RequestFault::NoPart, 1),
    (RequestFault::DeepWords, 2),
    (RequestFault::Window, 3),
    (RequestFault::Mixed { slice: 1 }, 4),
    (RequestFault::Layout(LayoutFault::Empty { plane: 0 }), 5),
    (RequestFault::TooLarge, 6),
    (RequestFault::Match(MatchFault::WindowOutside), 7),
    (RequestFault::DeepTooLarge { index: 0 }, 11),
];

#[test]
fn numbers(rt: HostRuntime) {
    for (case, (fault, number)) in NUMBERS.iter().enumerate() {
        expect(&rt, case, fault.number() == *number);
    }
}
