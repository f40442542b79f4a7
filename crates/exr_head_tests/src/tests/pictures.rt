//! Faults of what a header says of its picture: channels, methods, line orders, windows, tiles, samplings and limits.

use super::heads::{DEEP, DEEP_LINES, Extra, TILED, TILES, TWO_PIXELS, extras, fault_of};
use HeaderFault::{
    BadChannels, BadLineOrder, BadSampling, BadTiles, BadWindow, Limit, UnknownCompression,
};
use exr_attributes::{Bound, HeaderFault};
use exr_fixtures::{ChannelSpec, ONE_PIXEL, Picture, flagged_head};
use std::alloc::Global;
use std::test::Fail;

type Fault = Option<HeaderFault>;

/// A channel: its name, its kind and its sampling.
type Channel = (&'static [u8], u32, (u32, u32));

/// A data window: its first column and line, and its last ones.
type Window = [i32; 4];

/// The fault of the head of one picture of these channels, in lines or in tiles.
fn listed(
    alloc: Global,
    window: Window,
    tiles: Option<(u32, u32)>,
    channels: &[Channel],
) -> Result<Fault, Fail> {
    let mut specs = Vec::new(alloc);
    for (name, kind, sampling) in channels {
        specs.push(ChannelSpec {
            name,
            kind: *kind,
            linear: 0,
            sampling: *sampling,
        })?;
    }
    let flags = if tiles.is_some() { TILED } else { 0 };
    let picture = Picture {
        channels: &specs,
        window,
        tiles,
        ..ONE_PIXEL
    };
    fault_of(alloc, &flagged_head(alloc, flags, &picture, &[])?)
}

const NO_LIST: Fault = Some(BadChannels { part: 0 });

/// Channels as a list has them, and the fault.
const CHANNELS: &[(&[Channel], Fault)] = &[
    (&[], None),
    (
        &[(b"A", 0, (1, 1)), (b"B", 1, (1, 1)), (b"b", 2, (1, 1))],
        None,
    ),
    (&[(b"B", 1, (1, 1)), (b"A", 1, (1, 1))], NO_LIST),
    (&[(b"A", 1, (1, 1)), (b"A", 1, (1, 1))], NO_LIST),
    (&[(b"", 1, (1, 1))], NO_LIST),
    (&[(b"A", 3, (1, 1))], NO_LIST),
    (&[(b"A", 1 << 31, (1, 1))], NO_LIST),
    (&[(b"A", 1, (0, 1))], NO_LIST),
    (&[(b"A", 1, (1, 0))], NO_LIST),
    (&[(b"A", 1, (1 << 31, 1))], NO_LIST),
];

/// The farthest coordinate, and the greatest side of a window.
const FAR: i32 = 1 << 30;

const SIDE: i32 = 1 << 20;

const EMPTY: Fault = Some(BadWindow { part: 0 });

const TOO_FAR: Fault = Some(Limit(Bound::Coordinates));

const TOO_LONG: Fault = Some(Limit(Bound::Side));

/// Windows of lines of one channel, and the fault.
const WINDOWS: &[(Window, Fault)] = &[
    ([10, 0, 9, 0], EMPTY),
    ([0, 1, 0, 0], EMPTY),
    ([FAR, -FAR, FAR, -FAR], None),
    ([FAR, 0, FAR + 1, 0], TOO_FAR),
    ([-FAR - 1, 0, 0, 0], TOO_FAR),
    ([0, FAR, 0, FAR + 1], TOO_FAR),
    ([0, -FAR - 1, 0, 0], TOO_FAR),
    ([-1, 0, SIDE - 2, 0], None),
    ([-1, 0, SIDE - 1, 0], TOO_LONG),
    ([0, 1, 0, SIDE], None),
    ([0, 0, 0, SIDE], TOO_LONG),
    // the first of two faults
    ([FAR + 1, 0, FAR, 0], EMPTY),
    ([-FAR - 1, 0, FAR, 0], TOO_FAR),
];

const NO_TILES: Fault = Some(BadTiles { part: 0 });

const TOO_MANY: Fault = Some(Limit(Bound::Chunks));

const TOO_GREAT: Fault = Some(Limit(Bound::RawChunk));

/// Windows in tiles of one HALF channel, the sides of a tile, and the fault.
const IN_TILES: &[(Window, (u32, u32), Fault)] = &[
    ([0, 0, 4, 4], (0, 64), NO_TILES),
    ([0, 0, 4, 4], (64, 0), NO_TILES),
    ([0, 0, 4, 4], (1 << 30, 1 << 30), None),
    ([0, 0, 4, 4], ((1 << 30) + 1, 1), NO_TILES),
    ([0, 0, 4, 4], (1, (1 << 30) + 1), NO_TILES),
    ([0, 0, 8191, 4095], (1 << 30, 1 << 30), None),
    ([0, 0, 8191, 4096], (1 << 30, 1 << 30), TOO_GREAT),
    ([0, 0, 1023, 1023], (1, 1), None),
    ([0, 0, 1023, 1024], (1, 1), TOO_MANY),
    ([0, 0, SIDE, 0], (0, 1), TOO_LONG),
];

const FIRST: Fault = Some(BadSampling {
    part: 0,
    channel: 0,
});

const SECOND: Fault = Some(BadSampling {
    part: 0,
    channel: 1,
});

/// Windows, the samplings of two channels, and their fault in lines.
const SAMPLINGS: &[(Window, (u32, u32), (u32, u32), Fault)] = &[
    ([-2, 0, 1, 3], (1, 1), (2, 2), None),
    ([0, 0, 4, 0], (1, 1), (2, 1), SECOND),
    ([1, 0, 4, 0], (1, 1), (2, 1), SECOND),
    ([0, 0, 0, 2], (1, 1), (1, 2), SECOND),
    ([0, -2, 0, 0], (1, 1), (1, 3), SECOND),
    ([0, 0, 4, 0], (5, 1), (2, 1), SECOND),
    ([0, 0, 4, 0], (2, 1), (2, 1), FIRST),
];

/// One HALF channel.
const HALF: &[Channel] = &[(b"Y", 1, (1, 1))];

#[test]
fn channels_windows_and_tiles(rt: HostRuntime) -> Result<(), Fail> {
    for (channels, fault) in CHANNELS {
        assert!(rt; listed(rt.alloc(), [0; 4], None, channels)? == *fault);
    }
    for (window, fault) in WINDOWS {
        assert!(rt; listed(rt.alloc(), *window, None, HALF)? == *fault);
    }
    for (window, tiles, fault) in IN_TILES {
        assert!(rt; listed(rt.alloc(), *window, Some(*tiles), HALF)? == *fault);
    }
    for (window, first, second, fault) in SAMPLINGS {
        let channels = [(b"A".as_slice(), 1, *first), (b"B", 1, *second)];
        assert!(rt; listed(rt.alloc(), *window, None, &channels)? == *fault);
    }
    Ok(())
}

/// A method and a line order, and the faults of a part in lines, of one in tiles, and of a deep one in lines.
type Chosen = (u8, u8, Fault, Fault, Fault);

/// The flags of a file, and the picture and the other attributes of its part.
type Form = (u32, Picture<'static>, &'static [Extra]);

const LINES_FORM: Form = (0, ONE_PIXEL, &[]);

const TILED_FORM: Form = (TILED, TILES, &[]);

const DEEP_FORM: Form = (DEEP, TWO_PIXELS, DEEP_LINES);

const NO_PIZ: Fault = Some(UnknownCompression { part: 0, number: 4 });

const NO_NINE: Fault = Some(UnknownCompression { part: 0, number: 9 });

const NO_TWELVE: Fault = Some(UnknownCompression {
    part: 0,
    number: 12,
});

const NO_RANDOM: Fault = Some(BadLineOrder { part: 0, number: 2 });

const NO_ORDER: Fault = Some(BadLineOrder { part: 0, number: 3 });

const CHOSEN: &[Chosen] = &[
    (0, 0, None, None, None),
    (3, 1, None, None, None),
    (4, 0, None, None, NO_PIZ),
    (9, 0, None, None, NO_NINE),
    (12, 0, NO_TWELVE, NO_TWELVE, NO_TWELVE),
    (0, 2, NO_RANDOM, None, NO_RANDOM),
    (0, 3, NO_ORDER, NO_ORDER, NO_ORDER),
    // the method before the order
    (12, 3, NO_TWELVE, NO_TWELVE, NO_TWELVE),
];

/// The fault of a part under another method and order.
fn chosen(
    alloc: Global,
    (flags, picture, more): Form,
    method: u8,
    order: u8,
) -> Result<Fault, Fail> {
    let picture = Picture {
        method,
        order,
        ..picture
    };
    fault_of(
        alloc,
        &flagged_head(alloc, flags, &picture, &extras(alloc, more)?)?,
    )
}

#[test]
fn methods_and_orders(rt: HostRuntime) -> Result<(), Fail> {
    for (method, order, lines, tiles, deep) in CHOSEN {
        assert!(rt; chosen(rt.alloc(), LINES_FORM, *method, *order)? == *lines);
        assert!(rt; chosen(rt.alloc(), TILED_FORM, *method, *order)? == *tiles);
        assert!(rt; chosen(rt.alloc(), DEEP_FORM, *method, *order)? == *deep);
    }
    Ok(())
}
