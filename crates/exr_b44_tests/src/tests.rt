//! Each sum of expected values is that of a slow program in another language, which packs and unpacks cell by cell.

ghost use Rattle.std.specs.Prelude.{◌≤◌, All, IfOk, length};
ghost use Rattle.exr_base.specs.Shape.{IsRegion, IsSampled};
ghost use Rattle.exr_b44.specs.Block.{IsPlain};

use exr_b44::{B44Fault, pack, unpack};
use exr_base::{Box2i, Channel, Kind, Name, Refusal, Shape};
use std::alloc::Global;
use std::test::Fail;

/// The channels of a region, each by its kind and its samplings.
type Kinds = &'static [(Kind, u32, u32)];

const HALF: Kinds = &[(Kind::Half, 1, 1)];

const ALL_KINDS: Kinds = &[(Kind::Uint, 1, 1), (Kind::Half, 1, 1), (Kind::Float, 1, 1)];

const SAMPLED: Kinds = &[(Kind::Half, 2, 2), (Kind::Float, 3, 2), (Kind::Half, 1, 1)];

const ODD_LINES: Kinds = &[(Kind::Half, 1, 7)];

/// A channel, sampled by at least 1 each way.
fn channel(kind: Kind, xs: u32, ys: u32) -> Result<Channel, Fail>
    ensures sampled { IfOk result IsSampled }
    ensures plain { IfOk result IsPlain }
{
    Ok(Channel {
        name: Name::new(b"Z").ok_or("no name")?,
        kind,
        linear: 0,
        xs: xs.max(1),
        ys: ys.max(1),
    })
}

fn channels_of(alloc: Global, kinds: Kinds) -> Result<Vec<Channel>, Fail>
    ensures sampled { IfOk result (λ channels. All IsSampled channels.items) }
    ensures plain { IfOk result (λ channels. All IsPlain channels.items) }
    ensures few { IfOk result (λ channels. length channels.items ≤ 1024) }
{
    if kinds.len() > 8 {
        return Err("too many channels".into());
    }
    let mut channels = Vec::new(alloc);
    for (kind, xs, ys) in kinds {
        channels.push(channel(*kind, *xs, *ys)?)?;
    }
    Ok(channels)
}

/// A region from (-1, 1) on.
fn region_of(columns: u8, lines: u8) -> Box2i
    ensures { IsRegion result }
{
    Box2i {
        x0: -1,
        y0: 1,
        x1: columns as i32 - 2,
        y1: lines as i32,
    }
}

/// The packed data of bytes, of as many as the raw data has.
fn packed(
    alloc: Global,
    kinds: Kinds,
    columns: u8,
    lines: u8,
    flat: bool,
    bytes: &[u8],
) -> Result<Vec<u8>, Fail> {
    let channels = channels_of(alloc, kinds)?;
    let shape = Shape {
        channels: &channels,
        region: region_of(columns, lines),
    };
    let size = shape.raw_size();
    if size > 1 << 26 || size > bytes.len() as u64 {
        return Err("too few bytes".into());
    }
    Ok(pack(alloc, &bytes[..size as usize], &shape, flat)?)
}

/// What packed data gives.
fn unpacked(
    alloc: Global,
    kinds: Kinds,
    columns: u8,
    lines: u8,
    bytes: &[u8],
) -> Result<Result<Vec<u8>, B44Fault>, Fail> {
    let channels = channels_of(alloc, kinds)?;
    let shape = Shape {
        channels: &channels,
        region: region_of(columns, lines),
    };
    if shape.raw_size() > 1 << 26 {
        return Err("too large".into());
    }
    Ok(match unpack(alloc, bytes, &shape) {
        Ok(raw) => Ok(raw),
        Err(Refusal::Fault(fault)) => Err(fault),
        Err(Refusal::NoMemory) => return Err("no memory".into()),
    })
}

fn with_bytes(sum: u64, bytes: &[u8]) -> u64 {
    let mut all = sum;
    for byte in bytes {
        all = all.wrapping_mul(31).wrapping_add(u64::from(*byte));
    }
    all
}

/// A number for what packed data gives: 1 for Short, 2 for Long, and 3 plus a sum of raw data.
fn outcome(found: Result<Vec<u8>, B44Fault>) -> u64 {
    match found {
        Err(B44Fault::Short) => 1,
        Err(B44Fault::Long) => 2,
        Ok(raw) => with_bytes(0, &raw).wrapping_add(3),
    }
}

// The halves of a line each, packed under B44 and B44A, and what both give: sixteen times 1, fifteen times 1 and a little
// more, an infinity in a cell that is cut on both sides, a negative zero beside a zero, and a number that is none.
#[test]
fn worked_cells(rt: HostRuntime) -> Result<(), Fail> {
    let cases: [(u8, u8, &[u8], &[u8], &[u8], &[u8]); 5] = [
        (
            4,
            4,
            &[
                0x00, 0x3c, 0x00, 0x3c, 0x00, 0x3c, 0x00, 0x3c, 0x00, 0x3c, 0x00, 0x3c, 0x00, 0x3c,
                0x00, 0x3c, 0x00, 0x3c, 0x00, 0x3c, 0x00, 0x3c, 0x00, 0x3c, 0x00, 0x3c, 0x00, 0x3c,
                0x00, 0x3c, 0x00, 0x3c,
            ],
            &[
                0xbc, 0x00, 0x02, 0x08, 0x20, 0x82, 0x08, 0x20, 0x82, 0x08, 0x20, 0x82, 0x08, 0x20,
            ],
            &[0xbc, 0x00, 0xfc],
            &[
                0x00, 0x3c, 0x00, 0x3c, 0x00, 0x3c, 0x00, 0x3c, 0x00, 0x3c, 0x00, 0x3c, 0x00, 0x3c,
                0x00, 0x3c, 0x00, 0x3c, 0x00, 0x3c, 0x00, 0x3c, 0x00, 0x3c, 0x00, 0x3c, 0x00, 0x3c,
                0x00, 0x3c, 0x00, 0x3c,
            ],
        ),
        (
            4,
            4,
            &[
                0x00, 0x3c, 0x00, 0x3c, 0x00, 0x3c, 0x00, 0x3c, 0x00, 0x3c, 0x00, 0x3c, 0x00, 0x3c,
                0x00, 0x3c, 0x00, 0x3c, 0x00, 0x3c, 0x00, 0x3c, 0x00, 0x3c, 0x00, 0x3c, 0x00, 0x3c,
                0x00, 0x3c, 0x21, 0x3c,
            ],
            &[
                0xbc, 0x01, 0x06, 0x08, 0x20, 0x82, 0x08, 0x20, 0x82, 0x08, 0x20, 0x82, 0x08, 0x30,
            ],
            &[
                0xbc, 0x01, 0x06, 0x08, 0x20, 0x82, 0x08, 0x20, 0x82, 0x08, 0x20, 0x82, 0x08, 0x30,
            ],
            &[
                0x01, 0x3c, 0x01, 0x3c, 0x01, 0x3c, 0x01, 0x3c, 0x01, 0x3c, 0x01, 0x3c, 0x01, 0x3c,
                0x01, 0x3c, 0x01, 0x3c, 0x01, 0x3c, 0x01, 0x3c, 0x01, 0x3c, 0x01, 0x3c, 0x01, 0x3c,
                0x01, 0x3c, 0x21, 0x3c,
            ],
        ),
        (
            1,
            1,
            &[0x00, 0x7c],
            &[
                0x80, 0x00, 0x02, 0x08, 0x20, 0x82, 0x08, 0x20, 0x82, 0x08, 0x20, 0x82, 0x08, 0x20,
            ],
            &[0x80, 0x00, 0xfc],
            &[0x00, 0x00],
        ),
        (
            2,
            1,
            &[0x00, 0x80, 0x00, 0x00],
            &[
                0x7f, 0xff, 0x02, 0x08, 0x20, 0x86, 0x18, 0x61, 0x82, 0x08, 0x20, 0x82, 0x08, 0x20,
            ],
            &[
                0x7f, 0xff, 0x02, 0x08, 0x20, 0x86, 0x18, 0x61, 0x82, 0x08, 0x20, 0x82, 0x08, 0x20,
            ],
            &[0x00, 0x80, 0x00, 0x00],
        ),
        (
            3,
            1,
            &[0x00, 0x3c, 0x01, 0x7e, 0x00, 0xbc],
            &[
                0xbc, 0x00, 0x26, 0x08, 0x20, 0x08, 0x20, 0x82, 0x08, 0x20, 0x82, 0x82, 0x08, 0x20,
            ],
            &[
                0xbc, 0x00, 0x26, 0x08, 0x20, 0x08, 0x20, 0x82, 0x08, 0x20, 0x82, 0x82, 0x08, 0x20,
            ],
            &[0x00, 0x3c, 0x00, 0x00, 0xff, 0xbb],
        ),
    ];
    for (columns, lines, raw, long, short, kept) in cases {
        for (flat, expected) in [(false, long), (true, short)] {
            let found = packed(rt.alloc(), HALF, columns, lines, flat, raw)?;
            assert_eq!(rt; found.as_slice(), expected);
            let again = unpacked(rt.alloc(), HALF, columns, lines, expected)?;
            assert_eq!(rt; again.ok().ok_or("a fault")?.as_slice(), kept);
        }
    }
    Ok(())
}

/// Bytes of which neighbours differ little, so that cells have different shifts, and some cells of one value.
fn grain(alloc: Global, size: usize, seed: u32) -> Result<Vec<u8>, Fail> {
    let mut bytes = Vec::new(alloc);
    let mut state = seed;
    for k in 0..size {
        state = state.wrapping_mul(1664525).wrapping_add(1013904223);
        let wide = ((state >> (24 + k / 97 % 8)) & 0xff) as u8;
        bytes.push(if k % 2 == 0 { wide } else { 0x3c ^ (wide >> 5) })?;
    }
    Ok(bytes)
}

/// Adds the packed data of a region to a sum, and the data that it keeps.
fn with_region(
    alloc: Global,
    sum: u64,
    kinds: Kinds,
    columns: u8,
    lines: u8,
    bytes: &[u8],
) -> Result<u64, Fail> {
    let mut all = sum;
    for flat in [false, true] {
        let found = packed(alloc, kinds, columns, lines, flat, bytes)?;
        all = with_bytes(all, &found);
        let again = unpacked(alloc, kinds, columns, lines, &found)?;
        all = all.wrapping_mul(31).wrapping_add(outcome(again));
    }
    Ok(all)
}

// No columns or lines up to nine, of no channels, of kinds that stand as they are, of samplings, and without samples.
#[test]
fn shapes(rt: HostRuntime) -> Result<(), Fail> {
    let bytes = grain(rt.alloc(), 4096, 7)?;
    let cases: [(Kinds, u64); 5] = [
        (&[], 1317672363659175552),
        (HALF, 3541646029500635670),
        (ALL_KINDS, 17142171181146658006),
        (SAMPLED, 14028474873891508850),
        (ODD_LINES, 4097369368480093124),
    ];
    for (kinds, expected) in cases {
        let mut sum = 0;
        for columns in 0..10u8 {
            for lines in [0, 1, 2, 4, 6, 9u8] {
                sum = with_region(rt.alloc(), sum, kinds, columns, lines, &bytes)?;
            }
        }
        assert_eq!(rt; sum, expected);
    }
    Ok(())
}

// Each front of packed data is Short, and a byte more is Long.
#[test]
fn ends(rt: HostRuntime) -> Result<(), Fail> {
    let bytes = grain(rt.alloc(), 4096, 1)?;
    for kinds in [HALF, ALL_KINDS, SAMPLED, ODD_LINES] {
        for flat in [false, true] {
            let mut found = packed(rt.alloc(), kinds, 6, 7, flat, &bytes)?;
            for len in 0..found.len() {
                let front = unpacked(rt.alloc(), kinds, 6, 7, &found[..len])?;
                assert_eq!(rt; front.err(), Some(B44Fault::Short));
            }
            found.push(0)?;
            let more = unpacked(rt.alloc(), kinds, 6, 7, &found)?;
            assert_eq!(rt; more.err(), Some(B44Fault::Long));
        }
    }
    Ok(())
}

// Each byte replaced by each other one: another third byte of a cell makes it longer or shorter.
#[test]
fn one_byte_changes(rt: HostRuntime) -> Result<(), Fail> {
    let bytes = grain(rt.alloc(), 4096, 3)?;
    for (kinds, flat, expected) in [
        (HALF, true, 13580338628938190454),
        (SAMPLED, false, 2173532571262943696),
    ] {
        let mut changed = packed(rt.alloc(), kinds, 6, 5, flat, &bytes)?;
        let mut sum = 0u64;
        for place in 0..changed.len() {
            let byte = changed[place];
            for change in 1..=255u8 {
                changed[place] = byte ^ change;
                let found = unpacked(rt.alloc(), kinds, 6, 5, &changed)?;
                sum = sum.wrapping_mul(31).wrapping_add(outcome(found));
            }
            changed[place] = byte;
        }
        assert_eq!(rt; sum, expected);
    }
    Ok(())
}
