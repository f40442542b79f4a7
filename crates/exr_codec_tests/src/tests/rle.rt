//! The worked values, and many short lists against a slow program that is the definition.

use super::expect;
use exr_base::{NoMemory, Refusal};
use exr_rle::{RleBroken, pack, unpack};
use std::alloc::Global;
use std::process::Abort;
use std::slice::Iter;
use std::test::Fail;

const FOUR_HALVES: &[u8] = &[0x00, 0x3c, 0x00, 0x3c, 0x00, 0x3c, 0x00, 0x3c];

const FOUR_HALVES_PACKED: &[u8] = &[0xff, 0x00, 0x02, 0x80, 0xff, 0xbc, 0x02, 0x80];

/// Packed data, a number of raw bytes, and the raw data, if the packed data gives that many bytes.
const WORKED: &[(&[u8], usize, Option<&[u8]>)] = &[
    (FOUR_HALVES_PACKED, 8, Some(FOUR_HALVES)),
    (&[0x02, 0x05], 3, Some(&[0x05, 0x0f, 0x8a])),
    (&[0x02], 3, None),
    (&[0x02, 0x05], 2, None),
    (&[], usize::MAX, None),
];

/// Whether packed data gives this raw data, or none.
fn gives(
    alloc: Global,
    packed: &[u8],
    raw: usize,
    expected: Option<&[u8]>,
) -> Result<bool, NoMemory> {
    match unpack(alloc, packed, raw) {
        Ok(found) => Ok(expected == Some(found.as_slice())),
        Err(Refusal::Fault(RleBroken)) => Ok(expected.is_none()),
        Err(Refusal::NoMemory) => Err(NoMemory),
    }
}

#[test]
fn worked_values(rt: HostRuntime) -> Result<(), Fail> {
    let packed = pack(rt.alloc(), FOUR_HALVES)?;
    expect(&rt, 0, packed.as_slice() == FOUR_HALVES_PACKED);
    for (case, (packed, raw, expected)) in WORKED.iter().enumerate() {
        expect(&rt, case, gives(rt.alloc(), packed, *raw, *expected)?);
    }
    Ok(())
}

/// The length of a list over eight bytes, and how many such lists there are.
const LISTS: &[(u32, u32)] = &[(0, 1), (1, 8), (2, 64), (3, 512), (4, 4096)];

/// The lists of a length.
fn try_lists(rt: &impl Abort, alloc: Global, len: u32, lists: u32) -> Result<u32, NoMemory> {
    let mut unpacked = 0u32;
    for number in 0..lists {
        let packed = list_of(alloc, len, number)?;
        unpacked = unpacked.wrapping_add(try_counts(rt, alloc, &packed)?);
    }
    Ok(unpacked)
}

/// Longer lists of bytes in no order.
fn try_longer(rt: &impl Abort, alloc: Global) -> Result<u32, NoMemory> {
    let mut unpacked = 0u32;
    let mut state = 1u32;
    for len in 5..300u32 {
        state = next_of(state);
        let packed = list_from(alloc, len % 41, state)?;
        unpacked = unpacked.wrapping_add(try_counts(rt, alloc, &packed)?);
    }
    Ok(unpacked)
}

#[test]
fn agrees_with_the_definition(rt: HostRuntime) -> Result<(), Fail> {
    let mut unpacked = 0u32;
    for (len, lists) in LISTS {
        unpacked = unpacked.wrapping_add(try_lists(&rt, rt.alloc(), *len, *lists)?);
    }
    unpacked = unpacked.wrapping_add(try_longer(&rt, rt.alloc())?);
    assert!(rt; unpacked > 500);
    Ok(())
}

/// The next of numbers in no order.
fn next_of(state: u32) -> u32 {
    state.wrapping_mul(1664525).wrapping_add(1013904223)
}

/// One of eight bytes, by the low octal digit of a number.
fn count_of(number: u32) -> u8 {
    match number & 7 {
        0 => 0x00,
        1 => 0x01,
        2 => 0x02,
        3 => 0x7f,
        4 => 0x80,
        5 => 0x81,
        6 => 0xfe,
        _ => 0xff,
    }
}

/// A list of the bytes that a number names by its octal digits.
fn list_of(alloc: Global, len: u32, number: u32) -> Result<Vec<u8>, NoMemory> {
    let mut packed = Vec::new(alloc);
    let mut left = number;
    for _ in 0..len {
        packed.push(count_of(left))?;
        left /= 8;
    }
    Ok(packed)
}

/// A list of bytes in no order.
fn list_from(alloc: Global, len: u32, seed: u32) -> Result<Vec<u8>, NoMemory> {
    let mut packed = Vec::new(alloc);
    let mut state = seed;
    for _ in 0..len {
        state = next_of(state);
        packed.push(count_of(state >> 20))?;
    }
    Ok(packed)
}

/// Tries the numbers of raw bytes, and answers for how many there was raw data.
fn try_counts(rt: &impl Abort, alloc: Global, packed: &[u8]) -> Result<u32, NoMemory> {
    let few = try_range(rt, alloc, packed, 0, 13)?;
    let many = try_range(rt, alloc, packed, 120, 301)?;
    Ok(few.wrapping_add(many))
}

fn try_range(
    rt: &impl Abort,
    alloc: Global,
    packed: &[u8],
    from: usize,
    to: usize,
) -> Result<u32, NoMemory> {
    let mut unpacked = 0u32;
    for raw in from..to {
        let expected = expected_of(alloc, packed, raw)?;
        expect(rt, raw, gives(alloc, packed, raw, expected.as_deref())?);
        if expected.is_some() {
            unpacked = unpacked.wrapping_add(1);
        }
    }
    Ok(unpacked)
}

/// The raw data as the definition says it.
fn expected_of(alloc: Global, packed: &[u8], raw: usize) -> Result<Option<Vec<u8>>, NoMemory> {
    match slow_bytes(alloc, packed)? {
        Some(bytes) if bytes.len() == raw => Ok(Some(slow_raw(alloc, &bytes)?)),
        _ => Ok(None),
    }
}

/// The bytes of the tokens, one by one.
fn slow_bytes(alloc: Global, packed: &[u8]) -> Result<Option<Vec<u8>>, NoMemory> {
    let mut bytes = Vec::new(alloc);
    let mut rest = packed.iter();
    for _ in 0..packed.len() {
        let Some(count) = rest.next() else {
            break;
        };
        let is_whole = if *count < 128 {
            put_run(&mut bytes, rest.next(), *count)?
        } else {
            put_bytes(&mut bytes, &mut rest, *count)?
        };
        if !is_whole {
            return Ok(None);
        }
    }
    Ok(Some(bytes))
}

/// Appends a byte, if it is there, once and as often again as the count says.
fn put_run(bytes: &mut Vec<u8>, byte: Option<&u8>, count: u8) -> Result<bool, NoMemory> {
    let Some(byte) = byte else {
        return Ok(false);
    };
    for _ in 0..=count {
        bytes.push(*byte)?;
    }
    Ok(true)
}

/// Appends the next bytes: as many as lie between the count and 256, if they are there.
fn put_bytes(bytes: &mut Vec<u8>, rest: &mut Iter<u8>, count: u8) -> Result<bool, NoMemory> {
    for _ in count..=255 {
        let Some(byte) = rest.next() else {
            return Ok(false);
        };
        bytes.push(*byte)?;
    }
    Ok(true)
}

/// Where the byte of raw byte k stands: those of even k come first.
fn place_of(k: usize, len: usize) -> usize {
    if k % 2 == 0 {
        k / 2
    } else {
        len.div_ceil(2).wrapping_add(k / 2)
    }
}

/// A raw byte as a sum from the first byte to this place.
fn sum_to(bytes: &[u8], place: usize) -> u8 {
    let mut sum = 128u8;
    for byte in bytes.iter().take(place.wrapping_add(1)) {
        sum = sum.wrapping_add(*byte).wrapping_sub(128);
    }
    sum
}

/// Each raw byte by itself.
fn slow_raw(alloc: Global, bytes: &[u8]) -> Result<Vec<u8>, NoMemory> {
    let mut raw = Vec::new(alloc);
    for k in 0..bytes.len() {
        raw.push(sum_to(bytes, place_of(k, bytes.len())))?;
    }
    Ok(raw)
}
