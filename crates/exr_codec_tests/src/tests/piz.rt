//! PIZ: worked blocks, blocks of many shapes and numbers of values, each fault, and every one-byte change of two blocks.
//! The checksums are those of a slow program in another language, which packs and unpacks the worked files too.

ghost use Rattle.std.specs.Prelude.{◌≤◌, All, IfSome, length};
ghost use Rattle.exr_base.specs.Shape.{IsRegion, IsSampled};

use super::expect;
use exr_base::{Box2i, Channel, Kind, Name, NoMemory, Refusal, Shape};
use exr_huffman::HufFault;
use exr_piz::{PizFault, pack, unpack};
use std::alloc::Global;
use std::test::Fail;

/// The kind of a channel and its samplings.
type Samples = (Kind, u32, u32);

/// Channels over a region: how many columns and lines it has, from (0, 0) or from (-3, -1) on.
#[derive(Clone, Copy)]
struct Form {
    channels: &'static [Samples],
    is_moved: bool,
    columns: u8,
    lines: u8,
}

const HALF: &[Samples] = &[(Kind::Half, 1, 1)];

const FLOAT: &[Samples] = &[(Kind::Float, 1, 1)];

const UINT_AND_HALF: &[Samples] = &[(Kind::Uint, 1, 1), (Kind::Half, 1, 1)];

const SAMPLED: &[Samples] = &[(Kind::Half, 2, 2), (Kind::Half, 1, 1)];

const THREE_SAMPLED: &[Samples] = &[(Kind::Half, 1, 2), (Kind::Float, 2, 1), (Kind::Uint, 3, 3)];

const LAST_SAMPLED: &[Samples] = &[(Kind::Half, 2, 2), (Kind::Half, 1, 1), (Kind::Uint, 1, 3)];

/// One sample, three in a line and in a column, and a block of 32 lines of 16 samples.
const ONE_HALF: Form = Form {
    channels: HALF,
    is_moved: false,
    columns: 1,
    lines: 1,
};

const LINE: Form = Form {
    columns: 3,
    ..ONE_HALF
};

const COLUMN: Form = Form {
    lines: 3,
    ..ONE_HALF
};

const BLOCK: Form = Form {
    columns: 16,
    lines: 32,
    ..ONE_HALF
};

fn region_of(form: Form) -> Box2i
    ensures { IsRegion result }
{
    if form.is_moved {
        return Box2i {
            x0: -3,
            y0: -1,
            x1: form.columns as i32 - 4,
            y1: form.lines as i32 - 2,
        };
    }
    Box2i {
        x0: 0,
        y0: 0,
        x1: form.columns as i32 - 1,
        y1: form.lines as i32 - 1,
    }
}

/// The channels of a list, if memory does not run out.
fn channels_of(alloc: Global, list: &[Samples]) -> Option<Vec<Channel>>
    ensures few { IfSome result (λ channels. length channels.items ≤ 1024) }
    ensures sampled { IfSome result (λ channels. All IsSampled channels.items) }
{
    let mut channels = Vec::new(alloc);
    for (kind, xs, ys) in list {
        let channel = Channel {
            name: Name::new(b"Y")?,
            kind: *kind,
            linear: 0,
            xs: (*xs).max(1),
            ys: (*ys).max(1),
        };
        channels.push(channel).ok()?;
    }
    if channels.len() > 1024 {
        return None;
    }
    Some(channels)
}

/// The number of raw bytes of a form.
fn size_of(alloc: Global, form: Form) -> Option<u64> {
    let channels = channels_of(alloc, form.channels)?;
    let shape = Shape {
        channels: &channels,
        region: region_of(form),
    };
    Some(shape.raw_size())
}

/// Raw data of words 7 k + seed modulo a number of values.
fn raw_of(alloc: Global, words: u64, values: u64, seed: u64) -> Result<Vec<u8>, NoMemory> {
    let mut raw = Vec::new(alloc);
    for k in 0..words {
        let number = k.wrapping_mul(7).wrapping_add(seed);
        let word = number.checked_rem(values).unwrap_or(0);
        let [low, high, _, _, _, _, _, _] = word.to_le_bytes();
        raw.push(low)?;
        raw.push(high)?;
    }
    Ok(raw)
}

/// The packed data of a form's raw data, if that has its size.
fn packed_of(alloc: Global, form: Form, raw: &[u8]) -> Option<Vec<u8>> {
    let channels = channels_of(alloc, form.channels)?;
    let shape = Shape {
        channels: &channels,
        region: region_of(form),
    };
    let size = shape.raw_size();
    if size == 0 || size > 1 << 26 || size != raw.len() as u64 {
        return None;
    }
    pack(alloc, raw, &shape).ok()
}

/// What packed data of a form gives; without memory too where the form has no data.
fn unpacked_of(alloc: Global, form: Form, packed: &[u8]) -> Result<Vec<u8>, Refusal<PizFault>> {
    let Some(channels) = channels_of(alloc, form.channels) else {
        return Err(Refusal::NoMemory);
    };
    let shape = Shape {
        channels: &channels,
        region: region_of(form),
    };
    let size = shape.raw_size();
    if size == 0 || size > 1 << 26 {
        return Err(Refusal::NoMemory);
    }
    unpack(alloc, packed, &shape)
}

/// Whether packed data of a form gives this raw data, or has this fault.
fn gives(alloc: Global, form: Form, packed: &[u8], wanted: Result<&[u8], PizFault>) -> bool {
    match unpacked_of(alloc, form, packed) {
        Ok(raw) => wanted == Ok(raw.as_slice()),
        Err(Refusal::Fault(fault)) => wanted == Err(fault),
        Err(Refusal::NoMemory) => false,
    }
}

fn folded(sum: u64, bytes: &[u8]) -> u64 {
    let mut sum = sum;
    for byte in bytes {
        sum = sum.wrapping_mul(31).wrapping_add(u64::from(*byte));
    }
    sum
}

// 512 and 96 samples 0; one sample; and samples 5, 0 and 9 in a line or a column.
const ZEROS: &[u8] = &[
    0xff, 0x1f, 0, 0, 25, 0, 0, 0, 0, 0, 0, 0, 1, 0, 0, 0, 2, 0, 0, 0, 20, 0, 0, 0, 0, 0, 0, 0,
    0x04, 0x10, 0x7f, 0xdf, 0xf0,
];

const LAST_ZEROS: &[u8] = &[
    0xff, 0x1f, 0, 0, 24, 0, 0, 0, 0, 0, 0, 0, 1, 0, 0, 0, 2, 0, 0, 0, 10, 0, 0, 0, 0, 0, 0, 0,
    0x04, 0x10, 0x57, 0xc0,
];

const ONE: &[u8] = &[
    0x80, 0x07, 0x80, 0x07, 0x01, 23, 0, 0, 0, 1, 0, 0, 0, 2, 0, 0, 0, 2, 0, 0, 0, 1, 0, 0, 0, 0,
    0, 0, 0, 0x04, 0x10, 0x00,
];

const THREE: &[u8] = &[
    0, 0, 1, 0, 0x20, 0x02, 24, 0, 0, 0, 0, 0, 0, 0, 3, 0, 0, 0, 3, 0, 0, 0, 6, 0, 0, 0, 0, 0, 0,
    0, 0x08, 0x20, 0x82, 0x48,
];

/// A form, its raw data, and its packed data.
const WORKED: &[(Form, &[u8], &[u8])] = &[
    (BLOCK, &[0; 1024], ZEROS),
    (Form { lines: 6, ..BLOCK }, &[0; 192], LAST_ZEROS),
    (ONE_HALF, &[0x00, 0x3c], ONE),
    (LINE, &[5, 0, 0, 0, 9, 0], THREE),
    (COLUMN, &[5, 0, 0, 0, 9, 0], THREE),
];

#[test]
fn worked_blocks(rt: HostRuntime) {
    for (case, (form, raw, packed)) in WORKED.iter().enumerate() {
        let is_packed = match packed_of(rt.alloc(), *form, raw) {
            Some(found) => found.as_slice() == *packed,
            None => false,
        };
        expect(&rt, case, is_packed);
        expect(&rt, case, gives(rt.alloc(), *form, packed, Ok(*raw)));
    }
}

/// Packs words of so many values, and adds the packed data to a checksum. Unpacking it has to give the raw data.
fn packed_sum(alloc: Global, form: Form, values: u64, seed: u64, sum: u64) -> Option<u64> {
    let words = size_of(alloc, form)? / 2;
    if words == 0 {
        return Some(sum);
    }
    let raw = raw_of(alloc, words, values, seed).ok()?;
    let packed = packed_of(alloc, form, &raw)?;
    if gives(alloc, form, &packed, Ok(raw.as_slice())) {
        Some(folded(sum, &packed))
    } else {
        None
    }
}

/// Channels over small regions, of these columns and lines.
const SMALL: &[&[Samples]] = &[HALF, FLOAT, UINT_AND_HALF, SAMPLED, THREE_SAMPLED];

const SIDES: &[(u8, u8)] = &[
    (1, 1),
    (1, 2),
    (1, 3),
    (1, 5),
    (2, 1),
    (2, 2),
    (2, 3),
    (2, 5),
    (3, 1),
    (3, 2),
    (3, 3),
    (3, 5),
    (5, 1),
    (5, 2),
    (5, 3),
    (5, 5),
];

/// The checksum of channels over each small region from (-3, -1) on, where some lines have no samples.
fn small_sum(alloc: Global, channels: &'static [Samples], sum: u64) -> Option<u64> {
    let mut sum = sum;
    for (columns, lines) in SIDES {
        let form = Form {
            channels,
            is_moved: true,
            columns: *columns,
            lines: *lines,
        };
        let seed = u64::from(*columns).wrapping_mul(u64::from(*lines));
        sum = packed_sum(alloc, form, 9, seed, sum)?;
    }
    Some(sum)
}

fn small_sums(alloc: Global) -> Option<u64> {
    let mut sum = 0;
    for channels in SMALL {
        sum = small_sum(alloc, channels, sum)?;
    }
    Some(sum)
}

#[test]
fn small_shapes(rt: HostRuntime) {
    let sum = small_sums(rt.alloc());
    expect(&rt, 0, sum == Some(11971076561052162488));
}

/// Many words.
const MANY: Form = Form {
    columns: 131,
    lines: 126,
    ..ONE_HALF
};

const FLOATS: Form = Form {
    channels: FLOAT,
    is_moved: true,
    columns: 33,
    lines: 17,
};

const SAMPLED_FORM: Form = Form {
    channels: LAST_SAMPLED,
    is_moved: true,
    columns: 37,
    lines: 32,
};

const ALL: Form = Form {
    channels: FLOAT,
    columns: 254,
    lines: 130,
    ..ONE_HALF
};

const LONG: Form = Form {
    lines: 250,
    ..ONE_HALF
};

const WIDE: Form = Form {
    columns: 250,
    ..ONE_HALF
};

/// A form, a number of values, and the checksum. 16,384 values and fewer take the first pair step, 16,385 and more the
/// second.
const VALUES: &[(Form, u64, u64)] = &[
    (MANY, 16383, 6366791429793371229),
    (MANY, 16384, 8361887856765673035),
    (MANY, 16385, 1432523676022034777),
    (FLOATS, 300, 10287746563850551381),
    (SAMPLED_FORM, 700, 15012300069647812790),
    (ALL, 65536, 10689610991866068999),
    (LONG, 100, 18372422133365961026),
    (WIDE, 100, 18372422133365961026),
];

#[test]
fn numbers_of_values(rt: HostRuntime) {
    for (case, (form, values, sum)) in VALUES.iter().enumerate() {
        let found = packed_sum(rt.alloc(), *form, *values, 5, 0);
        expect(&rt, case, found == Some(*sum));
    }
}

// The Huffman block of the words 1, 0 and 2, and of 1, 0 and 1.
const WORDS: &[u8] = &[
    0, 0, 0, 0, 3, 0, 0, 0, 3, 0, 0, 0, 6, 0, 0, 0, 0, 0, 0, 0, 0x08, 0x20, 0x82, 0x48,
];

const TWO_WORDS: &[u8] = &[
    0, 0, 0, 0, 2, 0, 0, 0, 3, 0, 0, 0, 4, 0, 0, 0, 0, 0, 0, 0, 0x08, 0x10, 0x80, 0x90,
];

/// The front of packed data and its block, and the three samples that it stands for. A map whose first index is above
/// the last has no bytes, ranks above the greatest give 0, and 0 is present whatever its bit says.
const MAPS: &[(&[u8], &[u8], &[u8])] = &[
    (
        &[0, 0, 1, 0, 0x20, 0x02, 24, 0, 0, 0],
        WORDS,
        &[5, 0, 0, 0, 9, 0],
    ),
    (&[5, 0, 3, 0, 24, 0, 0, 0], WORDS, &[0; 6]),
    (&[0, 0, 0, 0, 0x20, 24, 0, 0, 0], WORDS, &[5, 0, 0, 0, 0, 0]),
    (
        &[0, 0, 1, 0, 0x21, 0x02, 24, 0, 0, 0],
        WORDS,
        &[5, 0, 0, 0, 9, 0],
    ),
    (
        &[1, 0, 1, 0, 0x02, 24, 0, 0, 0],
        TWO_WORDS,
        &[9, 0, 0, 0, 9, 0],
    ),
    (
        &[0xff, 0x1f, 0xff, 0x1f, 0x80, 24, 0, 0, 0],
        WORDS,
        &[0xff, 0xff, 0, 0, 0, 0],
    ),
    (&[255, 31, 255, 31, 0, 24, 0, 0, 0], WORDS, &[0; 6]),
];
/// The front of packed data with its block.
fn joined(alloc: Global, front: &[u8], block: &[u8]) -> Result<Vec<u8>, NoMemory> {
    let mut packed = front.to_vec(alloc)?;
    packed.extend_from_slice(block)?;
    Ok(packed)
}

// What follows the block is not looked at.
#[test]
fn maps(rt: HostRuntime) -> Result<(), Fail> {
    for (case, (front, block, raw)) in MAPS.iter().enumerate() {
        let mut packed = joined(rt.alloc(), front, block)?;
        expect(&rt, case, gives(rt.alloc(), LINE, &packed, Ok(*raw)));
        packed.extend_from_slice(&[1, 2, 3])?;
        expect(&rt, case, gives(rt.alloc(), LINE, &packed, Ok(*raw)));
    }
    Ok(())
}

const SHORT: PizFault = PizFault::Huffman(HufFault::Short);

/// Fronts of packed data, what stands after each, and the first fault.
const FAULTS: &[(&[u8], &[u8], PizFault)] = &[
    (&[0, 32, 0, 0], WORDS, PizFault::BadMap),
    (&[0, 0, 0, 32], WORDS, PizFault::BadMap),
    (&[0, 0, 255, 31, 1, 2, 3], WORDS, PizFault::Short),
    (&[0, 0, 28, 0, 0x20, 0x02], WORDS, PizFault::Short),
    (
        &[0, 0, 1, 0, 0x20, 0x02, 255, 255, 255, 255],
        WORDS,
        PizFault::Short,
    ),
    (
        &[0, 0, 1, 0, 0x20, 0x02, 0, 0, 0, 128],
        WORDS,
        PizFault::Short,
    ),
    (
        &[0, 0, 1, 0, 0x20, 0x02, 25, 0, 0, 0],
        WORDS,
        PizFault::Short,
    ),
    (&[0, 0, 1, 0, 0x20, 0x02, 23, 0, 0, 0], WORDS, SHORT),
    (&[0, 0, 1, 0, 0x20, 0x02, 19, 0, 0, 0], WORDS, SHORT),
    (&[0, 0, 1, 0, 0x20, 0x02, 0, 0, 0, 0], WORDS, SHORT),
    (&[0, 32, 0, 32], &[], PizFault::BadMap),
    (&[255, 255, 255, 255], &[], PizFault::BadMap),
];

#[test]
fn faults(rt: HostRuntime) -> Result<(), Fail> {
    for (case, (front, block, fault)) in FAULTS.iter().enumerate() {
        let packed = joined(rt.alloc(), front, block)?;
        expect(&rt, case, gives(rt.alloc(), LINE, &packed, Err(*fault)));
    }
    Ok(())
}

/// A form, and packed data whose fronts end too soon.
const FRONTS: &[(Form, &[u8])] = &[(BLOCK, ZEROS), (LINE, THREE)];

#[test]
fn fronts(rt: HostRuntime) {
    for (form, packed) in FRONTS {
        for len in 0..packed.len() {
            let front = packed.get(..len).unwrap_or(packed);
            let short = Err(PizFault::Short);
            expect(&rt, len, gives(rt.alloc(), *form, front, short));
        }
    }
}

/// A number for a fault, in the order of reading.
fn number_of(fault: PizFault) -> u64 {
    match fault {
        PizFault::Short => 1,
        PizFault::BadMap => 2,
        PizFault::Huffman(HufFault::Short) => 3,
        PizFault::Huffman(HufFault::BadRange) => 4,
        PizFault::Huffman(HufFault::BadTable) => 5,
        PizFault::Huffman(HufFault::RunFirst) => 6,
        PizFault::Huffman(HufFault::TooMany) => 7,
        PizFault::Huffman(HufFault::TooFew) => 8,
    }
}

/// A number for what comes of packed data: that of its fault, or 9 and a checksum of the raw data.
fn outcome_of(alloc: Global, form: Form, packed: &[u8]) -> u64 {
    match unpacked_of(alloc, form, packed) {
        Ok(raw) => folded(0, &raw).wrapping_add(9),
        Err(Refusal::Fault(fault)) => number_of(fault),
        Err(Refusal::NoMemory) => 0,
    }
}

/// A block with some bits of one byte turned.
fn changed(alloc: Global, block: &[u8], place: usize, bits: u8) -> Result<Vec<u8>, NoMemory> {
    let mut bytes = block.to_vec(alloc)?;
    if let Some(byte) = bytes.get_mut(place) {
        *byte ^= bits;
    }
    Ok(bytes)
}

/// Adds to a checksum what comes of a block whose byte at a place is replaced by each other one.
fn changed_sum(
    alloc: Global,
    form: Form,
    block: &[u8],
    place: usize,
    sum: u64,
) -> Result<u64, NoMemory> {
    let mut sum = sum;
    for bits in 1..=255u8 {
        let outcome = outcome_of(alloc, form, &changed(alloc, block, place, bits)?);
        sum = sum.wrapping_mul(31).wrapping_add(outcome);
    }
    Ok(sum)
}

/// A form, its packed data, and the checksum of what comes of it where each byte is replaced by each other one.
const CHANGES: &[(Form, &[u8], u64)] = &[
    (BLOCK, ZEROS, 6631738148422984750),
    (LINE, THREE, 14832437481346294469),
];

#[test]
fn one_byte_changes(rt: HostRuntime) -> Result<(), Fail> {
    for (case, (form, block, expected)) in CHANGES.iter().enumerate() {
        let mut sum = 0u64;
        for place in 0..block.len() {
            sum = changed_sum(rt.alloc(), *form, block, place, sum)?;
        }
        expect(&rt, case, sum == *expected);
    }
    Ok(())
}
