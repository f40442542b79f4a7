//! Names, kinds, methods, samplings, boxes, cursors and bits.

use exr_attributes::PackedName;
use exr_base::*;
use std::test::Fail;

/// Bytes, and whether they are a name.
const NAMES: &[(&[u8], bool)] = &[
    (b"", false),
    (b"a", true),
    (&[b'a'; 255], true),
    (&[b'a'; 256], false),
    (b"a\0b", false),
    (b"\xff ", true),
];

/// A name, and one that stands after it in the order of their bytes.
const ORDER: &[(&[u8], &[u8])] = &[(b"A", b"AB"), (b"AB", b"B"), (b"Z", b"a"), (b"a", b"\xff")];

// A name has 1 to 255 bytes, that of a channel and that of an attribute.
#[test]
fn names_and_their_order(rt: HostRuntime) -> Result<(), Fail> {
    for (bytes, is_name) in NAMES {
        assert!(rt; Name::new(bytes).is_some() == *is_name);
        assert!(rt; PackedName::new(rt.alloc(), bytes)?.is_some() == *is_name);
    }
    for (low, high) in ORDER {
        let low = Name::new(low).ok_or("a name")?;
        let high = Name::new(high).ok_or("a name")?;
        assert!(rt; low < high && low != high);
    }
    Ok(())
}

/// Kinds, and the bytes of a sample.
const KINDS: &[(Kind, usize)] = &[(Kind::Uint, 4), (Kind::Half, 2), (Kind::Float, 4)];

/// The numbers of methods, and the lines of a block.
const METHODS: &[(u8, u32)] = &[
    (0, 1),
    (1, 1),
    (2, 1),
    (3, 16),
    (4, 32),
    (5, 16),
    (6, 32),
    (7, 32),
    (8, 32),
    (9, 256),
];

// File Layout, "Predefined Attribute Types" and "Regular Scan Line Blocks": the numbers, and the lines of a block.
#[test]
fn kinds_and_methods(rt: HostRuntime) -> Result<(), Fail> {
    for (kind, bytes) in KINDS {
        assert!(rt; kind.bytes() == *bytes);
    }
    for (number, lines) in METHODS {
        let method = Method::of(*number).ok_or("a method")?;
        assert!(rt; method.number() == *number && method.lines() == *lines);
    }
    assert!(rt; Method::of(10).is_none());
    Ok(())
}

#[test]
fn samples_and_pieces(rt: HostRuntime) {
    // sampling, from, to, the first multiple from `from` on, and how many there are
    for (sampling, from, to, first, count) in [
        (1, -3, 3, -3, 7),
        (2, -3, 3, -2, 3),
        (2, -2, 1, -2, 2),
        (3, -7, -1, -6, 2),
        (3, 1, 2, 3, 0),
        (4, 4, 3, 4, 0),
        (5, -5, -5, -5, 1),
        (4294967295, -1, 1, 0, 1),
    ] {
        assert!(rt; first_sample(sampling, from) == first);
        assert!(rt; sample_count(sampling, from, to) == count);
    }
    // a side, a size, and how many pieces of it cover the side
    for (from, to, size, count) in [(0, 9, 5, 2), (-5, 5, 5, 3), (3, 3, 16, 1), (4, 3, 16, 0)] {
        assert!(rt; pieces(size, span(from, to)) == count);
    }
}

/// Two boxes, by their first columns and lines and their last ones, and whether the first lies within the second.
const WITHIN: &[([i32; 4], [i32; 4], bool)] = &[
    ([1, 1, 2, 2], [0, 0, 3, 3], true),
    ([0, 0, 3, 3], [1, 1, 2, 2], false),
    ([-4, 0, -1, 0], [-4, 0, -1, 0], true),
    ([-5, 0, -1, 0], [-4, 0, -1, 0], false),
    ([0, 0, 0, 2], [0, 0, 0, 1], false),
];

/// Boxes, and whether they have no pixel.
const EMPTY: &[([i32; 4], bool)] = &[
    ([0, 0, 0, 0], false),
    ([1, 0, 0, 0], true),
    ([0, 1, 0, 0], true),
];

fn over([x0, y0, x1, y1]: [i32; 4]) -> Box2i {
    Box2i { x0, y0, x1, y1 }
}

#[test]
fn boxes(rt: HostRuntime) {
    for (inner, outer, inside) in WITHIN {
        assert!(rt; over(*inner).is_inside(over(*outer)) == *inside);
    }
    for (region, empty) in EMPTY {
        assert!(rt; over(*region).is_empty() == *empty);
    }
}

#[test]
fn channels_and_their_raw_bytes(rt: HostRuntime) -> Result<(), Fail> {
    let channels = [Channel {
        name: Name::new(b"Y").ok_or("a name")?,
        kind: Kind::Half,
        linear: 1,
        xs: 2,
        ys: 2,
    }];
    // columns -2 to 1 of some lines: samples stand at -2 and 0
    for (y0, y1, bytes) in [(-2, 1, 8), (-2, -2, 4), (-1, -1, 0), (0, 0, 4)] {
        let shape = Shape {
            channels: &channels,
            region: Box2i {
                x0: -2,
                y0,
                x1: 1,
                y1,
            },
        };
        assert!(rt; shape.raw_size() == bytes);
    }
    let copies = copy_channels(rt.alloc(), &channels)?;
    for (name, place) in [(b"Y", Some(0)), (b"y", None)] {
        let name = Name::new(name).ok_or("a name")?;
        assert!(rt; find_channel(&copies, &name) == place);
    }
    Ok(())
}

/// How many bytes of `abcde` are asked for in turn, what is taken, and what is left then.
const TAKEN: &[(usize, Option<&[u8]>, usize)] = &[
    (2, Some(b"ab"), 3),
    (4, None, 3),
    (3, Some(b"cde"), 0),
    (1, None, 0),
    (0, Some(b""), 0),
];

#[test]
fn a_cursor_takes_what_is_there(rt: HostRuntime) {
    let mut cursor = Cursor::new(b"abcde");
    for (count, taken, left) in TAKEN {
        assert!(rt; cursor.take(*count) == *taken);
        assert!(rt; cursor.left() == *left && cursor.at() == 5usize.wrapping_sub(*left));
    }
}

/// How many bits are read in turn, and the number that they are.
const READ: &[(u32, Option<u64>)] = &[
    (4, Some(15)),
    (64, Some(0xf123_4567_89ab_cdef)),
    (3, None),
    (2, Some(0)),
    (1, None),
    (0, Some(0)),
];

// Two numbers of six bits are the first twelve bits of `04 10`, and four zero bits fill the second byte.
#[test]
fn bits_are_written_and_read(rt: HostRuntime) -> Result<(), Fail> {
    let mut writer = BitWriter::new(rt.alloc());
    for (width, value) in [(6, 1), (6, 1), (0, 0)] {
        writer.push(width, value)?;
    }
    assert!(rt; writer.finish().as_slice() == [0x04, 0x10].as_slice());

    let text = [0xff, 0x12, 0x34, 0x56, 0x78, 0x9a, 0xbc, 0xde, 0xf0];
    let mut reader = BitReader::new(&text, 70);
    for (width, value) in READ {
        assert!(rt; *width <= 64);
        assert!(rt; reader.take(*width) == *value);
    }
    Ok(())
}
