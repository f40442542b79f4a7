//! Files under the methods that pack data, whose packed bytes were made by hand or by another program.

use super::files::{File, Place};
use exr_fixtures::{ChannelSpec, ONE_PIXEL, Picture, Y};

/// The numbers of the methods.
pub const RLE: u8 = 1;

pub const ZIP: u8 = 3;

pub const PIZ: u8 = 4;

pub const PXR24: u8 = 5;

pub const B44: u8 = 6;

pub const B44A: u8 = 7;

/// Two lines of eight samples: the first of 0x3c00 in run lengths, the second raw.
pub const RUNS: File = File::One(
    Picture {
        window: [0, 0, 7, 1],
        method: RLE,
        ..ONE_PIXEL
    },
    &[
        (Place::Line(0), b"\xff\0\x06\x80\xff\xbc\x06\x80"),
        (Place::Line(1), b"aYbYcYdYeYfYgYhY"),
    ],
);

/// Sixteen by seventy samples of 0 under PIZ, in decreasing order: two blocks of 32 lines and one of 6.
pub const ZEROS: File = File::One(
    Picture {
        window: [0, 0, 15, 69],
        method: PIZ,
        order: 1,
        ..ONE_PIXEL
    },
    &[
        (Place::Line(0), ZEROS_32),
        (Place::Line(32), ZEROS_32),
        (Place::Line(64), ZEROS_6),
    ],
);

/// One by thirty-three pixels under ZIP: a packed block of 16 lines, a raw one, and a packed one of one line.
pub const ZIPPED: File = File::One(
    TALL,
    &[
        (Place::Line(0), b"a"),
        (Place::Line(16), b"aYbYcYdYeYfYgYhYiYjYkYlYmYnYoYpY"),
        (Place::Line(32), b"q"),
    ],
);

/// The same with two packed blocks, and one that is larger than its raw data.
pub const ZIPPED_LARGE: File = File::One(
    TALL,
    &[
        (Place::Line(0), b"a"),
        (Place::Line(16), b"b"),
        (Place::Line(32), b"abc"),
    ],
);

const TALL: Picture<'static> = Picture {
    window: [0, 0, 0, 32],
    method: ZIP,
    ..ONE_PIXEL
};

/// Sixteen by thirty-two zeros.
pub const ZEROS_32: &[u8] = b"\
    \xff\x1f\0\0\x19\0\0\0\0\0\0\0\x01\0\0\0\x02\0\0\0\x14\0\0\0\0\0\0\0\x04\x10\x7f\xdf\xf0";

/// Sixteen by six zeros.
const ZEROS_6: &[u8] = b"\
    \xff\x1f\0\0\x18\0\0\0\0\0\0\0\x01\0\0\0\x02\0\0\0\x0a\0\0\0\0\0\0\0\x04\x10W\xc0";

/// Seven by seven samples in four cells, all but the first of one value: 0x3c01 fifteen times and 0x3c21, 0x3d00, 0x3e00
/// and 0x3f00. The cells are cut at the right and the lower edge.
pub const CELLS: File = File::One(
    Picture {
        window: [0, 0, 6, 6],
        method: B44,
        ..ONE_PIXEL
    },
    &[(
        Place::Line(0),
        b"\xbc\x01\x06\x08\x20\x82\x08\x20\x82\x08\x20\x82\x08\x30\
          \xbd\x00\x02\x08\x20\x82\x08\x20\x82\x08\x20\x82\x08\x20\
          \xbe\x00\x02\x08\x20\x82\x08\x20\x82\x08\x20\x82\x08\x20\
          \xbf\x00\x02\x08\x20\x82\x08\x20\x82\x08\x20\x82\x08\x20",
    )],
);

/// Six by six pixels under B44A: a HALF channel sampled 2 by 2 in one flat cell of 0x4000, one UINT sample as it is, and a
/// HALF channel of 0x3c00 to 0x3f00 in four flat cells.
pub const FLAT_CELLS: File = File::One(
    Picture {
        channels: &[
            ChannelSpec {
                name: b"C",
                sampling: (2, 2),
                ..Y
            },
            ChannelSpec {
                name: b"I",
                kind: 0,
                sampling: (6, 6),
                ..Y
            },
            Y,
        ],
        window: [0, 0, 5, 5],
        method: B44A,
        ..ONE_PIXEL
    },
    &[(
        Place::Line(0),
        b"\xc0\0\xfcaaaI\xbc\0\xfc\xbd\0\xfc\xbe\0\xfc\xbf\0\xfc",
    )],
);
