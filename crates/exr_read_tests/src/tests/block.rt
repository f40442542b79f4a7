//! The data of chunks under each method: raw data and packed data, unpacked and packed, and each fault with what it
//! carries.

ghost use Rattle.exr_judge.specs.Picture.{IsPicture};

use super::expect;
use super::heads::head_of;
use exr_b44::B44Fault;
use exr_base::{Box2i, Channel, Kind, Method, Name, NoMemory, Refusal, Shape};
use exr_block::{
    Block, Body, ChunkFault, can_pack, fits, is_size, pack_block, sizes_fit, unpack_block,
};
use exr_fixtures::{ChannelSpec, ONE_PIXEL, Picture, Y};
use exr_header::{FileHead, Header};
use exr_huffman::HufFault;
use exr_piz::PizFault;
use std::alloc::Global;
use std::test::Fail;

const NO: u8 = 0;

const RLE: u8 = 1;

const ZIPS: u8 = 2;

const ZIP: u8 = 3;

const PIZ: u8 = 4;

const PXR24: u8 = 5;

const B44: u8 = 6;

const B44A: u8 = 7;

const DWAA: u8 = 8;

const DWAB: u8 = 9;

/// No channel; a HALF channel, the same with a pLinear byte, a FLOAT channel with one, and a HALF channel with samples at
/// each second column and line.
const NONE: &[ChannelSpec<'static>] = &[];

const HALF: &[ChannelSpec<'static>] = &[Y];

const LINEAR: &[ChannelSpec<'static>] = &[ChannelSpec { linear: 1, ..Y }];

const FLOAT: &[ChannelSpec<'static>] = &[ChannelSpec {
    kind: 2,
    linear: 1,
    ..Y
}];

const SPARSE: &[ChannelSpec<'static>] = &[ChannelSpec {
    sampling: (2, 2),
    ..Y
}];

/// The first column and line of a region, and its last ones.
type Corners = [i32; 4];

const PIXEL: Corners = [0, 0, 0, 0];

const PAIR: Corners = [-1, 7, 0, 7];

const THREE: Corners = [0, 0, 2, 0];

const FOUR: Corners = [0, 0, 3, 0];

const CELL: Corners = [0, 0, 3, 3];

const BLOCK: Corners = [0, 0, 15, 31];

/// A pixel at the greatest column and the least line.
const FAR: Corners = [1 << 30, -(1 << 30), 1 << 30, -(1 << 30)];

/// Channels, a method, and a region.
type Form = (&'static [ChannelSpec<'static>], u8, Corners);

/// Data of a chunk, and its raw content or its fault. `WrongSize` stands for data of a size that it cannot have.
type Unpacked = (Form, &'static [u8], Result<&'static [u8], ChunkFault>);

/// Two pixels that stand raw, in two sizes.
const RAW: &[u8] = b"\x01\x3c\x02\x3c";

/// Eight pixels of 0 in run lengths, and 16 by 32 of them in a Huffman block.
const ZERO_RUN: &[u8] = &[0xff, 0x00, 0x0e, 0x80];

const ZERO_BLOCK: &[u8] = &[
    0xff, 0x1f, 0, 0, 25, 0, 0, 0, 0, 0, 0, 0, 1, 0, 0, 0, 2, 0, 0, 0, 20, 0, 0, 0, 0, 0, 0, 0,
    0x04, 0x10, 0x7f, 0xdf, 0xf0,
];

/// A cell of sixteen pixels of 0, in 14 bytes and in 3.
const ZERO_CELL: &[u8] = &[
    0x80, 0x00, 0x02, 0x08, 0x20, 0x82, 0x08, 0x20, 0x82, 0x08, 0x20, 0x82, 0x08, 0x20,
];

const FLAT_CELL: &[u8] = &[0x80, 0x00, 0xfc];

/// Sixteen pixels of which one stands out, their cell, and what it keeps of them.
const PEAK: &[u8] = &[
    0x00, 0x3c, 0x00, 0x3c, 0x00, 0x3c, 0x00, 0x3c, 0x00, 0x3c, 0x65, 0x3c, 0x00, 0x3c, 0x00, 0x3c,
    0x00, 0x3c, 0x00, 0x3c, 0x00, 0x3c, 0x00, 0x3c, 0x00, 0x3c, 0x00, 0x3c, 0x00, 0x3c, 0x00, 0x3c,
];

const PEAK_CELL: &[u8] = &[
    0xbc, 0x01, 0x0a, 0x08, 0x20, 0x83, 0x98, 0x20, 0x80, 0x78, 0x20, 0x82, 0x08, 0x20,
];

const KEPT_PEAK: &[u8] = &[
    0x01, 0x3c, 0x01, 0x3c, 0x01, 0x3c, 0x01, 0x3c, 0x01, 0x3c, 0x65, 0x3c, 0x01, 0x3c, 0x01, 0x3c,
    0x01, 0x3c, 0x01, 0x3c, 0x01, 0x3c, 0x01, 0x3c, 0x01, 0x3c, 0x01, 0x3c, 0x01, 0x3c, 0x01, 0x3c,
];

const UNPACKED: &[Unpacked] = &[
    // without a method, data has the raw size
    ((HALF, NO, PAIR), RAW, Ok(RAW)),
    ((HALF, NO, PAIR), b"abc", Err(ChunkFault::WrongSize)),
    ((HALF, NO, PAIR), b"abcde", Err(ChunkFault::WrongSize)),
    ((HALF, NO, FAR), b"\0\x3c", Ok(b"\0\x3c")),
    ((NONE, NO, PIXEL), b"", Ok(b"")),
    // data of the raw size is raw, whatever the method
    ((HALF, RLE, PAIR), RAW, Ok(RAW)),
    ((HALF, ZIPS, PAIR), RAW, Ok(RAW)),
    ((HALF, ZIP, PAIR), RAW, Ok(RAW)),
    ((HALF, PIZ, PAIR), RAW, Ok(RAW)),
    ((HALF, PXR24, PAIR), RAW, Ok(RAW)),
    ((HALF, B44, PAIR), RAW, Ok(RAW)),
    ((HALF, B44A, PAIR), RAW, Ok(RAW)),
    ((HALF, DWAA, PAIR), RAW, Ok(RAW)),
    ((HALF, DWAB, PAIR), RAW, Ok(RAW)),
    ((LINEAR, B44, PAIR), RAW, Ok(RAW)),
    ((LINEAR, B44A, PAIR), RAW, Ok(RAW)),
    ((FLOAT, B44, PIXEL), RAW, Ok(RAW)),
    ((SPARSE, RLE, [0, 0, 3, 1]), RAW, Ok(RAW)),
    ((NONE, PIZ, PIXEL), b"", Ok(b"")),
    // more than that is no size of any
    ((HALF, RLE, PAIR), b"abcde", Err(ChunkFault::WrongSize)),
    ((HALF, ZIP, PAIR), b"abcde", Err(ChunkFault::WrongSize)),
    ((HALF, PIZ, PAIR), b"abcde", Err(ChunkFault::WrongSize)),
    ((HALF, B44, PAIR), b"abcde", Err(ChunkFault::WrongSize)),
    ((NONE, RLE, PIXEL), b"a", Err(ChunkFault::WrongSize)),
    // smaller data under methods that are not read
    (
        (HALF, ZIPS, PAIR),
        b"abc",
        Err(ChunkFault::Unsupported {
            method: Method::Zips,
        }),
    ),
    (
        (HALF, ZIP, PAIR),
        b"",
        Err(ChunkFault::Unsupported {
            method: Method::Zip,
        }),
    ),
    (
        (HALF, PXR24, PAIR),
        b"abc",
        Err(ChunkFault::Unsupported {
            method: Method::Pxr24,
        }),
    ),
    (
        (HALF, DWAA, PAIR),
        b"abc",
        Err(ChunkFault::Unsupported {
            method: Method::Dwaa,
        }),
    ),
    (
        (HALF, DWAB, PAIR),
        b"abc",
        Err(ChunkFault::Unsupported {
            method: Method::Dwab,
        }),
    ),
    // run lengths
    ((HALF, RLE, [0, 0, 7, 0]), ZERO_RUN, Ok(&[0; 16])),
    ((HALF, RLE, [0, 0, 1, 0]), b"\x02\x05", Err(ChunkFault::Rle)),
    ((HALF, RLE, PAIR), b"\x03\x05", Ok(b"\x05\x0f\x8a\x94")),
    ((HALF, RLE, PAIR), b"\x03", Err(ChunkFault::Rle)),
    ((HALF, RLE, PAIR), b"", Err(ChunkFault::Rle)),
    ((HALF, RLE, FAR), b"\x01\x05", Ok(b"\x01\x05")),
    ((HALF, RLE, FAR), b"\x01", Err(ChunkFault::Rle)),
    // a value map and a Huffman block
    ((HALF, PIZ, BLOCK), ZERO_BLOCK, Ok(&[0; 1024])),
    (
        (HALF, PIZ, PIXEL),
        b"\0",
        Err(ChunkFault::Piz(PizFault::Short)),
    ),
    ((HALF, PIZ, FAR), b"", Err(ChunkFault::Piz(PizFault::Short))),
    (
        (HALF, PIZ, THREE),
        b"\0\x20\0\0",
        Err(ChunkFault::Piz(PizFault::BadMap)),
    ),
    (
        (HALF, PIZ, BLOCK),
        b"\xff\x1f\0\0\0\0\0\0",
        Err(ChunkFault::Piz(PizFault::Huffman(HufFault::Short))),
    ),
    (
        (HALF, PIZ, BLOCK),
        b"\xff\x1f\0\0\x14\0\0\0\x02\0\0\0\x01\0\0\0\0\0\0\0\0\0\0\0\0\0\0\0",
        Err(ChunkFault::Piz(PizFault::Huffman(HufFault::BadRange))),
    ),
    (
        (HALF, PIZ, BLOCK),
        b"\xff\x1f\0\0\x14\0\0\0\0\0\0\0\x01\0\0\0\0\0\0\0\0\0\0\0\0\0\0\0",
        Err(ChunkFault::Piz(PizFault::Huffman(HufFault::BadTable))),
    ),
    (
        (HALF, PIZ, BLOCK),
        b"\xff\x1f\0\0\x18\0\0\0\0\0\0\0\x01\0\0\0\x02\0\0\0\x09\0\0\0\0\0\0\0\x04\x10\xff\x80",
        Err(ChunkFault::Piz(PizFault::Huffman(HufFault::RunFirst))),
    ),
    (
        (HALF, PIZ, BLOCK),
        b"\xff\x1f\0\0\x19\0\0\0\0\0\0\0\x01\0\0\0\x02\0\0\0\x15\0\0\0\0\0\0\0\x04\x10\x7f\xdf\xf0",
        Err(ChunkFault::Piz(PizFault::Huffman(HufFault::TooMany))),
    ),
    (
        (HALF, PIZ, BLOCK),
        b"\xff\x1f\0\0\x18\0\0\0\0\0\0\0\x01\0\0\0\x02\0\0\0\x0a\0\0\0\0\0\0\0\x04\x10\x7f\xc0",
        Err(ChunkFault::Piz(PizFault::Huffman(HufFault::TooFew))),
    ),
    // cells of four by four pixels
    ((HALF, B44, CELL), ZERO_CELL, Ok(&[0; 32])),
    ((HALF, B44A, CELL), FLAT_CELL, Ok(&[0; 32])),
    ((HALF, B44A, CELL), ZERO_CELL, Ok(&[0; 32])),
    ((HALF, B44, CELL), FLAT_CELL, Ok(&[0; 32])),
    ((HALF, B44, CELL), PEAK_CELL, Ok(KEPT_PEAK)),
    ((HALF, B44A, FOUR), FLAT_CELL, Ok(&[0; 8])),
    ((SPARSE, B44, [0, 0, 7, 7]), PEAK_CELL, Ok(KEPT_PEAK)),
    (
        (HALF, B44, CELL),
        b"",
        Err(ChunkFault::B44(B44Fault::Short)),
    ),
    (
        (HALF, B44, CELL),
        b"\x80\0\x02",
        Err(ChunkFault::B44(B44Fault::Short)),
    ),
    (
        (HALF, B44A, CELL),
        b"\x80\0\xfc\0",
        Err(ChunkFault::B44(B44Fault::Long)),
    ),
    (
        (HALF, B44, FAR),
        b"\0",
        Err(ChunkFault::B44(B44Fault::Short)),
    ),
    (
        (FLOAT, B44, PIXEL),
        b"abc",
        Err(ChunkFault::B44(B44Fault::Short)),
    ),
    (
        (LINEAR, B44, CELL),
        ZERO_CELL,
        Err(ChunkFault::Unsupported {
            method: Method::B44,
        }),
    ),
    (
        (LINEAR, B44A, CELL),
        FLAT_CELL,
        Err(ChunkFault::Unsupported {
            method: Method::B44a,
        }),
    ),
];

/// The head of a file of one part with these channels, this method and this data window.
fn head_under(alloc: Global, (channels, method, window): Form) -> Result<FileHead, Fail> {
    let picture = Picture {
        channels,
        window,
        method,
        ..ONE_PIXEL
    };
    head_of(alloc, &picture)
}

/// Whether this is the raw content of data of a part's data window, or its fault.
fn is_unpacked(
    alloc: Global,
    part: &Header,
    data: &[u8],
    wanted: Result<&[u8], ChunkFault>,
) -> Result<bool, NoMemory>
    requires { IsPicture part.now }
{
    let shape = Shape {
        channels: part.channels(),
        region: part.window(),
    };
    let body = Body::Flat(data.to_vec(alloc)?);
    if !sizes_fit(part.method(), &shape, &body) {
        return Ok(wanted == Err(ChunkFault::WrongSize));
    }
    if shape.raw_size() > 1 << 26 {
        return Ok(false);
    }
    match unpack_block(alloc, part.method(), &shape, body, Vec::new(alloc)) {
        Ok(Block::Flat(raw)) => Ok(wanted == Ok(raw.as_slice())),
        Err(Refusal::Fault(fault)) => Ok(wanted == Err(fault)),
        _ => Ok(false),
    }
}

/// The same of a part of these channels, this method and this data window.
fn unpacks(
    alloc: Global,
    form: Form,
    data: &[u8],
    wanted: Result<&[u8], ChunkFault>,
) -> Result<bool, Fail> {
    let head = head_under(alloc, form)?;
    match head.parts() {
        [part] => Ok(is_unpacked(alloc, part, data, wanted)?),
        _ => Ok(false),
    }
}

#[test]
fn data_under_each_method(rt: HostRuntime) -> Result<(), Fail> {
    for (case, (form, data, wanted)) in UNPACKED.iter().enumerate() {
        expect(&rt, case, unpacks(rt.alloc(), *form, data, *wanted)?);
    }
    Ok(())
}

/// Raw content, and where it can be stored, the data that is stored and what that stands for.
type Packed = (Form, &'static [u8], Option<(&'static [u8], &'static [u8])>);

const PACKED: &[Packed] = &[
    ((HALF, NO, PAIR), RAW, Some((RAW, RAW))),
    ((HALF, NO, FAR), b"\0\x3c", Some((b"\0\x3c", b"\0\x3c"))),
    ((NONE, NO, PIXEL), b"", Some((b"", b""))),
    // content of another size
    ((HALF, NO, PAIR), b"abc", None),
    ((HALF, RLE, PAIR), b"abcde", None),
    ((HALF, PIZ, PAIR), b"", None),
    // methods that are not written
    ((HALF, ZIPS, PAIR), RAW, None),
    ((HALF, ZIP, PAIR), RAW, None),
    ((HALF, PXR24, PAIR), RAW, None),
    ((HALF, DWAA, PAIR), RAW, None),
    ((HALF, DWAB, PAIR), RAW, None),
    ((LINEAR, B44, CELL), &[0; 32], None),
    ((LINEAR, B44A, CELL), &[0; 32], None),
    // packed data that is smaller
    (
        (HALF, RLE, [0, 0, 7, 0]),
        &[0; 16],
        Some((ZERO_RUN, &[0; 16])),
    ),
    (
        (HALF, PIZ, BLOCK),
        &[0; 1024],
        Some((ZERO_BLOCK, &[0; 1024])),
    ),
    ((HALF, B44, CELL), &[0; 32], Some((ZERO_CELL, &[0; 32]))),
    ((HALF, B44A, CELL), &[0; 32], Some((FLAT_CELL, &[0; 32]))),
    ((HALF, B44, CELL), PEAK, Some((PEAK_CELL, KEPT_PEAK))),
    ((HALF, B44A, CELL), PEAK, Some((PEAK_CELL, KEPT_PEAK))),
    ((HALF, B44A, FOUR), &[0; 8], Some((FLAT_CELL, &[0; 8]))),
    // raw data that packing would not make smaller
    ((HALF, RLE, PAIR), RAW, Some((RAW, RAW))),
    (
        (HALF, RLE, FOUR),
        b"\0\x3c\0\x3c\0\x3c\0\x3c",
        Some((b"\0\x3c\0\x3c\0\x3c\0\x3c", b"\0\x3c\0\x3c\0\x3c\0\x3c")),
    ),
    ((HALF, PIZ, PAIR), RAW, Some((RAW, RAW))),
    ((NONE, PIZ, PIXEL), b"", Some((b"", b""))),
    ((HALF, B44, PAIR), RAW, Some((RAW, RAW))),
    ((HALF, B44, PIXEL), b"\0\x7c", Some((b"\0\x7c", b"\0\x7c"))),
    ((HALF, B44A, PIXEL), b"\0\0", Some((b"\0\0", b"\0\0"))),
    ((FLOAT, B44, PIXEL), RAW, Some((RAW, RAW))),
    (
        (FLOAT, B44A, [0, 0, 1, 0]),
        &[0; 8],
        Some((&[0; 8], &[0; 8])),
    ),
];

/// The data that is stored for raw content of a part's data window, if it can be stored.
fn packed(alloc: Global, part: &Header, raw: &[u8]) -> Result<Option<Body>, NoMemory>
    requires { IsPicture part.now }
{
    let shape = Shape {
        channels: part.channels(),
        region: part.window(),
    };
    let block = Block::Flat(raw.to_vec(alloc)?);
    if !can_pack(part.method(), &shape, false) || !fits(&shape, &block) {
        return Ok(None);
    }
    if shape.raw_size() > 1 << 26 {
        return Err(NoMemory);
    }
    Ok(Some(pack_block(alloc, part.method(), &shape, &block)?))
}

/// Whether this is stored for raw content, or nothing can be.
fn packs(
    alloc: Global,
    form: Form,
    raw: &[u8],
    wanted: Option<&(&[u8], &[u8])>,
) -> Result<bool, Fail> {
    let head = head_under(alloc, form)?;
    let [part] = head.parts() else {
        return Ok(false);
    };
    match packed(alloc, part, raw)? {
        Some(Body::Flat(data)) => match wanted {
            Some((wanted, _)) => Ok(data.as_slice() == *wanted),
            None => Ok(false),
        },
        Some(Body::Deep(_)) => Ok(false),
        None => Ok(wanted.is_none()),
    }
}

#[test]
fn content_under_each_method(rt: HostRuntime) -> Result<(), Fail> {
    for (case, (form, raw, wanted)) in PACKED.iter().enumerate() {
        expect(&rt, case, packs(rt.alloc(), *form, raw, wanted.as_ref())?);
        if let Some((data, again)) = wanted {
            expect(&rt, case, unpacks(rt.alloc(), *form, data, Ok(*again))?);
        }
    }
    Ok(())
}

/// A method, and whether it can be written for channels under B44 with a pLinear byte of 0 and with another, and in a deep
/// part.
const WRITTEN: &[(Method, bool, bool, bool)] = &[
    (Method::No, true, true, true),
    (Method::Rle, true, true, true),
    (Method::Zips, false, false, false),
    (Method::Zip, false, false, false),
    (Method::Piz, true, true, false),
    (Method::Pxr24, false, false, false),
    (Method::B44, true, false, false),
    (Method::B44a, true, false, false),
    (Method::Dwaa, false, false, false),
    (Method::Dwab, false, false, false),
];

/// A method, and whether data of 0, 3, 4 and 5 bytes can be that of a chunk of 4 raw bytes.
const SIZES: &[(Method, bool, bool, bool, bool)] = &[
    (Method::No, false, false, true, false),
    (Method::Rle, true, true, true, false),
    (Method::Zip, true, true, true, false),
];

/// One pixel.
const REGION: Box2i = Box2i {
    x0: 0,
    y0: 0,
    x1: 0,
    y1: 0,
};

/// Whether a method can be written for a HALF channel with this pLinear byte, in a deep part or in another.
fn can(method: Method, linear: u8, is_deep: bool) -> Option<bool> {
    let channels = [Channel {
        name: Name::new(b"Y")?,
        kind: Kind::Half,
        linear,
        xs: 1,
        ys: 1,
    }];
    let shape = Shape {
        channels: &channels,
        region: REGION,
    };
    Some(can_pack(method, &shape, is_deep))
}

#[test]
fn methods_and_sizes(rt: HostRuntime) {
    for (case, (method, plain, linear, deep)) in WRITTEN.iter().enumerate() {
        expect(&rt, case, can(*method, 0, false) == Some(*plain));
        expect(&rt, case, can(*method, 1, false) == Some(*linear));
        expect(&rt, case, can(*method, 0, true) == Some(*deep));
    }
    for (case, (method, none, three, four, five)) in SIZES.iter().enumerate() {
        expect(&rt, case, is_size(*method, 4, 0) == *none);
        expect(&rt, case, is_size(*method, 4, 3) == *three);
        expect(&rt, case, is_size(*method, 4, 4) == *four);
        expect(&rt, case, is_size(*method, 4, 5) == *five);
    }
}
