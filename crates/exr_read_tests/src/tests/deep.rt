//! Chunks of a deep file, each with one edit: its data, or what is wrong with the chunk; and the data of deep chunks under
//! each method, unpacked and packed.

ghost use Rattle.exr_judge.specs.Picture.{IsPicture};

use super::expect;
use super::stream::{Fetched, source_of, twice};
use exr_base::{Method, NoMemory, Refusal, Shape};
use exr_block::{
    Block, Body, ChunkFault, DeepBlock, DeepFault, DeepPacked, can_pack, fits, pack_block,
    raw_bytes, sizes_fit, unpack_block,
};
use exr_fixtures::{
    ChannelSpec, ONE_PIXEL, Picture, Y, file_of, flagged_head, put_attribute, put_string,
};
use exr_header::{Header, read_head};
use exr_stream::FetchFault;
use std::alloc::Global;
use std::test::Fail;

/// Bit 11 of the version word: the file has a deep part.
const DEEP: u32 = 0x800;

/// Two pixels of a HALF and a FLOAT channel.
const TWO_PIXELS: Picture<'static> = Picture {
    channels: &[
        ChannelSpec { name: b"A", ..Y },
        ChannelSpec {
            name: b"Z",
            kind: 2,
            ..Y
        },
    ],
    window: [0, 0, 1, 0],
    ..ONE_PIXEL
};

/// One sample in the first pixel and two in the second; the same as run lengths; and the samples of both.
const TABLE: &[u8] = &[1, 0, 0, 0, 3, 0, 0, 0];

const TABLE_RUNS: &[u8] = &[0xfc, 0x01, 0x7f, 0x83, 0x7d, 0x03, 0x80];

const SAMPLES: &[u8] = &[
    0x01, 0x30, 0x04, 0x30, 0x05, 0x30, 0x20, 0x06, 0x00, 0x3f, 0x50, 0x06, 0x00, 0x3f, 0x60, 0x06,
    0x00, 0x3f,
];

/// The head of a file of the two pixels in deep scan lines, under a method.
fn deep_head(alloc: Global, method: u8) -> Result<Vec<u8>, NoMemory> {
    let mut more = Vec::new(alloc);
    put_string(&mut more, b"type", b"deepscanline")?;
    put_attribute(&mut more, b"version", b"int", &[1, 0, 0, 0])?;
    let picture = Picture {
        method,
        ..TWO_PIXELS
    };
    flagged_head(alloc, DEEP, &picture, &more)
}

/// A chunk of the file: the line and the three sizes that its fields say, and how many bytes of the file are cut off at its
/// end; and what is wrong with it.
#[derive(Clone, Copy)]
struct Case {
    method: u8,
    line: i32,
    /// The table, the samples, and the samples unpacked.
    sizes: [u64; 3],
    cut: usize,
    fault: Option<ChunkFault>,
}

/// The chunk as it is, without compression.
const RAW: Case = Case {
    method: 0,
    line: 0,
    sizes: [8, 18, 18],
    cut: 0,
    fault: None,
};

const WRONG: Option<ChunkFault> = Some(ChunkFault::WrongSize);

const OUTSIDE: Option<ChunkFault> = Some(ChunkFault::Outside);

const PLACE: Option<ChunkFault> = Some(ChunkFault::WrongPlace);

const CASES: &[Case] = &[
    RAW,
    // without compression, both lists have their raw sizes
    Case {
        sizes: [7, 18, 18],
        fault: WRONG,
        ..RAW
    },
    Case {
        sizes: [9, 17, 17],
        fault: WRONG,
        ..RAW
    },
    Case {
        sizes: [8, 17, 18],
        fault: WRONG,
        ..RAW
    },
    Case {
        sizes: [8, 18, 17],
        fault: WRONG,
        ..RAW
    },
    Case {
        sizes: [8, 17, 17],
        ..RAW
    },
    // under a method, each may be smaller
    Case {
        method: 1,
        sizes: [7, 18, 18],
        ..RAW
    },
    Case {
        method: 3,
        sizes: [0, 18, 18],
        ..RAW
    },
    Case {
        method: 1,
        sizes: [8, 0, 1 << 26],
        ..RAW
    },
    Case {
        method: 1,
        sizes: [9, 17, 18],
        fault: WRONG,
        ..RAW
    },
    Case {
        method: 1,
        sizes: [8, 18, 17],
        fault: WRONG,
        ..RAW
    },
    Case {
        method: 1,
        sizes: [8, 18, (1 << 26) + 1],
        fault: WRONG,
        ..RAW
    },
    // no size is believed
    Case {
        sizes: [1 << 63, 18, 18],
        fault: WRONG,
        ..RAW
    },
    Case {
        method: 1,
        sizes: [8, 1 << 63, 18],
        fault: WRONG,
        ..RAW
    },
    Case {
        method: 1,
        sizes: [8, 1 << 63, 1 << 63],
        fault: WRONG,
        ..RAW
    },
    Case {
        method: 1,
        sizes: [8, 18, u64::MAX],
        fault: WRONG,
        ..RAW
    },
    Case {
        method: 1,
        sizes: [u64::MAX, 1, 1],
        fault: WRONG,
        ..RAW
    },
    Case {
        method: 1,
        sizes: [8, 19, 20],
        fault: OUTSIDE,
        ..RAW
    },
    Case {
        method: 1,
        sizes: [8, 1 << 26, 1 << 26],
        fault: OUTSIDE,
        ..RAW
    },
    // where the file ends: in the data, before it, and in the sizes
    Case {
        cut: 1,
        fault: OUTSIDE,
        ..RAW
    },
    Case {
        cut: 26,
        fault: OUTSIDE,
        ..RAW
    },
    Case {
        cut: 27,
        fault: OUTSIDE,
        ..RAW
    },
    Case {
        cut: 54,
        fault: OUTSIDE,
        ..RAW
    },
    // fields before sizes, and sizes before data
    Case {
        line: 1,
        fault: PLACE,
        ..RAW
    },
    Case {
        line: 1,
        sizes: [9, 18, 18],
        fault: PLACE,
        ..RAW
    },
    Case {
        sizes: [9, 18, 18],
        cut: 1,
        fault: WRONG,
        ..RAW
    },
    Case {
        sizes: [9, 18, 18],
        cut: 27,
        fault: OUTSIDE,
        ..RAW
    },
];

/// The bytes of a case's file.
fn bytes_of(alloc: Global, case: &Case) -> Result<Vec<u8>, NoMemory> {
    let mut chunk = case.line.to_le_bytes().to_vec(alloc)?;
    for size in case.sizes {
        chunk.extend_from_slice(&size.to_le_bytes())?;
    }
    chunk.extend_from_slice(TABLE)?;
    chunk.extend_from_slice(SAMPLES)?;
    let head = deep_head(alloc, case.method)?;
    let mut chunks = Vec::new(alloc);
    chunks.push(chunk)?;
    let mut bytes = file_of(alloc, &head, &chunks)?;
    bytes.truncate(bytes.len().saturating_sub(case.cut));
    Ok(bytes)
}

/// Whether data is that of a case: the table and the samples, as many bytes as the sizes say.
fn is_data(got: &DeepPacked, sizes: [u64; 3]) -> bool {
    let [table, samples, unpacked] = sizes;
    got.table.len() as u64 == table
        && got.samples.len() as u64 == samples
        && got.unpacked == unpacked
        && TABLE.starts_with(&got.table)
        && (table != 8 || SAMPLES.starts_with(&got.samples))
}

/// Whether a fetch answers what a case wants.
fn is_answer(got: &Fetched, case: &Case) -> bool {
    match got {
        Ok(Body::Deep(packed)) => case.fault.is_none() && is_data(packed, case.sizes),
        Err(Refusal::Fault(FetchFault::Chunk(fault))) => case.fault == Some(*fault),
        _ => false,
    }
}

/// Whether the chunk of a case's file answers what the case wants.
fn answers(alloc: Global, case: &Case) -> Result<bool, NoMemory> {
    let source = source_of(alloc, bytes_of(alloc, case)?, &[])?;
    match twice(alloc, source, (0, 0)) {
        Some((first, second, _source)) => Ok(is_answer(&first, case) && is_answer(&second, case)),
        None => Ok(false),
    }
}

#[test]
fn deep_chunks_of_edited_files(rt: HostRuntime) -> Result<(), Fail> {
    for (number, case) in CASES.iter().enumerate() {
        expect(&rt, number, answers(rt.alloc(), case)?);
    }
    Ok(())
}

/// The data of a deep chunk under a method, and its fault; without a fault it stands for one sample and two.
#[derive(Clone, Copy)]
struct Data {
    method: u8,
    table: &'static [u8],
    samples: &'static [u8],
    unpacked: u64,
    fault: Option<ChunkFault>,
}

/// The raw data, without compression.
const DATA: Data = Data {
    method: 0,
    table: TABLE,
    samples: SAMPLES,
    unpacked: 18,
    fault: None,
};

const ZIP: Option<ChunkFault> = Some(ChunkFault::Unsupported {
    method: Method::Zip,
});

const DIFFERS: DeepFault = DeepFault::SizeDiffers {
    said: 17,
    computed: 18,
};

const UNPACKED: &[Data] = &[
    DATA,
    // raw lists under each method
    Data { method: 1, ..DATA },
    Data { method: 2, ..DATA },
    Data { method: 3, ..DATA },
    // a packed list beside a raw one
    Data {
        method: 1,
        table: TABLE_RUNS,
        ..DATA
    },
    Data {
        method: 3,
        table: TABLE_RUNS,
        fault: ZIP,
        ..DATA
    },
    Data {
        method: 3,
        samples: b"ab",
        fault: ZIP,
        ..DATA
    },
    // the rules of deep data
    Data {
        method: 1,
        table: b"\0",
        fault: Some(ChunkFault::Deep(DeepFault::TableBroken)),
        ..DATA
    },
    Data {
        table: &[2, 0, 0, 0, 1, 0, 0, 0],
        fault: Some(ChunkFault::Deep(DeepFault::CountsFall { pixel: 1 })),
        ..DATA
    },
    Data {
        samples: &[0; 17],
        unpacked: 17,
        fault: Some(ChunkFault::Deep(DIFFERS)),
        ..DATA
    },
    Data {
        method: 1,
        samples: b"ab",
        fault: Some(ChunkFault::Deep(DeepFault::DataBroken)),
        ..DATA
    },
    // sizes that data cannot have
    Data {
        samples: &[0; 17],
        fault: WRONG,
        ..DATA
    },
    Data {
        method: 1,
        unpacked: 17,
        fault: WRONG,
        ..DATA
    },
    Data {
        method: 1,
        unpacked: (1 << 26) + 1,
        fault: WRONG,
        ..DATA
    },
];

/// Whether content is one sample and two.
fn is_content(got: &DeepBlock) -> bool {
    got.counts.as_slice() == [1, 2].as_slice() && got.samples.as_slice() == SAMPLES
}

/// Whether data of a part's data window has this fault, or without one stands for one sample and two.
fn is_unpacked(alloc: Global, part: &Header, packed: DeepPacked, wanted: Option<ChunkFault>) -> bool
    requires { IsPicture part.now }
{
    let shape = Shape {
        channels: part.channels(),
        region: part.window(),
    };
    let body = Body::Deep(packed);
    if !sizes_fit(part.method(), &shape, &body) {
        return wanted == WRONG;
    }
    if raw_bytes(&shape, true) > 1 << 26 {
        return false;
    }
    match unpack_block(alloc, part.method(), &shape, body, Vec::new(alloc)) {
        Ok(Block::Deep(content)) => wanted.is_none() && is_content(&content),
        Err(Refusal::Fault(fault)) => wanted == Some(fault),
        _ => false,
    }
}

/// Whether the data of a case is unpacked as the case says.
fn unpacks(alloc: Global, case: &Data) -> Result<bool, Fail> {
    let (head, _) = read_head(alloc, &deep_head(alloc, case.method)?)?;
    let packed = DeepPacked {
        table: case.table.to_vec(alloc)?,
        samples: case.samples.to_vec(alloc)?,
        unpacked: case.unpacked,
    };
    match head.parts() {
        [part] => Ok(is_unpacked(alloc, part, packed, case.fault)),
        _ => Ok(false),
    }
}

#[test]
fn deep_data_under_each_method(rt: HostRuntime) -> Result<(), Fail> {
    for (number, case) in UNPACKED.iter().enumerate() {
        expect(&rt, number, unpacks(rt.alloc(), case)?);
    }
    Ok(())
}

/// The data that is stored for content of a part's data window, if it can be stored.
fn packed(alloc: Global, part: &Header, content: DeepBlock) -> Result<Option<Body>, NoMemory>
    requires { IsPicture part.now }
{
    let shape = Shape {
        channels: part.channels(),
        region: part.window(),
    };
    let block = Block::Deep(content);
    if !can_pack(part.method(), &shape, true) || !fits(&shape, &block) {
        return Ok(None);
    }
    if raw_bytes(&shape, true) > 1 << 26 {
        return Err(NoMemory);
    }
    Ok(Some(pack_block(alloc, part.method(), &shape, &block)?))
}

/// Whether data has this table and the samples, and stands for one sample and two.
fn is_packed(alloc: Global, part: &Header, packed: DeepPacked, table: &[u8]) -> bool
    requires { IsPicture part.now }
{
    packed.table.as_slice() == table
        && packed.unpacked == 18
        && packed.samples.as_slice() == SAMPLES
        && is_unpacked(alloc, part, packed, None)
}

/// A method, the number of samples of the second pixel, and the table that is stored, if the content can be stored.
type Stored = (u8, u32, Option<&'static [u8]>);

const PACKED: &[Stored] = &[
    (0, 2, Some(TABLE)),
    (1, 2, Some(TABLE_RUNS)),
    (2, 2, None),
    (3, 2, None),
    (0, 1, None),
    (1, 3, None),
];

/// Whether content of one sample and so many is stored as a case says.
fn packs(alloc: Global, (method, count, table): Stored) -> Result<bool, Fail> {
    let (head, _) = read_head(alloc, &deep_head(alloc, method)?)?;
    let content = DeepBlock {
        counts: [1, count].to_vec(alloc)?,
        samples: SAMPLES.to_vec(alloc)?,
    };
    let [part] = head.parts() else {
        return Ok(false);
    };
    match packed(alloc, part, content)? {
        Some(Body::Deep(packed)) => match table {
            Some(table) => Ok(is_packed(alloc, part, packed, table)),
            None => Ok(false),
        },
        Some(Body::Flat(_)) => Ok(false),
        None => Ok(table.is_none()),
    }
}

#[test]
fn deep_content_under_each_method(rt: HostRuntime) -> Result<(), Fail> {
    for (number, case) in PACKED.iter().enumerate() {
        expect(&rt, number, packs(rt.alloc(), *case)?);
    }
    Ok(())
}
