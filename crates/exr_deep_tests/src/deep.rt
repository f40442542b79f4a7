//! Deep chunks: worked ones, those of another program, and each fault.

ghost use Rattle.std.specs.Prelude.{◌≡◌, All, IfOk, vec_len, length};
ghost use Rattle.exr_base.specs.Shape.{IsShape, IsRegion, IsSampled, width_of, height_of};

use exr_base::{Box2i, Channel, Kind, Method, Name, Refusal, Shape};
use exr_deep::{DeepBlock, DeepFault, DeepPacked, fits, pack_deep, unpack_deep};
use std::alloc::Global;
use std::test::Fail;

/// A chunk of the channels A, of HALF samples, and Z, of FLOAT samples, or of none.
#[derive(Clone, Copy)]
struct Chunk {
    kinds: &'static [Kind],
    columns: u8,
    lines: u8,
    table: &'static [u8],
    samples: &'static [u8],
    unpacked: u64,
}

const KINDS: &[Kind] = &[Kind::Half, Kind::Float];

// The chunk of a file of two pixels that have one and two samples, made by another program.
const TWO_PIXELS: [u8; 8] = [1, 0, 0, 0, 3, 0, 0, 0];

const THREE_SAMPLES: [u8; 18] = [
    0x01, 0x30, 0x04, 0x30, 0x05, 0x30, 0x20, 0x06, 0x00, 0x3f, 0x50, 0x06, 0x00, 0x3f, 0x60, 0x06,
    0x00, 0x3f,
];

// Chunks of twelve pixels, of another program's file of tiles: one with raw samples, and two with packed ones.
const FOUR_TABLE: [u8; 13] = [
    0xff, 0x00, 0x10, 0x80, 0xfa, 0x82, 0x7e, 0x84, 0x7c, 0x84, 0x7c, 0x17, 0x80,
];

const FOUR_SAMPLES: [u8; 24] = [
    0x40, 0xa2, 0x78, 0x6d, 0x5f, 0xb3, 0xe4, 0xa8, 0xe4, 0x70, 0x39, 0x78, 0x7e, 0x2c, 0xe9, 0x05,
    0xc5, 0xaa, 0x6d, 0xc5, 0x33, 0xd0, 0x15, 0x85,
];

const EIGHT_TABLE: [u8; 25] = [
    0xff, 0x00, 0x04, 0x80, 0xee, 0x82, 0x7e, 0x82, 0x7e, 0x84, 0x7c, 0x84, 0x7c, 0x84, 0x7c, 0x86,
    0x7a, 0x88, 0x78, 0x88, 0x78, 0x88, 0x78, 0x17, 0x80,
];

const EIGHTY_TABLE: [u8; 13] = [
    0xff, 0x00, 0x10, 0x80, 0xfa, 0xa8, 0x58, 0xa8, 0x58, 0xd0, 0x30, 0x17, 0x80,
];

/// Chunks, the counts of their pixels, and the byte of all their samples if it is one.
const CONTENTS: [(Chunk, &[u32], Option<u8>); 10] = [
    (
        Chunk {
            kinds: KINDS,
            columns: 2,
            lines: 1,
            table: &TWO_PIXELS,
            samples: &THREE_SAMPLES,
            unpacked: 18,
        },
        &[1, 2],
        None,
    ),
    // Along a row, and from row to row.
    (
        Chunk {
            kinds: KINDS,
            columns: 4,
            lines: 1,
            table: &[0, 0, 0, 0, 3, 0, 0, 0, 3, 0, 0, 0, 4, 0, 0, 0],
            samples: &[7; 24],
            unpacked: 24,
        },
        &[0, 3, 0, 1],
        Some(7),
    ),
    (
        Chunk {
            kinds: KINDS,
            columns: 2,
            lines: 2,
            table: &[0, 0, 0, 0, 3, 0, 0, 0, 0, 0, 0, 0, 1, 0, 0, 0],
            samples: &[7; 24],
            unpacked: 24,
        },
        &[0, 3, 0, 1],
        Some(7),
    ),
    // One of the table and the samples is raw, or none.
    (
        Chunk {
            kinds: KINDS,
            columns: 12,
            lines: 1,
            table: &FOUR_TABLE,
            samples: &FOUR_SAMPLES,
            unpacked: 24,
        },
        &[0, 0, 0, 0, 0, 0, 0, 0, 0, 2, 2, 0],
        None,
    ),
    (
        Chunk {
            kinds: KINDS,
            columns: 12,
            lines: 1,
            table: &EIGHT_TABLE,
            samples: &[0xff, 0x0d, 0x2e, 0x80],
            unpacked: 48,
        },
        &[0, 0, 0, 2, 0, 2, 0, 0, 2, 2, 0, 0],
        Some(0x0d),
    ),
    (
        Chunk {
            kinds: KINDS,
            columns: 12,
            lines: 1,
            table: &EIGHTY_TABLE,
            samples: &[0xff, 0x63, 0x7f, 0x80, 0x7f, 0x80, 0x7f, 0x80, 0x5e, 0x80],
            unpacked: 480,
        },
        &[0, 0, 0, 0, 0, 0, 0, 0, 0, 40, 0, 40],
        Some(0x63),
    ),
    // No samples, no rows, no columns, no channels.
    (
        Chunk {
            kinds: KINDS,
            columns: 12,
            lines: 1,
            table: &[0xff, 0x00, 0x2e, 0x80],
            samples: &[],
            unpacked: 0,
        },
        &[0; 12],
        Some(0),
    ),
    (
        Chunk {
            kinds: KINDS,
            columns: 3,
            lines: 0,
            table: &[],
            samples: &[],
            unpacked: 0,
        },
        &[],
        Some(0),
    ),
    (
        Chunk {
            kinds: KINDS,
            columns: 0,
            lines: 3,
            table: &[],
            samples: &[],
            unpacked: 0,
        },
        &[],
        Some(0),
    ),
    (
        Chunk {
            kinds: &[],
            columns: 1,
            lines: 2,
            table: &[5, 0, 0, 0, 0xff, 0xff, 0xff, 0x7f],
            samples: &[],
            unpacked: 0,
        },
        &[5, 0x7fff_ffff],
        Some(0),
    ),
];

use DeepFault::{CountsFall, DataBroken, SizeDiffers, TableBroken};

/// Chunks and their faults. The first fault is the answer where there are more.
const FAULTS: [(Chunk, DeepFault); 13] = [
    (
        Chunk {
            kinds: KINDS,
            columns: 2,
            lines: 1,
            table: &[0],
            samples: &THREE_SAMPLES,
            unpacked: 18,
        },
        TableBroken,
    ),
    (
        Chunk {
            kinds: KINDS,
            columns: 2,
            lines: 1,
            table: &[7, 0, 1],
            samples: &[0],
            unpacked: 17,
        },
        TableBroken,
    ),
    (
        Chunk {
            kinds: KINDS,
            columns: 4,
            lines: 1,
            table: &[0, 0, 0, 0, 3, 0, 0, 0, 2, 0, 0, 0, 4, 0, 0, 0],
            samples: &[7; 24],
            unpacked: 24,
        },
        CountsFall { pixel: 2 },
    ),
    (
        Chunk {
            kinds: KINDS,
            columns: 1,
            lines: 1,
            table: &[0xff, 0xff, 0xff, 0xff],
            samples: &[],
            unpacked: 0,
        },
        CountsFall { pixel: 0 },
    ),
    (
        Chunk {
            kinds: KINDS,
            columns: 2,
            lines: 1,
            table: &[1, 0, 0, 0, 0, 0, 0, 0x80],
            samples: &[0],
            unpacked: 17,
        },
        CountsFall { pixel: 1 },
    ),
    (
        Chunk {
            kinds: KINDS,
            columns: 2,
            lines: 2,
            table: &[1, 0, 0, 0, 1, 0, 0, 0, 0xff, 0xff, 0xff, 0xff, 0, 0, 0, 0],
            samples: &[7; 6],
            unpacked: 6,
        },
        CountsFall { pixel: 2 },
    ),
    (
        Chunk {
            kinds: KINDS,
            columns: 2,
            lines: 2,
            table: &[1, 0, 0, 0, 1, 0, 0, 0, 2, 0, 0, 0, 1, 0, 0, 0],
            samples: &[7; 6],
            unpacked: 6,
        },
        CountsFall { pixel: 3 },
    ),
    (
        Chunk {
            kinds: KINDS,
            columns: 2,
            lines: 1,
            table: &TWO_PIXELS,
            samples: &[0],
            unpacked: 17,
        },
        SizeDiffers {
            said: 17,
            computed: 18,
        },
    ),
    (
        Chunk {
            kinds: KINDS,
            columns: 2,
            lines: 1,
            table: &TWO_PIXELS,
            samples: &THREE_SAMPLES,
            unpacked: 1 << 63,
        },
        SizeDiffers {
            said: 1 << 63,
            computed: 18,
        },
    ),
    (
        Chunk {
            kinds: KINDS,
            columns: 1,
            lines: 1,
            table: &[0xff, 0xff, 0xff, 0x7f],
            samples: &[],
            unpacked: 0,
        },
        SizeDiffers {
            said: 0,
            computed: 12_884_901_882,
        },
    ),
    (
        Chunk {
            kinds: KINDS,
            columns: 2,
            lines: 1,
            table: &TWO_PIXELS,
            samples: &[0x10, 0],
            unpacked: 18,
        },
        DataBroken,
    ),
    (
        Chunk {
            kinds: KINDS,
            columns: 2,
            lines: 1,
            table: &TWO_PIXELS,
            samples: &[],
            unpacked: 18,
        },
        DataBroken,
    ),
    (
        Chunk {
            kinds: KINDS,
            columns: 1,
            lines: 1,
            table: &[0xff, 0xff, 0xff, 0x7f],
            samples: &[0x7f, 0],
            unpacked: 12_884_901_882,
        },
        DataBroken,
    ),
];

fn region_of(columns: u8, lines: u8) -> Box2i
    ensures region { IsRegion result }
    ensures width { width_of result ≡ columns }
    ensures height { height_of result ≡ lines }
{
    Box2i {
        x0: 0,
        y0: 0,
        x1: columns as i32 - 1,
        y1: lines as i32 - 1,
    }
}

fn channels_of(alloc: Global, kinds: &[Kind]) -> Result<Vec<Channel>, Fail>
    ensures sampled { IfOk result (λ channels. All IsSampled channels.items) }
    ensures size { IfOk result (λ channels. vec_len channels ≡ length kinds.now) }
{
    let mut channels = Vec::new(alloc);
    for kind in kinds {
        let name = Name::new(b"A").ok_or("no name")?;
        channels.push(Channel {
            name,
            kind: *kind,
            linear: 0,
            xs: 1,
            ys: 1,
        })?;
    }
    Ok(channels)
}

/// What unpacking a chunk gives: its content, or its fault. Content has to fit, and to be stored in at most the bytes of the
/// chunk under RLE, and in as many as it has without compression.
fn content_of(alloc: Global, chunk: Chunk) -> Result<Result<DeepBlock, DeepFault>, Fail> {
    let channels = channels_of(alloc, chunk.kinds)?;
    if channels.len() > 1024 {
        return Err("too many channels".into());
    }
    let shape = Shape {
        channels: &channels,
        region: region_of(chunk.columns, chunk.lines),
    };
    let body = DeepPacked {
        table: Vec::from_slice(alloc, chunk.table)?,
        samples: Vec::from_slice(alloc, chunk.samples)?,
        unpacked: chunk.unpacked,
    };
    match unpack_deep(alloc, &shape, body) {
        Ok(block) => Ok(Ok(stored(alloc, &shape, chunk, block)?)),
        Err(Refusal::Fault(fault)) => Ok(Err(fault)),
        Err(Refusal::NoMemory) => Err("no memory".into()),
    }
}

/// The same content, if it is stored as it has to be.
fn stored(
    alloc: Global,
    shape: &Shape<'_>,
    chunk: Chunk,
    block: DeepBlock,
) -> Result<DeepBlock, Fail>
    requires { IsShape shape.now.channels.now shape.now.region }
{
    if !fits(shape, &block) {
        return Err("content that does not fit".into());
    }
    let raw = pack_deep(alloc, Method::No, shape, &block)?;
    if raw.table.len() != 4 * block.counts.len()
        || raw.samples.as_slice() != block.samples.as_slice()
    {
        return Err("not raw without compression".into());
    }
    if chunk.table.len() == raw.table.len() && chunk.table != raw.table.as_slice() {
        return Err("another table".into());
    }
    let runs = pack_deep(alloc, Method::Rle, shape, &block)?;
    if runs.table.len() > chunk.table.len() || runs.samples.len() > chunk.samples.len() {
        return Err("not the smaller data".into());
    }
    if runs.unpacked != chunk.unpacked || raw.unpacked != chunk.unpacked {
        return Err("another size".into());
    }
    Ok(block)
}

#[test]
fn contents(rt: HostRuntime) -> Result<(), Fail> {
    for (chunk, counts, byte) in CONTENTS {
        let content = content_of(rt.alloc(), chunk)?.ok().ok_or("a fault")?;
        assert_eq!(rt; content.counts.as_slice(), counts);
        assert_eq!(rt; content.samples.len() as u64, chunk.unpacked);
        match byte {
            Some(byte) => assert!(rt; content.samples.iter().all(|sample| *sample == byte)),
            None => assert_eq!(rt; content.samples.as_slice(), chunk.samples),
        }
    }
    Ok(())
}

#[test]
fn faults(rt: HostRuntime) -> Result<(), Fail> {
    for (chunk, fault) in FAULTS {
        let found = content_of(rt.alloc(), chunk)?;
        assert_eq!(rt; found.err().ok_or("no fault")?, fault);
    }
    Ok(())
}
