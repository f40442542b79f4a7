//! What `extract` writes of deep parts, and what it refuses.

use super::files::{File, bytes_of};
use super::runs::{expect, extracted};
use exr_block::ChunkFault;
use exr_deep::DeepFault;
use exr_fixtures::{ChannelSpec, ONE_PIXEL, Picture, Y};
use exr_tools::{FileFault, RequestFault, Stop};
use std::test::Fail;

/// The channels A, of HALF samples, and Z, of FLOAT samples.
const CHANNELS: &[ChannelSpec<'static>] = &[
    ChannelSpec { name: b"A", ..Y },
    ChannelSpec {
        name: b"Z",
        kind: 2,
        ..Y
    },
];

/// Another program's file of two pixels that have one and two samples: 479 bytes, of which the head has 417 and the offset
/// table 8. The chunk names its line, and the sizes of its table, of its samples and of its samples unpacked.
pub const TWO_DEEP: File = File::Deep(
    Picture {
        channels: CHANNELS,
        window: [0, 0, 1, 0],
        ..ONE_PIXEL
    },
    b"\0\0\0\0\x08\0\0\0\0\0\0\0\x12\0\0\0\0\0\0\0\x12\0\0\0\0\0\0\0\
      \x01\0\0\0\x03\0\0\0\
      \x010\x040\x050\x20\x06\0?P\x06\0?`\x06\0?",
);

/// Four pixels whose table says 0, 3, 2 and 4.
pub const FALLING: File = File::Deep(
    Picture {
        channels: CHANNELS,
        window: [0, 0, 3, 0],
        ..ONE_PIXEL
    },
    b"\0\0\0\0\x10\0\0\0\0\0\0\0\x18\0\0\0\0\0\0\0\x18\0\0\0\0\0\0\0\
      \0\0\0\0\x03\0\0\0\x02\0\0\0\x04\0\0\0\
      aAbBcCdDaaaAbbbBcccCdddD",
);

/// Both pixels: their counts, and the samples of each channel.
const BOTH: &[u8] = b"\x01\0\0\0\x02\0\0\0\x010\x040\x050\x20\x06\0?P\x06\0?`\x06\0?";

/// More words, what is written, and what is printed.
const IMAGES: &[(&[&str], &[u8], &str)] = &[
    (&[], BOTH, "extract bytes 26\n"),
    (&["workers=2"], BOTH, "extract bytes 26\n"),
    (&["part=0", "window=0,0,1,0"], BOTH, "extract bytes 26\n"),
    (
        &["window=0,0,0,0"],
        b"\x01\0\0\0\x010\x20\x06\0?",
        "extract bytes 10\n",
    ),
    (
        &["window=1,0,1,0"],
        b"\x02\0\0\0\x040\x050P\x06\0?`\x06\0?",
        "extract bytes 16\n",
    ),
];

#[test]
fn images(rt: HostRuntime) -> Result<(), Fail> {
    let bytes = bytes_of(rt.alloc(), &TWO_DEEP)?;
    for (case, (more, image, line)) in IMAGES.iter().enumerate() {
        let got = extracted(&rt, rt.alloc(), &bytes, more, None)?;
        let is_right = got.stop.is_none()
            && got.written.as_deref() == Some(*image)
            && got.printed.as_slice() == line.as_bytes()
            && got.has_faults(0, 0);
        expect(&rt, case, is_right);
    }
    Ok(())
}

/// A file, more words, the stop, and its status.
const REFUSED: &[(File, &[&str], Stop, u8)] = &[
    (
        TWO_DEEP,
        &["pad=1"],
        Stop::Request(RequestFault::DeepWords),
        6,
    ),
    (
        TWO_DEEP,
        &["layout=planar"],
        Stop::Request(RequestFault::DeepWords),
        6,
    ),
    (
        TWO_DEEP,
        &["channels=A"],
        Stop::Request(RequestFault::DeepWords),
        6,
    ),
    (
        TWO_DEEP,
        &["fill=0"],
        Stop::Request(RequestFault::DeepWords),
        6,
    ),
    (
        TWO_DEEP,
        &["byte=0"],
        Stop::Request(RequestFault::DeepWords),
        6,
    ),
    (
        TWO_DEEP,
        &["window=0,0,2,0"],
        Stop::Request(RequestFault::Window),
        6,
    ),
    (
        TWO_DEEP,
        &["window=0,1,0,1"],
        Stop::Request(RequestFault::Window),
        6,
    ),
    (
        TWO_DEEP,
        &["part=1"],
        Stop::Request(RequestFault::NoPart),
        6,
    ),
    (
        FALLING,
        &[],
        Stop::File {
            file: 0,
            fault: FileFault::Chunk {
                part: 0,
                index: 0,
                fault: ChunkFault::Deep(DeepFault::CountsFall { pixel: 2 }),
            },
        },
        3,
    ),
];

#[test]
fn refused(rt: HostRuntime) -> Result<(), Fail> {
    for (case, (file, more, stop, status)) in REFUSED.iter().enumerate() {
        let bytes = bytes_of(rt.alloc(), file)?;
        let got = extracted(&rt, rt.alloc(), &bytes, more, None)?;
        let is_right = got.is_refused(*stop) && got.has_faults(0, 0) && stop.status() == *status;
        expect(&rt, case, is_right);
    }
    Ok(())
}
