//! A picture of four by four pixels, in four tiles and in two chunks of scan lines, and windows of it.

ghost use Rattle.std.specs.Prelude.{◌≡◌, ◌≤◌, ◌≤ℤ◌, ◌<ℤ◌, ◌^◌, List, ℤ, pos, neg_ℤ, true, All, IfOk, IsTrue, vec_len, length};
ghost use Rattle.exr_base.specs.Boxes.{IsWithin};
ghost use Rattle.exr_base.specs.Shape.{IsRegion, IsSampled};
ghost use Rattle.exr_deep.specs.Body.{content_of};
ghost use Rattle.exr_deep.specs.Deep.{fits, pixels_of};
ghost use Rattle.exr_image.specs.Image.{AreCovering};
ghost use Rattle.exr_image.specs.declared.chunk.DeepChunk.{DeepChunk};

use exr_base::{Box2i, Channel, Kind, Name, Shape};
use exr_deep::{DeepBlock, fits};
use exr_image::{DeepChunk, DeepImage};
use std::alloc::Global;
use std::test::Fail;

/// The counts and the samples of a chunk.
#[derive(Clone, Copy)]
struct Content {
    counts: &'static [u32],
    samples: &'static [u8],
}

/// A column and a line.
#[derive(Clone, Copy)]
struct Corner {
    x: i32,
    y: i32,
}

const ALL: Box2i = Box2i {
    x0: -2,
    y0: -1,
    x1: 1,
    y1: 2,
};

// Sample k of pixel number n, counted row by row from 0, is 16 n + k and 0x3c of A, a HALF channel, and 16 n + 8 + k, 0,
// 0x80 and 0x3f of Z, a FLOAT channel.
const TILES: [Content; 4] = [
    Content {
        counts: &[1, 0, 0, 3],
        samples: &[
            0x00, 0x3c, 0x08, 0x00, 0x80, 0x3f, 0x50, 0x3c, 0x51, 0x3c, 0x52, 0x3c, 0x58, 0x00,
            0x80, 0x3f, 0x59, 0x00, 0x80, 0x3f, 0x5a, 0x00, 0x80, 0x3f,
        ],
    },
    Content {
        counts: &[2, 1, 1, 0],
        samples: &[
            0x20, 0x3c, 0x21, 0x3c, 0x30, 0x3c, 0x28, 0x00, 0x80, 0x3f, 0x29, 0x00, 0x80, 0x3f,
            0x38, 0x00, 0x80, 0x3f, 0x60, 0x3c, 0x68, 0x00, 0x80, 0x3f,
        ],
    },
    Content {
        counts: &[2, 1, 0, 0],
        samples: &[
            0x80, 0x3c, 0x81, 0x3c, 0x90, 0x3c, 0x88, 0x00, 0x80, 0x3f, 0x89, 0x00, 0x80, 0x3f,
            0x98, 0x00, 0x80, 0x3f,
        ],
    },
    Content {
        counts: &[0, 2, 1, 1],
        samples: &[
            0xb0, 0x3c, 0xb1, 0x3c, 0xb8, 0x00, 0x80, 0x3f, 0xb9, 0x00, 0x80, 0x3f, 0xe0, 0x3c,
            0xf0, 0x3c, 0xe8, 0x00, 0x80, 0x3f, 0xf8, 0x00, 0x80, 0x3f,
        ],
    },
];

const LINES: [Content; 4] = [
    Content {
        counts: &[1, 0, 2, 1],
        samples: &[
            0x00, 0x3c, 0x20, 0x3c, 0x21, 0x3c, 0x30, 0x3c, 0x08, 0x00, 0x80, 0x3f, 0x28, 0x00,
            0x80, 0x3f, 0x29, 0x00, 0x80, 0x3f, 0x38, 0x00, 0x80, 0x3f,
        ],
    },
    Content {
        counts: &[],
        samples: &[],
    },
    Content {
        counts: &[0, 3, 1, 0, 2, 1, 0, 2, 0, 0, 1, 1],
        samples: &[
            0x50, 0x3c, 0x51, 0x3c, 0x52, 0x3c, 0x60, 0x3c, 0x58, 0x00, 0x80, 0x3f, 0x59, 0x00,
            0x80, 0x3f, 0x5a, 0x00, 0x80, 0x3f, 0x68, 0x00, 0x80, 0x3f, 0x80, 0x3c, 0x81, 0x3c,
            0x90, 0x3c, 0xb0, 0x3c, 0xb1, 0x3c, 0x88, 0x00, 0x80, 0x3f, 0x89, 0x00, 0x80, 0x3f,
            0x98, 0x00, 0x80, 0x3f, 0xb8, 0x00, 0x80, 0x3f, 0xb9, 0x00, 0x80, 0x3f, 0xe0, 0x3c,
            0xf0, 0x3c, 0xe8, 0x00, 0x80, 0x3f, 0xf8, 0x00, 0x80, 0x3f,
        ],
    },
    Content {
        counts: &[],
        samples: &[],
    },
];

/// A window, its counts, and its samples of A and of Z.
#[derive(Clone, Copy)]
struct Case {
    window: Box2i,
    counts: &'static [u32],
    halves: &'static [u8],
    floats: &'static [u8],
}

const CASES: [Case; 5] = [
    Case {
        window: Box2i {
            x0: -2,
            y0: -1,
            x1: 1,
            y1: 2,
        },
        counts: &[1, 0, 2, 1, 0, 3, 1, 0, 2, 1, 0, 2, 0, 0, 1, 1],
        halves: &[
            0x00, 0x3c, 0x20, 0x3c, 0x21, 0x3c, 0x30, 0x3c, 0x50, 0x3c, 0x51, 0x3c, 0x52, 0x3c,
            0x60, 0x3c, 0x80, 0x3c, 0x81, 0x3c, 0x90, 0x3c, 0xb0, 0x3c, 0xb1, 0x3c, 0xe0, 0x3c,
            0xf0, 0x3c,
        ],
        floats: &[
            0x08, 0x00, 0x80, 0x3f, 0x28, 0x00, 0x80, 0x3f, 0x29, 0x00, 0x80, 0x3f, 0x38, 0x00,
            0x80, 0x3f, 0x58, 0x00, 0x80, 0x3f, 0x59, 0x00, 0x80, 0x3f, 0x5a, 0x00, 0x80, 0x3f,
            0x68, 0x00, 0x80, 0x3f, 0x88, 0x00, 0x80, 0x3f, 0x89, 0x00, 0x80, 0x3f, 0x98, 0x00,
            0x80, 0x3f, 0xb8, 0x00, 0x80, 0x3f, 0xb9, 0x00, 0x80, 0x3f, 0xe8, 0x00, 0x80, 0x3f,
            0xf8, 0x00, 0x80, 0x3f,
        ],
    },
    // The middle, of which each tile has a pixel.
    Case {
        window: Box2i {
            x0: -1,
            y0: 0,
            x1: 0,
            y1: 1,
        },
        counts: &[3, 1, 1, 0],
        halves: &[0x50, 0x3c, 0x51, 0x3c, 0x52, 0x3c, 0x60, 0x3c, 0x90, 0x3c],
        floats: &[
            0x58, 0x00, 0x80, 0x3f, 0x59, 0x00, 0x80, 0x3f, 0x5a, 0x00, 0x80, 0x3f, 0x68, 0x00,
            0x80, 0x3f, 0x98, 0x00, 0x80, 0x3f,
        ],
    },
    // A pixel without samples.
    Case {
        window: Box2i {
            x0: 1,
            y0: 0,
            x1: 1,
            y1: 0,
        },
        counts: &[0],
        halves: &[],
        floats: &[],
    },
    // Whole lines.
    Case {
        window: Box2i {
            x0: -2,
            y0: 1,
            x1: 1,
            y1: 2,
        },
        counts: &[2, 1, 0, 2, 0, 0, 1, 1],
        halves: &[
            0x80, 0x3c, 0x81, 0x3c, 0x90, 0x3c, 0xb0, 0x3c, 0xb1, 0x3c, 0xe0, 0x3c, 0xf0, 0x3c,
        ],
        floats: &[
            0x88, 0x00, 0x80, 0x3f, 0x89, 0x00, 0x80, 0x3f, 0x98, 0x00, 0x80, 0x3f, 0xb8, 0x00,
            0x80, 0x3f, 0xb9, 0x00, 0x80, 0x3f, 0xe8, 0x00, 0x80, 0x3f, 0xf8, 0x00, 0x80, 0x3f,
        ],
    },
    // Whole columns.
    Case {
        window: Box2i {
            x0: -1,
            y0: -1,
            x1: 0,
            y1: 2,
        },
        counts: &[0, 2, 3, 1, 1, 0, 0, 1],
        halves: &[
            0x20, 0x3c, 0x21, 0x3c, 0x50, 0x3c, 0x51, 0x3c, 0x52, 0x3c, 0x60, 0x3c, 0x90, 0x3c,
            0xe0, 0x3c,
        ],
        floats: &[
            0x28, 0x00, 0x80, 0x3f, 0x29, 0x00, 0x80, 0x3f, 0x58, 0x00, 0x80, 0x3f, 0x59, 0x00,
            0x80, 0x3f, 0x5a, 0x00, 0x80, 0x3f, 0x68, 0x00, 0x80, 0x3f, 0x98, 0x00, 0x80, 0x3f,
            0xe8, 0x00, 0x80, 0x3f,
        ],
    },
];

fn channel(kind: Kind) -> Result<Channel, Fail>
    ensures { IfOk result IsSampled }
{
    let name = Name::new(b"A").ok_or("no name")?;
    Ok(Channel {
        name,
        kind,
        linear: 0,
        xs: 1,
        ys: 1,
    })
}

fn channels_of(alloc: Global, kinds: &[Kind]) -> Result<Vec<Channel>, Fail>
    ensures sampled { IfOk result (λ channels. All IsSampled channels.items) }
    ensures size { IfOk result (λ channels. vec_len channels ≡ length kinds.now) }
{
    let mut channels = Vec::new(alloc);
    for kind in kinds {
        channels.push(channel(*kind)?)?;
    }
    Ok(channels)
}

/// The box from one corner up to another, whose column and line are left out.
fn box_of(from: Corner, to: Corner) -> Box2i
    requires left { neg_ℤ (pos 2) ≤ℤ from.x }
    requires columns { from.x ≤ℤ to.x }
    requires right { to.x ≤ℤ pos 2 }
    requires top { neg_ℤ (pos 1) ≤ℤ from.y }
    requires lines { from.y ≤ℤ to.y }
    requires bottom { to.y ≤ℤ pos 3 }
    ensures region { IsRegion result }
    ensures has { (x y : ℤ) → from.x ≤ℤ x → x <ℤ to.x → from.y ≤ℤ y → y <ℤ to.y → IsWithin result x y }
{
    Box2i {
        x0: from.x,
        y0: from.y,
        x1: to.x - 1,
        y1: to.y - 1,
    }
}

fn chunk_of(alloc: Global, from: Corner, to: Corner, content: Content) -> Result<DeepChunk, Fail>
    requires left { neg_ℤ (pos 2) ≤ℤ from.x }
    requires columns { from.x ≤ℤ to.x }
    requires right { to.x ≤ℤ pos 2 }
    requires top { neg_ℤ (pos 1) ≤ℤ from.y }
    requires lines { from.y ≤ℤ to.y }
    requires bottom { to.y ≤ℤ pos 3 }
    ensures region { IfOk result (λ chunk. IsRegion chunk.region) }
    ensures has { IfOk result (λ chunk. (x y : ℤ) → from.x ≤ℤ x → x <ℤ to.x → from.y ≤ℤ y → y <ℤ to.y → IsWithin chunk.region x y) }
{
    Ok(DeepChunk {
        region: box_of(from, to),
        content: DeepBlock {
            counts: Vec::from_slice(alloc, content.counts)?,
            samples: Vec::from_slice(alloc, content.samples)?,
        },
    })
}

/// The four chunks that a corner cuts the picture into, of which some may have no pixels.
fn chunks_of(alloc: Global, cut: Corner, contents: [Content; 4]) -> Result<Vec<DeepChunk>, Fail>
    requires left { neg_ℤ (pos 2) ≤ℤ cut.x }
    requires right { cut.x ≤ℤ pos 2 }
    requires top { neg_ℤ (pos 1) ≤ℤ cut.y }
    requires bottom { cut.y ≤ℤ pos 3 }
    ensures regions { IfOk result (λ chunks. All (λ chunk. IsRegion chunk.region) chunks.items) }
    ensures covering { IfOk result (λ chunks. AreCovering ALL chunks.items) }
{
    let begin = Corner { x: -2, y: -1 };
    let end = Corner { x: 2, y: 3 };
    let top = Corner {
        x: cut.x,
        y: begin.y,
    };
    let left = Corner {
        x: begin.x,
        y: cut.y,
    };
    let right = Corner { x: end.x, y: cut.y };
    let bottom = Corner { x: cut.x, y: end.y };
    let first = chunk_of(alloc, begin, cut, contents[0])?;
    let second = chunk_of(alloc, top, right, contents[1])?;
    let third = chunk_of(alloc, left, bottom, contents[2])?;
    let fourth = chunk_of(alloc, cut, end, contents[3])?;
    let chunks = vec![in alloc; first, second, third, fourth]?;
    Ok(chunks)
}

/// Whether the content of each chunk fits its region.
fn all_fit(channels: &[Channel], chunks: &[DeepChunk]) -> bool
    requires few { length channels.now ≤ 1024 }
    requires sampled { All IsSampled channels.now }
    requires regions { All (λ chunk. IsRegion chunk.region) chunks.now }
    ensures { IsTrue result → All (λ chunk. fits channels.now chunk.region (content_of chunk.content) ≡ true) chunks.now }
{
    for chunk in chunks {
        let shape = Shape {
            channels,
            region: chunk.region,
        };
        if !fits(&shape, &chunk.content) {
            return false;
        }
    }
    true
}

/// Whether a box has pixels and lies in the picture.
fn is_window(window: Box2i) -> bool
    ensures region { IsTrue result → IsRegion window }
    ensures small { IsTrue result → pixels_of window ≤ 2 ^ 28 }
    ensures covering { IsTrue result → (chunks : List DeepChunk) → AreCovering ALL chunks → AreCovering window chunks }
{
    !window.is_empty() && window.is_inside(ALL)
}

/// Adds to an image the lines of the picture that its window has, one by one.
fn push_lines(
    alloc: Global,
    image: &mut DeepImage,
    channels: &[Channel],
    chunks: &[DeepChunk],
) -> Result<(), Fail>
    requires few { length channels.now ≤ 1024 }
    requires many { vec_len image.old.channels ≡ length channels.now }
    requires regions { All (λ chunk. IsRegion chunk.region) chunks.now }
    requires fits { All (λ chunk. fits channels.now chunk.region (content_of chunk.content) ≡ true) chunks.now }
    requires covering { AreCovering ALL chunks.now }
{
    for y in -1..3 {
        let line = Box2i {
            x0: image.window.x0,
            y0: y,
            x1: image.window.x1,
            y1: y,
        };
        if y >= image.window.y0 && y <= image.window.y1 && is_window(line) {
            image.push_rows(alloc, channels, line, chunks)?;
        }
    }
    Ok(())
}

/// The image of a window of the picture, put together at once or line by line.
fn image(
    alloc: Global,
    kinds: &[Kind],
    cut: Corner,
    contents: [Content; 4],
    window: Box2i,
    by_lines: bool,
) -> Result<DeepImage, Fail>
    requires left { neg_ℤ (pos 2) ≤ℤ cut.x }
    requires right { cut.x ≤ℤ pos 2 }
    requires top { neg_ℤ (pos 1) ≤ℤ cut.y }
    requires bottom { cut.y ≤ℤ pos 3 }
{
    let channels = channels_of(alloc, kinds)?;
    let chunks = chunks_of(alloc, cut, contents)?;
    if channels.len() > 1024 || !is_window(window) || !all_fit(&channels, &chunks) {
        return Err("no content of the picture".into());
    }
    let mut image = DeepImage::new(alloc, &channels, window)?;
    if by_lines {
        push_lines(alloc, &mut image, &channels, &chunks)?;
    } else {
        image.push_rows(alloc, &channels, window, &chunks)?;
    }
    Ok(image)
}

#[test]
fn windows_of_tiles_and_of_scan_lines(rt: HostRuntime) -> Result<(), Fail> {
    let kinds = [Kind::Half, Kind::Float];
    let tiles = Corner { x: 0, y: 1 };
    let lines = Corner { x: 2, y: 0 };
    for (cut, contents, by_lines) in [
        (tiles, TILES, false),
        (tiles, TILES, true),
        (lines, LINES, false),
        (lines, LINES, true),
    ] {
        for case in CASES {
            let image = image(rt.alloc(), &kinds, cut, contents, case.window, by_lines)?;
            assert_eq!(rt; image.window, case.window);
            assert_eq!(rt; image.counts.as_slice(), case.counts);
            assert_eq!(rt; image.channels.len(), 2);
            assert_eq!(rt; image.channels[0].as_slice(), case.halves);
            assert_eq!(rt; image.channels[1].as_slice(), case.floats);
        }
    }
    Ok(())
}

#[test]
fn no_channels(rt: HostRuntime) -> Result<(), Fail> {
    let mut contents = TILES;
    for k in 0..4usize {
        contents[k].samples = &[];
    }
    let cut = Corner { x: 0, y: 1 };
    let image = image(rt.alloc(), &[], cut, contents, ALL, false)?;
    assert_eq!(rt; image.counts.as_slice(), CASES[0].counts);
    assert_eq!(rt; image.channels.len(), 0);
    Ok(())
}

#[test]
fn pieces_of_a_file(rt: HostRuntime) -> Result<(), Fail> {
    let kinds = [Kind::Half, Kind::Float];
    let window = Box2i {
        x0: -1,
        y0: 0,
        x1: 0,
        y1: 1,
    };
    let cut = Corner { x: 0, y: 1 };
    let image = image(rt.alloc(), &kinds, cut, TILES, window, false)?;
    let pieces = image.into_pieces(rt.alloc())?;
    assert_eq!(rt; pieces.len(), 3);
    let counts = [3u8, 0, 0, 0, 1, 0, 0, 0, 1, 0, 0, 0, 0, 0, 0, 0];
    assert_eq!(rt; pieces[0].as_slice(), counts.as_slice());
    assert_eq!(rt; pieces[1].as_slice(), CASES[1].halves);
    assert_eq!(rt; pieces[2].as_slice(), CASES[1].floats);
    Ok(())
}
