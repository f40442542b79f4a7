//! What `header` prints of files.

use super::edits::{Edits, edited};
use super::files::{DEEP, File, KINDS, ONE, PARTS, bytes_of};
use super::methods::FLAT_CELLS;
use super::runs::{expect, outcome_of};
use std::test::Fail;

/// A file, its edits, and the lines of its head but those of the attributes that each header has.
const TEXTS: &[(File, Edits, &[&str])] = &[
    (
        ONE,
        &[],
        &[
            "exr single parts 1",
            "part 0 scan name - method 0 order 0 window 0 0 0 0 chunks 1",
            "channel Y kind 1 linear 0 sampling 1 1",
            "attribute channels chlist 19",
        ],
    ),
    (
        KINDS,
        &[],
        &[
            "exr single parts 1",
            "part 0 scan name - method 0 order 1 window -1 -1 0 0 chunks 2",
            "channel I kind 0 linear 0 sampling 1 1",
            "channel Y kind 1 linear 0 sampling 1 1",
            "channel Z kind 2 linear 0 sampling 1 1",
            "attribute channels chlist 55",
        ],
    ),
    (
        FLAT_CELLS,
        &[],
        &[
            "exr single parts 1",
            "part 0 scan name - method 7 order 0 window 0 0 5 5 chunks 1",
            "channel C kind 1 linear 0 sampling 2 2",
            "channel I kind 0 linear 0 sampling 6 6",
            "channel Y kind 1 linear 0 sampling 1 1",
            "attribute channels chlist 55",
        ],
    ),
    (
        PARTS,
        &[],
        &[
            "exr multi parts 2",
            "part 0 scan name left method 0 order 0 window 0 0 0 0 chunks 1",
            "channel Y kind 1 linear 0 sampling 1 1",
            "attribute name string 4",
            "attribute type string 13",
            "attribute chunkCount int 4",
            "part 1 tiles name right method 0 order 0 window 0 0 2 0 chunks 2",
            "tiles 2 2 mode 0 rounding 0",
            "attribute tiles tiledesc 9",
            "attribute name string 5",
            "attribute type string 10",
        ],
    ),
    // the head of a deep part
    (DEEP, &[], &[]),
    // a channel's name that is not printable, and a pLinear byte of 255
    (
        ONE,
        &[(28, 0x7f), (34, 0xff), (75, 9)],
        &[
            "part 0 scan name - method 9 order 0 window 0 0 0 0 chunks 1",
            "channel \\x7f kind 1 linear 255 sampling 1 1",
        ],
    ),
];

/// Whether lines come in this order in a text, maybe with others between them.
fn has_lines(text: &str, wanted: &[&str]) -> bool {
    let mut left = wanted.iter();
    let mut next = left.next();
    for line in text.lines() {
        if next == Some(&line) {
            next = left.next();
        }
    }
    next.is_none()
}

// The lines come in this order, and nothing is written or created.
#[test]
fn texts(rt: HostRuntime) -> Result<(), Fail> {
    for (case, (file, edits, wanted)) in TEXTS.iter().enumerate() {
        let bytes = edited(rt.alloc(), file, edits)?;
        let got = outcome_of(&rt, rt.alloc(), &["header", "in=a"], &bytes, None)?;
        let is_right = match str::from_utf8(&got.printed) {
            Ok(text) => has_lines(text, wanted),
            Err(_) => false,
        };
        expect(
            &rt,
            case,
            is_right && got.stop.is_none() && got.written.is_none(),
        );
    }
    Ok(())
}

/// The text of the head of one pixel, whole.
const ONE_TEXT: &str = "\
    exr single parts 1\n\
    part 0 scan name - method 0 order 0 window 0 0 0 0 chunks 1\n\
    channel Y kind 1 linear 0 sampling 1 1\n\
    attribute channels chlist 19\n\
    attribute compression compression 1\n\
    attribute dataWindow box2i 16\n\
    attribute displayWindow box2i 16\n\
    attribute lineOrder lineOrder 1\n\
    attribute pixelAspectRatio float 4\n\
    attribute screenWindowCenter v2f 8\n\
    attribute screenWindowWidth float 4\n";

// Whatever stands after it, also nothing, the text of a head is the same.
#[test]
fn whole_text(rt: HostRuntime) -> Result<(), Fail> {
    let bytes = bytes_of(rt.alloc(), &ONE)?;
    for end in 277..=bytes.len() {
        let beginning = bytes.get(..end).unwrap_or(&[]);
        let got = outcome_of(&rt, rt.alloc(), &["header", "in=a"], beginning, None)?;
        let is_right = got.stop.is_none() && got.printed.as_slice() == ONE_TEXT.as_bytes();
        expect(&rt, end, is_right);
    }
    Ok(())
}
