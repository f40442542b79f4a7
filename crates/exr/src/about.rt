//! What the program says of itself: its commands, its version, and its statuses and faults by number.

ghost use Rattle.std.specs.Prelude.{◌≡◌};
ghost use Rattle.exr.specs.About.{asked_of};

use crate::faults::{
    CHUNK_FAULTS, HEAD_FAULTS, LAYOUT_FAULTS, MATCH_FAULTS, REQUEST_FAULTS, STATUSES,
};

const HELP: &str = "\
exr reads OpenEXR files. Each command is a line of words KEY=VALUE.

  exr header in=a.exr
      Prints what the headers of a.exr say: of each part its kind, data window,
      channels and attributes. Every OpenEXR 2 file of one level is read.

  exr check in=a.exr
      Reads and unpacks every chunk of a.exr. Prints for each part how many
      chunks it has and how many of them are unread, that is, packed by a method
      that is not supported so far; then ok. Stops at the first chunk with
      any other fault.
        workers=1             1 to 16; makes no difference so far

  exr extract in=a.exr out=b.raw
      Writes the samples of a part of a.exr into b.raw, every sample as the file
      has it. More words say which samples, and where each one goes:
        part=0                the part, counted from 0
        window=0,0,63,31      the pixels: x0,y0,x1,y1, both ends included; else
                              the data window
        channels=R,G,Z:float  the channels in their order, each with its kind
                              (uint, half or float) where it is given; else all
        layout=planar         one plane per channel, one after another;
                              layout=lines: each line, one channel after
                              another; layout=pixels: each pixel, one channel
                              after another
        pad=0                 bytes after each line, or after each pixel where
                              layout=pixels
        fill=0                the bits of samples of channels that the part does
                              not have; for HALF, 15360 is 1.0
        byte=0                the value of every other byte
        workers=1             how many chunks are read before their samples are
                              copied, 1 to 16; all work is on one thread so far
      Of a deep part it writes how many samples each pixel of the window has,
      four bytes each, row by row; then of each channel all samples, pixel by
      pixel. Of the words above a deep part takes part, window and workers only.
      So far chunks are read without compression or under RLE, and of a part
      that is not deep also under PIZ, B44 or B44A.

  exr --help       this text
  exr --version    the version
  exr --faults     every status and every fault by its number

The status is 0, or says why the program stopped:
  1  no memory
  2  an argument is invalid, or one is missing; the line says which, from 0
  3  a file is faulty; the line says which, from 0, and the fault's number
  4  a file could not be opened or read
  5  a file or standard output could not be written
  6  what is asked of a file cannot be had; the line says why by a number
";

const VERSION: &str = "exr 0.1.0\n";

/// What a word asks of the program.
#[derive(Clone, Copy, Debug, PartialEq, Eq)]
pub enum Asked {
    Help,
    Version,
    Faults,
}

impl Asked {
    /// What this word asks for, if it is one that the program answers by itself.
    pub fn of(word: &str) -> Option<Asked>
        ensures { result ≡ asked_of word.now }
    {
        if word == "--help" {
            return Some(Asked::Help);
        }
        if word == "--version" {
            return Some(Asked::Version);
        }
        (word == "--faults").then_some(Asked::Faults)
    }

    /// The pieces of the text that answers, to be printed one after another.
    pub fn text(self) -> &'static [&'static str] {
        match self {
            Asked::Help => &[HELP],
            Asked::Version => &[VERSION],
            Asked::Faults => &[
                STATUSES,
                HEAD_FAULTS,
                CHUNK_FAULTS,
                REQUEST_FAULTS,
                LAYOUT_FAULTS,
                MATCH_FAULTS,
            ],
        }
    }
}
