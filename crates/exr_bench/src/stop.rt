//! Why the program stopped, with its status and what it says.

ghost use Rattle.std.specs.Prelude.{◌≡◌};
ghost use Rattle.exr_bench.specs.declared.stop.Stop.TheVariants as stop;

use exr_base::{NoMemory, Refusal};
use std::alloc::{AllocError, AllocFailed};

const USAGE: &str = "\
exr_bench KERNEL FILE REPEATS

Runs a kernel REPEATS times over the bytes of a file, and prints a checksum of
what it gave. The kernels, and what the file has:

  b44-pack         how many columns and lines there are, and raw bytes of four
                   channels of halves
  b44-unpack       the same numbers, and packed data
  b44a-pack        as b44-pack
  b44a-unpack      as b44-unpack
  rle-pack         raw bytes
  rle-unpack       how many raw bytes there are, and packed data
  wavelet-encode   how many columns and lines there are and the greatest word,
                   and the words line by line
  wavelet-decode   the same, of words that were encoded
  huffman-pack     words
  huffman-unpack   how many words there are, and a Huffman block
  piz-pack         how many columns, lines and channels there are, the bytes of a
                   sample, 2 or 4, and raw data
  piz-unpack       the same, of packed data
  piz-unpack-all   how many blocks there are, and each as for piz-unpack, with
                   the size of its data before the data
  head-read        a file, or the head of one

A number takes four bytes and a word two, both little endian.
";

/// Why the program stopped.
#[derive(Clone, Copy, Debug, PartialEq, Eq)]
pub(crate) enum Stop {
    /// Memory ran out.
    NoMemory,
    /// The words are not a kernel, a file and how often.
    Words,
    /// The file could not be read.
    Read,
    /// The checksum could not be printed.
    Write,
    /// The file is not what the kernel works on.
    Form,
}

impl Stop {
    /// The status that the program ends with.
    pub(crate) fn status(self) -> u8 {
        match self {
            Stop::NoMemory => 1,
            Stop::Words => 2,
            Stop::Read => 4,
            Stop::Write => 5,
            Stop::Form => 7,
        }
    }

    /// What is printed on standard error.
    pub(crate) fn text(self) -> &'static str {
        match self {
            Stop::NoMemory => "exr_bench: no memory\n",
            Stop::Words => USAGE,
            Stop::Read => "exr_bench: the file could not be read\n",
            Stop::Write => "exr_bench: the checksum could not be printed\n",
            Stop::Form => "exr_bench: the file is not what the kernel works on\n",
        }
    }
}

impl From<NoMemory> for Stop {
    ghost from_gives = { λ _ e. e ≡ stop.NoMemory };

    fn from(_error: NoMemory) -> Stop {
        Stop::NoMemory
    }
}

impl From<AllocError> for Stop {
    ghost from_gives = { λ _ e. e ≡ stop.NoMemory };

    fn from(_error: AllocError) -> Stop {
        Stop::NoMemory
    }
}

impl<T: Drop> From<AllocFailed<T>> for Stop {
    ghost from_gives = { λ _ e. e ≡ stop.NoMemory };

    fn from(_error: AllocFailed<T>) -> Stop {
        Stop::NoMemory
    }
}

impl<T: Drop> From<Refusal<T>> for Stop {
    fn from(refusal: Refusal<T>) -> Stop {
        match refusal {
            Refusal::Fault(_) => Stop::Form,
            Refusal::NoMemory => Stop::NoMemory,
        }
    }
}
