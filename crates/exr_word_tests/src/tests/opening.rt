//! Opening a source that counts the bytes that are read of it, and one whose calls fail.

ghost use Rattle.std.specs.Prelude.{[], false};

use super::{expect, source_of};
use exr_attributes::{Bound, HeaderFault};
use exr_base::{Failed, Refusal};
use exr_fixtures::{ONE_PIXEL, put_attribute, single_head};
use exr_opening::{OpenFault, Opened, open_head, read_piece};
use exr_outside::Source;
use std::alloc::Global;
use std::test::Fail;

/// The front of a file of bytes; what follows is zero up to some length.
#[derive(Drop)]
struct Counting<'a> {
    front: &'a [u8],
    length: u64,
    /// How many bytes were read.
    read: u64,
}

impl<'a> Source for Counting<'a> {
    ghost means = { record {
      tells = false;
      name = λ _. [];
      content = λ _. [];
      faults = λ _. 0;
    } };

    fn name(&self) -> &str {
        ""
    }

    fn len(&mut self) -> Result<u64, Failed> {
        Ok(self.length)
    }

    fn read_at(&mut self, pos: u64, into: &mut [u8]) -> Result<usize, Failed> {
        let mut count = 0usize;
        for byte in into.iter_mut() {
            let place = pos.saturating_add(count as u64);
            if place >= self.length {
                break;
            }
            *byte = byte_at(self.front, place);
            count = count.wrapping_add(1);
        }
        let count = count.min(into.len());
        self.read = self.read.saturating_add(count as u64);
        Ok(count)
    }

    fn faults(&self) -> u64 {
        0
    }
}

/// A byte of the front, or zero behind it.
fn byte_at(front: &[u8], place: u64) -> u8 {
    if place < front.len() as u64 {
        front[place as usize]
    } else {
        0
    }
}

/// The head of one pixel with an attribute of so many bytes: 292 bytes more.
fn head_with(alloc: Global, size: usize) -> Result<Vec<u8>, Fail> {
    let mut more = Vec::new(alloc);
    put_attribute(&mut more, b"aaa", b"string", &vec![in alloc; b'a'; size]?)?;
    Ok(single_head(alloc, &ONE_PIXEL, &more)?)
}

/// The length of the head in the first bytes of a source, or the fault of opening it.
fn answer_of<S: Source>(alloc: Global, source: &mut S) -> Result<Result<usize, OpenFault>, Fail> {
    match open_head(alloc, source) {
        Ok(Opened { head_bytes, .. }) => Ok(Ok(head_bytes)),
        Err(Refusal::Fault(fault)) => Ok(Err(fault)),
        Err(Refusal::NoMemory) => Err(Fail::from("no memory")),
    }
}

/// What opening a file with this front and length answers, and how many bytes it read.
fn opened(
    alloc: Global,
    front: &[u8],
    length: u64,
) -> Result<(Result<usize, OpenFault>, u64), Fail> {
    let mut source = Counting {
        front,
        length,
        read: 0,
    };
    let answer = answer_of(alloc, &mut source)?;
    Ok((answer, source.read))
}

/// The sizes of an attribute that make heads of 292 bytes and more, about the ends of pieces.
const SIZES: &[usize] = &[
    0,
    1,
    65_243,
    65_244,
    65_245,
    130_780,
    130_781,
    1 << 20,
    5_000_000,
];

/// Whether opening a file of this head and of so many bytes more answers its length, and reads at most twice the head and
/// 64 KiB.
fn is_opened(alloc: Global, head: &[u8], more: u64) -> Result<bool, Fail> {
    let bytes = head.len() as u64;
    let (answer, read) = opened(alloc, head, bytes.saturating_add(more))?;
    let most = bytes.saturating_mul(2).saturating_add(1 << 16);
    Ok(answer == Ok(head.len()) && read <= most)
}

/// How many bytes follow the heads.
const MORE: [u64; 4] = [0, 1, 1 << 20, 1 << 40];

// At most twice the head and 64 KiB are read, and never past 2^24 + 1 bytes.
#[test]
fn heads_of_many_sizes(rt: HostRuntime) -> Result<(), Fail> {
    for size in SIZES {
        let head = head_with(rt.alloc(), *size)?;
        expect(&rt, *size, head.len() == size.saturating_add(292));
        for more in MORE {
            expect(&rt, *size, is_opened(rt.alloc(), &head, more)?);
        }
        let at = (head.len() as u64).saturating_sub(1);
        let (answer, _) = opened(rt.alloc(), &head, at)?;
        let fault = HeaderFault::Truncated { at };
        expect(&rt, *size, answer == Err(OpenFault::Head(fault)));
    }
    Ok(())
}

/// The front of a file, its length, the fault of its head, and how many bytes are read.
type Faulty = (&'static [u8], u64, HeaderFault, u64);

const FAULTY: &[Faulty] = &[
    // a fault is answered from the first piece that shows it
    (
        b"not an OpenEXR file",
        1 << 40,
        HeaderFault::BadMagic,
        1 << 16,
    ),
    // a size that is only claimed
    (
        b"v/1\x01\x02\0\0\0aaa\0string\0\xff\xff\xff\x7f",
        300,
        HeaderFault::Truncated { at: 300 },
        300,
    ),
    // a head that does not end within 2^24 bytes, where the file ends there and where it goes on
    (
        b"v/1\x01\x02\0\0\0aaa\0string\0\xff\xff\xff\x7f",
        1 << 24,
        HeaderFault::Truncated { at: 1 << 24 },
        1 << 24,
    ),
    (
        b"v/1\x01\x02\0\0\0aaa\0string\0\xff\xff\xff\x7f",
        1 << 30,
        HeaderFault::Limit(Bound::HeadBytes),
        (1 << 24) + 1,
    ),
    (b"", 0, HeaderFault::Truncated { at: 0 }, 0),
];

#[test]
fn faults_of_long_files(rt: HostRuntime) -> Result<(), Fail> {
    for (case, (front, length, fault, read)) in FAULTY.iter().enumerate() {
        let (answer, found) = opened(rt.alloc(), front, *length)?;
        let is_right = answer == Err(OpenFault::Head(*fault)) && found == *read;
        expect(&rt, case, is_right);
    }
    Ok(())
}

/// The calls of `len` and of `read_at` that fail, and what opening a file of 277 bytes answers.
type Failing = (&'static [u64], &'static [u64], Result<usize, OpenFault>);

const FAILING: &[Failing] = &[
    (&[], &[], Ok(277)),
    (&[1], &[1], Ok(277)),
    (&[0], &[], Err(OpenFault::Read)),
    (&[], &[0], Err(OpenFault::Read)),
];

#[test]
fn calls_that_fail(rt: HostRuntime) -> Result<(), Fail> {
    let head = single_head(rt.alloc(), &ONE_PIXEL, &[])?;
    for (case, (lens, reads, answer)) in FAILING.iter().enumerate() {
        let mut source = source_of(rt.alloc(), &head, lens, reads)?;
        let is_right = answer_of(rt.alloc(), &mut source)? == *answer;
        expect(
            &rt,
            case,
            is_right && (source.faults() > 0) == answer.is_err(),
        );
    }
    Ok(())
}

/// A place of that file, how many bytes are asked for, and the bytes that are there.
const PIECES: &[(u32, u16, &[u8])] = &[
    (0, 4, b"v/1\x01"),
    (8, 8, b"channels"),
    (273, 9, b"\0\x80?\0"),
    (277, 1, b""),
    (u32::MAX, 3, b""),
    (5, 0, b""),
];

#[test]
fn pieces_of_a_source(rt: HostRuntime) -> Result<(), Fail> {
    let head = single_head(rt.alloc(), &ONE_PIXEL, &[])?;
    let mut source = source_of(rt.alloc(), &head, &[], &[6])?;
    for (case, (at, size, bytes)) in PIECES.iter().enumerate() {
        let piece = read_piece(rt.alloc(), &mut source, u64::from(*at), usize::from(*size))?;
        expect(&rt, case, piece.as_slice() == *bytes);
    }
    let failed = read_piece(rt.alloc(), &mut source, 0, 1);
    expect(
        &rt,
        6,
        failed.err() == Some(Refusal::Fault(OpenFault::Read)),
    );
    Ok(())
}
