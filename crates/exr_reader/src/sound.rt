//! Testing all chunks of a file.

ghost use Rattle.std.specs.Prelude.{◌≡◌, ◌≤◌, ◌<◌, true, IsTrue, IfOk, IfErr, OnOk, length};
ghost use Rattle.exr_outside.specs.Count.{Rose};
ghost use Rattle.exr_chunks.specs.Heads.{chunk_count_of};
ghost use Rattle.exr_chunks.specs.Region.{header_at};
ghost use Rattle.exr_stream.specs.Stream.{file_of, IsSameStream};
ghost use Rattle.exr_reader.specs.declared.sound.CheckStop.TheVariants as stop;
ghost use Rattle.exr_reader.specs.Sample.{raw_of};
ghost use Rattle.exr_reader.specs.Check.{is_unread, is_sound, unread_of, unread_counts, AreSound, IsSoundFile, IsUnsound, IsFirstUnsoundOf, IsFirstUnsound, HasCheckCause};

use crate::cause::ReadCause;
use crate::fetched::read_block;
use crate::work::Work;
use exr_block::{Block, ChunkFault};
use exr_outside::{Source, World};
use exr_stream::Stream;
use std::alloc::{AllocError, AllocFailed, Global};
use std::mem;
use std::thread::Threads;
use thiserror::Error;

/// Why a file was not tested to its end (own).
#[derive(Clone, Copy, Debug, PartialEq, Eq, Error)]
pub enum CheckStop {
    /// Memory ran out.
    #[error("no memory")]
    NoMemory,
    /// The source failed.
    #[error("read fault")]
    Read,
    /// The first chunk, by its part and its index, that has a fault other than `ChunkFault::Unsupported`.
    #[error("part {part}: chunk {index}: {fault}")]
    Chunk {
        part: u32,
        index: u32,
        fault: ChunkFault,
    },
}

impl From<AllocError> for CheckStop {
    ghost from_gives = { λ _ e. e ≡ stop.NoMemory };

    fn from(_error: AllocError) -> CheckStop {
        CheckStop::NoMemory
    }
}

impl<X: Drop> From<AllocFailed<X>> for CheckStop {
    ghost from_gives = { λ _ e. e ≡ stop.NoMemory };

    fn from(_error: AllocFailed<X>) -> CheckStop {
        CheckStop::NoMemory
    }
}

/// Whether a chunk is unread. Its raw content is made in memory that is kept, and let go of.
fn test_chunk<W: World, S: Source>(
    alloc: Global,
    stream: &mut Stream<W, S>,
    part: u32,
    index: u32,
    room: &mut Vec<u8>,
) -> Result<bool, CheckStop>
    requires part { part < length stream.old.head.parts }
    requires index { index < chunk_count_of (header_at stream.old.head.parts part) }
    ensures unread { IsTrue S.means.tells → IfOk result (λ unread. unread ≡ is_unread (raw_of (file_of S.means stream.old) part index)) }
    ensures sound { IsTrue S.means.tells → OnOk result (is_sound (raw_of (file_of S.means stream.old) part index) ≡ true) }
    ensures same { IsSameStream S.means stream.old stream.new }
    ensures later { S.means.faults stream.old.source ≤ S.means.faults stream.new.source }
    ensures cause { IfErr result (λ stop. HasCheckCause stop (λ p i fault. (p ≡ part) × ((i ≡ index) × (IsTrue S.means.tells
        → IsUnsound (raw_of (file_of S.means stream.old) part index) fault)))
        (Rose (S.means.faults stream.old.source) (S.means.faults stream.new.source))) }
{
    let memory = mem::replace(room, Vec::new(alloc));
    match read_block(alloc, stream, part, index, memory) {
        Ok(Block::Flat(raw)) => {
            *room = raw;
            Ok(false)
        }
        Ok(Block::Deep(_)) => Ok(false),
        Err(ReadCause::NoMemory) => Err(CheckStop::NoMemory),
        Err(ReadCause::Read) => Err(CheckStop::Read),
        Err(ReadCause::Chunk { index, fault }) => match fault {
            ChunkFault::Unsupported { method: _ } => Ok(true),
            _ => Err(CheckStop::Chunk { part, index, fault }),
        },
    }
}

/// How many chunks of a part are unread.
fn test_part<W: World, S: Source>(
    alloc: Global,
    stream: &mut Stream<W, S>,
    part: u32,
    room: &mut Vec<u8>,
) -> Result<u32, CheckStop>
    requires part { part < length stream.old.head.parts }
    ensures unread { IsTrue S.means.tells → IfOk result (λ unread. unread ≡ unread_of (file_of S.means stream.old) part) }
    ensures sound { IsTrue S.means.tells → OnOk result
        (AreSound (file_of S.means stream.old) part (chunk_count_of (header_at stream.old.head.parts part))) }
    ensures same { IsSameStream S.means stream.old stream.new }
    ensures later { S.means.faults stream.old.source ≤ S.means.faults stream.new.source }
    ensures cause { IfErr result (λ stop. HasCheckCause stop (λ p i fault. (p ≡ part) × (IsTrue S.means.tells
        → IsFirstUnsoundOf (file_of S.means stream.old) part i fault))
        (Rose (S.means.faults stream.old.source) (S.means.faults stream.new.source))) }
{
    let mut unread = 0;
    for index in 0..stream.chunk_count(part) {
        match test_chunk(alloc, stream, part, index, room) {
            Ok(is_unread) => unread += u32::from(is_unread),
            Err(stop) => return Err(stop),
        }
    }
    Ok(unread)
}

/// Tests all chunks of a file: each is read and unpacked, as far as its method is read. Of each part it gives the number of
/// chunks whose fault is `Unsupported`, where no chunk has another fault; else the first other fault, by part and index.
///
/// One chunk is held at a time; the threads of `work` are not used so far.
pub fn check<R: Threads + Sync, W: World, S: Source>(
    _rt: &R,
    alloc: Global,
    stream: &mut Stream<W, S>,
    _work: Work,
) -> Result<Vec<u32>, CheckStop>
    ensures unread { IsTrue S.means.tells → IfOk result (λ counts. counts.items ≡ unread_counts (file_of S.means stream.old)) }
    ensures parts { IfOk result (λ counts. length counts.items ≡ length stream.old.head.parts) }
    ensures sound { IsTrue S.means.tells → OnOk result (IsSoundFile (file_of S.means stream.old)) }
    ensures same { IsSameStream S.means stream.old stream.new }
    ensures later { S.means.faults stream.old.source ≤ S.means.faults stream.new.source }
    ensures cause { IfErr result (λ stop. HasCheckCause stop (λ part i fault. IsTrue S.means.tells
        → IsFirstUnsound (file_of S.means stream.old) part i fault)
        (Rose (S.means.faults stream.old.source) (S.means.faults stream.new.source))) }
{
    let mut counts = Vec::new(alloc);
    let mut room = Vec::new(alloc);
    for part in 0..stream.head().parts().len() {
        match test_part(alloc, stream, part as u32, &mut room) {
            Ok(unread) => counts.push(unread)?,
            Err(stop) => return Err(stop),
        }
    }
    Ok(counts)
}
