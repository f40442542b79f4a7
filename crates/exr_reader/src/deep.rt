//! Reading a window of a deep part.

ghost use Rattle.std.specs.Prelude.{◌≡◌, ◌≤◌, ◌<◌, ◌*◌, ◌^◌, true, IsTrue, IfOk, IfErr, OnOk, length, Ok, Err};
ghost use Rattle.std.specs.List.{All};
ghost use Rattle.exr_base.specs.Boxes.{IsInside};
ghost use Rattle.exr_base.specs.Shape.{IsRegion};
ghost use Rattle.exr_deep.specs.Body.{content_of};
ghost use Rattle.exr_block.specs.Body.{deep_content};
ghost use Rattle.exr_deep.specs.Deep.{fits, pixels_of};
ghost use Rattle.exr_outside.specs.Count.{Rose};
ghost use Rattle.exr_chunks.specs.Heads.{is_deep, chunk_count_of};
ghost use Rattle.exr_chunks.specs.Region.{header_at, region_of};
ghost use Rattle.exr_chunks.specs.Window.{chunks_of_window};
ghost use Rattle.exr_stream.specs.Stream.{file_of, IsSameStream};
ghost use Rattle.exr_reader.specs.declared.deep.DeepStop.TheVariants as stop;
ghost use Rattle.exr_reader.specs.Sample.{raw_of};
ghost use Rattle.exr_reader.specs.Reading.{HasCause};
ghost use Rattle.exr_reader.specs.Window.{AreChunks, HaveDataOf};
ghost use Rattle.exr_reader.specs.Deep.{IsDeepImage, AreSmall, IsDeepChunk, AreDeepChunks, IsDeepFault, IsTooLarge, HasDeepCause, stop_of_cause};

use crate::bands::{DeepWindow, read_bands};
use crate::cause::ReadCause;
use crate::jobs::Jobs;
use crate::window::window_chunks;
use crate::work::Work;
use exr_base::{Box2i, NoMemory};
use exr_block::ChunkFault;
use exr_image::DeepImage;
use exr_outside::{Gate, Source, World};
use exr_stream::Stream;
use std::alloc::{AllocError, AllocFailed, Global};
use std::thread::Threads;
use thiserror::Error;

/// Why a window of a deep part could not be read (own).
#[derive(Clone, Copy, Debug, PartialEq, Eq, Error)]
pub enum DeepStop {
    /// Memory ran out.
    #[error("no memory")]
    NoMemory,
    /// The source failed.
    #[error("read fault")]
    Read,
    /// The first chunk, by its index, that has a fault.
    #[error("chunk {index}: {fault}")]
    Chunk { index: u32, fault: ChunkFault },
    /// The first chunk with which there are more than 2^30 bytes: four for each pixel of the window, and the samples of the
    /// window's chunks up to that one.
    #[error("chunk {index}: too large")]
    TooLarge { index: u32 },
}

impl From<NoMemory> for DeepStop {
    ghost from_gives = { λ _ e. e ≡ stop.NoMemory };

    fn from(_error: NoMemory) -> DeepStop {
        DeepStop::NoMemory
    }
}

impl From<AllocError> for DeepStop {
    ghost from_gives = { λ _ e. e ≡ stop.NoMemory };

    fn from(_error: AllocError) -> DeepStop {
        DeepStop::NoMemory
    }
}

impl<X: Drop> From<AllocFailed<X>> for DeepStop {
    ghost from_gives = { λ _ e. e ≡ stop.NoMemory };

    fn from(_error: AllocFailed<X>) -> DeepStop {
        DeepStop::NoMemory
    }
}

/// The stop of a cause that reading a chunk has.
pub(crate) fn stop_of(cause: ReadCause) -> DeepStop
    ensures { result ≡ stop_of_cause cause }
{
    match cause {
        ReadCause::NoMemory => DeepStop::NoMemory,
        ReadCause::Read => DeepStop::Read,
        ReadCause::Chunk { index, fault } => DeepStop::Chunk { index, fault },
    }
}

/// Reads a window of a deep part: how many samples each pixel has, and the samples, pixel by pixel.
///
/// The part is deep, and the window has pixels, all of them in the data window. A fault is that of the first chunk of the
/// window that has one. `TooLarge` names the first chunk with which the counts and the samples have more than 2^30 bytes;
/// a fault of that chunk comes first. The gate is passed with the index of a chunk before it is read, and again when that
/// is done, also where it has a fault or the read failed. The threads of `work` are not used so far.
///
/// File Layout, "Deep Data Blocks".
pub fn read_deep<R: Threads + Sync, W: World, S: Source, G: Gate>(
    _rt: &R,
    alloc: Global,
    stream: &mut Stream<W, S>,
    part: u32,
    window: Box2i,
    _work: Work,
    gate: &G,
) -> Result<DeepImage, DeepStop>
    requires part { part < length stream.old.head.parts }
    requires deep { is_deep (header_at stream.old.head.parts part).kind ≡ true }
    requires inside { IsInside (header_at stream.old.head.parts part).window window }
    ensures image { IsTrue S.means.tells → IfOk result (IsDeepImage (file_of S.means stream.old) part window) }
    ensures chunks { IsTrue S.means.tells → OnOk result (HaveDataOf (file_of S.means stream.old) part
        (chunks_of_window (header_at stream.old.head.parts part) window)
        (length (chunks_of_window (header_at stream.old.head.parts part) window))) }
    ensures small { IsTrue S.means.tells → OnOk result (AreSmall (file_of S.means stream.old) part window
        (chunks_of_window (header_at stream.old.head.parts part) window)
        (length (chunks_of_window (header_at stream.old.head.parts part) window))) }
    ensures same { IsSameStream S.means stream.old stream.new }
    ensures later { S.means.faults stream.old.source ≤ S.means.faults stream.new.source }
    ensures cause { IfErr result (λ stop. HasDeepCause stop
        (λ i fault. IsTrue S.means.tells → IsDeepFault (file_of S.means stream.old) part window
        (chunks_of_window (header_at stream.old.head.parts part) window) i fault)
        (λ i. IsTrue S.means.tells → IsTooLarge (file_of S.means stream.old) part window
        (chunks_of_window (header_at stream.old.head.parts part) window) i)
        (Rose (S.means.faults stream.old.source) (S.means.faults stream.new.source))) }
{
    let chunks = window_chunks(stream, alloc, part, window)?;
    let what = DeepWindow {
        part,
        window,
        chunks: &chunks,
    };
    let mut jobs = Jobs::new(gate);
    let read = read_bands(alloc, stream, &what, &mut jobs);
    jobs.close();
    read
}
