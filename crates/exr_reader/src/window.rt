//! Reading a window of a part into the buffer of a layout.

ghost use Rattle.std.specs.Prelude.{◌≡◌, ◌*◌, ◌≤◌, ◌<◌, ◌^◌, false, IsTrue, IfOk, IfErr, OnOk, length};
ghost use Rattle.exr_base.specs.Boxes.{IsInside};
ghost use Rattle.exr_outside.specs.Count.{Rose};
ghost use Rattle.exr_chunks.specs.Heads.{IsPicture, is_deep};
ghost use Rattle.exr_chunks.specs.Region.{header_at};
ghost use Rattle.exr_chunks.specs.Window.{chunks_of_window};
ghost use Rattle.exr_stream.specs.Stream.{file_of, IsSameStream};
ghost use Rattle.exr_layout.specs.Plan.{IsPlanOf};
ghost use Rattle.exr_layout.specs.Validation.{IsValid};
ghost use Rattle.exr_reader.specs.Reading.{HasCause};
ghost use Rattle.exr_reader.specs.Window.{target_of, AreChunks, ArePut, IsFilled, HaveDataOf, IsFirstFaultOf, IsStopAt};

use crate::cause::ReadCause;
use crate::fetched::read_bytes;
use crate::jobs::Jobs;
use crate::rounds::read_rounds;
use crate::target::Target;
use crate::work::{ReadStop, Work};
use exr_base::{Box2i, NoMemory};
use exr_layout::{Layout, Plan};
use exr_outside::{Gate, Source, World};
use exr_stream::Stream;
use std::alloc::Global;
use std::thread::Threads;

/// The chunks that a window meets, by rising indexes, of which the first was read: memory for a buffer is better asked for
/// once that is there.
///
/// The part is not deep.
pub fn read_first<W: World, S: Source>(
    alloc: Global,
    stream: &mut Stream<W, S>,
    part: u32,
    window: Box2i,
) -> Result<Vec<u32>, ReadCause>
    requires part { part < length stream.old.head.parts }
    requires flat { is_deep (header_at stream.old.head.parts part).kind ≡ false }
    ensures chunks { IfOk result (λ chunks. chunks.items ≡ chunks_of_window (header_at stream.old.head.parts part) window) }
    ensures few { IfOk result (λ chunks. length chunks.items ≤ 2 ^ 20) }
    ensures picture { IsPicture (header_at stream.old.head.parts part) }
    ensures first { IsTrue S.means.tells → OnOk result (HaveDataOf (file_of S.means stream.old) part
        (chunks_of_window (header_at stream.old.head.parts part) window) 1) }
    ensures same { IsSameStream S.means stream.old stream.new }
    ensures later { S.means.faults stream.old.source ≤ S.means.faults stream.new.source }
    ensures cause { IfErr result (λ cause. HasCause cause (λ i fault. IsTrue S.means.tells
        → IsFirstFaultOf (file_of S.means stream.old) part (chunks_of_window (header_at stream.old.head.parts part) window)
        0 i fault)
        (Rose (S.means.faults stream.old.source) (S.means.faults stream.new.source))) }
{
    let chunks = window_chunks(stream, alloc, part, window)?;
    read_front(alloc, stream, part, &chunks)?;
    Ok(chunks)
}

/// Reads the first chunk of a list, where there is one.
fn read_front<W: World, S: Source>(
    alloc: Global,
    stream: &mut Stream<W, S>,
    part: u32,
    chunks: &[u32],
) -> Result<(), ReadCause>
    requires part { part < length stream.old.head.parts }
    requires flat { is_deep (header_at stream.old.head.parts part).kind ≡ false }
    requires chunks { AreChunks (header_at stream.old.head.parts part) chunks.now }
    ensures first { IsTrue S.means.tells → OnOk result (HaveDataOf (file_of S.means stream.old) part chunks.now 1) }
    ensures same { IsSameStream S.means stream.old stream.new }
    ensures later { S.means.faults stream.old.source ≤ S.means.faults stream.new.source }
    ensures cause { IfErr result (λ cause. HasCause cause (λ i fault. IsTrue S.means.tells
        → IsFirstFaultOf (file_of S.means stream.old) part chunks.now 0 i fault)
        (Rose (S.means.faults stream.old.source) (S.means.faults stream.new.source))) }
{
    if let Some(index) = chunks.first() {
        read_bytes(alloc, stream, part, *index, Vec::new(alloc))?;
    }
    Ok(())
}

/// The chunks that a window meets, by rising indexes.
pub(crate) fn window_chunks<W: World, S: Source>(
    stream: &Stream<W, S>,
    alloc: Global,
    part: u32,
    window: Box2i,
) -> Result<Vec<u32>, NoMemory>
    requires part { part < length stream.now.head.parts }
    ensures exact { IfOk result (λ chunks. chunks.items ≡ chunks_of_window (header_at stream.now.head.parts part) window) }
    ensures chunks { IfOk result (λ chunks. AreChunks (header_at stream.now.head.parts part) chunks.items) }
    ensures few { IfOk result (λ chunks. length chunks.items ≤ 2 ^ 20) }
    ensures picture { IsPicture (header_at stream.now.head.parts part) }
{
    stream.geometry().chunks_of(alloc, part, window)
}

/// Reads the samples of a layout's window into its buffer: those of the channels that the part has, and the fills of the
/// slices whose channels it lacks. No other byte is changed.
///
/// The part is not deep, `chunks` is what `read_first` gave for it and the layout's window, and `into` has the layout's
/// length. The chunks are read in rounds, and a round is read whole before any of it is put. After a stop exactly the rounds
/// before were put. A fault is that of the first chunk of the window that has one. The gate is passed with the index of a
/// chunk before it is read, and again when that is done, also where it has a fault or the read failed.
pub fn read_chunks<R: Threads + Sync, W: World, S: Source, G: Gate>(
    _rt: &R,
    alloc: Global,
    stream: &mut Stream<W, S>,
    target: &Target<'_>,
    chunks: &[u32],
    work: Work,
    gate: &G,
    into: &mut [u8],
) -> Result<(), ReadStop>
    requires part { target.now.part < length stream.old.head.parts }
    requires flat { is_deep (header_at stream.old.head.parts target.now.part).kind ≡ false }
    requires plan { IsPlanOf target.now.layout.now (header_at stream.old.head.parts target.now.part).channels target.now.plan.now }
    requires window { IsInside (header_at stream.old.head.parts target.now.part).window target.now.layout.now.window }
    requires chunks { chunks.now ≡ chunks_of_window (header_at stream.old.head.parts target.now.part) target.now.layout.now.window }
    requires few { length chunks.now ≤ 2 ^ 20 }
    requires picture { IsPicture (header_at stream.old.head.parts target.now.part) }
    requires valid { IsValid target.now.layout.now }
    requires round { 1 ≤ work.round }
    requires into { length into.old ≡ target.now.layout.now.buffer }
    ensures filled { IsTrue S.means.tells → OnOk result
        (IsFilled (target_of S.means stream.old target.now.part target.now.layout.now target.now.plan.now) into.old into.new) }
    ensures stopped { IsTrue S.means.tells → IfErr result (λ stop. ArePut
        (target_of S.means stream.old target.now.part target.now.layout.now target.now.plan.now) chunks.now
        (stop.rounds * work.round) into.old into.new) }
    ensures chunks { IsTrue S.means.tells → OnOk result
        (HaveDataOf (file_of S.means stream.old) target.now.part chunks.now (length chunks.now)) }
    ensures same { IsSameStream S.means stream.old stream.new }
    ensures later { S.means.faults stream.old.source ≤ S.means.faults stream.new.source }
    ensures cause { IfErr result (λ stop. HasCause stop.cause (λ i fault. IsTrue S.means.tells
        → IsStopAt (file_of S.means stream.old) target.now.part chunks.now work.round stop.rounds i fault)
        (Rose (S.means.faults stream.old.source) (S.means.faults stream.new.source))) }
{
    let mut jobs = Jobs::new(gate);
    let result = read_rounds(alloc, stream, target, chunks, work.round, &mut jobs, into);
    jobs.close();
    result
}

/// Reads the samples of a layout's window into its buffer, as `read_chunks` does: the chunks that the window meets are
/// found first.
pub fn read_window<R: Threads + Sync, W: World, S: Source, G: Gate>(
    rt: &R,
    alloc: Global,
    stream: &mut Stream<W, S>,
    part: u32,
    layout: &Layout,
    plan: &Plan,
    work: Work,
    gate: &G,
    into: &mut [u8],
) -> Result<(), ReadStop>
    requires part { part < length stream.old.head.parts }
    requires flat { is_deep (header_at stream.old.head.parts part).kind ≡ false }
    requires plan { IsPlanOf layout.now (header_at stream.old.head.parts part).channels plan.now }
    requires window { IsInside (header_at stream.old.head.parts part).window layout.now.window }
    requires round { 1 ≤ work.round }
    requires into { length into.old ≡ layout.now.buffer }
    ensures filled { IsTrue S.means.tells → OnOk result
        (IsFilled (target_of S.means stream.old part layout.now plan.now) into.old into.new) }
    ensures stopped { IsTrue S.means.tells → IfErr result (λ stop. ArePut (target_of S.means stream.old part layout.now plan.now)
        (chunks_of_window (header_at stream.old.head.parts part) layout.now.window) (stop.rounds * work.round) into.old into.new) }
    ensures chunks { IsTrue S.means.tells → OnOk result (HaveDataOf (file_of S.means stream.old) part
        (chunks_of_window (header_at stream.old.head.parts part) layout.now.window)
        (length (chunks_of_window (header_at stream.old.head.parts part) layout.now.window))) }
    ensures same { IsSameStream S.means stream.old stream.new }
    ensures later { S.means.faults stream.old.source ≤ S.means.faults stream.new.source }
    ensures cause { IfErr result (λ stop. HasCause stop.cause (λ i fault. IsTrue S.means.tells
        → IsStopAt (file_of S.means stream.old) part (chunks_of_window (header_at stream.old.head.parts part) layout.now.window)
        work.round stop.rounds i fault)
        (Rose (S.means.faults stream.old.source) (S.means.faults stream.new.source))) }
{
    let target = Target { part, layout, plan };
    match window_chunks(stream, alloc, part, layout.window()) {
        Ok(chunks) => read_chunks(rt, alloc, stream, &target, &chunks, work, gate, into),
        Err(NoMemory) => Err(ReadStop {
            cause: ReadCause::NoMemory,
            rounds: 0,
        }),
    }
}
