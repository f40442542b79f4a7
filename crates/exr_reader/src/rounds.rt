//! The chunks of a list, read and put round by round.

ghost use Rattle.std.specs.Prelude.{◌≡◌, ◌+◌, ◌-◌, ◌*◌, ◌/◌, ◌^◌, ◌≤◌, ◌<◌, ℕ, List, false, IsTrue, IfOk, IfErr, OnOk, length, map};
ghost use Rattle.exr_base.specs.Boxes.{IsInside};
ghost use Rattle.exr_base.specs.Shape.{raw_size_of};
ghost use Rattle.exr_outside.specs.Count.{Rose};
ghost use Rattle.exr_chunks.specs.Heads.{IsPicture, is_deep, chunk_count_of};
ghost use Rattle.exr_chunks.specs.Region.{header_at, region_of};
ghost use Rattle.exr_stream.specs.Stream.{file_of, IsSameStream};
ghost use Rattle.exr_layout.specs.Validation.{IsValid};
ghost use Rattle.exr_layout.specs.Plan.{IsPlanOf};
ghost use Rattle.exr_reader.specs.Reading.{HasCause};
ghost use Rattle.exr_reader.specs.Window.{target_of, AreChunks, AreRaw, IsFaultFrom, IsChunkPut, ArePut, HaveDataOf, IsStopAt};

use crate::cause::ReadCause;
use crate::fetched::read_bytes;
use crate::jobs::Jobs;
use crate::target::Target;
use crate::work::ReadStop;
use exr_frame::scatter;
use exr_outside::{Gate, Source, World};
use exr_stream::Stream;
use std::alloc::Global;

/// Memory that was kept, or none.
fn take_room(alloc: Global, kept: &mut Vec<Vec<u8>>) -> Vec<u8> {
    kept.pop().unwrap_or(Vec::new(alloc))
}

/// The raw content of the chunks of a list from one rank to another, in memory that an earlier round was kept in. To read one
/// is a job.
fn read_round<W: World, S: Source, G: Gate>(
    alloc: Global,
    stream: &mut Stream<W, S>,
    part: u32,
    chunks: &[u32],
    from: usize,
    to: usize,
    kept: Vec<Vec<u8>>,
    jobs: &mut Jobs<'_, G>,
) -> Result<Vec<Vec<u8>>, ReadCause>
    requires part { part < length stream.old.head.parts }
    requires flat { is_deep (header_at stream.old.head.parts part).kind ≡ false }
    requires chunks { AreChunks (header_at stream.old.head.parts part) chunks.now }
    requires ordered { from ≤ to }
    requires within { to ≤ length chunks.now }
    requires rest { jobs.old.begun ≡ None }
    ensures many { IfOk result (λ raws. length raws.items ≡ to - from) }
    ensures raws { IfOk result (λ raws. AreRaw (IsTrue S.means.tells) (file_of S.means stream.old) part chunks.now from
        (map (λ raw. raw.items) raws.items)) }
    ensures same { IsSameStream S.means stream.old stream.new }
    ensures later { S.means.faults stream.old.source ≤ S.means.faults stream.new.source }
    ensures cause { IfErr result (λ cause. HasCause cause (λ i fault. IsTrue S.means.tells
        → IsFaultFrom (file_of S.means stream.old) part chunks.now from to i fault)
        (Rose (S.means.faults stream.old.source) (S.means.faults stream.new.source))) }
    // The gate is told that a job is done also where its chunk could not be read.
    ensures done { jobs.new.begun ≡ None }
{
    let mut kept = kept;
    let mut raws = Vec::with_capacity(alloc, to - from)?;
    for rank in from..to {
        let index = chunks[rank];
        let room = take_room(alloc, &mut kept);
        jobs.begin(index);
        let raw = read_bytes(alloc, stream, part, index, room);
        jobs.end(index);
        match raw {
            Ok(raw) => raws.push(raw)?,
            Err(cause) => return Err(cause),
        }
    }
    Ok(raws)
}

/// Puts the raw content of a chunk.
fn put_chunk<W: World, S: Source>(
    stream: &Stream<W, S>,
    target: &Target<'_>,
    index: u32,
    raw: &[u8],
    into: &mut [u8],
)
    requires part { target.now.part < length stream.now.head.parts }
    requires plan { IsPlanOf target.now.layout.now (header_at stream.now.head.parts target.now.part).channels target.now.plan.now }
    requires index { index < chunk_count_of (header_at stream.now.head.parts target.now.part) }
    requires raw { length raw.now ≡ raw_size_of (header_at stream.now.head.parts target.now.part).channels
        (region_of (header_at stream.now.head.parts target.now.part) index) }
    requires into { length into.old ≡ target.now.layout.now.buffer }
    ensures { IsChunkPut (header_at stream.now.head.parts target.now.part) target.now.layout.now target.now.plan.now.channels
        index raw.now into.old into.new }
{
    let shape = stream.shape(target.part, index);
    scatter(target.layout, target.plan, &shape, raw, into);
}

/// Puts the raw content of the chunks of a list from a rank on; those before were put.
fn put_round<W: World, S: Source>(
    stream: &Stream<W, S>,
    target: &Target<'_>,
    chunks: &[u32],
    from: usize,
    raws: &[Vec<u8>],
    into: &mut [u8],
)
    requires part { target.now.part < length stream.now.head.parts }
    requires picture { IsPicture (header_at stream.now.head.parts target.now.part) }
    requires plan { IsPlanOf target.now.layout.now (header_at stream.now.head.parts target.now.part).channels target.now.plan.now }
    requires window { IsInside (header_at stream.now.head.parts target.now.part).window target.now.layout.now.window }
    requires valid { IsValid target.now.layout.now }
    requires chunks { AreChunks (header_at stream.now.head.parts target.now.part) chunks.now }
    requires within { from + length raws.now ≤ length chunks.now }
    requires raws { AreRaw (IsTrue S.means.tells) (file_of S.means stream.now) target.now.part chunks.now from
        (map (λ raw. raw.items) raws.now) }
    requires into { length into.old ≡ target.now.layout.now.buffer }
    ensures { IsTrue S.means.tells → (first : List ℕ)
        → ArePut (target_of S.means stream.now target.now.part target.now.layout.now target.now.plan.now) chunks.now from first into.old
        → ArePut (target_of S.means stream.now target.now.part target.now.layout.now target.now.plan.now) chunks.now
        (from + length raws.now) first into.new }
{
    for k in 0..raws.len() {
        put_chunk(stream, target, chunks[from + k], raws[k].as_slice(), into);
    }
}

/// How many rounds some chunks make.
fn round_count(chunks: usize, round: usize) -> usize
    requires { 1 ≤ round }
    ensures { result ≡ (chunks + round - 1) / round }
{
    chunks.div_ceil(round)
}

/// Reads the chunks of a list and puts them, round by round. The memory of a round is used again by the next.
pub(crate) fn read_rounds<W: World, S: Source, G: Gate>(
    alloc: Global,
    stream: &mut Stream<W, S>,
    target: &Target<'_>,
    chunks: &[u32],
    round: u32,
    jobs: &mut Jobs<'_, G>,
    into: &mut [u8],
) -> Result<(), ReadStop>
    requires part { target.now.part < length stream.old.head.parts }
    requires flat { is_deep (header_at stream.old.head.parts target.now.part).kind ≡ false }
    requires picture { IsPicture (header_at stream.old.head.parts target.now.part) }
    requires plan { IsPlanOf target.now.layout.now (header_at stream.old.head.parts target.now.part).channels target.now.plan.now }
    requires window { IsInside (header_at stream.old.head.parts target.now.part).window target.now.layout.now.window }
    requires valid { IsValid target.now.layout.now }
    requires chunks { AreChunks (header_at stream.old.head.parts target.now.part) chunks.now }
    requires few { length chunks.now ≤ 2 ^ 20 }
    requires round { 1 ≤ round }
    requires rest { jobs.old.begun ≡ None }
    requires into { length into.old ≡ target.now.layout.now.buffer }
    ensures put { IsTrue S.means.tells → OnOk result (ArePut
        (target_of S.means stream.old target.now.part target.now.layout.now target.now.plan.now) chunks.now (length chunks.now)
        into.old into.new) }
    ensures stopped { IsTrue S.means.tells → IfErr result (λ stop. ArePut
        (target_of S.means stream.old target.now.part target.now.layout.now target.now.plan.now) chunks.now (stop.rounds * round)
        into.old into.new) }
    ensures chunks { IsTrue S.means.tells → OnOk result
        (HaveDataOf (file_of S.means stream.old) target.now.part chunks.now (length chunks.now)) }
    ensures same { IsSameStream S.means stream.old stream.new }
    ensures later { S.means.faults stream.old.source ≤ S.means.faults stream.new.source }
    ensures cause { IfErr result (λ stop. HasCause stop.cause (λ i fault. IsTrue S.means.tells
        → IsStopAt (file_of S.means stream.old) target.now.part chunks.now round stop.rounds i fault)
        (Rose (S.means.faults stream.old.source) (S.means.faults stream.new.source))) }
    ensures done { jobs.new.begun ≡ None }
{
    let size = round as usize;
    let mut kept = Vec::new(alloc);
    for rounds in 0..round_count(chunks.len(), size) {
        let from = rounds * size;
        let to = chunks.len().min(from + size);
        match read_round(alloc, stream, target.part, chunks, from, to, kept, jobs) {
            Ok(raws) => {
                put_round(stream, target, chunks, from, raws.as_slice(), into);
                kept = raws;
            }
            Err(cause) => {
                return Err(ReadStop {
                    cause,
                    rounds: rounds as u32,
                });
            }
        }
    }
    Ok(())
}
