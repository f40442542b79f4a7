//! A window of a deep part, read in bands: one row of chunks after another, from the top down. A row is put into the image
//! before the next one is read, so no more chunks than those of one row are held.

ghost use Rattle.std.specs.Prelude.{◌≡◌, ◌≤◌, ◌<◌, ◌*◌, ◌+◌, ◌-◌, ◌^◌, ◌+ℤ◌, true, IsTrue, IfOk, IfErr, OnOk, length, pos, slice_index, Ok, Err};
ghost use Rattle.exr_base.specs.Shape.{IsRegion};
ghost use Rattle.exr_deep.specs.Deep.{pixels_of};
ghost use Rattle.exr_outside.specs.Count.{Rose};
ghost use Rattle.exr_chunks.specs.Heads.{is_deep, chunk_count_of};
ghost use Rattle.exr_chunks.specs.Region.{header_at, region_of};
ghost use Rattle.exr_stream.specs.Stream.{file_of, IsSameStream};
ghost use Rattle.exr_reader.specs.Sample.{raw_of};
ghost use Rattle.exr_reader.specs.Reading.{HasCause};
ghost use Rattle.exr_reader.specs.Window.{AreChunks, HaveDataOf};
ghost use Rattle.exr_reader.specs.Deep.{IsDeepImage, AreSmall, IsDeepChunk, AreDeepChunks, IsDeepFault, IsTooLarge, HasDeepCause, IsMet, AreRead, AreRow, IsBand};

use crate::cause::ReadCause;
use crate::deep::{DeepStop, stop_of};
use crate::fetched::read_block;
use crate::jobs::Jobs;
use exr_base::Box2i;
use exr_block::Block;
use exr_deep::{height_of, width_of};
use exr_image::{DeepChunk, DeepImage};
use exr_outside::{Gate, Source, World};
use exr_stream::Stream;
use std::alloc::Global;

/// The most bytes of the counts and the samples of a window (own).
const MOST_BYTES: u64 = 1 << 30;

/// A window of a deep part, and the chunks that it meets, by rising indexes.
#[derive(Drop)]
pub(crate) struct DeepWindow<'a> {
    pub part: u32,
    pub window: Box2i,
    pub chunks: &'a [u32],
}

/// A chunk of a deep part.
fn read_deep_chunk<W: World, S: Source>(
    alloc: Global,
    stream: &mut Stream<W, S>,
    part: u32,
    index: u32,
) -> Result<DeepChunk, ReadCause>
    requires part { part < length stream.old.head.parts }
    requires index { index < chunk_count_of (header_at stream.old.head.parts part) }
    requires deep { is_deep (header_at stream.old.head.parts part).kind ≡ true }
    ensures chunk { IfOk result (IsDeepChunk (IsTrue S.means.tells) (file_of S.means stream.old) part index) }
    ensures samples { IfOk result (λ chunk. length chunk.content.samples.items ≤ 2 ^ 26) }
    ensures same { IsSameStream S.means stream.old stream.new }
    ensures later { S.means.faults stream.old.source ≤ S.means.faults stream.new.source }
    ensures cause { IfErr result (λ cause. HasCause cause (λ i fault. (i ≡ index) × (IsTrue S.means.tells
        → raw_of (file_of S.means stream.old) part index ≡ Err fault))
        (Rose (S.means.faults stream.old.source) (S.means.faults stream.new.source))) }
{
    match read_block(alloc, stream, part, index, Vec::new(alloc))? {
        Block::Deep(content) => Ok(DeepChunk {
            region: stream.region(part, index),
            content,
        }),
        Block::Flat(_) => unreachable!(),
    }
}

/// The bytes of the counts of a window.
fn counts_size(window: Box2i) -> u64
    requires { IsRegion window }
    ensures exact { result ≡ 4 * pixels_of window }
    ensures small { result ≤ 2 ^ 42 }
{
    4 * (width_of(window) as u64 * height_of(window) as u64)
}

/// The lines of a window that a row of chunks has.
fn band_of(region: Box2i, window: Box2i) -> Box2i
    ensures { IsBand region window result }
{
    Box2i {
        x0: window.x0,
        y0: region.y0.max(window.y0),
        x1: window.x1,
        y1: region.y1.min(window.y1),
    }
}

/// The line below a box.
fn line_below(band: Box2i) -> i32
    requires { IsRegion band }
    ensures { result ≡ band.y1 +ℤ pos 1 }
{
    band.y1 + 1
}

/// The rank behind the chunks that stand beside the one of a rank, which is the first of its row in the window.
fn row_behind<W: World, S: Source>(
    stream: &Stream<W, S>,
    what: &DeepWindow<'_>,
    rank: usize,
) -> usize
    requires part { what.now.part < length stream.now.head.parts }
    requires chunks { AreChunks (header_at stream.now.head.parts what.now.part) what.now.chunks.now }
    requires rank { rank < length what.now.chunks.now }
    ensures { AreRow (header_at stream.now.head.parts what.now.part) what.now.chunks.now rank result }
{
    let line = stream.region(what.part, what.chunks[rank]).y0;
    let mut behind = rank + 1;
    'beside: while behind < what.chunks.len() {
        if stream.region(what.part, what.chunks[behind]).y0 != line {
            break 'beside;
        }
        behind += 1;
    }
    behind
}

/// The chunks from one rank to another. To read one is a job. `size` is how many bytes there are so far.
fn read_row<W: World, S: Source, G: Gate>(
    alloc: Global,
    stream: &mut Stream<W, S>,
    what: &DeepWindow<'_>,
    from: usize,
    to: usize,
    size: &mut u64,
    jobs: &mut Jobs<'_, G>,
) -> Result<Vec<DeepChunk>, DeepStop>
    requires part { what.now.part < length stream.old.head.parts }
    requires deep { is_deep (header_at stream.old.head.parts what.now.part).kind ≡ true }
    requires chunks { AreChunks (header_at stream.old.head.parts what.now.part) what.now.chunks.now }
    requires ordered { from ≤ to }
    requires within { to ≤ length what.now.chunks.now }
    requires read { IsTrue S.means.tells → AreRead (file_of S.means stream.old) what.now.part what.now.window what.now.chunks.now from size.old }
    requires most { size.old ≤ 2 ^ 42 }
    requires rest { jobs.old.begun ≡ None }
    ensures chunks { IfOk result (λ row. AreDeepChunks (IsTrue S.means.tells) (file_of S.means stream.old) what.now.part what.now.chunks.now from row.items) }
    ensures many { IfOk result (λ row. from + length row.items ≡ to) }
    ensures read { IsTrue S.means.tells → OnOk result
        (AreRead (file_of S.means stream.old) what.now.part what.now.window what.now.chunks.now to size.new) }
    ensures most { OnOk result (size.new ≤ 2 ^ 42) }
    ensures same { IsSameStream S.means stream.old stream.new }
    ensures later { S.means.faults stream.old.source ≤ S.means.faults stream.new.source }
    ensures cause { IfErr result (λ stop. HasDeepCause stop
        (λ i fault. IsTrue S.means.tells → IsDeepFault (file_of S.means stream.old) what.now.part what.now.window what.now.chunks.now i fault)
        (λ i. IsTrue S.means.tells → IsTooLarge (file_of S.means stream.old) what.now.part what.now.window what.now.chunks.now i)
        (Rose (S.means.faults stream.old.source) (S.means.faults stream.new.source))) }
    ensures done { jobs.new.begun ≡ None }
{
    let mut row = Vec::new(alloc);
    for rank in from..to {
        let index = what.chunks[rank];
        jobs.begin(index);
        let read = read_deep_chunk(alloc, stream, what.part, index);
        jobs.end(index);
        match read {
            Ok(chunk) => {
                *size += chunk.content.samples.len() as u64;
                if *size > MOST_BYTES {
                    return Err(DeepStop::TooLarge { index });
                }
                row.push(chunk)?;
            }
            Err(cause) => return Err(stop_of(cause)),
        }
    }
    Ok(row)
}

/// The image of the window.
pub(crate) fn read_bands<W: World, S: Source, G: Gate>(
    alloc: Global,
    stream: &mut Stream<W, S>,
    what: &DeepWindow<'_>,
    jobs: &mut Jobs<'_, G>,
) -> Result<DeepImage, DeepStop>
    requires part { what.now.part < length stream.old.head.parts }
    requires deep { is_deep (header_at stream.old.head.parts what.now.part).kind ≡ true }
    requires chunks { AreChunks (header_at stream.old.head.parts what.now.part) what.now.chunks.now }
    requires met { IsMet (header_at stream.old.head.parts what.now.part) what.now.window what.now.chunks.now }
    requires rest { jobs.old.begun ≡ None }
    ensures image { IsTrue S.means.tells → IfOk result (IsDeepImage (file_of S.means stream.old) what.now.part what.now.window) }
    ensures content { IsTrue S.means.tells → OnOk result (HaveDataOf (file_of S.means stream.old) what.now.part what.now.chunks.now (length what.now.chunks.now)) }
    ensures small { IsTrue S.means.tells → OnOk result
        (AreSmall (file_of S.means stream.old) what.now.part what.now.window what.now.chunks.now (length what.now.chunks.now)) }
    ensures same { IsSameStream S.means stream.old stream.new }
    ensures later { S.means.faults stream.old.source ≤ S.means.faults stream.new.source }
    ensures cause { IfErr result (λ stop. HasDeepCause stop
        (λ i fault. IsTrue S.means.tells → IsDeepFault (file_of S.means stream.old) what.now.part what.now.window what.now.chunks.now i fault)
        (λ i. IsTrue S.means.tells → IsTooLarge (file_of S.means stream.old) what.now.part what.now.window what.now.chunks.now i)
        (Rose (S.means.faults stream.old.source) (S.means.faults stream.new.source))) }
    ensures done { jobs.new.begun ≡ None }
{
    let window = what.window;
    let mut image = DeepImage::new(alloc, stream.header(what.part).channels(), window)?;
    let mut size = counts_size(window);
    let mut top = window.y0;
    let mut rank = 0;
    'rows: while rank < what.chunks.len() {
        let band = band_of(stream.region(what.part, what.chunks[rank]), window);
        let behind = row_behind(stream, what, rank);
        let row = read_row(alloc, stream, what, rank, behind, &mut size, jobs)?;
        image.push_rows(alloc, stream.header(what.part).channels(), band, &row)?;
        top = line_below(band);
        rank = behind;
    }
    Ok(image)
}
