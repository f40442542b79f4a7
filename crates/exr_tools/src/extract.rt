//! The command `extract`: reading a file, laying out its samples and writing them, each part with the counts that its
//! failures raise.

ghost use Rattle.std.specs.Prelude.{◌≡◌, ◌++◌, [], ◌∷◌, ◌≤◌, ◌⊎◌, ℕ, List, IsTrue, IfOk, IfErr, OnOk, OnErr, length};
ghost use Rattle.std.specs.List.{flat_map};
ghost use Rattle.exr_outside.specs.Count.{HasCause, Rose};
ghost use Rattle.exr_outside.specs.Sink.{AddsPrefix};
ghost use Rattle.exr_outside.specs.Source.{IsSameSource};
ghost use Rattle.exr_stream.specs.Stream.{HasHead, IsSameStream};
ghost use Rattle.exr_tools.specs.Stops.{stop_of_reading, stop_of_deep};
ghost use Rattle.exr_asked.specs.Choices.{choices_in, AreWithin};
ghost use Rattle.exr_asked.specs.Demand.{demand_of, demand_in, IsModest};
ghost use Rattle.exr_request.specs.Request.{IsGranted, IsDeepGranted};
ghost use Rattle.exr_tools.specs.Output.{buffer_under, IsDone, IsLeft, Does, Leaves};
ghost use Rattle.exr_tools.specs.Run.{byte_in, IsFlatExtracted, IsDeepExtracted, IsExtracted, GivesBuffer, IsUnread, HasReason, AsksAtMost, KeepsAtMost, KeepsFirst};
ghost use Rattle.exr_tools.specs.Scene.{told_of, scene_of};

use crate::print::print;
use crate::stop::{FileFault, Stop, opening_stop};
use exr_asked::{Asked, Choices};
use exr_base::{Box2i, Failed, Refusal};
use exr_outside::{CutShort, Files, Gate, Printer, Sink, Source, World, append_all};
use exr_reader::{DeepStop, ReadCause, ReadStop, Target, Work, read_chunks, read_deep, read_first};
use exr_request::{Fitted, Granted, RequestFault, request};
use exr_stream::{OpenStop, Stream};
use std::alloc::Global;
use std::thread::Threads;

/// The stop of a cause that reading a part of an input has; inputs are counted from 0.
fn stop_of(file: u32, part: u32, cause: ReadCause) -> Stop
    ensures { result ≡ stop_of_reading file part cause }
{
    match cause {
        ReadCause::NoMemory => Stop::NoMemory,
        ReadCause::Read => Stop::Read,
        ReadCause::Chunk { index, fault } => Stop::File {
            file,
            fault: FileFault::Chunk { part, index, fault },
        },
    }
}

/// The stop of what reading a window of a deep part of an input stops at.
fn deep_stop_of(file: u32, part: u32, stop: DeepStop) -> Stop
    ensures { result ≡ stop_of_deep file part stop }
{
    match stop {
        DeepStop::NoMemory => Stop::NoMemory,
        DeepStop::Read => Stop::Read,
        DeepStop::Chunk { index, fault } => Stop::File {
            file,
            fault: FileFault::Chunk { part, index, fault },
        },
        DeepStop::TooLarge { index } => Stop::Request(RequestFault::DeepTooLarge { index }),
    }
}

/// What is asked of an input, and how it is read.
#[derive(Drop, Debug)]
pub(crate) struct Extraction {
    /// Which input of the command the file is, counted from 0.
    file: u32,
    asked: Asked,
    /// What each byte of the buffer begins as.
    byte: u8,
    /// How many threads work, 1 to 16.
    workers: u32,
}

impl Extraction {
    /// What the choices of a command come to, for its input of this number: zeros and one thread where none was given.
    pub(crate) fn new(file: u32, choices: Choices) -> Extraction
        ensures file { result.file ≡ file }
        ensures asked { demand_of result.asked ≡ demand_in (choices_in choices) }
        ensures byte { result.byte ≡ byte_in (choices_in choices) }
        ensures modest { AreWithin (choices_in choices) → IsModest (demand_of result.asked) }
        ensures workers { AreWithin (choices_in choices) → 1 ≤ result.workers }
    {
        Extraction {
            file,
            byte: choices.byte.unwrap_or(0),
            workers: choices.workers.unwrap_or(1),
            asked: Asked::new(choices),
        }
    }

    /// How it is read.
    fn work(&self) -> Work
        ensures { result.round ≡ self.now.workers }
    {
        Work {
            workers: self.workers,
            round: self.workers,
        }
    }
}

/// Fills the buffer of what was granted with the samples of a stream's file: one piece. The first chunk is read before
/// memory for the buffer is asked for, so that a small file which claims a large picture takes little.
fn filled<R: Threads + Sync, W: World, S: Source, G: Gate>(
    rt: &R,
    alloc: Global,
    stream: &mut Stream<W, S>,
    granted: &Fitted,
    extraction: &Extraction,
    gate: &G,
) -> Result<Vec<Vec<u8>>, Stop>
    requires workers { 1 ≤ extraction.now.workers }
    requires head { HasHead S.means stream.old }
    requires granted { IsGranted stream.old.head (demand_of extraction.now.asked) granted.now.layout granted.now.plan }
    ensures pieces { IsTrue S.means.tells → IfOk result (λ pieces. IsFlatExtracted (S.means.content stream.old.source)
        (demand_of extraction.now.asked) extraction.now.byte (flat_map (λ piece. piece.items) pieces.items)) }
    ensures same { IsSameStream S.means stream.old stream.new }
    ensures later { S.means.faults stream.old.source ≤ S.means.faults stream.new.source }
    ensures reason { IfErr result (λ stop. HasReason stop (λ _. ⊥)
        (λ due. IsTrue S.means.tells → IsUnread due extraction.now.file (S.means.content stream.old.source) (demand_of extraction.now.asked))
        (Rose (S.means.faults stream.old.source) (S.means.faults stream.new.source)) ⊥) }
{
    let file = extraction.file;
    let part = extraction.asked.part;
    let layout = &granted.layout;
    match read_first(alloc, stream, part, layout.window()) {
        Ok(chunks) => {
            let mut buffer = vec![in alloc; extraction.byte; layout.buffer() as usize]?;
            let target = Target {
                part,
                layout,
                plan: &granted.plan,
            };
            let work = extraction.work();
            match read_chunks(
                rt,
                alloc,
                stream,
                &target,
                &chunks,
                work,
                gate,
                buffer.as_mut_slice(),
            ) {
                Ok(()) => Ok(vec![in alloc; buffer]?),
                Err(ReadStop { cause, rounds: _ }) => Err(stop_of(file, part, cause)),
            }
        }
        Err(cause) => Err(stop_of(file, part, cause)),
    }
}

/// The image of the window of a deep part of a stream's file, as pieces: its counts, and its samples of each channel.
fn imaged<R: Threads + Sync, W: World, S: Source, G: Gate>(
    rt: &R,
    alloc: Global,
    stream: &mut Stream<W, S>,
    window: Box2i,
    extraction: &Extraction,
    gate: &G,
) -> Result<Vec<Vec<u8>>, Stop>
    requires head { HasHead S.means stream.old }
    requires granted { IsDeepGranted stream.old.head (demand_of extraction.now.asked) window }
    ensures pieces { IsTrue S.means.tells → IfOk result (λ pieces. IsDeepExtracted (S.means.content stream.old.source)
        (demand_of extraction.now.asked) (flat_map (λ piece. piece.items) pieces.items)) }
    ensures same { IsSameStream S.means stream.old stream.new }
    ensures later { S.means.faults stream.old.source ≤ S.means.faults stream.new.source }
    ensures reason { IfErr result (λ stop. HasReason stop (λ _. ⊥)
        (λ due. IsTrue S.means.tells → IsUnread due extraction.now.file (S.means.content stream.old.source) (demand_of extraction.now.asked))
        (Rose (S.means.faults stream.old.source) (S.means.faults stream.new.source)) ⊥) }
{
    let asked = &extraction.asked;
    match read_deep(
        rt,
        alloc,
        stream,
        asked.part,
        window,
        extraction.work(),
        gate,
    ) {
        Ok(image) => Ok(image.into_pieces(alloc)?),
        Err(stop) => Err(deep_stop_of(extraction.file, asked.part, stop)),
    }
}

/// The bytes of what is asked of a stream's file, in pieces: a buffer, or the image of a deep part.
fn stream_pieces<R: Threads + Sync, W: World, S: Source, G: Gate>(
    rt: &R,
    alloc: Global,
    stream: &mut Stream<W, S>,
    extraction: &Extraction,
    gate: &G,
) -> Result<Vec<Vec<u8>>, Stop>
    requires modest { IsModest (demand_of extraction.now.asked) }
    requires workers { 1 ≤ extraction.now.workers }
    requires head { HasHead S.means stream.old }
    ensures pieces { IsTrue S.means.tells → IfOk result (λ pieces. IsExtracted (S.means.content stream.old.source)
        (demand_of extraction.now.asked) extraction.now.byte (flat_map (λ piece. piece.items) pieces.items)) }
    ensures same { IsSameStream S.means stream.old stream.new }
    ensures later { S.means.faults stream.old.source ≤ S.means.faults stream.new.source }
    ensures reason { IfErr result (λ stop. HasReason stop (λ _. ⊥)
        (λ due. IsTrue S.means.tells → IsUnread due extraction.now.file (S.means.content stream.old.source) (demand_of extraction.now.asked))
        (Rose (S.means.faults stream.old.source) (S.means.faults stream.new.source)) ⊥) }
{
    match request(alloc, stream.head(), &extraction.asked) {
        Ok(Granted::Flat(granted)) => filled(rt, alloc, stream, &granted, extraction, gate),
        Ok(Granted::Deep(window)) => imaged(rt, alloc, stream, window, extraction, gate),
        Err(refusal) => Err(Stop::from(refusal)),
    }
}

/// The bytes of what is asked of a source's file, in pieces, and the source.
fn source_pieces<R: Threads + Sync, W: World, S: Source, G: Gate>(
    rt: &R,
    alloc: Global,
    source: S,
    extraction: &Extraction,
    gate: &G,
) -> (S, Result<Vec<Vec<u8>>, Stop>)
    requires modest { IsModest (demand_of extraction.now.asked) }
    requires workers { 1 ≤ extraction.now.workers }
    ensures pieces { IsTrue S.means.tells → IfOk result.1 (λ pieces. IsExtracted (S.means.content source)
        (demand_of extraction.now.asked) extraction.now.byte (flat_map (λ piece. piece.items) pieces.items)) }
    ensures same { IsSameSource S.means source result.0 }
    ensures later { S.means.faults source ≤ S.means.faults result.0 }
    ensures reason { IfErr result.1 (λ stop. HasReason stop (λ _. ⊥)
        (λ due. IsTrue S.means.tells → IsUnread due extraction.now.file (S.means.content source) (demand_of extraction.now.asked))
        (Rose (S.means.faults source) (S.means.faults result.0)) ⊥) }
{
    match Stream::<W, S>::open(alloc, source) {
        Ok(mut stream) => {
            let pieces = stream_pieces(rt, alloc, &mut stream, extraction, gate);
            (stream.into_source(), pieces)
        }
        Err(OpenStop { source, cause }) => (source, Err(opening_stop(extraction.file, cause))),
    }
}

/// The bytes of what is asked of the file of a name, in pieces.
fn file_pieces<R: Threads + Sync, W: World, F: Files<W>, G: Gate>(
    rt: &R,
    alloc: Global,
    files: &mut F,
    name: &str,
    extraction: &Extraction,
    gate: &G,
) -> Result<Vec<Vec<u8>>, Stop>
    requires modest { IsModest (demand_of extraction.now.asked) }
    requires workers { 1 ≤ extraction.now.workers }
    ensures pieces { IsTrue F.In.means.tells → IfOk result (λ pieces. IsExtracted (W.bytes_of name.now)
        (demand_of extraction.now.asked) extraction.now.byte (flat_map (λ piece. piece.items) pieces.items)) }
    ensures opened { IsTrue F.means.tells → AsksAtMost (F.means.opened files.old) (F.means.opened files.new) name.now }
    ensures created { IsTrue F.means.tells → F.means.created files.new ≡ F.means.created files.old }
    ensures kept { IsTrue F.means.tells → F.means.kept files.new ≡ F.means.kept files.old }
    ensures later { F.means.read_faults files.old ≤ F.means.read_faults files.new }
    ensures write_faults { F.means.write_faults files.new ≡ F.means.write_faults files.old }
    ensures reason { IfErr result (λ stop. HasReason stop (λ _. ⊥)
        (λ due. IsTrue F.In.means.tells → IsUnread due extraction.now.file (W.bytes_of name.now) (demand_of extraction.now.asked))
        (Rose (F.means.read_faults files.old) (F.means.read_faults files.new)) ⊥) }
{
    match files.open(name) {
        Ok(source) => {
            let (source, pieces) = source_pieces::<R, W, F::In, G>(
                rt, alloc, source, extraction, gate,
            );
            files.back_in(source);
            pieces
        }
        Err(Refusal::Fault(Failed)) => Err(Stop::Read),
        Err(Refusal::NoMemory) => Err(Stop::NoMemory),
    }
}

/// Adds the bytes of pieces at the end, one piece after the other.
fn append_pieces<P: Printer>(printer: &mut P, pieces: &[Vec<u8>]) -> Result<(), Failed>
    ensures all { IsTrue P.means.tells
        → OnOk result (P.means.holds printer.new ≡ P.means.holds printer.old ++ flat_map (λ piece. piece.items) pieces.now) }
    ensures cut { IsTrue P.means.tells → OnErr result
        (AddsPrefix (flat_map (λ piece. piece.items) pieces.now) (P.means.holds printer.old) (P.means.holds printer.new)) }
    ensures name { P.means.name printer.new ≡ P.means.name printer.old }
    ensures cause { HasCause (P.means.faults printer.old) (P.means.faults printer.new) result }
{
    for piece in pieces {
        match append_all(printer, piece) {
            Ok(()) => {}
            Err(CutShort { taken: _ }) => return Err(Failed),
        }
    }
    Ok(())
}

/// How many bytes pieces have.
fn size_of_pieces(pieces: &[Vec<u8>]) -> u128
    ensures { result ≡ length (flat_map (λ piece. piece.items) pieces.now) }
{
    let mut size = 0;
    for piece in pieces {
        size += piece.len() as u128;
    }
    size
}

/// Makes a file of a name that holds the bytes of these pieces.
fn write_file<W: World, F: Files<W>>(
    files: &mut F,
    name: &str,
    pieces: &[Vec<u8>],
) -> Result<(), Stop>
    ensures kept { IsTrue F.means.tells → IsTrue F.Out.means.tells
        → OnOk result (F.means.kept files.new ≡ F.means.kept files.old ++ (name.now, flat_map (λ piece. piece.items) pieces.now) ∷ []) }
    ensures begun { IsTrue F.means.tells → IsTrue F.Out.means.tells
        → OnErr result (KeepsFirst (F.means.kept files.old) (F.means.kept files.new) name.now
        (flat_map (λ piece. piece.items) pieces.now)) }
    ensures kept_most { IsTrue F.means.tells
        → KeepsAtMost (F.means.kept files.old) (F.means.kept files.new) name.now }
    ensures created { IsTrue F.means.tells
        → OnOk result (F.means.created files.new ≡ F.means.created files.old ++ name.now ∷ []) }
    ensures created_most { IsTrue F.means.tells
        → AsksAtMost (F.means.created files.old) (F.means.created files.new) name.now }
    ensures opened { IsTrue F.means.tells → F.means.opened files.new ≡ F.means.opened files.old }
    ensures read_faults { F.means.read_faults files.new ≡ F.means.read_faults files.old }
    ensures later { F.means.write_faults files.old ≤ F.means.write_faults files.new }
    ensures reason { IfErr result (λ stop. HasReason stop (λ _. ⊥) (λ _. ⊥) ⊥
        (Rose (F.means.write_faults files.old) (F.means.write_faults files.new))) }
{
    match files.create(name) {
        Ok(mut sink) => {
            let written = append_pieces(&mut sink, pieces);
            files.back_out(sink);
            written.map_err(|_| Stop::Write)
        }
        Err(Refusal::Fault(Failed)) => Err(Stop::Write),
        Err(Refusal::NoMemory) => Err(Stop::NoMemory),
    }
}

/// Makes a file of a name that holds the bytes of these pieces, and prints how many there are.
fn deliver<W: World, F: Files<W>, O: Printer>(
    alloc: Global,
    files: &mut F,
    out: &mut O,
    name: &str,
    pieces: &[Vec<u8>],
) -> Result<(), Stop>
    ensures done { OnOk result (IsDone (told_of F.In.means F.means F.Out.means O.means)
        (buffer_under name.now (flat_map (λ piece. piece.items) pieces.now))
        (scene_of F.means O.means files.old out.old) (scene_of F.means O.means files.new out.new)) }
    ensures left { IfErr result (λ stop. IsLeft stop (told_of F.In.means F.means F.Out.means O.means)
        (buffer_under name.now (flat_map (λ piece. piece.items) pieces.now))
        (scene_of F.means O.means files.old out.old) (scene_of F.means O.means files.new out.new)) }
    ensures kept { IsTrue F.means.tells
        → KeepsAtMost (F.means.kept files.old) (F.means.kept files.new) name.now }
    ensures created { IsTrue F.means.tells
        → AsksAtMost (F.means.created files.old) (F.means.created files.new) name.now }
    ensures opened { IsTrue F.means.tells → F.means.opened files.new ≡ F.means.opened files.old }
    ensures read_faults { F.means.read_faults files.new ≡ F.means.read_faults files.old }
    ensures reason { IfErr result (λ stop. HasReason stop (λ _. ⊥) (λ _. ⊥) ⊥
        (Rose (F.means.write_faults files.old) (F.means.write_faults files.new)
        ⊎ Rose (O.means.faults out.old) (O.means.faults out.new))) }
{
    write_file::<W, F>(files, name, pieces)?;
    let count = size_of_pieces(pieces);
    let line = format!(in alloc; "extract bytes {count}\n")?;
    print(out, line.as_bytes())
}

/// Writes the buffer of what is asked of a file into another file, and prints how many bytes it has. The other file is
/// created once the buffer is whole.
pub(crate) fn extract<R: Threads + Sync, W: World, F: Files<W>, O: Printer, G: Gate>(
    rt: &R,
    alloc: Global,
    files: &mut F,
    out: &mut O,
    input: &str,
    output: &str,
    extraction: &Extraction,
    gate: &G,
) -> Result<(), Stop>
    requires modest { IsModest (demand_of extraction.now.asked) }
    requires workers { 1 ≤ extraction.now.workers }
    ensures done { OnOk result (Does (told_of F.In.means F.means F.Out.means O.means)
        (GivesBuffer (W.bytes_of input.now) (demand_of extraction.now.asked) extraction.now.byte output.now)
        (scene_of F.means O.means files.old out.old) (scene_of F.means O.means files.new out.new)) }
    ensures left { IfErr result (λ stop. Leaves stop (told_of F.In.means F.means F.Out.means O.means)
        (GivesBuffer (W.bytes_of input.now) (demand_of extraction.now.asked) extraction.now.byte output.now)
        (scene_of F.means O.means files.old out.old) (scene_of F.means O.means files.new out.new)) }
    ensures kept { IsTrue F.means.tells
        → KeepsAtMost (F.means.kept files.old) (F.means.kept files.new) output.now }
    ensures opened { IsTrue F.means.tells → AsksAtMost (F.means.opened files.old) (F.means.opened files.new) input.now }
    ensures created { IsTrue F.means.tells
        → AsksAtMost (F.means.created files.old) (F.means.created files.new) output.now }
    ensures reason { IfErr result (λ stop. HasReason stop (λ _. ⊥)
        (λ due. IsTrue F.In.means.tells → IsUnread due extraction.now.file (W.bytes_of input.now) (demand_of extraction.now.asked))
        (Rose (F.means.read_faults files.old) (F.means.read_faults files.new))
        (Rose (F.means.write_faults files.old) (F.means.write_faults files.new)
        ⊎ Rose (O.means.faults out.old) (O.means.faults out.new))) }
{
    let pieces = file_pieces::<R, W, F, G>(rt, alloc, files, input, extraction, gate)?;
    deliver::<W, F, O>(alloc, files, out, output, &pieces)
}
