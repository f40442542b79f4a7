//! The command `check`: all chunks of a file are tested.

ghost use Rattle.std.specs.Prelude.{◌≡◌, ◌≤◌, IsTrue, IfOk, IfErr, OnOk, length, map};
ghost use Rattle.exr_outside.specs.Count.{Rose};
ghost use Rattle.exr_outside.specs.Source.{IsSameSource};
ghost use Rattle.exr_chunks.specs.Part.{without_attributes};
ghost use Rattle.exr_stream.specs.Stream.{HasHead, IsSameStream};
ghost use Rattle.exr_tools.specs.Output.{Does, Leaves};
ghost use Rattle.exr_tools.specs.Run.{IsReport, GivesReport, IsBroken, HasReason, AsksAtMost};
ghost use Rattle.exr_tools.specs.Scene.{told_of, scene_of};
ghost use Rattle.exr_tools.specs.Stops.{stop_of_check};
ghost use Rattle.exr_tools.specs.Texts.{report_of};

use crate::print::print;
use crate::stop::{FileFault, Stop, opening_stop};
use exr_base::{Failed, NoMemory, Refusal};
use exr_chunks::Geometry;
use exr_outside::{Files, Printer, Source, World};
use exr_reader::{CheckStop, Work, check as check_chunks};
use exr_stream::{OpenStop, Stream};
use std::alloc::Global;
use std::thread::Threads;

/// The stop of a test of an input; inputs are counted from 0.
fn stop_of(file: u32, stop: CheckStop) -> Stop
    ensures { result ≡ stop_of_check file stop }
{
    match stop {
        CheckStop::NoMemory => Stop::NoMemory,
        CheckStop::Read => Stop::Read,
        CheckStop::Chunk { part, index, fault } => Stop::File {
            file,
            fault: FileFault::Chunk { part, index, fault },
        },
    }
}

/// The report on parts of which so many chunks are unread: a line for each, and `ok`.
fn report_of(alloc: Global, geometry: &Geometry, unread: &[u32]) -> Result<Vec<u8>, NoMemory>
    requires { length unread.now ≡ length geometry.now }
    ensures { IfOk result (λ report. report.items ≡ report_of geometry.now unread.now) }
{
    let mut report = Vec::new(alloc);
    for part in 0..geometry.parts() {
        let chunks = geometry.chunk_count(part);
        let count = unread[part as usize];
        let line = format!(in alloc; "part {part} chunks {chunks} unread {count}\n")?;
        report.extend_from_slice(line.as_bytes())?;
    }
    report.extend_from_slice(b"ok\n")?;
    Ok(report)
}

/// The report on a stream's file.
fn stream_report<R: Threads + Sync, W: World, S: Source>(
    rt: &R,
    alloc: Global,
    stream: &mut Stream<W, S>,
    file: u32,
    work: Work,
) -> Result<Vec<u8>, Stop>
    requires head { HasHead S.means stream.old }
    ensures report { IsTrue S.means.tells → IfOk result (λ report. IsReport (S.means.content stream.old.source) report.items) }
    ensures same { IsSameStream S.means stream.old stream.new }
    ensures later { S.means.faults stream.old.source ≤ S.means.faults stream.new.source }
    ensures reason { IfErr result (λ stop. HasReason stop (λ _. ⊥)
        (λ due. IsTrue S.means.tells → IsBroken due file (S.means.content stream.old.source))
        (Rose (S.means.faults stream.old.source) (S.means.faults stream.new.source)) ⊥) }
{
    match check_chunks(rt, alloc, stream, work) {
        Ok(unread) => Ok(report_of(alloc, stream.geometry(), &unread)?),
        Err(stop) => Err(stop_of(file, stop)),
    }
}

/// The report on a source's file, and the source.
fn source_report<R: Threads + Sync, W: World, S: Source>(
    rt: &R,
    alloc: Global,
    source: S,
    file: u32,
    work: Work,
) -> (S, Result<Vec<u8>, Stop>)
    ensures report { IsTrue S.means.tells → IfOk result.1 (λ report. IsReport (S.means.content source) report.items) }
    ensures same { IsSameSource S.means source result.0 }
    ensures later { S.means.faults source ≤ S.means.faults result.0 }
    ensures reason { IfErr result.1 (λ stop. HasReason stop (λ _. ⊥)
        (λ due. IsTrue S.means.tells → IsBroken due file (S.means.content source))
        (Rose (S.means.faults source) (S.means.faults result.0)) ⊥) }
{
    match Stream::<W, S>::open(alloc, source) {
        Ok(mut stream) => {
            let report = stream_report(rt, alloc, &mut stream, file, work);
            (stream.into_source(), report)
        }
        Err(OpenStop { source, cause }) => (source, Err(opening_stop(file, cause))),
    }
}

/// The report on the file of a name.
fn file_report<R: Threads + Sync, W: World, F: Files<W>>(
    rt: &R,
    alloc: Global,
    files: &mut F,
    name: &str,
    file: u32,
    work: Work,
) -> Result<Vec<u8>, Stop>
    ensures report { IsTrue F.In.means.tells → IfOk result (λ report. IsReport (W.bytes_of name.now) report.items) }
    ensures opened { IsTrue F.means.tells → AsksAtMost (F.means.opened files.old) (F.means.opened files.new) name.now }
    ensures created { IsTrue F.means.tells → F.means.created files.new ≡ F.means.created files.old }
    ensures kept { IsTrue F.means.tells → F.means.kept files.new ≡ F.means.kept files.old }
    ensures reason { IfErr result (λ stop. HasReason stop (λ _. ⊥)
        (λ due. IsTrue F.In.means.tells → IsBroken due file (W.bytes_of name.now))
        (Rose (F.means.read_faults files.old) (F.means.read_faults files.new)) ⊥) }
{
    match files.open(name) {
        Ok(source) => {
            let (source, report) = source_report::<R, W, F::In>(rt, alloc, source, file, work);
            files.back_in(source);
            report
        }
        Err(Refusal::Fault(Failed)) => Err(Stop::Read),
        Err(Refusal::NoMemory) => Err(Stop::NoMemory),
    }
}

/// Tests all chunks of a file and prints the report on them.
pub(crate) fn check<R: Threads + Sync, W: World, F: Files<W>, O: Printer>(
    rt: &R,
    alloc: Global,
    files: &mut F,
    out: &mut O,
    input: &str,
    file: u32,
    work: Work,
) -> Result<(), Stop>
    ensures done { OnOk result (Does (told_of F.In.means F.means F.Out.means O.means) (GivesReport (W.bytes_of input.now))
        (scene_of F.means O.means files.old out.old) (scene_of F.means O.means files.new out.new)) }
    ensures left { IfErr result (λ stop. Leaves stop (told_of F.In.means F.means F.Out.means O.means) (GivesReport (W.bytes_of input.now))
        (scene_of F.means O.means files.old out.old) (scene_of F.means O.means files.new out.new)) }
    ensures opened { IsTrue F.means.tells → AsksAtMost (F.means.opened files.old) (F.means.opened files.new) input.now }
    ensures created { IsTrue F.means.tells → F.means.created files.new ≡ F.means.created files.old }
    ensures kept { IsTrue F.means.tells → F.means.kept files.new ≡ F.means.kept files.old }
    ensures reason { IfErr result (λ stop. HasReason stop (λ _. ⊥)
        (λ due. IsTrue F.In.means.tells → IsBroken due file (W.bytes_of input.now))
        (Rose (F.means.read_faults files.old) (F.means.read_faults files.new))
        (Rose (O.means.faults out.old) (O.means.faults out.new))) }
{
    let report = file_report::<R, W, F>(rt, alloc, files, input, file, work)?;
    print(out, &report)
}
