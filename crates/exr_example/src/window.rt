//! A window of a file, read through the library: from a source of bytes to a buffer of samples.

use crate::stop::Stop;
use exr_base::{Box2i, Failed, Kind, Name, Refusal};
use exr_layout::{Layout, Plane, Run, Slice, has_few_slices, match_part};
use exr_outside::{Files, PlainGate, Source, World};
use exr_reader::{ReadCause, ReadStop, Work, read_window};
use exr_stream::{OpenFault, OpenStop, Stream};
use std::alloc::Global;
use std::thread::Threads;

/// The pixels that are read: three of the third line.
const PIXELS: Box2i = Box2i {
    x0: 3,
    y0: 2,
    x1: 5,
    y1: 2,
};

/// The buffer of the HALF channel R in these pixels: one plane, with two bytes per sample and six per line.
fn layout(alloc: Global) -> Result<Layout, Stop> {
    let Some(channel) = Name::new(b"R") else {
        return Err(Stop::Part);
    };
    let slice = Slice {
        channel,
        kind: Kind::Half,
        at: 0,
        fill: 0,
    };
    let run = Run {
        at: 0,
        stride: 2,
        sampling: 1,
        slices: vec![in alloc; slice]?,
    };
    let plane = Plane {
        base: 0,
        stride: 6,
        sampling: 1,
        runs: vec![in alloc; run]?,
    };
    let planes = vec![in alloc; plane]?;
    if !has_few_slices(planes.as_slice()) {
        return Err(Stop::Part);
    }
    match Layout::new(planes, PIXELS, 6) {
        Ok(layout) => Ok(layout),
        Err(_) => Err(Stop::Part),
    }
}

/// The samples of the first part of an open file.
fn samples<R: Threads + Sync, W: World, S: Source>(
    rt: &R,
    alloc: Global,
    stream: &mut Stream<W, S>,
) -> Result<Vec<u8>, Stop> {
    let layout = layout(alloc)?;
    if stream.head().parts().is_empty() {
        return Err(Stop::Part);
    }
    let part = stream.header(0);
    if part.kind().is_deep() {
        return Err(Stop::Part);
    }
    let plan = match match_part(alloc, &layout, part) {
        Ok(plan) => plan,
        Err(Refusal::Fault(_)) => return Err(Stop::Part),
        Err(Refusal::NoMemory) => return Err(Stop::NoMemory),
    };
    let mut buffer = vec![in alloc; 0u8; layout.buffer() as usize]?;
    let work = Work {
        workers: 1,
        round: 1,
    };
    match read_window(
        rt,
        alloc,
        stream,
        0,
        &layout,
        &plan,
        work,
        &PlainGate,
        buffer.as_mut_slice(),
    ) {
        Ok(()) => Ok(buffer),
        Err(ReadStop { cause, rounds: _ }) => Err(match cause {
            ReadCause::NoMemory => Stop::NoMemory,
            ReadCause::Read => Stop::Read,
            ReadCause::Chunk { .. } => Stop::Chunk,
        }),
    }
}

/// The samples of the file of a source, and the source.
fn samples_of<R: Threads + Sync, W: World, S: Source>(
    rt: &R,
    alloc: Global,
    source: S,
) -> (S, Result<Vec<u8>, Stop>) {
    match Stream::<W, S>::open(alloc, source) {
        Ok(mut stream) => {
            let samples = samples(rt, alloc, &mut stream);
            (stream.into_source(), samples)
        }
        Err(OpenStop { source, cause }) => {
            let stop = match cause {
                Refusal::Fault(OpenFault::Read) => Stop::Read,
                Refusal::Fault(OpenFault::Head(_)) => Stop::Head,
                Refusal::NoMemory => Stop::NoMemory,
            };
            (source, Err(stop))
        }
    }
}

/// The samples of the file of a name. The file is given back, whatever comes of it.
pub fn samples_under<R: Threads + Sync, W: World, F: Files<W>>(
    rt: &R,
    alloc: Global,
    files: &mut F,
    name: &str,
) -> Result<Vec<u8>, Stop> {
    match files.open(name) {
        Ok(source) => {
            let (source, samples) = samples_of::<R, W, F::In>(rt, alloc, source);
            files.back_in(source);
            samples
        }
        Err(Refusal::Fault(Failed)) => Err(Stop::Read),
        Err(Refusal::NoMemory) => Err(Stop::NoMemory),
    }
}
