//! A small program on the library: it opens an OpenEXR file, reads a window of one channel, and prints the bits of its
//! samples. docs/LIBRARY.md goes through it call by call.
#![tactic(auto)]

mod stop;
mod window;

use exr_outside::{Files as _, RealFiles, RealWorld};
use std::env;
use std::env::Env;
use std::fs::File;
use std::process::ExitCode;
use std::rt::Files;
use std::thread::Threads;
use stop::Stop;
use window::samples_under;

fn main(rt: HostRuntime) -> ExitCode {
    match program(&rt) {
        Ok(()) => ExitCode::SUCCESS,
        Err(stop) => {
            let _ = rt.eprint(stop.text());
            ExitCode::FAILURE
        }
    }
}

/// Prints the samples of the channel R in three pixels of the file that the first word names, as numbers of 16 bits.
fn program<R: AllocGlobal + Env + Files<File = File> + Print + Threads + Sync>(
    rt: &R,
) -> Result<(), Stop> {
    let alloc = rt.alloc();
    let name = first_word(rt)?;
    let mut files = RealFiles::new(rt, alloc);
    let bytes = samples_under::<_, RealWorld, _>(rt, alloc, &mut files, name.as_str())?;
    for sample in bytes.chunks_exact(2) {
        let bits = u16::from(sample[0]) + 256 * u16::from(sample[1]);
        if println!(rt; "{bits}").is_err() {
            return Err(Stop::Print);
        }
    }
    Ok(())
}

/// The first word after the program's name.
fn first_word<R: AllocGlobal + Env>(rt: &R) -> Result<String, Stop> {
    let Ok(args) = env::args(rt) else {
        return Err(Stop::Words);
    };
    for word in args.skip(1) {
        return Ok(word);
    }
    Err(Stop::Words)
}
