//! The program `exr`: its words, the files of the system and standard output, handed to the top call.
#![tactic(auto)]

mod about;
mod faults;
#[cfg(test)]
mod tests;

use about::Asked;
use exr_outside::{OutSink, PlainGate, Printer, RealFiles, RealWorld, append_all};
use exr_tools::{Stop, run, stop_line};
use std::env::Env;
use std::fs::File;
use std::process::ExitCode;
use std::rt::Files;
use std::thread::Threads;
use std::{env, io, str};

fn main(rt: HostRuntime) -> ExitCode {
    match program(&rt) {
        Ok(()) => ExitCode::SUCCESS,
        Err(stop) => reported(&rt, &stop),
    }
}

/// Does what the words of the command line say.
fn program<R: AllocGlobal + Env + Files<File = File> + Print + Threads + Sync>(
    rt: &R,
) -> Result<(), Stop> {
    let words = words_of(rt)?;
    let mut out = OutSink::new(rt);
    if let [word] = words.as_slice()
        && let Some(asked) = Asked::of(word.as_str())
    {
        return print(&mut out, asked.text());
    }
    if words.len() > u32::MAX as usize {
        return Err(Stop::Words { position: u32::MAX });
    }
    let mut files = RealFiles::new(rt, rt.alloc());
    run::<_, RealWorld, _, _, _>(rt, rt.alloc(), &words, &mut files, &mut out, &PlainGate)
}

/// Prints the pieces of a text one after another.
fn print<P: Printer>(out: &mut P, pieces: &[&str]) -> Result<(), Stop> {
    for piece in pieces {
        if append_all(out, piece.as_bytes()).is_err() {
            return Err(Stop::Write);
        }
    }
    Ok(())
}

/// The words after the program's name. Where the system's arguments are no text, no word can be told from another.
fn words_of<R: AllocGlobal + Env>(rt: &R) -> Result<Vec<String>, Stop> {
    let mut words = Vec::new(rt.alloc());
    let args = match env::args(rt) {
        Ok(args) => args,
        Err(e) if e.kind() == io::ErrorKind::OutOfMemory => return Err(Stop::NoMemory),
        Err(_) => return Err(Stop::Words { position: 0 }),
    };
    for word in args.skip(1) {
        words.push(word)?;
    }
    Ok(words)
}

/// Says on standard error why the program stopped, and answers its status. Where the message cannot be written, the status
/// alone says it.
fn reported<R: AllocGlobal + Eprint>(rt: &R, stop: &Stop) -> ExitCode {
    if let Ok(line) = stop_line(rt.alloc(), stop)
        && let Ok(text) = str::from_utf8(&line)
    {
        let _ = rt.eprint(text);
    }
    ExitCode::from(stop.status())
}
