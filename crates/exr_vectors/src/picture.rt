//! The commands of the top call on a picture, and the bytes of files.

use exr_base::{Failed, NoMemory, Refusal};
use exr_outside::{Files, PlainGate, Printer, World, read_all};
use exr_tools::{Stop, run};
use std::alloc::Global;
use std::thread::Threads;

/// The words of `extract` of a picture into another file; `more` is one word more, or empty.
pub fn extract_words(
    alloc: Global,
    picture: &str,
    output: &str,
    more: &str,
) -> Result<Vec<String>, NoMemory> {
    let mut words = Vec::new(alloc);
    words.push(String::from_str(alloc, "extract")?)?;
    words.push(format!(in alloc; "in={picture}")?)?;
    words.push(format!(in alloc; "out={output}")?)?;
    if !more.is_empty() {
        words.push(String::from_str(alloc, more)?)?;
    }
    Ok(words)
}

/// The words of `check` of a picture.
pub fn check_words(alloc: Global, picture: &str) -> Result<Vec<String>, NoMemory> {
    let mut words = Vec::new(alloc);
    words.push(String::from_str(alloc, "check")?)?;
    words.push(format!(in alloc; "in={picture}")?)?;
    Ok(words)
}

/// Runs the command of at most four words.
pub fn command<R: Threads + Sync, W: World, F: Files<W>, O: Printer>(
    rt: &R,
    alloc: Global,
    words: &[String],
    files: &mut F,
    out: &mut O,
) -> Result<(), Stop> {
    if words.len() > 4 {
        return Err(Stop::Words { position: 4 });
    }
    run::<R, W, F, O, PlainGate>(rt, alloc, words, files, out, &PlainGate)
}

/// The bytes of the file of a name.
pub fn bytes_under<W: World, F: Files<W>>(
    alloc: Global,
    files: &mut F,
    name: &str,
) -> Result<Vec<u8>, Stop> {
    match files.open(name) {
        Ok(mut source) => {
            let bytes = read_all(alloc, &mut source);
            files.back_in(source);
            bytes.map_err(stop_of)
        }
        Err(refusal) => Err(stop_of(refusal)),
    }
}

/// The stop of a failed call.
pub fn stop_of(refusal: Refusal<Failed>) -> Stop {
    match refusal {
        Refusal::Fault(Failed) => Stop::Read,
        Refusal::NoMemory => Stop::NoMemory,
    }
}
