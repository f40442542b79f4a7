//! Reads pictures that were made by hand or by another program, which lie in data/. Each is checked, and what is extracted
//! of it compared, byte for byte, with the samples that it has to give. Its chunks are damaged in turn, a bit, a byte or the
//! end of each, and unpacked: the answer has to be raw content or the fault of the chunk's method. Some whole files are
//! damaged so too: `check` and `extract` have to agree on them.
#![tactic(auto)]

mod damage;
mod picture;
mod whole;

use damage::damaged;
use exr_outside::{OutSink, RealFiles, RealWorld};
use exr_tools::{Stop, stop_line};
use picture::{bytes_under, check_words, command, extract_words};
use std::env::Env;
use std::fs::File;
use std::process::ExitCode;
use std::rt::Files;
use std::thread::Threads;
use std::{env, str};
use whole::damaged_whole;

/// Where the samples are extracted to.
const OUTPUT: &str = "out.raw";

fn main(rt: HostRuntime) -> ExitCode {
    match program(&rt) {
        Ok(()) => ExitCode::SUCCESS,
        Err(stop) => ExitCode::from(stop.status()),
    }
}

/// The picture that the last words are about, and the window that is to be extracted, or an empty text for all of it.
#[derive(Clone, Copy)]
struct Subject<'a> {
    picture: &'a str,
    window: &'a str,
}

/// Goes over the words.
fn program<R: AllocGlobal + Env + Files<File = File> + Print + Threads + Sync>(
    rt: &R,
) -> Result<(), Stop> {
    let mut words = Vec::new(rt.alloc());
    if let Ok(args) = env::args(rt) {
        for word in args.skip(1) {
            words.push(word)?;
        }
    }
    let mut subject = Subject {
        picture: "",
        window: "",
    };
    for word in &words {
        subject = follow(rt, subject, word.as_str())?;
    }
    Ok(())
}

/// Does what a word says. One that ends with `.exr` names a picture. After it come files of samples, each after the window
/// that is to be extracted, if it is not the whole one; and `damaged`, if the whole file is to be damaged.
fn follow<'a, R: AllocGlobal + Files<File = File> + Print + Threads + Sync>(
    rt: &R,
    subject: Subject<'a>,
    word: &'a str,
) -> Result<Subject<'a>, Stop> {
    let Subject { picture, window } = subject;
    if word.starts_with("window=") {
        return Ok(Subject {
            picture,
            window: word,
        });
    }
    if word.ends_with(".exr") {
        if check(rt, word)? {
            unpack_damaged(rt, word)?;
        }
        return Ok(Subject {
            picture: word,
            window: "",
        });
    }
    if word == "damaged" {
        read_damaged(rt, picture)?;
    } else {
        compare(rt, picture, window, word)?;
    }
    Ok(Subject {
        picture,
        window: "",
    })
}

/// Prints a line.
fn print<R: Print>(rt: &R, line: &str) -> Result<(), Stop> {
    if println!(rt; "{line}").is_err() {
        return Err(Stop::Write);
    }
    Ok(())
}

/// Prints what `check` says of a picture, and answers whether it has no fault.
fn check<R: AllocGlobal + Files<File = File> + Print + Threads + Sync>(
    rt: &R,
    picture: &str,
) -> Result<bool, Stop> {
    let alloc = rt.alloc();
    print(rt, picture)?;
    let words = check_words(alloc, picture)?;
    let mut files = RealFiles::new(rt, alloc);
    let mut out = OutSink::new(rt);
    match command::<_, RealWorld, _, _>(rt, alloc, &words, &mut files, &mut out) {
        Ok(()) => Ok(true),
        Err(stop) => {
            let line = stop_line(alloc, &stop)?;
            print(rt, str::from_utf8(&line).unwrap_or("").trim_end())?;
            Ok(false)
        }
    }
}

/// Extracts a window of a picture, and prints whether its samples are those of another file.
fn compare<R: AllocGlobal + Files<File = File> + Print + Threads + Sync>(
    rt: &R,
    picture: &str,
    window: &str,
    samples: &str,
) -> Result<(), Stop> {
    let alloc = rt.alloc();
    let words = extract_words(alloc, picture, OUTPUT, window)?;
    let mut files = RealFiles::new(rt, alloc);
    let mut out = OutSink::new(rt);
    command::<_, RealWorld, _, _>(rt, alloc, &words, &mut files, &mut out)?;
    let found = bytes_under::<RealWorld, _>(alloc, &mut files, OUTPUT)?;
    let wanted = bytes_under::<RealWorld, _>(alloc, &mut files, samples)?;
    let verdict = if found == wanted {
        "as in"
    } else {
        "OTHER THAN"
    };
    if println!(rt; "  {verdict} {samples}").is_err() {
        return Err(Stop::Write);
    }
    Ok(())
}

/// Damages the chunks of a picture, and prints how often.
fn unpack_damaged<R: AllocGlobal + Files<File = File> + Print>(
    rt: &R,
    picture: &str,
) -> Result<(), Stop> {
    let mut files = RealFiles::new(rt, rt.alloc());
    let tally = damaged::<RealWorld, _>(rt.alloc(), &mut files, picture)?;
    let (chunks, cut, changed, other) = (tally.chunks, tally.cut, tally.changed, tally.other);
    if println!(rt;
        "  chunks {chunks} cut {cut} changed {changed} other answers {other}"
    ).is_err()
    {
        return Err(Stop::Write);
    }
    Ok(())
}

/// Damages the whole file of a picture, and prints how often.
fn read_damaged<R: AllocGlobal + Files<File = File> + Print + Threads + Sync>(
    rt: &R,
    picture: &str,
) -> Result<(), Stop> {
    let mut files = RealFiles::new(rt, rt.alloc());
    let bytes = bytes_under::<RealWorld, _>(rt.alloc(), &mut files, picture)?;
    let tally = damaged_whole(rt, rt.alloc(), &bytes)?;
    let (prefixes, changes, other) = (tally.prefixes, tally.changes, tally.other);
    if println!(rt; "  prefixes {prefixes} changes {changes} other answers {other}").is_err() {
        return Err(Stop::Write);
    }
    Ok(())
}
