//! Runs a kernel of the codecs again and again over the bytes of a file, and prints a checksum of what it gave, never a
//! time: `tools/bench.py` times it beside the same loops in C.
#![tactic(auto)]

mod b44;
mod checksum;
mod front;
mod head;
mod huffman;
mod piz;
mod rle;
mod stop;
#[cfg(test)]
mod tests;
mod wavelet;

use std::alloc::Global;
use std::env::Env;
use std::fs::File;
use std::process::ExitCode;
use std::rt::Files;
use std::{env, fs};
use stop::Stop;
use wavelet::Way;

fn main(rt: HostRuntime) -> ExitCode {
    match program(&rt) {
        Ok(()) => ExitCode::SUCCESS,
        Err(stop) => {
            let _ = rt.eprint(stop.text());
            ExitCode::from(stop.status())
        }
    }
}

/// Runs the kernel that the words name.
fn program<R: AllocGlobal + Env + Files<File = File> + Print>(rt: &R) -> Result<(), Stop> {
    let words = words_of(rt)?;
    let [kernel, file, repeats] = words.as_slice() else {
        return Err(Stop::Words);
    };
    let Ok(repeats) = repeats.parse::<u32>() else {
        return Err(Stop::Words);
    };
    let Ok(bytes) = fs::read(rt, file.as_str()) else {
        return Err(Stop::Read);
    };
    let sum = sum_of(rt.alloc(), kernel.as_str(), &bytes, repeats)?;
    match println!(rt; "{sum}") {
        Ok(()) => Ok(()),
        Err(_) => Err(Stop::Write),
    }
}

/// The words after the program's name.
fn words_of<R: AllocGlobal + Env>(rt: &R) -> Result<Vec<String>, Stop> {
    let mut words = Vec::new(rt.alloc());
    let Ok(args) = env::args(rt) else {
        return Err(Stop::Words);
    };
    for word in args.skip(1) {
        if words.push(word).is_err() {
            return Err(Stop::NoMemory);
        }
    }
    Ok(words)
}

/// The checksum of what a kernel gives, `repeats` times.
fn sum_of(alloc: Global, kernel: &str, bytes: &[u8], repeats: u32) -> Result<u64, Stop> {
    match kernel {
        "b44-pack" => b44::pack(alloc, bytes, false, repeats),
        "b44-unpack" => b44::unpack(alloc, bytes, repeats),
        "b44a-pack" => b44::pack(alloc, bytes, true, repeats),
        "b44a-unpack" => b44::unpack(alloc, bytes, repeats),
        "rle-pack" => rle::pack(alloc, bytes, repeats),
        "rle-unpack" => rle::unpack(alloc, bytes, repeats),
        "wavelet-encode" => wavelet::step(alloc, bytes, Way::Encode, repeats),
        "wavelet-decode" => wavelet::step(alloc, bytes, Way::Decode, repeats),
        "head-read" => head::read(alloc, bytes, repeats),
        "huffman-pack" => huffman::pack(alloc, bytes, repeats),
        "huffman-unpack" => huffman::unpack(alloc, bytes, repeats),
        "piz-pack" => piz::pack(alloc, bytes, repeats),
        "piz-unpack" => piz::unpack(alloc, bytes, repeats),
        "piz-unpack-all" => piz::unpack_all(alloc, bytes, repeats),
        _ => Err(Stop::Words),
    }
}
