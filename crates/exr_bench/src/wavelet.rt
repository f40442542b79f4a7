//! The kernels of the wavelet, on one plane of words side by side.

ghost use Rattle.std.specs.Prelude.{◌≡◌, ◌*◌, length, vec_len, IfOk};

use crate::checksum::add_words;
use crate::front::{number, words_of};
use crate::stop::Stop;
use std::alloc::Global;

/// Which way the wavelet goes.
#[derive(Clone, Copy)]
pub(crate) enum Way {
    Encode,
    Decode,
}

/// How many columns and lines a plane has, its greatest word, and its words line by line.
#[derive(Drop)]
struct Plane {
    nx: usize,
    ny: usize,
    max: u16,
    words: Vec<u16>,
}

fn plane_of(alloc: Global, bytes: &[u8]) -> Result<Plane, Stop>
    ensures { IfOk result (λ plane. vec_len plane.words ≡ plane.nx * plane.ny) }
{
    let (nx, rest) = number(bytes)?;
    let (ny, rest) = number(rest)?;
    let (max, rest) = number(rest)?;
    let words = words_of(alloc, rest)?;
    let Some(count) = nx.checked_mul(ny) else {
        return Err(Stop::Form);
    };
    if count != words.len() || max > 65535 {
        return Err(Stop::Form);
    }
    Ok(Plane {
        nx,
        ny,
        max: max as u16,
        words,
    })
}

/// Encodes or decodes a plane `repeats` times, each time from the file's words.
pub(crate) fn step(alloc: Global, bytes: &[u8], way: Way, repeats: u32) -> Result<u64, Stop> {
    let plane = plane_of(alloc, bytes)?;
    let mut words = vec![in alloc; 0u16; plane.words.len()]?;
    Ok(step_often(&mut words, &plane, way, repeats))
}

fn step_often(words: &mut [u16], plane: &Plane, way: Way, repeats: u32) -> u64
    requires whole { vec_len plane.now.words ≡ plane.now.nx * plane.now.ny }
    requires as_many { length words.old ≡ vec_len plane.now.words }
{
    let mut sum = 0;
    for turn in 0..repeats {
        words.copy_from_slice(&plane.words);
        step_once(words, plane.nx, plane.ny, plane.max, way);
        sum = add_words(sum, words, turn, turn + 1 == repeats);
    }
    sum
}

#[tactic(auto, using(std::proofs::lemmas::Nat::rows))]
fn step_once(words: &mut [u16], nx: usize, ny: usize, max: u16, way: Way)
    requires { length words.old ≡ nx * ny }
{
    match way {
        Way::Encode => exr_wavelet::encode(words, 0, nx, ny, 1, max),
        Way::Decode => exr_wavelet::decode(words, 0, nx, ny, 1, max),
    }
}
