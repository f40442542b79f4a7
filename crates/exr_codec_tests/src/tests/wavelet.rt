//! The worked values, sides of 1 and 0, and odd sizes against a plain, slow program.

mod plain;

use super::expect;
use exr_base::NoMemory;
use exr_wavelet::{decode, encode};
use plain::{Way, slow_wave};
use std::alloc::Global;
use std::process::Abort;
use std::test::Fail;

/// Four words of a square, line by line, the greatest word, and what they are encoded to.
const WORKED: &[([u16; 4], u16, [u16; 4])] = &[
    ([1, 2, 3, 4], 4, [2, 65535, 65534, 0]),
    ([0, 1, 0, 1], 16383, [0, 65535, 0, 0]),
    ([0, 1, 0, 1], 16384, [32768, 49151, 32768, 32768]),
];

#[test]
fn worked_values(rt: HostRuntime) {
    for (case, (plain, max, expected)) in WORKED.iter().enumerate() {
        let mut words = *plain;
        encode(&mut words, 0, 2, 2, 1, *max);
        expect(&rt, case, words == *expected);
        decode(&mut words, 0, 2, 2, 1, *max);
        expect(&rt, case, words == *plain);
    }
}

#[test]
fn sides_without_levels(rt: HostRuntime) {
    let mut words = [7u16];
    encode(&mut words, 0, 1, 1, 1, 7);
    decode(&mut words, 0, usize::MAX, 0, 1, 7);
    encode(&mut words, usize::MAX, 0, usize::MAX, 2, 7);
    expect(&rt, 0, words == [7]);
}

/// A matrix in a slice, which has three more words after it, and the greatest word.
#[derive(Clone, Copy)]
struct Case {
    nx: usize,
    ny: usize,
    step: usize,
    first: usize,
    max: u16,
}

/// A word of at most the greatest one.
fn word_of(number: u32, max: u16) -> u16 {
    let word = number % (u32::from(max) + 1);
    let [low, high, _, _] = word.to_le_bytes();
    u16::from_le_bytes([low, high])
}

impl Case {
    fn count(self) -> usize {
        self.nx.wrapping_mul(self.ny)
    }

    /// The place of word k of the matrix, counted line by line.
    fn place(self, k: usize) -> usize {
        self.first.wrapping_add(k.wrapping_mul(self.step))
    }

    /// Words of at most the greatest one, in no order, for the whole slice.
    fn words(self, alloc: Global) -> Result<Vec<u16>, NoMemory> {
        let mut words = Vec::new(alloc);
        let mut state = 1u32;
        for _ in 0..self.place(self.count()).wrapping_add(3) {
            state = state.wrapping_mul(1664525).wrapping_add(1013904223);
            words.push(word_of(state >> 15, self.max))?;
        }
        Ok(words)
    }

    /// The words of the matrix, line by line.
    fn matrix(self, alloc: Global, words: &[u16]) -> Result<Vec<u16>, NoMemory> {
        let mut matrix = Vec::new(alloc);
        for k in 0..self.count() {
            matrix.push(words.get(self.place(k)).copied().unwrap_or(0))?;
        }
        Ok(matrix)
    }

    /// The slice as the plain program leaves it.
    fn expected(self, alloc: Global, words: &[u16], way: Way) -> Result<Vec<u16>, NoMemory> {
        let matrix = self.matrix(alloc, words)?;
        let stepped = slow_wave(alloc, way, self.max, self.nx, self.ny, matrix)?;
        let mut expected = words.to_vec(alloc)?;
        for (k, word) in stepped.iter().enumerate() {
            if let Some(there) = expected.get_mut(self.place(k)) {
                *there = *word;
            }
        }
        Ok(expected)
    }

    /// The wavelet in place, where the slice has room for the matrix.
    fn step(self, words: &mut [u16], way: Way) -> bool {
        let Some(count) = self.nx.checked_mul(self.ny) else {
            return false;
        };
        let Some(room) = count.checked_mul(self.step) else {
            return false;
        };
        if self.step == 0 || self.first > words.len() || room > words.len() - self.first {
            return false;
        }
        match way {
            Way::Encode => encode(words, self.first, self.nx, self.ny, self.step, self.max),
            Way::Decode => decode(words, self.first, self.nx, self.ny, self.step, self.max),
        }
        true
    }
}

/// Whether one way gives what the plain program gives.
fn agrees(case: Case, alloc: Global, words: &[u16], way: Way) -> Result<bool, NoMemory> {
    let expected = case.expected(alloc, words, way)?;
    let mut found = words.to_vec(alloc)?;
    Ok(case.step(&mut found, way) && found.as_slice() == expected.as_slice())
}

/// Whether what was encoded is decoded to the same words.
fn comes_back(case: Case, alloc: Global, words: &[u16]) -> Result<bool, NoMemory> {
    let mut back = words.to_vec(alloc)?;
    let stepped = case.step(&mut back, Way::Encode) && case.step(&mut back, Way::Decode);
    Ok(stepped && back.as_slice() == words)
}

/// Whether both ways agree, and one undoes the other.
fn is_right(case: Case, alloc: Global) -> Result<bool, NoMemory> {
    let words = case.words(alloc)?;
    Ok(
        agrees(case, alloc, &words, Way::Encode)?
            && agrees(case, alloc, &words, Way::Decode)?
            && comes_back(case, alloc, &words)?,
    )
}

const SIZES: &[(usize, usize)] = &[
    (1, 1),
    (1, 9),
    (9, 1),
    (2, 2),
    (2, 7),
    (5, 3),
    (3, 5),
    (17, 33),
    (33, 17),
    (32, 40),
];

/// The step from word to word, the place of the first, and the greatest word.
const PLACES: &[(usize, usize, u16)] = &[
    (1, 0, 1),
    (1, 0, 16383),
    (1, 0, 16384),
    (1, 0, 65535),
    (1, 5, 1),
    (1, 5, 16383),
    (1, 5, 16384),
    (1, 5, 65535),
    (2, 0, 1),
    (2, 0, 16383),
    (2, 0, 16384),
    (2, 0, 65535),
    (2, 3, 1),
    (2, 3, 16383),
    (2, 3, 16384),
    (2, 3, 65535),
    (3, 1, 1),
    (3, 1, 16383),
    (3, 1, 16384),
    (3, 1, 65535),
];

/// The matrices of a size.
fn try_size(rt: &impl Abort, alloc: Global, nx: usize, ny: usize) -> Result<(), NoMemory> {
    for (number, (step, first, max)) in PLACES.iter().enumerate() {
        let case = Case {
            nx,
            ny,
            step: *step,
            first: *first,
            max: *max,
        };
        expect(rt, number, is_right(case, alloc)?);
    }
    Ok(())
}

#[test]
fn odd_sizes(rt: HostRuntime) -> Result<(), Fail> {
    for (nx, ny) in SIZES {
        try_size(&rt, rt.alloc(), *nx, *ny)?;
    }
    Ok(())
}
