//! The wavelet as a plain, slow program: each level makes a new matrix, word by word, as the definition says it by
//! place. It shares nothing with the loops that it is compared with.

use exr_base::NoMemory;
use std::alloc::Global;

/// Which way the wavelet goes.
#[derive(Clone, Copy)]
pub(super) enum Way {
    Encode,
    Decode,
}

/// How far apart the words of a pair are at each level, in both orders: sides stay below 64.
const UP: &[usize] = &[1, 2, 4, 8, 16];

const DOWN: &[usize] = &[16, 8, 4, 2, 1];

/// What a place is at one level along one side.
#[derive(Clone, Copy)]
enum Part {
    /// One of the two places of a pair, which begins at `start`.
    Pair { start: usize, second: bool },
    /// The one place that is left over after the pairs.
    Odd,
    /// A place that the level does not touch.
    Other,
}

/// Of a side of so many places, in pairs of places that are p apart.
fn part_of(place: usize, side: usize, p: usize) -> Part {
    let size = p.wrapping_mul(2);
    let from = place.checked_rem(size).unwrap_or(0);
    let start = place.wrapping_sub(from);
    if start.wrapping_add(size) <= side {
        pair_part(start, from, p)
    } else if from == 0 && side.checked_div(p).unwrap_or(0) % 2 == 1 {
        Part::Odd
    } else {
        Part::Other
    }
}

/// Of the places after the start of a pair.
fn pair_part(start: usize, from: usize, p: usize) -> Part {
    let second = from == p;
    if second || from == 0 {
        Part::Pair { start, second }
    } else {
        Part::Other
    }
}

/// A word as a number with sign.
fn signed(word: u16) -> i32 {
    i32::from(word.cast_signed())
}

/// The low sixteen bits.
fn low(number: i32) -> u16 {
    (number.cast_unsigned() & 0xffff) as u16
}

/// A mean and a difference, or the two words of them.
fn slow_pair(way: Way, max: u16, a: u16, b: u16) -> (u16, u16) {
    match way {
        Way::Encode if max < 16384 => {
            let sum = signed(a).wrapping_add(signed(b));
            (low(sum >> 1), low(signed(a).wrapping_sub(signed(b))))
        }
        Way::Decode if max < 16384 => {
            let (mean, difference) = (signed(a), signed(b));
            let first = mean
                .wrapping_add(difference & 1)
                .wrapping_add(difference >> 1);
            (low(first), low(first.wrapping_sub(difference)))
        }
        Way::Encode => {
            let moved = i32::from(a.wrapping_add(32768));
            let mean = moved.wrapping_add(i32::from(b)) >> 1;
            let difference = moved.wrapping_sub(i32::from(b));
            let turn = if difference < 0 { 32768 } else { 0 };
            (low(mean.wrapping_add(turn)), low(difference))
        }
        Way::Decode => {
            let (mean, difference) = (i32::from(a), i32::from(b));
            let second = mean.wrapping_sub(difference >> 1);
            let first = difference.wrapping_add(second).wrapping_sub(32768);
            (low(first), low(second))
        }
    }
}

/// The corners of a square, in the order first, right, below, across: rows and then columns, or back.
fn slow_square(way: Way, max: u16, corners: [u16; 4]) -> [u16; 4] {
    let [first, right, below, across] = corners;
    match way {
        Way::Encode => {
            let (a, b) = slow_pair(way, max, first, right);
            let (c, d) = slow_pair(way, max, below, across);
            let (first, below) = slow_pair(way, max, a, c);
            let (right, across) = slow_pair(way, max, b, d);
            [first, right, below, across]
        }
        Way::Decode => {
            let (a, c) = slow_pair(way, max, first, below);
            let (b, d) = slow_pair(way, max, right, across);
            let (first, right) = slow_pair(way, max, a, b);
            let (below, across) = slow_pair(way, max, c, d);
            [first, right, below, across]
        }
    }
}

/// One of two words.
fn picked((first, other): (u16, u16), second: bool) -> u16 {
    if second { other } else { first }
}

/// One of the four words of a square.
fn corner_of([first, right, below, across]: [u16; 4], is_right: bool, is_below: bool) -> u16 {
    if is_below {
        picked((below, across), is_right)
    } else {
        picked((first, right), is_right)
    }
}

/// A matrix of words, line by line.
#[derive(Clone, Copy)]
struct Plain<'a> {
    words: &'a [u16],
    nx: usize,
    ny: usize,
}

impl Plain<'_> {
    fn at(&self, x: usize, y: usize) -> u16 {
        let place = y.wrapping_mul(self.nx).wrapping_add(x);
        self.words.get(place).copied().unwrap_or(0)
    }

    /// The words of the square whose first word is in column x of line y.
    fn squared(&self, way: Way, max: u16, p: usize, (x, y): (usize, usize)) -> [u16; 4] {
        let (far, low) = (x.wrapping_add(p), y.wrapping_add(p));
        let corners = [
            self.at(x, y),
            self.at(far, y),
            self.at(x, low),
            self.at(far, low),
        ];
        slow_square(way, max, corners)
    }

    /// The word in column x of line y after one level.
    fn stepped(&self, way: Way, max: u16, p: usize, (x, y): (usize, usize)) -> u16 {
        match (part_of(x, self.nx, p), part_of(y, self.ny, p)) {
            (
                Part::Pair {
                    start: left,
                    second: right,
                },
                Part::Pair {
                    start: top,
                    second: below,
                },
            ) => corner_of(self.squared(way, max, p, (left, top)), right, below),
            (Part::Pair { start, second }, Part::Odd) => {
                let other = self.at(start.wrapping_add(p), y);
                picked(slow_pair(way, max, self.at(start, y), other), second)
            }
            (Part::Odd, Part::Pair { start, second }) => {
                let other = self.at(x, start.wrapping_add(p));
                picked(slow_pair(way, max, self.at(x, start), other), second)
            }
            _ => self.at(x, y),
        }
    }
}

/// Appends line y after one level.
fn put_line(
    words: &mut Vec<u16>,
    plain: &Plain<'_>,
    way: Way,
    max: u16,
    p: usize,
    y: usize,
) -> Result<(), NoMemory> {
    for x in 0..plain.nx {
        words.push(plain.stepped(way, max, p, (x, y)))?;
    }
    Ok(())
}

fn slow_level(
    alloc: Global,
    plain: &Plain<'_>,
    way: Way,
    max: u16,
    p: usize,
) -> Result<Vec<u16>, NoMemory> {
    let mut words = Vec::new(alloc);
    for y in 0..plain.ny {
        put_line(&mut words, plain, way, max, p, y)?;
    }
    Ok(words)
}

/// All levels of a matrix of `nx` columns and `ny` lines, each side below 64.
pub(super) fn slow_wave(
    alloc: Global,
    way: Way,
    max: u16,
    nx: usize,
    ny: usize,
    words: Vec<u16>,
) -> Result<Vec<u16>, NoMemory> {
    let mut words = words;
    let levels = match way {
        Way::Encode => UP,
        Way::Decode => DOWN,
    };
    for p in levels {
        if p.wrapping_mul(2) <= nx.min(ny) {
            let plain = Plain {
                words: &words,
                nx,
                ny,
            };
            words = slow_level(alloc, &plain, way, max, *p)?;
        }
    }
    Ok(words)
}
