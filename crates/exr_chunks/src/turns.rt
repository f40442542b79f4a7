//! The write order of a file: the position of each chunk in it (its turn), and the chunk at each position.

ghost use Rattle.std.specs.Prelude.{◌≡◌, ◌<◌, ◌≤◌, ◌+◌, ℕ, length, slice_get, sum_by};
ghost use Rattle.exr_chunks.specs.Heads.{chunk_count_of};
ghost use Rattle.exr_chunks.specs.Part.{IsPart};
ghost use Rattle.exr_chunks.specs.Region.{header_at};
ghost use Rattle.exr_chunks.specs.Table.{chunks_before};
ghost use Rattle.exr_chunks.specs.Turns.{is_falling, mirrored, turns_of};

use crate::geometry::Geometry;
use crate::part::Part;
use exr_header::LineOrder;

/// Whether the lines of a part are written in decreasing order.
fn is_falling(order: LineOrder) -> bool
    ensures { result ≡ is_falling order }
{
    match order {
        LineOrder::Increasing | LineOrder::Random => false,
        LineOrder::Decreasing => true,
    }
}

impl Part {
    /// The position of a chunk in the write order of its part; and the chunk at that position.
    fn mirrored(&self, index: u32) -> u32
        requires part { IsPart self.now }
        requires within { index < self.now.count }
        ensures exact { result ≡ mirrored (is_falling self.now.order) self.now.across self.now.down index }
        ensures within { result < self.now.count }
    {
        if is_falling(self.order) {
            (self.down - 1 - index / self.across) * self.across + index % self.across
        } else {
            index
        }
    }
}

impl Geometry {
    /// The turn of a chunk: its position in the write order, from 0.
    ///
    /// Parts are written one after another, in their order (own). In a part the chunks are written by index; with
    /// decreasing lines the last row of chunks comes first, and each row is written from left to right. File Layout,
    /// "Predefined Attribute Types" (lineOrder).
    pub fn turn_of(&self, part: u32, index: u32) -> u32
        requires part { part < length self.now }
        requires index { index < chunk_count_of (header_at self.now part) }
        ensures exact { slice_get (turns_of self.now) result ≡ Some (part, index) }
        // The chunk has no other turn.
        ensures only { (turn : ℕ) → slice_get (turns_of self.now) turn ≡ Some (part, index) → turn ≡ result }
        ensures within { result < sum_by chunk_count_of self.now }
    {
        let here = self.part(part);
        here.first + here.mirrored(index)
    }

    /// The part of the chunk at a turn, searched by halves.
    fn part_at_turn(&self, turn: u32) -> u32
        requires { turn < sum_by chunk_count_of self.now }
        ensures within { result < length self.now }
        ensures low { chunks_before self.now result ≤ turn }
        ensures high { turn < chunks_before self.now result + chunk_count_of (header_at self.now result) }
    {
        let mut low = 0;
        let mut high = self.parts();
        'halves: while high - low > 1 {
            let middle = low + (high - low) / 2;
            if self.part(middle).first <= turn {
                low = middle;
            } else {
                high = middle;
            }
        }
        low
    }

    /// The part and the index of the chunk at a turn.
    pub fn at_turn(&self, turn: u32) -> (u32, u32)
        requires { turn < sum_by chunk_count_of self.now }
        ensures exact { slice_get (turns_of self.now) turn ≡ Some (result.0, result.1) }
        ensures part { result.0 < length self.now }
        ensures index { result.1 < chunk_count_of (header_at self.now result.0) }
    {
        let part = self.part_at_turn(turn);
        let here = self.part(part);
        (part, here.mirrored(turn - here.first))
    }
}

/// The chunk at the turn of a chunk is that chunk.
pub fn chunk_at_its_turn(geometry: &Geometry, part: u32, index: u32) -> (u32, u32)
    requires part { part < length geometry.now }
    requires index { index < chunk_count_of (header_at geometry.now part) }
    ensures part { result.0 ≡ part }
    ensures index { result.1 ≡ index }
{
    geometry.at_turn(geometry.turn_of(part, index))
}

/// The turn of the chunk at a turn is that turn.
pub fn turn_of_its_chunk(geometry: &Geometry, turn: u32) -> u32
    requires { turn < sum_by chunk_count_of geometry.now }
    ensures { result ≡ turn }
{
    let (part, index) = geometry.at_turn(turn);
    geometry.turn_of(part, index)
}
