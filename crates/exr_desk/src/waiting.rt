//! The chunks that wait to be written.

ghost use Rattle.std.specs.Prelude.{◌≡◌, ◌↔◌, ◌+◌, ◌<◌, ◌≤◌, ◌^◌, [], ◌∷◌, ◌++◌, true, false, None, IsTrue, IsSome, IfOk, IfSome, IfNone, if◌then◌else◌, length, replicate};
ghost use Rattle.exr_desk.specs.declared.waiting.Place.TheVariants as place;
ghost use Rattle.exr_desk.specs.Accepted.{chunk_of, IsFirstMissing, IsComplete};
ghost use Rattle.exr_desk.specs.Order.{has};
ghost use Rattle.exr_desk.specs.Waiting.{no_chunk_of, Takes, CannotTake};

use crate::accepted::Accepted;
use crate::chunk::Packed;
use exr_base::NoMemory;
use std::alloc::Global;
use std::marker::Model;
use std::mem;

/// What is kept at a turn.
#[derive(Drop)]
pub enum Place {
    /// It has no chunk yet.
    Free,
    /// Its chunk waits.
    Waits(Packed),
    /// Its chunk was taken.
    Taken,
}

/// Chunks by turn, which are accepted in any order and taken in any order.
#[derive(Drop)]
pub struct Waiting {
    places: Vec<Place>,
    // The turns whose chunk was taken, in their order.
    taken: Vec<u32>,
    accepted: Accepted,
}

impl Model for Waiting {
    ghost use Rattle.std.specs.Prelude.{◌≤◌, length, vec_capacity};
    ghost use Rattle.exr_desk.specs.Waiting.{WaitingState, IsWaiting};

    ghost Value = { WaitingState };

    ghost view = { λ w. record { turns = length w.places.items; accepted = w.accepted; taken = w.taken.items } };

    ghost invariant = { λ w. IsWaiting w.places.items w.accepted w.taken.items × (length w.places.items ≤ vec_capacity w.taken) };
}

// A place for each turn, without a chunk.
fn free_places(alloc: Global, turns: usize) -> Result<Vec<Place>, NoMemory>
    ensures { IfOk result (λ places. places.items ≡ replicate turns place.Free) }
{
    let mut places = Vec::with_capacity(alloc, turns)?;
    for _turn in 0..turns {
        places.push(Place::Free)?;
    }
    Ok(places)
}

impl Waiting {
    /// No chunk was accepted yet.
    pub fn new(alloc: Global, turns: usize) -> Result<Waiting, NoMemory>
        requires { turns < 2 ^ 32 }
        ensures { IfOk result (λ waiting. waiting ≡ no_chunk_of turns) }
    {
        Ok(Waiting {
            places: free_places(alloc, turns)?,
            taken: Vec::with_capacity(alloc, turns)?,
            accepted: Accepted::new(alloc)?,
        })
    }

    /// Whether a turn has a chunk, waiting or taken.
    pub fn is_accepted(&self, turn: u32) -> bool
        requires { turn < self.now.turns }
        ensures { IsTrue result ↔ IsSome (chunk_of self.now.accepted turn) }
    {
        match self.places[turn as usize] {
            Place::Free => false,
            Place::Waits(_) => true,
            Place::Taken => true,
        }
    }

    /// Whether the chunk of a turn was taken.
    pub fn is_taken(&self, turn: u32) -> bool
        requires { turn < self.now.turns }
        ensures { result ≡ has self.now.taken turn }
    {
        match self.places[turn as usize] {
            Place::Free => false,
            Place::Waits(_) => false,
            Place::Taken => true,
        }
    }

    /// Accepts the chunk of a turn that has none.
    pub fn add(&mut self, turn: u32, chunk: Packed)
        requires turn { turn < self.old.turns }
        requires free { chunk_of self.old.accepted turn ≡ None }
        requires small { length chunk.bytes.items ≤ 2 ^ 30 }
        ensures { self.new ≡ record self.old { accepted = self.old.accepted ++ (turn, chunk.bytes.items) ∷ [] } }
    {
        self.accepted.add(turn, &chunk);
        self.places[turn as usize] = Place::Waits(chunk);
    }

    /// The chunk of a turn, if it waits.
    pub fn take(&mut self, turn: u32) -> Option<Packed>
        requires { turn < self.old.turns }
        ensures some { IfSome result (λ chunk. Takes self.old turn chunk.bytes.items self.new) }
        ensures none { IfNone result (CannotTake self.old turn self.new) }
    {
        match mem::replace(&mut self.places[turn as usize], Place::Taken) {
            Place::Waits(chunk) => {
                self.taken.push_reserved(turn);
                Some(chunk)
            }
            other => {
                self.places[turn as usize] = other;
                None
            }
        }
    }

    /// The turns whose chunk was taken, in their order.
    pub fn taken(&self) -> &[u32]
        ensures { result.now ≡ self.now.taken }
    {
        &self.taken
    }

    /// The first turn that has no chunk.
    pub fn first_missing(&self) -> Option<u32>
        ensures some { IfSome result (λ turn. IsFirstMissing self.now.turns self.now.accepted turn) }
        ensures none { IfNone result (IsComplete self.now.turns self.now.accepted) }
    {
        for turn in 0..self.places.len() as u32 {
            if !self.is_accepted(turn) {
                return Some(turn);
            }
        }
        None
    }
}
