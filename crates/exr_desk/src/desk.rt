//! The desk of one thread.

ghost use Rattle.std.specs.Prelude.{◌≡◌, ◌+◌, ◌<◌, ◌≤◌, ◌^◌, ◌↔◌, [], true, false, IsTrue, IsErr, IsSome, IfOk, IfErr, OnOk, OnErr, MatchResult, length};
ghost use Rattle.exr_desk.specs.Accepted.{chunk_of, IsComplete};
ghost use Rattle.exr_desk.specs.Order.{IsAllowed};
ghost use Rattle.exr_desk.specs.File.{IsFront, filed, IsPartial};
ghost use Rattle.exr_desk.specs.Desk.{desk_of, IsDesk, Accepts, word_of, IsAt, IsOpenStop, IsStop};

use crate::chunk::{Front, Packed};
use crate::filing::Filing;
use crate::stop::{DeskOpenStop, DeskStop, Placed, TwiceChunk};
use exr_outside::Sink;
use std::alloc::Global;
use std::marker::Model;

/// Takes the chunks of a file in any order, each at its turn, and appends them to a sink: by rising turn, each as soon as
/// all earlier ones are there, or as they come where the front is free. Only `open` takes memory; the chunks that wait
/// stay in memory until they are written.
///
/// Once an append has failed the desk is broken: it accepts chunks, and writes no more.
pub struct Desk<K: Sink> {
    filing: Filing<K>,
}

impl<K: Sink> Model for Desk<K> {
    ghost use Rattle.exr_desk.specs.Desk.{DeskState, IsDesk, IsSettled};

    ghost Value = { DeskState K };

    ghost view = { λ d. d.filing };

    ghost invariant = { λ d. IsDesk K.means d.filing × IsSettled d.filing };
}

impl<K: Sink> Desk<K> {
    /// Opens a desk over a sink that holds nothing, and appends the front.
    ///
    /// The front has at most 2^40 bytes and fewer than 2^32 entries.
    pub fn open(alloc: Global, front: Front, sink: K) -> Result<Desk<K>, DeskOpenStop<K>>
        requires front { IsFront front.bytes.items front.entries.items }
        requires empty { IsTrue K.means.tells → K.means.holds sink ≡ [] }
        ensures opened { IfOk result (λ desk. desk ≡ desk_of front.bytes.items front.entries.items front.free (K.means.faults sink) [] [] false desk.sink) }
        ensures desk { IfOk result (IsDesk K.means) }
        ensures cause { IfErr result (λ stop. IsOpenStop K.means sink stop.cause stop.sink) }
        // After a refusal the sink holds a first part of the front.
        ensures partial { IsTrue K.means.tells → IfErr result (λ stop. IsPartial front.bytes.items front.entries.items front.free [] [] (K.means.holds stop.sink)) }
        ensures name { MatchResult result (λ desk. K.means.name desk.sink ≡ K.means.name sink) (λ stop. K.means.name stop.sink ≡ K.means.name sink) }
        ensures later { MatchResult result (λ desk. K.means.faults sink ≤ K.means.faults desk.sink) (λ stop. K.means.faults sink ≤ K.means.faults stop.sink) }
    {
        match Filing::open(alloc, front, sink) {
            Ok(filing) => Ok(Desk { filing }),
            Err(stop) => Err(stop),
        }
    }

    /// Accepts the chunk of a turn, and writes what can be written. A turn that has a chunk already is refused, and
    /// nothing changes then.
    ///
    /// A chunk has at most 2^30 bytes.
    pub fn put(&mut self, turn: u32, chunk: Packed) -> Result<Placed, TwiceChunk>
        requires turn { turn < length self.old.entries }
        requires small { length chunk.bytes.items ≤ 2 ^ 30 }
        ensures twice { IsErr result ↔ IsSome (chunk_of self.old.accepted turn) }
        ensures given_back { IfErr result (λ twice. twice ≡ record { word = word_of self.old turn; chunk = chunk }) }
        ensures unchanged { OnErr result (self.new ≡ self.old) }
        ensures accepted { OnOk result (Accepts K.means self.old turn chunk.bytes.items self.new) }
        ensures placed { IfOk result (IsAt K.means self.new turn) }
        ensures desk { IsDesk K.means self.new }
    {
        if self.filing.is_accepted(turn) {
            let word = self.filing.word(turn);
            return Err(TwiceChunk { word, chunk });
        }
        self.filing.accept(turn, chunk);
        self.filing.write_ready(turn);
        Ok(self.filing.placed(turn))
    }

    /// Writes the tables of offsets, and gives the sink back with the whole file, in the order in which the chunks were
    /// written. Where a turn has no chunk nothing is written.
    pub fn finish(self) -> Result<K, DeskStop<K>>
        ensures complete { OnOk result (IsComplete (length self.entries) self.accepted) }
        ensures order { OnOk result (IsAllowed (length self.entries) self.free self.taken) }
        ensures file { IsTrue K.means.tells → IfOk result (λ sink. K.means.holds sink ≡ filed self.front self.entries self.accepted self.taken) }
        ensures cause { IfErr result (λ stop. IsStop K.means self stop.cause stop.sink) }
        ensures partial { IsTrue K.means.tells → IfErr result (λ stop. IsPartial self.front self.entries self.free self.accepted self.taken (K.means.holds stop.sink)) }
        ensures name { MatchResult result (λ sink. K.means.name sink ≡ K.means.name self.sink) (λ stop. K.means.name stop.sink ≡ K.means.name self.sink) }
        ensures later { MatchResult result (λ sink. K.means.faults self.sink ≤ K.means.faults sink) (λ stop. K.means.faults self.sink ≤ K.means.faults stop.sink) }
    {
        let Desk { filing } = self;
        filing.finish()
    }
}
