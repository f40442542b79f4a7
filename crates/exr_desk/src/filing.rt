//! A sink, the chunks that wait, and the chunks that were written to it.

ghost use Rattle.std.specs.Prelude.{◌≡◌, ◌⊎◌, ◌+◌, ◌<◌, ◌≤◌, ◌^◌, ◌↔◌, [], ◌∷◌, ◌++◌, true, false, None, IsTrue, IsErr, IsSome, IfOk, IfErr, OnOk, OnErr, MatchResult, length, vec_capacity};
ghost use Rattle.exr_outside.specs.Count.{Rose};
ghost use Rattle.exr_desk.specs.Accepted.{chunk_of, IsComplete};
ghost use Rattle.exr_desk.specs.Order.{has, IsAllowed, BeginsWith};
ghost use Rattle.exr_desk.specs.File.{IsFront, filed, IsPartial};
ghost use Rattle.exr_desk.specs.Waiting.{no_chunk_of};
ghost use Rattle.exr_desk.specs.Desk.{desk_of, IsDesk, CanWrite, IsSettled, IsSettledBut, IsSameDesk, with_chunk, word_of, IsAt, IsOpenStop, IsStop, WritesNext};

use crate::chunk::{Front, Packed};
use crate::fill::fill;
use crate::stop::{DeskCause, DeskOpenStop, DeskStop, Placed, WriteFault};
use crate::waiting::Waiting;
use exr_base::{NoMemory, Refusal};
use exr_outside::{CutShort, Sink, append_all, rise, write_all_at};
use std::alloc::Global;
use std::marker::Model;

/// What a desk keeps. Between the steps of a call some chunks may wait that can be written.
pub struct Filing<K: Sink> {
    front: Front,
    sink: K,
    // The sink's count of failures before the desk was opened.
    begun: u64,
    waiting: Waiting,
    // Where each chunk that was written begins, in the order in which they were written.
    starts: Vec<u64>,
    // How many bytes were appended with success.
    appended: u64,
    broken: bool,
}

impl<K: Sink> Model for Filing<K> {
    ghost use Rattle.std.specs.Prelude.{length, vec_capacity};
    ghost use Rattle.exr_desk.specs.Desk.{DeskState, desk_of, IsKept};

    ghost Value = { DeskState K };

    ghost view = { λ d. desk_of d.front.bytes.items d.front.entries.items d.front.free d.begun d.waiting.accepted d.waiting.taken d.broken d.sink };

    ghost invariant = { λ d. IsKept K.means
        (desk_of d.front.bytes.items d.front.entries.items d.front.free d.begun d.waiting.accepted d.waiting.taken d.broken d.sink)
        d.waiting.turns d.starts.items (vec_capacity d.starts) d.appended };
}

// Memory for the chunks that wait and for where the written ones begin.
fn room(alloc: Global, turns: usize) -> Result<(Waiting, Vec<u64>), NoMemory>
    requires { turns < 2 ^ 32 }
    ensures { IfOk result (λ r. (r.0 ≡ no_chunk_of turns) × (r.1.items ≡ []) × (turns ≤ vec_capacity r.1)) }
{
    let waiting = Waiting::new(alloc, turns)?;
    let starts = Vec::with_capacity(alloc, turns)?;
    Ok((waiting, starts))
}

impl<K: Sink> Filing<K> {
    /// Appends the front to a sink that holds nothing.
    pub fn open(alloc: Global, front: Front, mut sink: K) -> Result<Filing<K>, DeskOpenStop<K>>
        requires front { IsFront front.bytes.items front.entries.items }
        requires empty { IsTrue K.means.tells → K.means.holds sink ≡ [] }
        ensures desk { IfOk result (IsDesk K.means) }
        ensures opened { IfOk result (λ filing. filing ≡ desk_of front.bytes.items front.entries.items front.free (K.means.faults sink) [] [] false filing.sink) }
        ensures cause { IfErr result (λ stop. IsOpenStop K.means sink stop.cause stop.sink) }
        ensures partial { IsTrue K.means.tells → IfErr result (λ stop. IsPartial front.bytes.items front.entries.items front.free [] [] (K.means.holds stop.sink)) }
        ensures name { MatchResult result (λ filing. K.means.name filing.sink ≡ K.means.name sink) (λ stop. K.means.name stop.sink ≡ K.means.name sink) }
        ensures later { MatchResult result (λ filing. K.means.faults sink ≤ K.means.faults filing.sink) (λ stop. K.means.faults sink ≤ K.means.faults stop.sink) }
    {
        let begun = sink.faults();
        let (waiting, starts) = match room(alloc, front.entries.len()) {
            Ok(made) => made,
            Err(NoMemory) => {
                let cause = Refusal::NoMemory;
                return Err(DeskOpenStop { sink, cause });
            }
        };
        if let Err(CutShort { taken }) = append_all(&mut sink, &front.bytes) {
            let cause = Refusal::Fault(WriteFault { at: taken as u64 });
            return Err(DeskOpenStop { sink, cause });
        }
        let appended = front.bytes.len() as u64;
        Ok(Filing {
            front,
            sink,
            begun,
            waiting,
            starts,
            appended,
            broken: false,
        })
    }

    /// Whether a turn has a chunk.
    pub fn is_accepted(&self, turn: u32) -> bool
        requires turn { turn < length self.now.entries }
        ensures { IsTrue result ↔ IsSome (chunk_of self.now.accepted turn) }
    {
        self.waiting.is_accepted(turn)
    }

    /// The number that stands for what became of the chunk of a turn.
    pub fn word(&self, turn: u32) -> u64
        requires turn { turn < length self.now.entries }
        ensures { result ≡ word_of self.now turn }
    {
        if self.waiting.is_taken(turn) { 4 } else { 2 }
    }

    /// Keeps the chunk of a turn that has none.
    pub fn accept(&mut self, turn: u32, chunk: Packed)
        requires turn { turn < length self.old.entries }
        requires free { chunk_of self.old.accepted turn ≡ None }
        requires small { length chunk.bytes.items ≤ 2 ^ 30 }
        ensures { self.new ≡ with_chunk self.old turn chunk.bytes.items }
    {
        self.waiting.add(turn, chunk);
    }

    // Appends the chunk of a turn that can be written.
    fn write(&mut self, turn: u32)
        requires whole { self.old.broken ≡ false }
        requires can { CanWrite self.old turn }
        ensures same { IsSameDesk K.means self.old self.new }
        ensures wrote { self.new.taken ≡ self.old.taken ++ turn ∷ [] }
    {
        let Some(chunk) = self.waiting.take(turn) else {
            unreachable!()
        };
        let start = self.appended;
        match append_all(&mut self.sink, &chunk.bytes) {
            Ok(()) => {
                self.starts.push_reserved(start);
                self.appended += chunk.bytes.len() as u64;
            }
            Err(CutShort { taken }) => {
                self.appended += taken as u64;
                self.broken = true;
            }
        }
    }

    // Appends the chunk of the next turn, if it is there, and says whether it was.
    fn write_next(&mut self) -> bool
        requires whole { self.old.broken ≡ false }
        requires rising { self.old.free ≡ false }
        ensures same { IsSameDesk K.means self.old self.new }
        ensures wrote { WritesNext result self.old self.new }
    {
        let turn = self.starts.len() as u32;
        if turn as usize == self.front.entries.len() || !self.waiting.is_accepted(turn) {
            return false;
        }
        self.write(turn);
        true
    }

    // Appends chunks by rising turn, as far as they are there.
    fn write_rising(&mut self)
        requires rising { self.old.free ≡ false }
        ensures same { IsSameDesk K.means self.old self.new }
        ensures settled { IsSettled self.new }
        ensures progress { BeginsWith self.old.taken self.new.taken }
        ensures still { self.old.broken ≡ true → self.new ≡ self.old }
    {
        'chunks: while !self.broken {
            if !self.write_next() {
                return;
            }
        }
    }

    /// Appends what can be written, after the chunk of a turn was accepted.
    pub fn write_ready(&mut self, turn: u32)
        requires turn { turn < length self.old.entries }
        requires there { IsSome (chunk_of self.old.accepted turn) }
        requires fresh { has self.old.taken turn ≡ false }
        requires others { IsSettledBut turn self.old }
        ensures same { IsSameDesk K.means self.old self.new }
        ensures settled { IsSettled self.new }
        ensures progress { BeginsWith self.old.taken self.new.taken }
        ensures still { self.old.broken ≡ true → self.new ≡ self.old }
    {
        if self.broken {
            return;
        }
        if self.front.free {
            self.write(turn);
        } else {
            self.write_rising();
        }
    }

    /// Where the chunk of a turn is.
    pub fn placed(&self, turn: u32) -> Placed
        requires turn { turn < length self.now.entries }
        requires accepted { IsSome (chunk_of self.now.accepted turn) }
        requires settled { IsSettled self.now }
        ensures placed { IsAt K.means self.now turn result }
        // What holds of each desk.
        ensures desk { IsDesk K.means self.now }
    {
        if self.broken {
            let faults = rise(self.begun, self.sink.faults());
            return Placed::Broken { faults };
        }
        if self.waiting.is_taken(turn) {
            return Placed::Written;
        }
        let first = self.starts.len() as u32;
        Placed::Waits { turn: first }
    }

    /// Writes the tables of offsets, and gives the sink back with the whole file. Where a turn has no chunk nothing is
    /// written.
    pub fn finish(self) -> Result<K, DeskStop<K>>
        requires settled { IsSettled self }
        ensures complete { OnOk result (IsComplete (length self.entries) self.accepted) }
        ensures order { OnOk result (IsAllowed (length self.entries) self.free self.taken) }
        ensures file { IsTrue K.means.tells → IfOk result (λ sink. K.means.holds sink ≡ filed self.front self.entries self.accepted self.taken) }
        ensures cause { IfErr result (λ stop. IsStop K.means self stop.cause stop.sink) }
        ensures partial { IsTrue K.means.tells → IfErr result (λ stop. IsPartial self.front self.entries self.free self.accepted self.taken (K.means.holds stop.sink)) }
        ensures name { MatchResult result (λ sink. K.means.name sink ≡ K.means.name self.sink) (λ stop. K.means.name stop.sink ≡ K.means.name self.sink) }
        ensures later { MatchResult result (λ sink. K.means.faults self.sink ≤ K.means.faults sink) (λ stop. K.means.faults self.sink ≤ K.means.faults stop.sink) }
    {
        if let Some(turn) = self.waiting.first_missing() {
            return Err(self.into_stop(DeskCause::Missing { turn }));
        }
        if self.broken {
            let at = self.appended;
            return Err(self.into_stop(DeskCause::WriteFault { at }));
        }
        self.write_tables()
    }

    // Fills the tables in.
    fn write_tables(self) -> Result<K, DeskStop<K>>
        requires whole { self.broken ≡ false }
        requires complete { IsComplete (length self.entries) self.accepted }
        requires settled { IsSettled self }
        ensures order { IsAllowed (length self.entries) self.free self.taken }
        ensures file { IsTrue K.means.tells → IfOk result (λ sink. K.means.holds sink ≡ filed self.front self.entries self.accepted self.taken) }
        ensures cause { IfErr result (λ stop. IsStop K.means self stop.cause stop.sink) }
        ensures partial { IsTrue K.means.tells → IfErr result (λ stop. IsPartial self.front self.entries self.free self.accepted self.taken (K.means.holds stop.sink)) }
        ensures name { MatchResult result (λ sink. K.means.name sink ≡ K.means.name self.sink) (λ stop. K.means.name stop.sink ≡ K.means.name self.sink) }
        ensures later { MatchResult result (λ sink. K.means.faults self.sink ≤ K.means.faults sink) (λ stop. K.means.faults self.sink ≤ K.means.faults stop.sink) }
    {
        let Filing {
            front,
            mut sink,
            begun: _,
            waiting,
            starts,
            appended,
            broken: _,
        } = self;
        let Front {
            mut bytes,
            entries,
            free: _,
        } = front;
        fill(&mut bytes, &entries, waiting.taken(), &starts);
        match write_all_at(&mut sink, 0, &bytes) {
            Ok(()) => Ok(sink),
            Err(CutShort { taken: _ }) => {
                let cause = DeskCause::WriteFault { at: appended };
                Err(DeskStop { sink, cause })
            }
        }
    }

    // The sink, and why the file was not finished.
    fn into_stop(self, cause: DeskCause) -> DeskStop<K>
        ensures stop { result ≡ record { sink = self.sink; cause = cause } }
        ensures partial { IsTrue K.means.tells → IsPartial self.front self.entries self.free self.accepted self.taken (K.means.holds self.sink) }
    {
        let Filing {
            front: _,
            sink,
            begun: _,
            waiting: _,
            starts: _,
            appended: _,
            broken: _,
        } = self;
        DeskStop { sink, cause }
    }
}
