//! The chunks that were accepted, for contracts alone: what was written stands in the sink and nowhere in memory.
//!
//! The list is the view of the only seat of a table of one word. A view takes no memory, and only a step on the word
//! changes it.

ghost use Rattle.std.specs.Prelude.{◌≡◌, [], ◌∷◌, ◌++◌, IfOk};
ghost use mathlib.Core.Option.{some};
ghost use Rattle.exr_desk.specs.Record.{record_with};

use crate::chunk::Packed;
use atomic_table::{Play, Seat, Table, TableRule};
use exr_base::NoMemory;
use std::alloc::Global;
use std::collections::LinkedList;
use std::marker::Model;

/// What the seat has seen: each chunk's turn and bytes, in the order in which they came. No value of it is made.
pub struct Record {
    pub chunks: LinkedList<(u32, LinkedList<u8>)>,
}

/// The rule of the table, which any record keeps.
pub struct AnyRecord;

impl TableRule<Packed, Record, ()> for AnyRecord {
    ghost use Rattle.std.specs.Prelude.{[]};

    ghost holds = { λ _ _. Unit {0} };

    ghost first = { λ _. record { chunks = [] } };
}

/// A step that adds the chunk that it announces, at the turn that is its operand.
pub struct Adds;

impl Play<Packed, Record> for Adds {
    ghost use Rattle.std.specs.Prelude.{◌≡◌};
    ghost use Rattle.exr_desk.specs.Record.{record_with};

    ghost then = { λ step before found after. after ≡ (record_with before.0 step.first step.said, before.1) };
}

/// The accepted chunks; contracts see the list.
#[derive(Drop)]
pub struct Accepted {
    table: Table<Packed, Record, (), AnyRecord, Global>,
    seat: Seat<Packed, Record>,
}

impl Model for Accepted {
    ghost use Rattle.std.specs.Prelude.{◌≡◌, ℕ, List};

    ghost Value = { List (ℕ × List ℕ) };

    ghost view = { λ a. a.seat.me.0.chunks };

    ghost invariant = { λ a. (a.seat.table_id ≡ a.table.shared.table_id) × (a.table.shared.table_id.words ≡ 1) };
}

impl Accepted {
    /// No chunk was accepted yet.
    pub fn new(alloc: Global) -> Result<Accepted, NoMemory>
        ensures { IfOk result (λ accepted. accepted ≡ []) }
    {
        let (table, seat) = Table::of_words(alloc, &[0], &())?;
        Ok(Accepted { table, seat })
    }

    /// Notes a chunk at a turn.
    pub fn add(&mut self, turn: u32, chunk: &Packed)
        ensures { self.new ≡ self.old ++ (turn, chunk.now.bytes.items) ∷ [] }
    {
        note(&self.table, &mut self.seat, turn, chunk);
    }
}

// The step that adds a chunk to the record.
fn note(
    table: &Table<Packed, Record, (), AnyRecord, Global>,
    seat: &mut Seat<Packed, Record>,
    turn: u32,
    chunk: &Packed,
)
    requires table { seat.old.table_id ≡ table.now.shared.table_id }
    requires word { table.now.shared.table_id.words ≡ 1 }
    ensures table { seat.new.table_id ≡ seat.old.table_id }
    ensures noted { seat.new.me.0 ≡ record_with seat.old.me.0 turn (some chunk.now) }
{
    let word = turn as u64;
    let _found = table
        .shared
        .compare_exchange_with::<Adds>(seat, 0, word, word, chunk);
}
