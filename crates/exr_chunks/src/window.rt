//! The chunks that a window meets, computed from its corners.

ghost use Rattle.std.specs.Prelude.{◌≡◌, ◌≤◌, ◌+◌, ◌*◌, IfOk, OnOk};
ghost use Rattle.exr_base.specs.Shape.{IsSide};
ghost use Rattle.exr_chunks.specs.Part.{header_of, IsPart};
ghost use Rattle.exr_chunks.specs.Window.{meeting_among, chunks_of_window, IsRun, AreColumns, AreRows, IsRow};

use crate::part::Part;
use crate::sides::span;
use exr_base::{Box2i, NoMemory};
use std::alloc::Global;

/// Pieces of a side: from `first` on, before `behind`.
#[derive(Clone, Copy, Debug)]
pub(crate) struct Run {
    pub first: u32,
    pub behind: u32,
}

/// The pieces of a side that a window's side meets.
fn pieces_met(from: i32, to: i32, size: u32, window_from: i32, window_to: i32) -> Run
    requires side { IsSide from to }
    requires some { 1 ≤ size }
    ensures { IsRun from to size window_from window_to result }
{
    let low = from.max(window_from);
    let high = to.min(window_to);
    if high < low {
        return Run {
            first: 0,
            behind: 0,
        };
    }
    Run {
        first: (span(from, low) - 1) / size,
        behind: (span(from, high) - 1) / size + 1,
    }
}

impl Part {
    /// Adds the chunks of a row that a window meets.
    fn push_row(
        &self,
        chunks: &mut Vec<u32>,
        window: Box2i,
        columns: Run,
        row: u32,
    ) -> Result<(), NoMemory>
        requires part { IsPart self.now }
        requires columns { AreColumns self.now window columns }
        requires row { IsRow self.now window row }
        requires above { chunks.now.items ≡ meeting_among (header_of self.now) window (row * self.now.across) }
        ensures { OnOk result (chunks.new.items ≡ meeting_among (header_of self.now) window ((row + 1) * self.now.across)) }
    {
        let begin = row * self.across;
        for column in columns.first..columns.behind {
            chunks.push(begin + column)?;
        }
        Ok(())
    }

    /// The columns of chunks that a window meets.
    fn columns_met(&self, window: Box2i) -> Run
        requires { IsPart self.now }
        ensures { AreColumns self.now window result }
    {
        pieces_met(
            self.window.x0,
            self.window.x1,
            self.columns,
            window.x0,
            window.x1,
        )
    }

    /// The rows of chunks that a window meets.
    fn rows_met(&self, window: Box2i) -> Run
        requires { IsPart self.now }
        ensures { AreRows self.now window result }
    {
        pieces_met(
            self.window.y0,
            self.window.y1,
            self.rows,
            window.y0,
            window.y1,
        )
    }

    /// The chunks that a window meets, in increasing order.
    pub fn chunks_of(&self, alloc: Global, window: Box2i) -> Result<Vec<u32>, NoMemory>
        requires { IsPart self.now }
        ensures { IfOk result (λ chunks. chunks.items ≡ chunks_of_window (header_of self.now) window) }
    {
        let mut chunks = Vec::new(alloc);
        let columns = self.columns_met(window);
        if columns.behind <= columns.first {
            return Ok(chunks);
        }
        let rows = self.rows_met(window);
        for row in rows.first..rows.behind {
            self.push_row(&mut chunks, window, columns, row)?;
        }
        Ok(chunks)
    }
}
