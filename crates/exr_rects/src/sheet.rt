//! The parts of one buffer, each with an owner of its own. All that reads or makes the raw pointer stands in this file.
ghost use Rattle.std.specs.Prelude.{◌≡◌, ◌+◌, ◌^◌, ◌<◌, ◌≤◌, Bool, List, length, take, drop};
ghost use Rattle.std.specs.Borrow.{sem};
ghost use Rattle.core.specs.Mem.Slots.Ownership.{lent};
ghost use Rattle.exr_rects.specs.Ownership.{owned};
ghost use Rattle.exr_rects.specs.Marks.{in_rect};

use core::slots::Slots;
use std::marker::{Model, Send};
use std::slice;

/// A buffer of `len` elements at `at`, of which a part is owned: the elements that `mine` marks.
///
/// Several sheets share one pointer. What keeps them apart is proved: for an element that is marked, the sheet owns the
/// memory whole, and no two owners of it exist; for one that is not, it owns nothing, and no call below can reach it.
/// `items` has a value for each element of the buffer. At a place that is not marked it says nothing about the memory.
#[derive(Drop)]
pub struct Sheet<T> {
    at: *mut T,
    len: usize,
    ghost items: { List T },
    ghost mine: { List Bool },
    ghost ok: { (len ≡ length items) × (len ≡ length mine) },
    ghost small: { len < 2 ^ 64 },
}

impl<T> Model for Sheet<T> {
    ghost also_owns = { λ s. owned T.row s.at s.len s.items s.mine };

    ghost also_shares = { λ s _ κ. lent T.row s.at s.len s.items s.mine κ };
}

// A sheet may go to another thread where its elements may: the memory that it owns is nobody else's. There is no `Sync`.
unsafe impl<T: Send> Send for Sheet<T> {}

impl<T> Sheet<T> {
    ghost use Rattle.exr_rects.specs.Lending.{lends_run, SameBuffer, IsOfSlots, IsSlotsOf, IsCut, IsJoined, IsWhole, OwnsRun};

    // The pointer and the count of the slots. No memory is read; an element that the slots do not hold is not marked.
    pub(crate) fn of(row: Slots<T>) -> Sheet<T>
        ensures { IsOfSlots result row }
    {
        let parts = unsafe { row.into_raw_parts() };
        Sheet {
            at: parts.0,
            len: parts.1,
        }
    }

    // The slots get the pointer and the count back. All elements are marked, so each slot has its value.
    pub(crate) fn into_slots(self) -> Slots<T>
        requires { IsWhole self }
        ensures { IsSlotsOf result self }
    {
        let Sheet { at, len } = self;
        unsafe { Slots::from_raw_parts(at, len) }
    }

    /// Cuts out a rectangle: a sheet of the elements of it that this sheet owns, and a sheet of the others.
    ///
    /// The rectangle has `rows` rows of `cols` elements, of which the first begins at place `from`, and each other `pitch`
    /// places after the one before it. Nothing is done at run time: both sheets get the pointer, and the proof shares out
    /// the memory between them, each element to exactly one.
    pub fn cut(self, from: usize, rows: usize, cols: usize, pitch: usize) -> (Sheet<T>, Sheet<T>)
        ensures { IsCut (in_rect from rows cols pitch) self result.0 result.1 }
    {
        let Sheet { at, len } = self;
        (Sheet { at, len }, Sheet { at, len })
    }

    /// Joins two sheets of one buffer: a sheet that owns what either owns.
    ///
    /// Nothing is read or written. The pointers are equal by `requires`, so the pointer of either will do.
    pub fn join(self, other: Sheet<T>) -> Sheet<T>
        requires { SameBuffer self other }
        ensures { IsJoined self other result }
    {
        let Sheet { at, len } = self;
        let Sheet { at: _, len: _ } = other;
        Sheet { at, len }
    }

    /// The `count` elements from place `at` on, `count` at least 1.
    ///
    /// `at + count` is at most `len`, so the pointer stays within the buffer's block, and the elements are owned, so they
    /// hold values and nobody writes them while the slice is there.
    pub fn run(&self, at: usize, count: usize) -> &[T]
        requires { (0 < count) × (at + count ≤ self.now.len) × OwnsRun self.now at count }
        ensures { result.now ≡ take count (drop at self.now.items) }
    {
        unsafe { slice::from_raw_parts(self.at.add(at), count) }
    }

    /// The `count` elements from place `at` on, to be written.
    ///
    /// The elements are owned and the sheet is lent for as long as the slice is there, so nobody else reads or writes
    /// them. When the loan ends, the sheet has at these places what was written through the slice.
    pub fn run_mut(&mut self, at: usize, count: usize) -> &mut [T]
        requires { (at + count ≤ self.old.len) × OwnsRun self.old at count }
        ensures* writes_back { sem 𝓛 (lends_run T.row self.entry at result) }
        ensures value { result.now ≡ take count (drop at self.old.items) }
    {
        unsafe { slice::from_raw_parts_mut(self.at.add(at), count) }
    }
}
