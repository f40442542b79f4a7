//! A slice's elements as a sheet, for as long as a function works on them.
ghost use Rattle.std.specs.Prelude.{◌≡◌};
ghost use Rattle.exr_rects.specs.Lending.{IsAllOf, GivesBack, IsWhole, IsOfSlots, IsSlotsOf};
ghost use Rattle.exr_rects.specs.declared.sheet.Sheet.{Sheet as Whole};

use crate::Sheet;
use core::slots::{Slots, with_slots};

/// Calls `work` with all elements of `into` as one sheet, with what `state` points to and with `x`, and puts back what
/// `work` returns: a sheet that owns all elements again, and the state.
///
/// What `work` wrote is in `into` after the call, whoever wrote it and in whatever order: `into` is then the items of
/// the sheet that came back.
pub fn with_sheet<T, S, X, R, F: FnOnce(Sheet<T>, S, X) -> (Sheet<T>, S, R)>(
    into: &mut [T],
    state: &mut S,
    x: X,
    work: F,
) -> R
    requires callable { (sheet : Whole T) → IsAllOf sheet into.old → F.pre work sheet state.old x }
    requires returned { (sheet : Whole T) (out : Whole T × S × R) → IsAllOf sheet into.old → F.post work sheet state.old x out → GivesBack sheet out.0 }
    ensures { (sheet : Whole T) × (back : Whole T) × IsAllOf sheet into.old × F.post work sheet state.old x (back, state.new, result) × (into.new ≡ back.items) }
{
    // The values of the slots that come back are the sheet's items, and it owns them all: none is lost.
    unsafe {
        with_slots(
            into,
            state,
            x,
            |slots: Slots<T>, state: S, x: X| -> (Slots<T>, S, R)
                requires callable { (sheet : Whole T) → IsOfSlots sheet slots → F.pre work sheet state x }
                requires returned { (sheet : Whole T) (out : Whole T × S × R) → IsOfSlots sheet slots → F.post work sheet state x out → IsWhole out.0 }
                ensures { (sheet : Whole T) × (back : Whole T) × IsOfSlots sheet slots × F.post work sheet state x (back, result.1, result.2) × IsSlotsOf result.0 back }
            { work_on(work, slots, state, x) },
        )
    }
}

// Calls `work` with the values of `slots`.
fn work_on<T, S, X, R, F: FnOnce(Sheet<T>, S, X) -> (Sheet<T>, S, R)>(
    work: F,
    slots: Slots<T>,
    state: S,
    x: X,
) -> (Slots<T>, S, R)
    requires callable { (sheet : Whole T) → IsOfSlots sheet slots → F.pre work sheet state x }
    requires returned { (sheet : Whole T) (out : Whole T × S × R) → IsOfSlots sheet slots → F.post work sheet state x out → IsWhole out.0 }
    ensures { (sheet : Whole T) × (back : Whole T) × IsOfSlots sheet slots × F.post work sheet state x (back, result.1, result.2) × IsSlotsOf result.0 back }
{
    let (back, state, result) = work(Sheet::of(slots), state, x);
    (back.into_slots(), state, result)
}
