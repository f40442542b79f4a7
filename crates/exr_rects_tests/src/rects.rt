ghost use Rattle.std.specs.Prelude.{◌≡◌, ◌≤◌, length};
ghost use Rattle.exr_rects.specs.Lending.{Keeps, IsWhole, sheet_len};

use crate::fills::{Place, fill_halves, fill_slice, write_left};
use exr_rects::{Sheet, with_sheet};
use std::test::Fail;

fn place(from: usize, rows: usize, cols: usize, pitch: usize, row: usize, col: usize) -> Place {
    Place {
        from,
        rows,
        cols,
        pitch,
        row,
        col,
    }
}

// Fourteen bytes, as three rows of four with one byte between them.
#[test]
fn worked_rows(rt: HostRuntime) -> Result<(), Fail> {
    let mut bytes = [0, 1, 2, 3, 4, 5, 6, 7, 8, 9, 10, 11, 12, 13];
    let mut nothing = ();
    let (rows, column) = with_sheet(
        &mut bytes,
        &mut nothing,
        (),
        |sheet: Sheet<u8>, nothing: (), _x: ()| -> (Sheet<u8>, (), ([u8; 12], [u8; 3]))
            requires whole { IsWhole sheet }
            requires long { 14 ≤ sheet_len sheet }
            ensures { Keeps sheet result.0 }
        {
            let (sheet, rows, column) = write_left(sheet);
            (sheet, nothing, (rows, column))
        },
    );
    assert_eq!(&rt; rows, [0, 1, 2, 3, 5, 6, 7, 8, 10, 11, 12, 13]);
    assert_eq!(&rt; column, [0, 5, 10]);
    assert_eq!(&rt; bytes, [0, 1, 2, 3, 4, 99, 6, 7, 8, 9, 10, 11, 12, 13]);
    Ok(())
}

// The parts of a rectangle, each filled with its number. Bytes outside stay 0.
#[test]
fn quarters(rt: HostRuntime) -> Result<(), Fail> {
    let huge = usize::MAX;
    let cases = [
        (
            place(0, 3, 4, 5, 1, 2),
            [1, 1, 2, 2, 0, 3, 3, 4, 4, 0, 3, 3, 4, 4],
        ),
        (
            place(1, 2, 3, 3, 1, 1),
            [0, 1, 2, 2, 3, 4, 4, 0, 0, 0, 0, 0, 0, 0],
        ),
        (
            place(0, 3, 4, 5, 0, 0),
            [4, 4, 4, 4, 0, 4, 4, 4, 4, 0, 4, 4, 4, 4],
        ),
        (
            place(0, 3, 4, 5, 3, 4),
            [1, 1, 1, 1, 0, 1, 1, 1, 1, 0, 1, 1, 1, 1],
        ),
        (
            place(13, 1, 1, 1, 0, 0),
            [0, 0, 0, 0, 0, 0, 0, 0, 0, 0, 0, 0, 0, 4],
        ),
        (
            place(2, 1, 4, huge, 0, 3),
            [0, 0, 3, 3, 3, 4, 0, 0, 0, 0, 0, 0, 0, 0],
        ),
        (
            place(2, 1, 4, huge, 1, 3),
            [0, 0, 1, 1, 1, 2, 0, 0, 0, 0, 0, 0, 0, 0],
        ),
        (place(huge, 0, 4, huge, 0, 2), [0; 14]),
        (place(14, 1, 0, 0, 1, 0), [0; 14]),
        (place(0, 3, 0, 5, 2, 0), [0; 14]),
        (
            place(0, 2, 2, 12, 1, 1),
            [1, 2, 0, 0, 0, 0, 0, 0, 0, 0, 0, 0, 3, 4],
        ),
    ];
    for (place, filled) in cases {
        let mut bytes = [0; 14];
        assert!(&rt; fill_slice(&mut bytes, place));
        assert_eq!(&rt; bytes, filled);
    }
    Ok(())
}

// What does not lie in fourteen bytes is refused.
#[test]
fn outside(rt: HostRuntime) -> Result<(), Fail> {
    let huge = usize::MAX;
    let cases = [
        place(0, 3, 4, 6, 0, 0),
        place(1, 3, 4, 5, 0, 0),
        place(0, 3, 5, 5, 0, 0),
        place(0, 2, 1, huge, 0, 0),
        place(0, huge, 1, huge, 0, 0),
        place(huge, 1, 1, 1, 0, 0),
        place(15, 1, 0, 0, 0, 0),
    ];
    for place in cases {
        let mut bytes = [0; 14];
        assert!(&rt; !fill_slice(&mut bytes, place));
        assert_eq!(&rt; bytes, [0; 14]);
    }
    Ok(())
}

// Two threads, each with the rows of one part.
#[test]
fn halves_by_threads(rt: HostRuntime) -> Result<(), Fail> {
    let mut bytes = [0; 14];
    let mut nothing = ();
    with_sheet(
        &mut bytes,
        &mut nothing,
        &rt,
        |sheet: Sheet<u8>, nothing: (), rt: &HostRuntime| -> (Sheet<u8>, (), ())
            requires whole { IsWhole sheet }
            requires long { 14 ≤ sheet_len sheet }
            ensures { Keeps sheet result.0 }
        {
            let place = Place {
                from: 0,
                rows: 3,
                cols: 4,
                pitch: 5,
                row: 1,
                col: 0,
            };
            (fill_halves(rt, sheet, place), nothing, ())
        },
    );
    assert_eq!(&rt; bytes, [1, 1, 1, 1, 0, 2, 2, 2, 2, 0, 2, 2, 2, 2]);
    Ok(())
}
