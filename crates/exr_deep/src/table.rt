//! The sample count table from the number of samples of each pixel.

ghost use Rattle.std.specs.Prelude.{◌≡◌, ◌+◌, ◌*◌, ◌≤◌, ◌++◌, true, length, take};
ghost use Rattle.std.specs.Int.{w32, to_le_bytes};
ghost use Rattle.exr_deep.specs.Counts.{table_of};
ghost use Rattle.exr_deep.specs.Steps.{AreInts, entries_of};
ghost use Rattle.exr_deep.specs.Deep.{are_ints};

/// Writes the entry of a pixel.
fn put_entry(table: &mut [u8], pixel: usize, samples: u32)
    requires { 4 * pixel + 4 ≤ length table.old }
    ensures { take (4 * pixel + 4) table.new ≡ take (4 * pixel) table.old ++ to_le_bytes w32 samples }
{
    let at = 4 * pixel;
    table[at..at + 4].copy_from_slice(&samples.to_le_bytes());
}

/// Writes the entries of one row.
fn put_row(counts: &[u32], width: usize, row: usize, table: &mut [u8])
    requires room { length table.old ≡ 4 * length counts.now }
    requires row { row * width + width ≤ length counts.now }
    requires ints { AreInts width counts.now (length counts.now) }
    requires so_far { take (4 * (row * width)) table.old ≡ entries_of width counts.now (row * width) }
    ensures { take (4 * (row * width + width)) table.new ≡ entries_of width counts.now (row * width + width) }
{
    let first = row * width;
    let mut samples = 0u32;
    for pixel in first..first + width {
        samples += counts[pixel];
        put_entry(table, pixel, samples);
    }
}

/// Writes the table of all rows.
pub(crate) fn put_table(counts: &[u32], width: usize, rows: usize, table: &mut [u8])
    requires room { length table.old ≡ 4 * length counts.now }
    requires pixels { length counts.now ≡ rows * width }
    requires ints { are_ints width counts.now ≡ true }
    ensures { table.new ≡ table_of width counts.now }
{
    for row in 0..rows {
        put_row(counts, width, row, table);
    }
}
