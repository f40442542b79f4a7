//! The number of samples of each pixel, from the sample count table.

ghost use Rattle.std.specs.Prelude.{◌≡◌, ◌+◌, ◌*◌, ◌<◌, ◌≤◌, ◌^◌, length, take, sum, true, MatchResult, Ok, Err};
ghost use Rattle.exr_deep.specs.Counts.{entry_at, counts_in};
ghost use Rattle.exr_deep.specs.declared.fault.DeepFault.TheVariants as fault;
ghost use Rattle.exr_deep.specs.Deep.{are_ints};
ghost use Rattle.exr_deep.specs.Steps.{AreCounted, IsFirstFall};

/// An entry of a table.
#[tactic(auto, unfolding(crate::specs::Counts::entry_at))]
fn entry(table: &[u8], pixel: usize) -> i32
    requires { 4 * pixel + 4 ≤ length table.now }
    ensures { result ≡ entry_at table.now pixel }
{
    let at = 4 * pixel;
    i32::from_le_bytes([table[at], table[at + 1], table[at + 2], table[at + 3]])
}

/// Writes the counts of one row. It answers how many samples the row has, or the first pixel whose entry falls.
fn fill_row(table: &[u8], width: usize, row: usize, counts: &mut [u32]) -> Result<u32, usize>
    requires there { length table.now ≡ 4 * length counts.old }
    requires row { row * width + width ≤ length counts.old }
    requires so_far { AreCounted width table.now (row * width) counts.old }
    ensures counted { MatchResult result
        (λ samples. AreCounted width table.now (row * width + width) counts.new)
        (λ pixel. IsFirstFall width table.now pixel) }
    ensures samples { MatchResult result
        (λ samples. sum (take (row * width + width) counts.new) ≡ sum (take (row * width) counts.old) + samples)
        (λ pixel. pixel < length counts.old) }
    ensures small { MatchResult result (λ samples. samples < 2 ^ 31) (λ pixel. pixel < length counts.old) }
{
    let first = row * width;
    let mut before = 0;
    for pixel in first..first + width {
        let entry = entry(table, pixel);
        if entry < before {
            return Err(pixel);
        }
        counts[pixel] = (entry - before) as u32;
        before = entry;
    }
    Ok(before as u32)
}

/// Writes the counts of all rows. It answers how many samples there are, or the first pixel whose entry falls.
pub(crate) fn fill_counts(
    table: &[u8],
    width: usize,
    rows: usize,
    counts: &mut [u32],
) -> Result<u64, usize>
    requires there { length table.now ≡ 4 * length counts.old }
    requires pixels { length counts.old ≡ rows * width }
    requires few { rows ≤ 2 ^ 20 }
    ensures exact { MatchResult result
        (λ samples. counts_in width table.now (rows * width) ≡ Ok counts.new)
        (λ pixel. counts_in width table.now (rows * width) ≡ Err (fault.CountsFall pixel)) }
    ensures within { MatchResult result (λ samples. length counts.new ≡ rows * width) (λ pixel. pixel < rows * width) }
    ensures ints { MatchResult result (λ samples. are_ints width counts.new ≡ true) (λ pixel. pixel < rows * width) }
    ensures samples { MatchResult result (λ samples. samples ≡ sum counts.new) (λ pixel. pixel < rows * width) }
    ensures small { MatchResult result (λ samples. samples ≤ rows * 2 ^ 31) (λ pixel. pixel < rows * width) }
{
    let mut samples = 0;
    for row in 0..rows {
        samples += u64::from(fill_row(table, width, row, counts)?);
    }
    Ok(samples)
}
