//! How failures are counted: one more at each, as far as the count can rise.

ghost use Rattle.std.specs.Prelude.{◌≡◌, ◌<◌, ◌≤◌};
ghost use Rattle.exr_outside.specs.Count.{Rose, rise_of, one_more, CountsFailure};
ghost use Rattle.exr_outside.specs.Fakes.{failures_after};

use exr_base::{Failed, Refusal};

/// By how much a count of failures went up between two moments. It is at least 1 where the count went up, also where it
/// stands still at its greatest number.
pub fn rise(before: u64, now: u64) -> u64
    ensures value { result ≡ rise_of before now }
    ensures rose { Rose before now → 0 < result }
{
    let more = now.saturating_sub(before);
    if now == u64::MAX { more.max(1) } else { more }
}

// Counts a failure.
pub fn count_failure(count: &mut u64)
    ensures counted { count.new ≡ one_more count.old }
    ensures later { count.old ≤ count.new }
{
    *count = count.saturating_add(1);
}

// Counts a call that may have failed.
pub fn count_refusal<T>(count: &mut u64, outcome: &Result<T, Refusal<Failed>>)
    ensures counted { count.new ≡ failures_after outcome.now count.old }
    ensures cause { CountsFailure count.old count.new outcome.now }
{
    if let Err(Refusal::Fault(Failed)) = outcome {
        count_failure(count);
    }
}
