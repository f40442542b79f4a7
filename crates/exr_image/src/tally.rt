//! The samples of pixels, added up.

ghost use Rattle.std.specs.Prelude.{◌≡◌, ◌≤◌, ◌*◌, ◌^◌, List, ℕ, length, take, sum, All, IfOk};
ghost use Rattle.exr_image.specs.Pixel.{samples_between};
ghost use Rattle.exr_image.specs.Pieces.{IsTally};

use exr_base::NoMemory;
use std::alloc::Global;

/// The samples of the first pixels of a chunk. Chunks are read row by row, so each count is added once.
#[derive(Clone, Copy, Debug)]
pub(crate) struct Tally {
    /// The number of pixels.
    pub pixels: usize,
    /// The number of their samples.
    pub samples: u64,
}

/// The sum of counts.
fn sum_of(counts: &[u32]) -> u64
    requires { length counts.now ≤ 2 ^ 24 }
    ensures exact { result ≡ sum counts.now }
    ensures small { result ≤ length counts.now * 2 ^ 32 }
{
    let mut samples = 0;
    for count in counts {
        samples += u64::from(*count);
    }
    samples
}

impl Tally {
    /// No pixel.
    fn none() -> Tally
        ensures tally { (counts : List ℕ) → IsTally counts result }
        ensures none { result.pixels ≡ 0 }
    {
        Tally {
            pixels: 0,
            samples: 0,
        }
    }

    /// The tally of at most so many pixels, to count on from.
    fn before(self, pixels: usize) -> Tally
        ensures tally { (counts : List ℕ) → IsTally counts self → IsTally counts result }
        ensures few { result.pixels ≤ pixels }
    {
        if pixels < self.pixels {
            return Tally::none();
        }
        self
    }

    /// Adds the counts of the pixels up to number `to`; answers how many samples these pixels have.
    pub(crate) fn pass(&mut self, counts: &[u32], to: usize) -> u64
        requires tally { IsTally counts.now self.old }
        requires forward { self.old.pixels ≤ to }
        requires within { to ≤ length counts.now }
        requires small { length counts.now ≤ 2 ^ 24 }
        ensures exact { result ≡ samples_between counts.now self.old.pixels to }
        ensures small { result ≤ 2 ^ 56 }
        ensures at { self.new.pixels ≡ to }
        ensures tally { IsTally counts.now self.new }
    {
        let more = sum_of(&counts[self.pixels..to]);
        self.pixels = to;
        self.samples += more;
        more
    }

    /// The samples of the pixels before number `to`.
    pub(crate) fn reach(&mut self, counts: &[u32], to: usize) -> u64
        requires tally { IsTally counts.now self.old }
        requires within { to ≤ length counts.now }
        requires small { length counts.now ≤ 2 ^ 24 }
        ensures exact { result ≡ sum (take to counts.now) }
        ensures at { self.new.pixels ≡ to }
        ensures tally { IsTally counts.now self.new }
    {
        let start = self.before(to);
        *self = start;
        self.pass(counts, to);
        self.samples
    }
}

/// So many tallies of no pixels.
pub(crate) fn no_tallies(alloc: Global, count: usize) -> Result<Vec<Tally>, NoMemory>
    ensures many { IfOk result (λ tallies. length tallies.items ≡ count) }
    ensures each { IfOk result (λ tallies. All (λ tally. (counts : List ℕ) → IsTally counts tally) tallies.items) }
{
    let tallies = vec![in alloc; Tally::none(); count]?;
    Ok(tallies)
}
