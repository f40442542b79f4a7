//! The samples that a slice has on one line of a region, within the window: how many, and where they are stored.

ghost use Rattle.std.specs.Prelude.{◌≡◌, ◌≤◌, ◌<◌, ◌≤ℤ◌, ◌-ℤ◌, ◌^◌, pos, neg_ℤ, MatchOption};
ghost use Rattle.exr_base.specs.Shape.{IsRegion, IsSide};
ghost use Rattle.exr_base.specs.Sampling.{count_before};
ghost use Rattle.exr_layout.specs.Place.{placements_of, placement_at, place_after};
ghost use Rattle.exr_frame.specs.Rows.{IsStrip, HasNone, IsLineOf, low_of, high_of};

use exr_base::{Box2i, count_before, sample_count};
use exr_layout::{Layout, Placement, Plan};

/// Samples of a slice on a line.
#[derive(Clone, Copy, Debug)]
pub(crate) struct Strip {
    /// Offset of the first in the buffer.
    pub(crate) at: usize,
    pub(crate) samples: usize,
    /// Number of samples of the line before the first.
    pub(crate) skip: usize,
}

/// Offset of the sample that has `line` rows of its plane and `column` samples of its row before it.
fn place(placement: &Placement, line: u32, column: u32) -> u64
    requires { place_after placement.now line column < 2 ^ 64 }
    ensures { result ≡ place_after placement.now line column }
{
    placement.base
        + u64::from(line) * placement.row_stride
        + placement.run
        + u64::from(column) * placement.stride
        + placement.at
}

/// The samples of a slice on line `y` between two columns.
fn strip_between(
    layout: &Layout,
    placement: &Placement,
    number: usize,
    region: Box2i,
    y: i32,
    low: i32,
    high: i32,
) -> Option<Strip>
    requires placement { placement.now ≡ placement_at (placements_of layout.now.planes) number }
    requires region { IsRegion region }
    requires line { IsLineOf layout.now region number y }
    requires low { low ≡ low_of layout.now.window region }
    requires high { high ≡ high_of layout.now.window region }
    requires ordered { low ≤ℤ high }
    ensures { MatchOption result (HasNone layout.now region number y) (IsStrip layout.now region number y) }
{
    let window = layout.window();
    let samples = sample_count(placement.sampling, low, high);
    if samples == 0 {
        return None;
    }
    let line = count_before(placement.row_sampling, window.y0, y);
    let column = count_before(placement.sampling, window.x0, low);
    Some(Strip {
        at: place(placement, line, column) as usize,
        samples: samples as usize,
        skip: count_before(placement.sampling, region.x0, low) as usize,
    })
}

/// The samples of slice `number` on line `y` of a region.
pub(crate) fn strip_of(
    layout: &Layout,
    plan: &Plan,
    number: usize,
    region: Box2i,
    y: i32,
) -> Option<Strip>
    requires plan { plan.now.placements ≡ placements_of layout.now.planes }
    requires region { IsRegion region }
    requires line { IsLineOf layout.now region number y }
    ensures { MatchOption result (HasNone layout.now region number y) (IsStrip layout.now region number y) }
{
    let window = layout.window();
    let low = window.x0.max(region.x0);
    let high = window.x1.min(region.x1);
    if high < low {
        return None;
    }
    strip_between(layout, plan.placement(number), number, region, y, low, high)
}
