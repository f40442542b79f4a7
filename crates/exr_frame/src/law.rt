//! Copying out gives back what was copied in. The contract of the call is the law.

ghost use Rattle.std.specs.Prelude.{◌≡◌, ◌≤◌, ◌^◌, IsTrue, IfOk, length};
ghost use Rattle.exr_base.specs.Shape.{IsShape, raw_size_of};
ghost use Rattle.exr_base.specs.Boxes.{is_inside};
ghost use Rattle.exr_layout.specs.Plan.{IsFull, IsPlanOf};

use crate::gathering::gather;
use crate::scattering::scatter;
use exr_base::{NoMemory, Shape};
use exr_layout::{Layout, Plan};
use std::alloc::Global;

/// `gather` gives back what `scatter` copied, if each channel has a slice and the region lies in the window.
pub fn gather_gives_back(
    alloc: Global,
    layout: &Layout,
    plan: &Plan,
    shape: &Shape,
    raw: &[u8],
    into: &mut [u8],
) -> Result<Vec<u8>, NoMemory>
    requires plan { IsPlanOf layout.now shape.now.channels.now plan.now }
    requires full { IsFull plan.now }
    requires shape { IsShape shape.now.channels.now shape.now.region }
    requires inside { IsTrue (is_inside shape.now.region layout.now.window) }
    requires raw { length raw.now ≡ raw_size_of shape.now.channels.now shape.now.region }
    requires small { length raw.now ≤ 2 ^ 26 }
    requires into { length into.old ≡ layout.now.buffer }
    ensures { IfOk result (λ again. again.items ≡ raw.now) }
{
    scatter(layout, plan, shape, raw, into);
    gather(alloc, layout, plan, shape, into)
}
