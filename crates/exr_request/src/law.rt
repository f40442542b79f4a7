//! Laws of requests. The calls do nothing: their contracts are the laws.

ghost use Rattle.std.specs.Prelude.{◌≡◌};
ghost use Rattle.exr_base.specs.declared.shape.Box2i.{Box2i as AnyBox};
ghost use Rattle.exr_layout.specs.Plan.{Matching};
ghost use Rattle.exr_layout.specs.Validation.{Frame, frame_validated};
ghost use Rattle.exr_layout.specs.Place.{placements_of};
ghost use Rattle.exr_layout.specs.Plan.{part_matched};
ghost use Rattle.exr_request.specs.declared.fault.RequestFault.{RequestFault as AnyFault};
ghost use Rattle.exr_asked.specs.Demand.{demand_of};
ghost use Rattle.exr_request.specs.Request.{IsArranged, IsGranted, IsDeepGranted, IsRefused};

use exr_asked::Asked;
use exr_header::{FileHead, Header};

/// A request is refused for one reason, or granted (own).
pub fn each_request_has_one_answer(head: &FileHead, asked: &Asked)
    // No other reason is an answer.
    ensures once { (one : AnyFault) → (other : AnyFault) → IsRefused head.now (demand_of asked.now) one
        → IsRefused head.now (demand_of asked.now) other → one ≡ other }
    // A request that is granted is not refused.
    ensures either { (f : Frame) → (plan : Matching) → (fault : AnyFault)
        → IsGranted head.now (demand_of asked.now) f plan → IsRefused head.now (demand_of asked.now) fault → ⊥ }
    ensures either_deep { (window : AnyBox) → (fault : AnyFault)
        → IsDeepGranted head.now (demand_of asked.now) window → IsRefused head.now (demand_of asked.now) fault → ⊥ }
{}

/// Frames that are arranged as it is asked for differ in nothing that is validated or read.
pub fn each_arrangement_has_one_meaning(part: &Header, asked: &Asked)
    ensures validated { (f : Frame) → (g : Frame) → IsArranged (demand_of asked.now) part.now f
        → IsArranged (demand_of asked.now) part.now g → frame_validated f ≡ frame_validated g }
    ensures slices { (f : Frame) → (g : Frame) → IsArranged (demand_of asked.now) part.now f
        → IsArranged (demand_of asked.now) part.now g → placements_of f.planes ≡ placements_of g.planes }
    ensures matched { (f : Frame) → (g : Frame) → IsArranged (demand_of asked.now) part.now f
        → IsArranged (demand_of asked.now) part.now g → part_matched f part.now ≡ part_matched g part.now }
{}
