//! Layouts: where the samples of a window are stored in a buffer that a caller describes by strided planes, whether
//! such a description is valid, and which channel of a part each slice of it holds.
#![tactic(auto)]

mod fault;
mod law;
mod layout;
mod names;
mod placement;
mod plan;
mod planes;
mod validation;

pub use fault::{LayoutFault, MatchFault};
pub use law::each_byte_has_its_place;
pub use layout::Layout;
pub use names::has_few_slices;
pub use placement::Placement;
pub use plan::{Plan, match_part};
pub use planes::{Plane, Run, Slice};
