//! The commands of `exr` over any files, any printer and any gate.
#![tactic(auto)]

mod check;
mod extract;
mod header;
mod print;
mod stop;
mod top;

pub use exr_layout::{LayoutFault, MatchFault};
pub use exr_request::RequestFault;
pub use stop::{FileFault, Stop, stop_line};
pub use top::run;
