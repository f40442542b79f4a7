//! Requests for the samples of a part: the layout of the buffer that is to hold them, matched with the part, or of a deep part
//! the window, or the first reason why they cannot be had.
#![tactic(auto)]

mod answer;
mod arranged;
mod chosen;
mod fault;
mod law;
mod sizes;

pub use answer::{Fitted, Granted, request};
pub use exr_asked::{Arrangement, Asked, Choices, Wanted};
pub use fault::RequestFault;
pub use law::{each_arrangement_has_one_meaning, each_request_has_one_answer};
