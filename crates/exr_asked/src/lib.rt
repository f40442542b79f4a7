//! What samples of a part are asked for: the choices that a command line gives, and what they come to.
#![tactic(auto)]

mod asked;
mod choices;

pub use asked::Asked;
pub use choices::{Arrangement, Choices, Wanted};
