//! The words of the command line: what they ask for, or the first that is invalid.
#![tactic(auto)]

mod channels;
mod choices;
mod fields;
mod layout;
mod names;
mod number;
mod order;
mod window;
mod words;

pub use exr_asked::{Arrangement, Choices, Wanted};
pub use order::{Inputs, Order, WordFault};
pub use words::read_words;
