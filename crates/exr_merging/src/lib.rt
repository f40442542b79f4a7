//! Code lengths by merging the lightest trees: what they promise of every list of weights, and the call that finds them.
#![tactic(auto)]

mod depths;
mod laws;
mod leaves;
mod lengths;
mod merges;
mod root;

pub use laws::merged_lengths_are_complete;
pub use lengths::lengths_by_merging;
