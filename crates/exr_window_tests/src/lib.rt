//! Tests over the public calls of the crates between a head and a window of samples.
#![tactic(auto)]

#[cfg(test)]
mod tests;
