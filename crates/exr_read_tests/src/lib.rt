//! Tests over the public calls between the chunks of a file and a buffer of samples.
#![tactic(auto)]

#[cfg(test)]
mod tests;
