//! Tests of what the headers of files and the words of a command line are, from the base up, by their public calls.
#![tactic(auto)]

#[cfg(test)]
mod tests;
