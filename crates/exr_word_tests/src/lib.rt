//! Tests of the words of a command line, of files and their fakes, and of opening a file, by their public calls.
#![tactic(auto)]

#[cfg(test)]
mod tests;
