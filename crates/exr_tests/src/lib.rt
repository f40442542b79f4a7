//! Tests of the top call over files in memory: what is written of a file, what is printed of its head, and each reason to
//! stop.
#![tactic(auto)]

#[cfg(test)]
mod tests;
