//! Tests of the codecs through their public calls: worked values, faults, and the ends of ranges.
#![tactic(auto)]

#[cfg(test)]
mod tests;
