//! Tests of the content of deep chunks through its public calls: worked values, chunks of another program's files, each
//! fault, and the ends of ranges.
#![tactic(auto)]

#[cfg(test)]
mod deep;
