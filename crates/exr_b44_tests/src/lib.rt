//! Tests of B44 and B44A through their public calls: worked cells, shapes that cut cells, kinds that stand as they are, data
//! that ends too early or too late, and every one-byte change.
#![tactic(auto)]

#[cfg(test)]
mod tests;
