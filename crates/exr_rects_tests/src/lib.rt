//! Tests of rectangles of bytes through their public calls: worked rows, sizes at their ends, and threads side by side.
#![tactic(auto)]

mod fills;
#[cfg(test)]
mod rects;
