//! Tests of the image of a window of a deep part.
#![tactic(auto)]

#[cfg(test)]
mod image;
