//! Tables of cases, a file for each codec.

mod huffman;
mod merging;
mod packing;
mod piz;
mod rle;
mod wavelet;

use std::process::Abort;

/// Ends the test where an answer is not that of its case.
fn expect(rt: &impl Abort, case: usize, is_right: bool) {
    assert!(rt; is_right, "case {case}");
}
