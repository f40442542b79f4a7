//! Tables of cases, a file for each crate, and what they share.

mod asked;
mod block;
mod deep;
mod heads;
mod planar;
mod request;
mod stream;
mod window;

use std::process::Abort;

/// Ends the test where an answer is not that of its case.
fn expect(rt: &impl Abort, case: usize, is_right: bool) {
    assert!(rt; is_right, "case {case}");
}
