//! Tables of cases, a file for each crate, and one for the files of the system.

mod copies;
mod fakes;
mod opening;
mod real;
mod words;

use exr_base::NoMemory;
use exr_outside::MemSource;
use std::alloc::Global;
use std::process::Abort;

/// Ends the test where an answer is not that of its case.
fn expect(rt: &impl Abort, case: usize, is_right: bool) {
    assert!(rt; is_right, "case {case}");
}

/// A source `in` of these bytes, whose calls of `len` and `read_at` of these numbers fail.
fn source_of(
    alloc: Global,
    bytes: &[u8],
    lens: &[u64],
    reads: &[u64],
) -> Result<MemSource, NoMemory> {
    let bytes = bytes.to_vec(alloc)?;
    let lens = lens.to_vec(alloc)?;
    let reads = reads.to_vec(alloc)?;
    MemSource::new(alloc, "in", bytes, lens, reads)
}
