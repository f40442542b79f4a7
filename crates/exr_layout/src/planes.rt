//! Planes of runs of slices: how a buffer holds the samples of a window (own).
//!
//! A plane is a list of rows that lie one stride apart, a run a list of places in each row that lie one stride apart,
//! and a slice the bytes of one sample at each such place. Planar buffers have a plane for each channel, interleaved
//! ones a single run of slices, and a row of a plane may hold the row of one channel behind that of another.

use exr_base::{Kind, Name};

/// One sample at each place of a run.
#[derive(Drop, Debug)]
pub struct Slice {
    /// The channel whose samples these are.
    pub channel: Name,
    pub kind: Kind,
    /// Bytes from the place on.
    pub at: u64,
    /// What is put where a part has no such channel: its low bytes, as many as the kind has.
    pub fill: u32,
}

/// Places in each row of a plane, one for each column that is a multiple of the sampling.
#[derive(Drop, Debug)]
pub struct Run {
    /// Bytes from the beginning of the row to the first place.
    pub at: u64,
    /// Bytes from one place to the next.
    pub stride: u64,
    pub sampling: u32,
    pub slices: Vec<Slice>,
}

/// Rows of a buffer, one for each line that is a multiple of the sampling.
#[derive(Drop, Debug)]
pub struct Plane {
    /// Bytes from the beginning of the buffer to the first row.
    pub base: u64,
    /// Bytes from one row to the next.
    pub stride: u64,
    pub sampling: u32,
    pub runs: Vec<Run>,
}
