//! What is read, and where it goes.

use exr_layout::{Layout, Plan};

/// A part of a file, and the buffer that its samples go into.
#[derive(Clone, Copy)]
pub struct Target<'a> {
    /// The number of the part, from 0.
    pub part: u32,
    /// Where the samples of the window are in the buffer.
    pub layout: &'a Layout,
    /// `match_part`'s answer for the layout and the part.
    pub plan: &'a Plan,
}
