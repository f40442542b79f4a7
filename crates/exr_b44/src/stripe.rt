//! Where the samples of a channel stand among others.

/// The part of each of some lines that is a channel's: it begins at byte `first` of the `line` bytes that each has.
#[derive(Clone, Copy)]
pub(crate) struct Stripe {
    pub(crate) line: usize,
    pub(crate) first: usize,
}
