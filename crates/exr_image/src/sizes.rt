//! How many bytes samples take.

/// Bytes of samples, as far as the place of one channel's samples depends on them.
#[derive(Clone, Copy, Debug)]
pub(crate) struct Sizes {
    /// The bytes of one sample of each channel.
    pub all: u64,
    /// The bytes of one sample of each channel before the one.
    pub earlier: u64,
    /// The bytes of one sample of the one.
    pub own: u64,
}
