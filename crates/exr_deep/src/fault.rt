//! What can be wrong with the content of a deep chunk.

use thiserror::Error;

/// What is wrong with the content of a deep chunk, in the order in which it is looked at (own).
#[derive(Clone, Copy, Debug, PartialEq, Eq, Error)]
pub enum DeepFault {
    /// The sample count table is not raw, and its run lengths do not give an int for each pixel.
    #[error("broken run lengths in the sample count table")]
    TableBroken,
    /// An entry of the table is less than the one before it in its row, or less than 0 at the start of a row; `pixel` is the
    /// first such pixel, counted row by row from 0.
    #[error("the sample counts fall at pixel {pixel}")]
    CountsFall { pixel: u32 },
    /// The size of the unpacked samples that the file says is not the size of as many samples as the table counts.
    #[error("{said} bytes of samples are said, and {computed} are counted")]
    SizeDiffers { said: u64, computed: u64 },
    /// The samples are not raw, and their run lengths do not give their unpacked size.
    #[error("broken run lengths in the samples")]
    DataBroken,
}
