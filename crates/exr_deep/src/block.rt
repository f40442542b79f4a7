//! What a deep chunk holds, packed and raw.

/// The raw content of a deep chunk: the samples of a region of pixels, any number in each pixel.
///
/// File Layout, "Deep Data Blocks".
#[derive(Drop, Debug)]
pub struct DeepBlock {
    /// The number of samples of each pixel, row by row.
    pub counts: Vec<u32>,
    /// The bytes of the samples: row by row, in each row channel by channel in the order of the channel list, and of each
    /// channel the samples of the row's pixels from left to right, those of a pixel in their order.
    pub samples: Vec<u8>,
}

/// The data of a deep chunk as it is stored in a file: packed, or raw where packing does not make it smaller, the table
/// and the samples each by itself.
///
/// File Layout, "Deep Data Blocks".
#[derive(Drop, Debug)]
pub struct DeepPacked {
    /// The sample count table: an int for each pixel, row by row, the samples of the pixel and of those to its left.
    pub table: Vec<u8>,
    /// The samples.
    pub samples: Vec<u8>,
    /// The number of bytes that the samples have when they are unpacked, as the file says it.
    pub unpacked: u64,
}
