//! What a chunk holds, packed and raw.

use exr_deep::{DeepBlock, DeepPacked};

/// The data of a chunk as it stands in the file: packed by the method of its part, or raw.
///
/// File Layout, "Chunk Layout".
#[derive(Drop, Debug)]
pub enum Body {
    /// The pixel data of a block of scan lines or of a tile.
    Flat(Vec<u8>),
    /// The sample count table and the samples of a block or of a tile of a deep part.
    Deep(DeepPacked),
}

/// The raw content of a chunk.
///
/// File Layout, "Chunk Layout".
#[derive(Drop, Debug)]
pub enum Block {
    /// Of each line of the region, from the top, and on it of each channel that has samples there, in the order of the
    /// channel list, its samples from left to right.
    Flat(Vec<u8>),
    /// Of a deep part: the number of samples of each pixel of the region, and the samples.
    Deep(DeepBlock),
}
