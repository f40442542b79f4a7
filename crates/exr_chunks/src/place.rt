//! The places of chunks.

/// The place of a chunk in its part, as a chunk's own fields name it.
///
/// File Layout, "Chunk Layout".
#[derive(Clone, Copy, Debug, PartialEq, Eq)]
pub enum Place {
    /// The first line of a block of scan lines.
    Line { y: i32 },
    /// The column and the row of a tile among the tiles of its level, and the numbers of the level.
    Tile { tx: u32, ty: u32, lx: u32, ly: u32 },
}
