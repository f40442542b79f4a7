//! What a desk is given: the front of a file, and its chunks.

/// A whole chunk as a file has it: the fields that say its place and its sizes, and its packed data.
#[derive(Debug, Drop)]
pub struct Packed {
    pub bytes: Vec<u8>,
}

/// The beginning of a file up to its first chunk: the headers and the tables of offsets, whose entries are still 0.
///
/// A turn is the position of a chunk in the write order of the file, from 0. `entries[turn]` is where in `bytes` the
/// eight bytes of that chunk's offset table entry are. `free` says that the file may have its chunks in any order; else
/// they are written by rising turn.
///
/// File Layout, "Component Four: Offset Tables" and "lineOrder".
#[derive(Debug, Drop)]
pub struct Front {
    pub bytes: Vec<u8>,
    pub entries: Vec<u64>,
    pub free: bool,
}
