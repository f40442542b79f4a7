//! What follows the head of a file: the tables of offsets, and the chunks.

use exr_base::NoMemory;
use std::alloc::Global;

/// Starts a chunk: the number of its part, in a file of many.
fn front(alloc: Global, part: Option<u32>) -> Result<Vec<u8>, NoMemory> {
    let mut to = Vec::new(alloc);
    if let Some(part) = part {
        to.extend_from_slice(&part.to_le_bytes())?;
    }
    Ok(to)
}

/// Appends the size of a chunk's data, and the data.
fn put_data(to: &mut Vec<u8>, packed: &[u8]) -> Result<(), NoMemory> {
    to.extend_from_slice(&packed.len().to_le_bytes()[..4])?;
    to.extend_from_slice(packed)?;
    Ok(())
}

/// A chunk of scan lines: the number of its part in a file of many parts, the first of its lines, and its data.
///
/// File Layout, "Scan Line Blocks".
pub fn line_chunk(
    alloc: Global,
    part: Option<u32>,
    line: i32,
    packed: &[u8],
) -> Result<Vec<u8>, NoMemory> {
    let mut to = front(alloc, part)?;
    to.extend_from_slice(&line.to_le_bytes())?;
    put_data(&mut to, packed)?;
    Ok(to)
}

/// A chunk of one tile of the first level: the number of its part in a file of many parts, the numbers of its column and
/// its row of tiles, and its data.
///
/// File Layout, "Tiles".
pub fn tile_chunk(
    alloc: Global,
    part: Option<u32>,
    (column, row): (u32, u32),
    packed: &[u8],
) -> Result<Vec<u8>, NoMemory> {
    let mut to = front(alloc, part)?;
    to.extend_from_slice(&column.to_le_bytes())?;
    to.extend_from_slice(&row.to_le_bytes())?;
    to.extend_from_slice(&[0; 8])?;
    put_data(&mut to, packed)?;
    Ok(to)
}

/// Appends the offsets of chunks, which follow one another from right after these offsets on.
///
/// File Layout, "Component Four: Offset Tables".
pub fn put_offsets(to: &mut Vec<u8>, chunks: &[Vec<u8>]) -> Result<(), NoMemory> {
    let table = (chunks.len() as u64).saturating_mul(8);
    let mut offset = (to.len() as u64).saturating_add(table);
    for chunk in chunks {
        to.extend_from_slice(&offset.to_le_bytes())?;
        offset = offset.saturating_add(chunk.len() as u64);
    }
    Ok(())
}

/// A file: its head, the offsets of its chunks, and the chunks, in one order.
pub fn file_of(alloc: Global, head: &[u8], chunks: &[Vec<u8>]) -> Result<Vec<u8>, NoMemory> {
    let mut to = head.to_vec(alloc)?;
    put_offsets(&mut to, chunks)?;
    for chunk in chunks {
        to.extend_from_slice(chunk)?;
    }
    Ok(to)
}
