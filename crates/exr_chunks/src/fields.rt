//! The fields that a chunk begins with: which chunk of the file it is.

ghost use Rattle.std.specs.Prelude.{◌≡◌, ◌≤◌, IfOk, length};
ghost use Rattle.exr_chunks.specs.Fields.{place_fields, chunk_fields};

use crate::place::Place;
use exr_base::NoMemory;
use std::alloc::Global;

/// The fields of a chunk before the size of its data, as a file has them: its place, after the number of its part where
/// the file is multi-part. They have at most 20 bytes.
///
/// File Layout, "Chunk Layout".
pub fn chunk_fields(
    alloc: Global,
    multi: bool,
    part: u32,
    place: Place,
) -> Result<Vec<u8>, NoMemory>
    ensures exact { IfOk result (λ fields. fields.items ≡ chunk_fields multi part place) }
    ensures short { IfOk result (λ fields. length fields.items ≤ 20) }
{
    let mut fields = Vec::with_capacity(alloc, 20)?;
    if multi {
        fields.extend_from_slice(&part.to_le_bytes())?;
    }
    match place {
        Place::Line { y } => fields.extend_from_slice(&y.to_le_bytes())?,
        Place::Tile { tx, ty, lx, ly } => {
            fields.extend_from_slice(&tx.to_le_bytes())?;
            fields.extend_from_slice(&ty.to_le_bytes())?;
            fields.extend_from_slice(&lx.to_le_bytes())?;
            fields.extend_from_slice(&ly.to_le_bytes())?;
        }
    }
    Ok(fields)
}
