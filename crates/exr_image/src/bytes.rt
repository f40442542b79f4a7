//! An image as the bytes of a file.

ghost use Rattle.std.specs.Prelude.{◌≡◌, map, IfOk};
ghost use Rattle.std.specs.Int.{w32, to_le_bytes};
ghost use Rattle.std.specs.List.{flat_map};
ghost use Rattle.exr_image.specs.Bytes.{bytes_in};

use crate::image::DeepImage;
use exr_base::NoMemory;
use std::alloc::Global;

/// The bytes of counts, four each, the low one first.
fn count_bytes(alloc: Global, counts: &[u32]) -> Result<Vec<u8>, NoMemory>
    ensures { IfOk result (λ bytes. bytes.items ≡ flat_map (to_le_bytes w32) counts.now) }
{
    let mut bytes = Vec::with_capacity(alloc, counts.len().saturating_mul(4))?;
    for count in counts {
        bytes.extend_from_slice(&count.to_le_bytes())?;
    }
    Ok(bytes)
}

impl DeepImage {
    /// The bytes of the image in a file, in pieces: the counts, four bytes each, the low one first, then the samples of each
    /// channel. No sample is copied (own).
    pub fn into_pieces(self, alloc: Global) -> Result<Vec<Vec<u8>>, NoMemory>
        ensures { IfOk result (λ pieces. flat_map (λ piece. piece.items) pieces.items
            ≡ bytes_in self.counts.items (map (λ plane. plane.items) self.channels.items)) }
    {
        let counts = count_bytes(alloc, &self.counts)?;
        let mut pieces = self.channels;
        pieces.insert(0, counts)?;
        Ok(pieces)
    }
}
