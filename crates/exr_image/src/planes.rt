//! The counts and the samples of pieces, copied one piece after another.

ghost use Rattle.std.specs.Prelude.{◌≡◌, ◌≤◌, ◌<◌, ◌++◌, ℕ, length, map, OnOk};
ghost use Rattle.std.specs.List.{All, flat_map};
ghost use Rattle.exr_image.specs.Pixel.{sizes_of};
ghost use Rattle.exr_image.specs.Pieces.{counts_of, samples_of, HasCounts, HasSamples, ArePushed};

use crate::chunk::DeepChunk;
use crate::piece::Piece;
use crate::sizes::Sizes;
use exr_base::{Channel, NoMemory};
use exr_deep::sample_bytes;

/// Adds the counts of pieces.
pub(crate) fn push_counts(
    chunks: &[DeepChunk],
    pieces: &[Piece],
    counts: &mut Vec<u32>,
) -> Result<(), NoMemory>
    requires { All (HasCounts chunks.now) pieces.now }
    ensures { OnOk result (counts.new.items ≡ counts.old.items ++ flat_map (counts_of chunks.now) pieces.now) }
{
    for piece in pieces {
        let chunk = &chunks[piece.chunk];
        counts.extend_from_slice(piece.counts_in(chunk.content.counts.as_slice()))?;
    }
    Ok(())
}

/// Adds the samples of a channel in pieces.
fn push_plane(
    chunks: &[DeepChunk],
    pieces: &[Piece],
    sizes: Sizes,
    plane: &mut Vec<u8>,
) -> Result<(), NoMemory>
    requires { All (HasSamples chunks.now sizes) pieces.now }
    ensures { OnOk result (plane.new.items ≡ plane.old.items ++ flat_map (samples_of chunks.now sizes) pieces.now) }
{
    for piece in pieces {
        let chunk = &chunks[piece.chunk];
        plane.extend_from_slice(piece.samples_in(chunk.content.samples.as_slice(), sizes))?;
    }
    Ok(())
}

/// Adds the samples of each channel in pieces.
pub(crate) fn push_planes(
    channels: &[Channel],
    chunks: &[DeepChunk],
    pieces: &[Piece],
    planes: &mut [Vec<u8>],
) -> Result<(), NoMemory>
    requires channels { length channels.now ≤ 1024 }
    requires many { length planes.old ≡ length channels.now }
    requires pieces { (c : ℕ) → c < length channels.now → All (HasSamples chunks.now (sizes_of channels.now c)) pieces.now }
    ensures { OnOk result (ArePushed channels.now chunks.now pieces.now (map (λ plane. plane.items) planes.old)
        (map (λ plane. plane.items) planes.new) (length channels.now)) }
{
    let all = sample_bytes(channels);
    let mut earlier = 0;
    for number in 0..channels.len() {
        let own = channels[number].kind.bytes() as u64;
        let sizes = Sizes { all, earlier, own };
        push_plane(chunks, pieces, sizes, &mut planes[number])?;
        earlier += own;
    }
    Ok(())
}
