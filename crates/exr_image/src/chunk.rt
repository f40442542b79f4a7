//! Chunks with their regions, and which of them has a pixel.

ghost use Rattle.std.specs.Prelude.{◌≡◌, ◌<◌, false, IsTrue, length, MatchOption};
ghost use Rattle.std.specs.List.{AllWithin, HoldsAt};
ghost use Rattle.exr_base.specs.Boxes.{IsWithin};
ghost use Rattle.exr_image.specs.Image.{HasPixel};
ghost use Rattle.exr_image.specs.Pieces.{has_pixel};

use crate::pixel::Pixel;
use exr_base::Box2i;
use exr_deep::DeepBlock;

/// A deep chunk: the region of its pixels, and its content.
///
/// File Layout, "Deep Data Blocks".
#[derive(Drop, Debug)]
pub struct DeepChunk {
    pub region: Box2i,
    pub content: DeepBlock,
}

/// The first chunk from number `from` on that has the pixel.
fn first_with(chunks: &[DeepChunk], from: usize, pixel: Pixel) -> Option<usize>
    ensures none { MatchOption result (AllWithin (λ chunk. has_pixel chunk.region pixel ≡ false) chunks.now from (length chunks.now))
        (λ number. number < length chunks.now) }
    ensures found { MatchOption result (AllWithin (λ chunk. has_pixel chunk.region pixel ≡ false) chunks.now from (length chunks.now))
        (λ number. HoldsAt (λ chunk. IsTrue (has_pixel chunk.region pixel)) chunks.now number) }
{
    for number in from..chunks.len() {
        if pixel.is_in(chunks[number].region) {
            return Some(number);
        }
    }
    None
}

/// The number of a chunk that has the pixel. The search begins at `hint`, which may be any number.
pub(crate) fn chunk_with(chunks: &[DeepChunk], hint: usize, pixel: Pixel) -> usize
    requires { HasPixel chunks.now pixel.x pixel.y }
    ensures there { result < length chunks.now }
    ensures has { HoldsAt (λ chunk. IsWithin chunk.region pixel.x pixel.y) chunks.now result }
{
    match first_with(chunks, hint, pixel) {
        Some(number) => number,
        None => first_with(chunks, 0, pixel).unwrap(),
    }
}
