//! Pieces of rows: pixels of one row of a chunk that are in the window.

ghost use Rattle.std.specs.Prelude.{◌≡◌, ◌≤◌, ◌<◌, ◌+◌, ◌*◌, ◌^◌, ◌≤ℤ◌, length, take, drop};
ghost use Rattle.std.specs.List.{HoldsAt};
ghost use Rattle.exr_base.specs.Boxes.{IsWithin};
ghost use Rattle.exr_image.specs.Pieces.{view_of, IsCounted, AreCounted, IsTally, AreTallies, IsPieceIn, IsPieceAt, place_of};

use crate::chunk::DeepChunk;
use crate::pixel::Pixel;
use crate::sizes::Sizes;
use crate::tally::Tally;
use exr_base::Box2i;
use exr_deep::width_of;

/// Pixels of one row of a chunk, and how many samples of the chunk come before theirs.
#[derive(Clone, Copy, Debug)]
pub(crate) struct Piece {
    /// The number of the chunk.
    pub chunk: usize,
    /// The number of the first pixel, counted row by row in the chunk.
    pub first: usize,
    /// The number of pixels.
    pub pixels: usize,
    /// The number of samples in the chunk's rows above.
    pub above: u64,
    /// The number of samples in the row.
    pub row: u64,
    /// The number of samples in the row to the left of the first pixel.
    pub left: u64,
    /// The number of samples of the pixels.
    pub samples: u64,
}

impl Piece {
    /// The counts of the pixels, among those of the chunk.
    pub(crate) fn counts_in<'a>(&self, counts: &'a [u32]) -> &'a [u32]
        requires room { self.now.first + self.now.pixels ≤ length counts.now }
        requires small { length counts.now ≤ 2 ^ 24 }
        ensures { result.now ≡ take self.now.pixels (drop self.now.first counts.now) }
    {
        &counts[self.first..self.first + self.pixels]
    }

    /// The samples of the pixels in a channel, among all samples of the chunk.
    pub(crate) fn samples_in<'a>(&self, samples: &'a [u8], sizes: Sizes) -> &'a [u8]
        requires room { place_of sizes self.now + self.now.samples * sizes.own ≤ length samples.now }
        requires small { length samples.now ≤ 2 ^ 26 }
        ensures { result.now ≡ take (self.now.samples * sizes.own) (drop (place_of sizes self.now) samples.now) }
    {
        let place = self.above * sizes.all + self.row * sizes.earlier + self.left * sizes.own;
        let size = self.samples * sizes.own;
        &samples[place as usize..(place + size) as usize]
    }
}

/// The piece of a chunk from a pixel on, up to where the row of the chunk or of the window ends.
fn piece_of(
    chunk: &DeepChunk,
    number: usize,
    window: Box2i,
    pixel: Pixel,
    tally: &mut Tally,
) -> Piece
    requires counted { IsCounted (view_of chunk.now) }
    requires within { IsWithin chunk.now.region pixel.x pixel.y }
    requires right { pixel.x ≤ℤ window.x1 }
    requires tally { IsTally chunk.now.content.counts.items tally.old }
    ensures piece { IsPieceIn (view_of chunk.now) window pixel.x pixel.y result }
    ensures chunk { result.chunk ≡ number }
    ensures tally { IsTally chunk.now.content.counts.items tally.new }
{
    let region = chunk.region;
    let width = width_of(region);
    let begin = pixel.row_in(region) * width;
    let first = begin + pixel.column_in(region);
    let pixels = pixel.pixels_in(region, window);
    let counts = chunk.content.counts.as_slice();
    let above = tally.reach(counts, begin);
    let left = tally.pass(counts, first);
    let samples = tally.pass(counts, first + pixels);
    let right = tally.pass(counts, begin + width);
    Piece {
        chunk: number,
        first,
        pixels,
        above,
        row: left + samples + right,
        left,
        samples,
    }
}

/// The piece of chunk `number` from a pixel on.
pub(crate) fn piece_at(
    chunks: &[DeepChunk],
    number: usize,
    window: Box2i,
    pixel: Pixel,
    tallies: &mut [Tally],
) -> Piece
    requires counted { AreCounted chunks.now }
    requires there { number < length chunks.now }
    requires has { HoldsAt (λ chunk. IsWithin chunk.region pixel.x pixel.y) chunks.now number }
    requires right { pixel.x ≤ℤ window.x1 }
    requires tallies { AreTallies chunks.now tallies.old }
    ensures piece { IsPieceAt window chunks.now pixel.x pixel.y result }
    ensures tallies { AreTallies chunks.now tallies.new }
{
    let mut tally = tallies[number];
    let piece = piece_of(&chunks[number], number, window, pixel, &mut tally);
    tallies[number] = tally;
    piece
}
