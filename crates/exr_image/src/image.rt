//! The image of a window.

ghost use Rattle.std.specs.Prelude.{◌≡◌, ◌≤◌, ◌+◌, ℕ, [], true, length, map, replicate, vec_len, IfOk, OnOk};
ghost use Rattle.std.specs.List.{All};
ghost use Rattle.exr_base.specs.Shape.{IsRegion, height_of};
ghost use Rattle.exr_deep.specs.Body.{content_of};
ghost use Rattle.exr_deep.specs.Deep.{fits};
ghost use Rattle.exr_image.specs.Image.{DeepPixels, AreBelow, AreCovering, AreFrom, HasRows};

use crate::chunk::DeepChunk;
use crate::pieces::pieces_of;
use crate::planes::{push_counts, push_planes};
use exr_base::{Box2i, Channel, NoMemory};
use std::alloc::Global;

/// The pixels of a window of a deep part, or of its first rows (own).
#[derive(Drop, Debug)]
pub struct DeepImage {
    pub window: Box2i,
    /// The number of samples of each pixel, row by row.
    pub counts: Vec<u32>,
    /// The bytes of all samples of each channel: pixel by pixel, row by row, those of a pixel in their order.
    pub channels: Vec<Vec<u8>>,
}

/// So many planes without a byte.
fn no_planes(alloc: Global, count: usize) -> Result<Vec<Vec<u8>>, NoMemory>
    ensures { IfOk result (λ planes. map (λ plane. plane.items) planes.items ≡ replicate count []) }
{
    let mut planes = Vec::with_capacity(alloc, count)?;
    for _ in 0..count {
        planes.push(Vec::new(alloc))?;
    }
    Ok(planes)
}

impl DeepImage {
    /// The image of a window that has none of its rows so far.
    ///
    /// The order of the samples in the image is this project's (own).
    pub fn new(alloc: Global, channels: &[Channel], window: Box2i) -> Result<DeepImage, NoMemory>
        ensures many { IfOk result (λ image. vec_len image.channels ≡ length channels.now) }
        ensures none { IfOk result (λ image. (pixels : DeepPixels) → HasRows pixels channels.now window 0 image) }
    {
        let channels = no_planes(alloc, channels.len())?;
        Ok(DeepImage {
            window,
            counts: Vec::new(alloc),
            channels,
        })
    }

    /// Adds the next rows of the window, a box as wide as it, from chunks whose regions cover them. A region may reach beyond
    /// the rows, and chunks may come in any order, though it is fastest where those of a row of chunks stand from left to
    /// right and the rows from the top down.
    ///
    /// The rows are those of whatever pixels the chunks are from. Where memory ran out the image may have a part of them.
    ///
    /// File Layout, "Deep Data Blocks"; the order of the samples in the image is this project's (own).
    pub fn push_rows(
        &mut self,
        alloc: Global,
        channels: &[Channel],
        rows: Box2i,
        chunks: &[DeepChunk],
    ) -> Result<(), NoMemory>
        requires channels { length channels.now ≤ 1024 }
        requires many { vec_len self.old.channels ≡ length channels.now }
        requires region { IsRegion rows }
        requires regions { All (λ chunk. IsRegion chunk.region) chunks.now }
        requires fits { All (λ chunk. fits channels.now chunk.region (content_of chunk.content) ≡ true) chunks.now }
        requires covered { AreCovering rows chunks.now }
        ensures many { OnOk result (vec_len self.new.channels ≡ length channels.now) }
        ensures rows { OnOk result ((pixels : DeepPixels) (n : ℕ) → All (AreFrom channels.now pixels) chunks.now
            → AreBelow self.old.window n rows → HasRows pixels channels.now self.old.window n self.old
            → HasRows pixels channels.now self.old.window (n + height_of rows) self.new) }
    {
        let pieces = pieces_of(alloc, chunks, rows)?;
        push_counts(chunks, &pieces, &mut self.counts)?;
        push_planes(channels, chunks, &pieces, self.channels.as_mut_slice())
    }
}
