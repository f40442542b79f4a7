//! The rows of a window, cut into pieces.

ghost use Rattle.std.specs.Prelude.{◌≡◌, ◌<◌, length, IfOk, OnOk};
ghost use Rattle.exr_base.specs.Shape.{IsRegion, width_of, height_of};
ghost use Rattle.exr_image.specs.Image.{AreCovering};
ghost use Rattle.exr_image.specs.Pieces.{AreCounted, AreTallies, ArePieces};

use crate::chunk::{DeepChunk, chunk_with};
use crate::piece::{Piece, piece_at};
use crate::pixel::pixel_at;
use crate::tally::{Tally, no_tallies};
use exr_base::{Box2i, NoMemory};
use exr_deep::{height_of, width_of};
use std::alloc::Global;

/// Adds the pieces of a row of the window, from left to right. The search for the chunk of the first one begins at `hint`;
/// the answer is that chunk, where the search for the next row's begins.
fn push_row(
    chunks: &[DeepChunk],
    window: Box2i,
    row: usize,
    hint: usize,
    tallies: &mut [Tally],
    pieces: &mut Vec<Piece>,
) -> Result<usize, NoMemory>
    requires window { IsRegion window }
    requires row { row < height_of window }
    requires counted { AreCounted chunks.now }
    requires covered { AreCovering window chunks.now }
    requires tallies { AreTallies chunks.now tallies.old }
    requires above { ArePieces window chunks.now row 0 pieces.old.items }
    ensures pieces { OnOk result (ArePieces window chunks.now row (width_of window) pieces.new.items) }
    ensures tallies { OnOk result (AreTallies chunks.now tallies.new) }
{
    let width = width_of(window);
    let mut number = hint;
    let mut first = hint;
    let mut column = 0;
    'columns: while column < width {
        let pixel = pixel_at(window, row, column);
        number = chunk_with(chunks, number, pixel);
        if column == 0 {
            first = number;
        }
        let piece = piece_at(chunks, number, window, pixel, tallies);
        pieces.push(piece)?;
        column += piece.pixels;
    }
    Ok(first)
}

/// Adds the pieces of all rows of the window, from the top down.
fn push_rows(
    chunks: &[DeepChunk],
    window: Box2i,
    tallies: &mut [Tally],
    pieces: &mut Vec<Piece>,
) -> Result<(), NoMemory>
    requires window { IsRegion window }
    requires counted { AreCounted chunks.now }
    requires covered { AreCovering window chunks.now }
    requires tallies { AreTallies chunks.now tallies.old }
    requires none { ArePieces window chunks.now 0 0 pieces.old.items }
    ensures { OnOk result (ArePieces window chunks.now (height_of window) 0 pieces.new.items) }
{
    let mut hint = 0;
    for row in 0..height_of(window) {
        hint = push_row(chunks, window, row, hint, tallies, pieces)?;
    }
    Ok(())
}

/// The pieces of the rows of a window, from left to right and from the top down.
pub(crate) fn pieces_of(
    alloc: Global,
    chunks: &[DeepChunk],
    window: Box2i,
) -> Result<Vec<Piece>, NoMemory>
    requires window { IsRegion window }
    requires counted { AreCounted chunks.now }
    requires covered { AreCovering window chunks.now }
    ensures { IfOk result (λ pieces. ArePieces window chunks.now (height_of window) 0 pieces.items) }
{
    let mut tallies = no_tallies(alloc, chunks.len())?;
    let mut pieces = Vec::new(alloc);
    push_rows(chunks, window, tallies.as_mut_slice(), &mut pieces)?;
    Ok(pieces)
}
