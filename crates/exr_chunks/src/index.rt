//! The index of a chunk by its place.

ghost use Rattle.std.specs.Prelude.{◌≡◌, ◌≢◌, ◌<◌, ℕ, IfSome};
ghost use Rattle.exr_chunks.specs.declared.place.Place.TheVariants.{Line, Tile};
ghost use Rattle.exr_chunks.specs.Part.{header_of, IsPart};
ghost use Rattle.exr_chunks.specs.Region.{place_of, IsIndexOf};

use crate::part::Part;
use crate::place::Place;
use crate::sides::offset;

impl Part {
    /// The index of the block whose first line is `y`.
    fn index_of_line(&self, y: i32) -> Option<u32>
        requires { IsPart self.now }
        ensures found { IfSome result (λ i. IsIndexOf (header_of self.now) (Line y) i) }
        ensures none { result ≡ None → (i : ℕ) → i < self.now.count → place_of (header_of self.now) i ≢ Line y }
    {
        match self.tiles {
            Some(_) => None,
            None => match offset(self.window.y0, self.window.y1, y) {
                Some(lines) => {
                    if lines % self.rows == 0 {
                        Some(lines / self.rows)
                    } else {
                        None
                    }
                }
                None => None,
            },
        }
    }

    /// The index of the tile of these numbers.
    fn index_of_tile(&self, tx: u32, ty: u32, lx: u32, ly: u32) -> Option<u32>
        requires { IsPart self.now }
        ensures found { IfSome result (λ i. IsIndexOf (header_of self.now) (Tile tx ty lx ly) i) }
        ensures none { result ≡ None → (i : ℕ) → i < self.now.count → place_of (header_of self.now) i ≢ Tile tx ty lx ly }
    {
        match self.tiles {
            Some(_) => {
                if lx != 0 {
                    return None;
                }
                if ly != 0 {
                    return None;
                }
                if tx >= self.across {
                    return None;
                }
                if ty >= self.down {
                    return None;
                }
                Some(ty * self.across + tx)
            }
            None => None,
        }
    }

    /// The index of the chunk at a place.
    pub fn index_of(&self, place: Place) -> Option<u32>
        requires { IsPart self.now }
        ensures found { IfSome result (λ i. IsIndexOf (header_of self.now) place i) }
        ensures none { result ≡ None → (i : ℕ) → i < self.now.count → place_of (header_of self.now) i ≢ place }
    {
        match place {
            Place::Line { y } => self.index_of_line(y),
            Place::Tile { tx, ty, lx, ly } => self.index_of_tile(tx, ty, lx, ly),
        }
    }
}
