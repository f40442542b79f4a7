//! The regions of chunks, their raw sizes and their places.

ghost use Rattle.std.specs.Prelude.{◌≡◌, ◌<◌, ◌≤◌, ◌^◌};
ghost use Rattle.exr_base.specs.Shape.{IsRegion};
ghost use Rattle.exr_chunks.specs.Part.{header_of, IsPart};
ghost use Rattle.exr_base.specs.Boxes.{IsInside};
ghost use Rattle.exr_chunks.specs.Region.{region_of, chunk_bytes_of, place_of};

use crate::part::Part;
use crate::place::Place;
use crate::raw::RawSizes;
use crate::sides::{end, height, start, width};
use exr_base::Box2i;

impl Part {
    /// The region of a chunk.
    pub fn region(&self, index: u32) -> Box2i
        requires part { IsPart self.now }
        requires within { index < self.now.count }
        ensures exact { result ≡ region_of (header_of self.now) index }
        ensures region { IsRegion result }
        ensures inside { IsInside (header_of self.now).window result }
    {
        let window = self.window;
        let column = index % self.across;
        let row = index / self.across;
        Box2i {
            x0: start(window.x0, window.x1, self.columns, column),
            y0: start(window.y0, window.y1, self.rows, row),
            x1: end(window.x0, window.x1, self.columns, column),
            y1: end(window.y0, window.y1, self.rows, row),
        }
    }

    /// The raw bytes of a chunk, of a deep one those of its count table.
    pub fn raw_size(&self, index: u32) -> u64
        requires part { IsPart self.now }
        requires within { index < self.now.count }
        ensures exact { result ≡ chunk_bytes_of (header_of self.now) index }
        ensures small { result ≤ 2 ^ 26 }
    {
        match &self.sizes {
            RawSizes::Pixels { bytes } => {
                let region = self.region(index);
                let columns = u64::from(width(region));
                let rows = u64::from(height(region));
                *bytes * (columns * rows)
            }
            RawSizes::Lines { cycle, last } => {
                if index + 1 == self.count {
                    return u64::from(*last);
                }
                u64::from(cycle[index as usize % cycle.len()])
            }
        }
    }

    /// The place of a chunk.
    pub fn place(&self, index: u32) -> Place
        requires part { IsPart self.now }
        requires within { index < self.now.count }
        ensures { result ≡ place_of (header_of self.now) index }
    {
        match self.tiles {
            None => Place::Line {
                y: self.region(index).y0,
            },
            Some(_) => Place::Tile {
                tx: index % self.across,
                ty: index / self.across,
                lx: 0,
                ly: 0,
            },
        }
    }
}
