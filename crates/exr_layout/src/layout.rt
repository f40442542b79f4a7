//! A layout: planes that hold the samples of a window in a buffer, validated.

ghost use Rattle.std.specs.Prelude.{◌≡◌};
ghost use Rattle.exr_layout.specs.Validation.{frame_from, layout_of, IsFrame};

use crate::fault::LayoutFault;
use crate::planes::Plane;
use crate::validation::planes_fit;
use exr_base::Box2i;
use std::marker::Model;

/// Planes that hold the samples of a window in a buffer. No two bytes of samples share a place, and every place lies in
/// the buffer.
#[derive(Drop, Debug)]
pub struct Layout {
    planes: Vec<Plane>,
    window: Box2i,
    buffer: u64,
}

impl Model for Layout {
    ghost use Rattle.exr_layout.specs.Validation.{Frame, frame_from, IsFrame, IsValid};

    ghost Value = { Frame };

    ghost view = { λ l. frame_from l.planes.items l.window l.buffer };

    ghost invariant = { λ l. IsFrame (frame_from l.planes.items l.window l.buffer)
        × IsValid (frame_from l.planes.items l.window l.buffer) };
}

impl Layout {
    ghost use Rattle.std.specs.Prelude.{◌≡◌};
    ghost use Rattle.exr_layout.specs.Validation.{frame_from, layout_of, IsFrame, IsValid};

    /// Validates planes for a window and a buffer of `buffer` bytes: the layout, or the first fault (own).
    pub fn new(planes: Vec<Plane>, window: Box2i, buffer: u64) -> Result<Layout, LayoutFault>
        requires { IsFrame (frame_from planes.items window buffer) }
        ensures { result ≡ layout_of (frame_from planes.items window buffer) }
    {
        planes_fit(planes.as_slice(), window, buffer)?;
        Ok(Layout {
            planes,
            window,
            buffer,
        })
    }

    /// The planes.
    pub fn planes(&self) -> &[Plane]
        ensures value { result.now ≡ self.now.planes }
        ensures frame { IsFrame self.now }
        ensures valid { IsValid self.now }
    {
        self.planes.as_slice()
    }

    /// The pixels whose samples the buffer holds.
    pub fn window(&self) -> Box2i
        ensures value { result ≡ self.now.window }
        ensures frame { IsFrame self.now }
        ensures valid { IsValid self.now }
    {
        self.window
    }

    /// Number of bytes of the buffer.
    pub fn buffer(&self) -> u64
        ensures { result ≡ self.now.buffer }
    {
        self.buffer
    }
}
