//! Boxes of pixels, and the number of bytes of the samples in one.

ghost use Rattle.std.specs.Prelude.{◌≡◌, ◌≤◌, ◌^◌};
ghost use Rattle.exr_base.specs.Boxes.{is_empty, is_side_inside, is_inside};
ghost use Rattle.exr_base.specs.Shape.{IsShape, IsRegion, IsSampled, raw_size_of, channel_bytes_of};

use crate::channel::Channel;
use crate::sampling::sample_count;

/// A box of pixels, bounds included: columns x0 to x1 and lines y0 to y1, y growing downward.
///
/// File Layout, "Predefined Attribute Types": box2i.
#[derive(Clone, Copy, Debug, PartialEq, Eq)]
pub struct Box2i {
    pub x0: i32,
    pub y0: i32,
    pub x1: i32,
    pub y1: i32,
}

impl Box2i {
    /// Whether it has no pixel: it ends before it begins, in x or in y (own).
    pub fn is_empty(self) -> bool
        ensures { result ≡ is_empty self }
    {
        self.x1 < self.x0 || self.y1 < self.y0
    }

    /// Whether its first and last columns and lines lie among those of another box (own).
    pub fn is_inside(self, other: Box2i) -> bool
        ensures { result ≡ is_inside self other }
    {
        is_side_inside(self.x0, self.x1, other.x0, other.x1)
            && is_side_inside(self.y0, self.y1, other.y0, other.y1)
    }
}

/// Whether a side, from its first place to its last, lies within another.
pub fn is_side_inside(from: i32, to: i32, low: i32, high: i32) -> bool
    ensures { result ≡ is_side_inside from to low high }
{
    low <= from && to <= high
}

/// The channels of a part over a region of its pixels.
#[derive(Clone, Copy, Debug)]
pub struct Shape<'a> {
    pub channels: &'a [Channel],
    pub region: Box2i,
}

impl<'a> Shape<'a> {
    /// The number of raw bytes of the region: of each channel a sample of 2 or 4 bytes for each pixel whose x and
    /// y are multiples of the channel's samplings.
    ///
    /// File Layout, "Regular scan line image block layout" and "Predefined Attribute Types" (chlist).
    pub fn raw_size(&self) -> u64
        requires { IsShape self.now.channels.now self.now.region }
        ensures { result ≡ raw_size_of self.now.channels.now self.now.region }
    {
        let region = self.region;
        let mut size = 0;
        for channel in self.channels {
            size += channel_size(channel, region);
        }
        size
    }
}

/// The raw bytes of one channel in a region.
fn channel_size(channel: &Channel, region: Box2i) -> u64
    requires region { IsRegion region }
    requires sampled { IsSampled channel.now }
    ensures exact { result ≡ channel_bytes_of region channel.now }
    ensures small { result ≤ 2 ^ 42 }
{
    let columns = sample_count(channel.xs, region.x0, region.x1);
    let rows = sample_count(channel.ys, region.y0, region.y1);
    u64::from(columns) * u64::from(rows) * channel.kind.bytes() as u64
}
