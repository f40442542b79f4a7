//! Which sizes the data of a chunk may have.

ghost use Rattle.std.specs.Prelude.{◌≡◌, ◌*◌, length};
ghost use Rattle.exr_base.specs.Shape.{IsShape, IsRegion};
ghost use Rattle.exr_deep.specs.Body.{body_of as deep_body_of};
ghost use Rattle.exr_deep.specs.Deep.{pixels_of};
ghost use Rattle.exr_block.specs.Body.{data_of};
ghost use Rattle.exr_block.specs.Sizes.{is_size, raw_bytes_of, sizes_of, are_sizes, sizes_fit};

use crate::body::Body;
use exr_base::{Box2i, Method, Shape, span};
use exr_deep::DeepPacked;

/// The most bytes that the samples of a deep chunk have unpacked (own).
const LARGEST: u64 = 1 << 26;

/// The sizes in bytes of the data of a deep chunk.
///
/// File Layout, "Deep Data Blocks".
#[derive(Clone, Copy, Debug, PartialEq, Eq)]
pub struct DeepSizes {
    /// The sample count table as it is stored.
    pub table: u64,
    /// The samples as they are stored.
    pub samples: u64,
    /// The samples unpacked.
    pub unpacked: u64,
}

/// Whether data of a size can be that of a chunk with so many raw bytes: never more, and without compression exactly as
/// many.
///
/// File Layout, "Chunk Layout"; Technical Introduction, "Data Compression".
pub fn is_size(method: Method, raw: u64, size: u64) -> bool
    ensures { result ≡ is_size method raw size }
{
    match method {
        Method::No => size == raw,
        _ => size <= raw,
    }
}

/// Whether the data of a deep chunk, whose raw sample count table has `raw` bytes, can have these sizes: the table and the
/// samples each as `is_size` says, and at most 2^26 bytes of samples unpacked (own).
///
/// File Layout, "Deep Data Blocks".
pub fn are_sizes(method: Method, raw: u64, sizes: DeepSizes) -> bool
    ensures { result ≡ are_sizes method raw sizes }
{
    is_size(method, raw, sizes.table)
        && is_size(method, sizes.unpacked, sizes.samples)
        && sizes.unpacked <= LARGEST
}

/// The raw bytes of the sample count table of a region: four for each pixel.
pub(crate) fn table_size(region: Box2i) -> u64
    requires { IsRegion region }
    ensures { result ≡ 4 * pixels_of region }
{
    let rows = span(region.y0, region.y1);
    let columns = span(region.x0, region.x1);
    4 * (u64::from(rows) * u64::from(columns))
}

/// The raw bytes of a chunk for the channels and the region of a shape; of a deep chunk those of its sample count table.
pub fn raw_bytes(shape: &Shape<'_>, deep: bool) -> u64
    requires { IsShape shape.now.channels.now shape.now.region }
    ensures { result ≡ raw_bytes_of deep shape.now.channels.now shape.now.region }
{
    if deep {
        table_size(shape.region)
    } else {
        shape.raw_size()
    }
}

/// The sizes of the data of a deep chunk.
pub(crate) fn sizes_of(packed: &DeepPacked) -> DeepSizes
    ensures { result ≡ sizes_of (deep_body_of packed.now) }
{
    DeepSizes {
        table: packed.table.len() as u64,
        samples: packed.samples.len() as u64,
        unpacked: packed.unpacked,
    }
}

/// Whether the data of a chunk has sizes that it may have under a method, for the channels and the region of a shape.
pub fn sizes_fit(method: Method, shape: &Shape<'_>, body: &Body) -> bool
    requires { IsShape shape.now.channels.now shape.now.region }
    ensures { result ≡ sizes_fit method shape.now.channels.now shape.now.region (data_of body.now) }
{
    match body {
        Body::Flat(bytes) => is_size(method, shape.raw_size(), bytes.len() as u64),
        Body::Deep(packed) => are_sizes(method, table_size(shape.region), sizes_of(packed)),
    }
}
