//! The data that a writer stores for raw content, by the method of its part.

ghost use Rattle.std.specs.Prelude.{◌≡◌, ◌≤◌, ◌<◌, ◌*◌, ◌^◌, IsTrue, false, true, IfOk, All, length, Ok};
ghost use Rattle.exr_base.specs.declared.method.Method.TheVariants as method;
ghost use Rattle.exr_base.specs.Shape.{IsShape, raw_size_of};
ghost use Rattle.exr_b44.specs.Block.{IsPlain};
ghost use Rattle.exr_deep.specs.Body.{body_of as deep_body_of, content_of as deep_content_of};
ghost use Rattle.exr_deep.specs.Deep.{pixels_of, deep_pack_of, fits as deep_fits};
ghost use Rattle.exr_block.specs.Body.{data_of, content_of, is_deep_content};
ghost use Rattle.exr_block.specs.Content.{fits, can_pack, are_plain, b44_method, unpacked_of, smaller_of, pack_of_flat, pack_of, kept_of_flat, kept_of, lossy_of, raw_of_flat, raw_of_deep, raw_of_body};
ghost use Rattle.exr_block.specs.Sizes.{is_size, raw_bytes_of, sizes_of, are_sizes, sizes_fit};

use crate::body::{Block, Body};
use crate::plain::are_plain;
use exr_base::{Method, NoMemory, Shape};
use exr_deep::{DeepBlock, DeepPacked};
use std::alloc::Global;

/// Whether raw content has the sizes that the channels of a shape have in its region; deep content has a count for each
/// pixel and the samples of these counts, less than 2^31 in each row, and at most 2^26 bytes of table and of samples (own).
pub fn fits(shape: &Shape<'_>, block: &Block) -> bool
    requires { IsShape shape.now.channels.now shape.now.region }
    ensures { result ≡ fits shape.now.channels.now shape.now.region (content_of block.now) }
{
    match block {
        Block::Flat(raw) => raw.len() as u64 == shape.raw_size(),
        Block::Deep(content) => exr_deep::fits(shape, content),
    }
}

/// Whether raw content of these channels can be stored under a method, in a deep part or in one that is not.
pub fn can_pack(method: Method, shape: &Shape<'_>, deep: bool) -> bool
    ensures { result ≡ can_pack method shape.now.channels.now deep }
{
    match method {
        Method::No | Method::Rle => true,
        Method::Piz => !deep,
        Method::B44 | Method::B44a => !deep && are_plain(shape.channels),
        _ => false,
    }
}

/// The data that a writer stores for raw content: packed by the method, or raw where packing does not make it smaller. The
/// table and the samples of a deep chunk are packed each by itself.
///
/// File Layout, "Chunk Layout" and "Deep Data Blocks"; Technical Introduction, "Data Compression".
#[tactic(auto, unfolding(crate::specs::Content::pack_of, crate::specs::Content::raw_of_body))]
pub fn pack_block(
    alloc: Global,
    method: Method,
    shape: &Shape<'_>,
    block: &Block,
) -> Result<Body, NoMemory>
    requires shape { IsShape shape.now.channels.now shape.now.region }
    requires fits { IsTrue (fits shape.now.channels.now shape.now.region (content_of block.now)) }
    requires method { IsTrue (can_pack method shape.now.channels.now (is_deep_content (content_of block.now))) }
    requires small { raw_bytes_of (is_deep_content (content_of block.now)) shape.now.channels.now shape.now.region ≤ 2 ^ 26 }
    ensures exact { IfOk result (λ body. data_of body ≡ pack_of method shape.now.channels.now shape.now.region (content_of block.now)) }
    ensures fits { IfOk result (λ body. IsTrue (sizes_fit method shape.now.channels.now shape.now.region (data_of body))) }
    // Unpacking it gives what is kept of the raw content.
    ensures kept { IfOk result (λ body. raw_of_body method shape.now.channels.now shape.now.region (data_of body)
        ≡ Ok (kept_of method shape.now.channels.now shape.now.region (data_of body) (content_of block.now))) }
{
    match block {
        Block::Flat(raw) => Ok(Body::Flat(pack_flat(alloc, method, shape, raw)?)),
        Block::Deep(content) => Ok(Body::Deep(pack_deep(alloc, method, shape, content)?)),
    }
}

/// The data that is stored for the raw data of a chunk that is not deep.
fn pack_flat(
    alloc: Global,
    method: Method,
    shape: &Shape<'_>,
    raw: &[u8],
) -> Result<Vec<u8>, NoMemory>
    requires raw { length raw.now ≡ raw_size_of shape.now.channels.now shape.now.region }
    requires shape { IsShape shape.now.channels.now shape.now.region }
    requires small { raw_size_of shape.now.channels.now shape.now.region ≤ 2 ^ 26 }
    requires method { IsTrue (can_pack method shape.now.channels.now false) }
    ensures exact { IfOk result (λ stored. stored.items ≡ pack_of_flat method shape.now.channels.now shape.now.region raw.now) }
    ensures fits { IfOk result (λ stored. IsTrue (is_size method (raw_size_of shape.now.channels.now shape.now.region)
        (length stored.items))) }
    ensures kept { IfOk result (λ stored. raw_of_flat method shape.now.channels.now shape.now.region stored.items
        ≡ Ok (kept_of_flat method shape.now.channels.now shape.now.region stored.items raw.now)) }
{
    pack_data(alloc, method, shape, raw)
}

/// The data that is stored for the content of a deep chunk.
fn pack_deep(
    alloc: Global,
    method: Method,
    shape: &Shape<'_>,
    block: &DeepBlock,
) -> Result<DeepPacked, NoMemory>
    requires shape { IsShape shape.now.channels.now shape.now.region }
    requires fits { deep_fits shape.now.channels.now shape.now.region (deep_content_of block.now) ≡ true }
    requires method { IsTrue (can_pack method shape.now.channels.now true) }
    ensures exact { IfOk result (λ packed. deep_body_of packed
        ≡ deep_pack_of method shape.now.region (deep_content_of block.now)) }
    ensures fits { IfOk result (λ packed. IsTrue (are_sizes method (4 * pixels_of shape.now.region)
        (sizes_of (deep_body_of packed)))) }
    ensures kept { IfOk result (λ packed. raw_of_deep method shape.now.channels.now shape.now.region (deep_body_of packed)
        ≡ Ok (deep_content_of block.now)) }
{
    exr_deep::pack_deep(alloc, method, shape, block)
}

/// The data that is stored for raw data of the shape's size.
#[tactic(auto, unfolding(crate::specs::Content::pack_of_flat, crate::specs::Content::packed_of, crate::specs::Content::lossy_of))]
fn pack_data(
    alloc: Global,
    method: Method,
    shape: &Shape<'_>,
    raw: &[u8],
) -> Result<Vec<u8>, NoMemory>
    requires raw { length raw.now ≡ raw_size_of shape.now.channels.now shape.now.region }
    requires shape { IsShape shape.now.channels.now shape.now.region }
    requires small { raw_size_of shape.now.channels.now shape.now.region ≤ 2 ^ 26 }
    requires method { IsTrue (can_pack method shape.now.channels.now false) }
    ensures exact { IfOk result (λ stored. stored.items ≡ pack_of_flat method shape.now.channels.now shape.now.region raw.now) }
    ensures restores { IfOk result (λ stored. length stored.items < length raw.now
        → unpacked_of method shape.now.channels.now shape.now.region stored.items
        ≡ Ok (lossy_of method shape.now.channels.now shape.now.region raw.now)) }
{
    match method {
        Method::Rle => pack_rle(alloc, shape, raw),
        Method::Piz => pack_piz(alloc, shape, raw),
        Method::B44 => pack_b44(alloc, shape, raw, false),
        Method::B44a => pack_b44(alloc, shape, raw, true),
        _ => Ok(Vec::from_slice(alloc, raw)?),
    }
}

/// Packed data where it is smaller, else the raw data.
fn smaller(alloc: Global, packed: Vec<u8>, raw: &[u8]) -> Result<Vec<u8>, NoMemory>
    ensures exact { IfOk result (λ stored. stored.items ≡ smaller_of packed.items raw.now) }
    ensures packed { IfOk result (λ stored. length stored.items < length raw.now → stored.items ≡ packed.items) }
{
    if packed.len() < raw.len() {
        Ok(packed)
    } else {
        Ok(Vec::from_slice(alloc, raw)?)
    }
}

/// The runs and literals of raw data, or the raw data where they are not smaller.
#[tactic(auto, unfolding(crate::specs::Content::pack_of_flat, crate::specs::Content::packed_of, crate::specs::Content::unpacked_of))]
fn pack_rle(alloc: Global, shape: &Shape<'_>, raw: &[u8]) -> Result<Vec<u8>, NoMemory>
    requires { length raw.now ≡ raw_size_of shape.now.channels.now shape.now.region }
    ensures exact { IfOk result (λ stored. stored.items ≡ pack_of_flat method.Rle shape.now.channels.now shape.now.region raw.now) }
    ensures restores { IfOk result (λ stored. length stored.items < length raw.now
        → unpacked_of method.Rle shape.now.channels.now shape.now.region stored.items ≡ Ok raw.now) }
{
    let packed = exr_rle::pack(alloc, raw)?;
    smaller(alloc, packed, raw)
}

/// The value map and the Huffman block of raw data, or the raw data where they are not smaller.
#[tactic(auto, unfolding(crate::specs::Content::pack_of_flat, crate::specs::Content::packed_of, crate::specs::Content::unpacked_of))]
fn pack_piz(alloc: Global, shape: &Shape<'_>, raw: &[u8]) -> Result<Vec<u8>, NoMemory>
    requires shape { IsShape shape.now.channels.now shape.now.region }
    requires raw { length raw.now ≡ raw_size_of shape.now.channels.now shape.now.region }
    requires small { raw_size_of shape.now.channels.now shape.now.region ≤ 2 ^ 26 }
    ensures exact { IfOk result (λ stored. stored.items ≡ pack_of_flat method.Piz shape.now.channels.now shape.now.region raw.now) }
    ensures restores { IfOk result (λ stored. length stored.items < length raw.now
        → unpacked_of method.Piz shape.now.channels.now shape.now.region stored.items ≡ Ok raw.now) }
{
    if raw.len() == 0 {
        return Ok(Vec::from_slice(alloc, raw)?);
    }
    let packed = exr_piz::pack(alloc, raw, shape)?;
    smaller(alloc, packed, raw)
}

/// The cells and samples of raw data under B44, or with flat cells under B44A, or the raw data where they are not smaller.
#[tactic(auto, unfolding(crate::specs::Content::pack_of_flat, crate::specs::Content::packed_of, crate::specs::Content::lossy_of, crate::specs::Content::unpacked_of))]
fn pack_b44(alloc: Global, shape: &Shape<'_>, raw: &[u8], flat: bool) -> Result<Vec<u8>, NoMemory>
    requires shape { IsShape shape.now.channels.now shape.now.region }
    requires small { raw_size_of shape.now.channels.now shape.now.region ≤ 2 ^ 26 }
    requires raw { length raw.now ≡ raw_size_of shape.now.channels.now shape.now.region }
    requires plain { IsTrue (are_plain shape.now.channels.now) }
    requires each { All IsPlain shape.now.channels.now }
    ensures exact { IfOk result (λ stored. stored.items ≡ pack_of_flat (b44_method flat) shape.now.channels.now shape.now.region raw.now) }
    ensures restores { IfOk result (λ stored. length stored.items < length raw.now
        → unpacked_of (b44_method flat) shape.now.channels.now shape.now.region stored.items
        ≡ Ok (lossy_of (b44_method flat) shape.now.channels.now shape.now.region raw.now)) }
{
    let cells = exr_b44::pack(alloc, raw, shape, flat)?;
    smaller(alloc, cells, raw)
}
