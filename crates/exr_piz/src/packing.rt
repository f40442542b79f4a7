//! Packing: words channel by channel, renumbered by the values that occur, each plane through the wavelet, and the
//! Huffman block of what comes of it.

ghost use Rattle.std.specs.Prelude.{◌≡◌, ◌+◌, ◌*◌, ◌<◌, ◌≤◌, ◌^◌, ◌++◌, length, IfOk, Ok};
ghost use Rattle.std.specs.Int.{w32, to_le_bytes};
ghost use Rattle.exr_base.specs.Shape.{IsShape, raw_size_of};
ghost use Rattle.exr_huffman.specs.Blocks.{huffman_words_of};
ghost use Rattle.exr_packing.specs.Packed.{pack_of};
ghost use Rattle.exr_planar.specs.Planar.{planar_of, raw_from_planar};
ghost use Rattle.exr_piz.specs.Words.{words_from, bytes_from};
ghost use Rattle.exr_piz.specs.Piz.{piz_of, packed_words_of, piz_pack_of};

use crate::planar_words::PlanarWords;
use crate::planes::{Way, turn_channels};
use crate::value_map::renumber_words;
use exr_base::{NoMemory, Shape};
use exr_planar::put_planar_in;
use std::alloc::Global;

/// The packed data of the raw data of a region. It may be longer than the raw data.
#[tactic(auto, unfolding(crate::specs::Piz::piz_pack_of))]
pub fn pack(alloc: Global, raw: &[u8], shape: &Shape) -> Result<Vec<u8>, NoMemory>
    requires shape { IsShape shape.now.channels.now shape.now.region }
    requires size { length raw.now ≡ raw_size_of shape.now.channels.now shape.now.region }
    requires some { 1 ≤ raw_size_of shape.now.channels.now shape.now.region }
    requires most { raw_size_of shape.now.channels.now shape.now.region ≤ 2 ^ 26 }
    ensures exact { IfOk result (λ packed. packed.items ≡ piz_pack_of shape.now.channels.now shape.now.region raw.now) }
    // What was packed unpacks to the same bytes.
    ensures restores { IfOk result (λ packed. piz_of shape.now.channels.now shape.now.region packed.items ≡ Ok raw.now) }
{
    let mut words = planar_words(alloc, shape, raw)?;
    Ok(pack_words(alloc, shape, words.as_mut_slice())?)
}

/// The words of raw data, channel by channel.
fn planar_words(alloc: Global, shape: &Shape, raw: &[u8]) -> Result<Vec<u16>, NoMemory>
    requires shape { IsShape shape.now.channels.now shape.now.region }
    requires size { length raw.now ≡ raw_size_of shape.now.channels.now shape.now.region }
    ensures size { IfOk result (λ words. 2 * length words.items ≡ raw_size_of shape.now.channels.now shape.now.region) }
    ensures exact { IfOk result (λ words. words.items ≡ words_from (planar_of shape.now.channels.now shape.now.region raw.now)) }
    // The bytes of these words are the same.
    ensures restores { IfOk result (λ words. raw_from_planar shape.now.channels.now shape.now.region (bytes_from words.items) ≡ raw.now) }
{
    let mut words = vec![in alloc; 0u16; raw.len() / 2]?;
    let slice = words.as_mut_slice();
    put_planar_words(shape, raw, slice);
    Ok(words)
}

/// Writes the words of raw data, channel by channel.
fn put_planar_words(shape: &Shape, raw: &[u8], words: &mut [u16])
    requires shape { IsShape shape.now.channels.now shape.now.region }
    requires raw { length raw.now ≡ raw_size_of shape.now.channels.now shape.now.region }
    requires words { 2 * length words.old ≡ raw_size_of shape.now.channels.now shape.now.region }
    ensures exact { words.new ≡ words_from (planar_of shape.now.channels.now shape.now.region raw.now) }
    ensures restores { raw_from_planar shape.now.channels.now shape.now.region (bytes_from words.new) ≡ raw.now }
{
    let mut sink = PlanarWords { words };
    put_planar_in(shape, raw, &mut sink);
}

/// The packed data of words channel by channel, which are used up.
#[tactic(auto, unfolding(crate::specs::Piz::packed_words_of, crate::specs::Piz::block_of))]
fn pack_words(alloc: Global, shape: &Shape, words: &mut [u16]) -> Result<Vec<u8>, NoMemory>
    requires shape { IsShape shape.now.channels.now shape.now.region }
    requires size { 2 * length words.old ≡ raw_size_of shape.now.channels.now shape.now.region }
    requires some { 0 < length words.old }
    requires most { length words.old ≤ 2 ^ 25 }
    ensures exact { IfOk result (λ packed. packed.items ≡ packed_words_of shape.now.channels.now shape.now.region words.old) }
    // What was packed unpacks to these words.
    ensures restores { IfOk result (λ packed. piz_of shape.now.channels.now shape.now.region packed.items ≡ Ok (raw_from_planar shape.now.channels.now shape.now.region (bytes_from words.old))) }
{
    let map = renumber_words(alloc, words)?;
    turn_channels(shape, words, Way::Encode, map.greatest);
    let block = block_of(alloc, words)?;
    Ok(joined(alloc, &map.front, &block)?)
}

/// The Huffman block of words.
fn block_of(alloc: Global, words: &[u16]) -> Result<Vec<u8>, NoMemory>
    requires some { 0 < length words.now }
    requires most { length words.now ≤ 2 ^ 25 }
    ensures exact { IfOk result (λ block. block.items ≡ pack_of words.now) }
    ensures restores { IfOk result (λ block. huffman_words_of block.items (length words.now) ≡ Ok words.now) }
    ensures small { IfOk result (λ block. length block.items < 2 ^ 31) }
{
    exr_packing::pack(alloc, words)
}

/// The value map, the length of the Huffman block, and the block.
fn joined(alloc: Global, front: &[u8], block: &[u8]) -> Result<Vec<u8>, NoMemory>
    requires front { length front.now < 2 ^ 32 }
    requires block { length block.now < 2 ^ 32 }
    ensures { IfOk result (λ packed. packed.items ≡ front.now ++ to_le_bytes w32 (length block.now) ++ block.now) }
{
    let mut packed = Vec::with_capacity(alloc, front.len() + 4 + block.len())?;
    packed.extend_from_slice(front)?;
    packed.extend_from_slice(&(block.len() as u32).to_le_bytes())?;
    packed.extend_from_slice(block)?;
    Ok(packed)
}
