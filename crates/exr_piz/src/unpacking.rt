//! Unpacking: the parts of packed data, the words of the Huffman block, each plane's wavelet undone, and the values of
//! ranks.

ghost use Rattle.std.specs.Prelude.{◌≡◌, ◌*◌, ◌<◌, ◌≤◌, ◌^◌, length, IfOk, OnOk};
ghost use Rattle.exr_base.specs.Refusal.{Gives};
ghost use Rattle.exr_base.specs.Shape.{IsShape, raw_size_of};
ghost use Rattle.exr_huffman.specs.Blocks.{huffman_words_of};
ghost use Rattle.exr_piz.specs.Piz.{or_huffman, restored_from, piz_of};

use crate::fault::PizFault;
use crate::parts::cut_parts;
use crate::planes::{Way, turn_channels};
use crate::ranked::RankedWords;
use crate::values::stored_values;
use exr_base::{NoMemory, Refusal, Shape};
use exr_planar::put_raw_from;
use std::alloc::Global;

/// The raw data of a region that packed data stands for, or the first thing that is wrong with it. Bytes after the
/// Huffman block are not looked at (own, after the method as the public library stores it).
pub fn unpack(alloc: Global, packed: &[u8], shape: &Shape) -> Result<Vec<u8>, Refusal<PizFault>>
    requires shape { IsShape shape.now.channels.now shape.now.region }
    requires some { 1 ≤ raw_size_of shape.now.channels.now shape.now.region }
    requires most { raw_size_of shape.now.channels.now shape.now.region ≤ 2 ^ 26 }
    ensures exact { Gives (λ raw. raw.items) result (piz_of shape.now.channels.now shape.now.region packed.now) }
    ensures size { IfOk result (λ raw. length raw.items ≡ raw_size_of shape.now.channels.now shape.now.region) }
{
    let mut raw = Vec::new(alloc);
    match unpack_into(alloc, packed, shape, &mut raw) {
        Ok(()) => Ok(raw),
        Err(refusal) => Err(refusal),
    }
}

/// The same in a vector whose memory is used again where it is enough; its bytes are let go of. After a refusal it holds
/// any bytes. Memory of the raw size is taken only after the Huffman block was found to have all words.
pub fn unpack_into(
    alloc: Global,
    packed: &[u8],
    shape: &Shape,
    raw: &mut Vec<u8>,
) -> Result<(), Refusal<PizFault>>
    requires shape { IsShape shape.now.channels.now shape.now.region }
    requires some { 1 ≤ raw_size_of shape.now.channels.now shape.now.region }
    requires most { raw_size_of shape.now.channels.now shape.now.region ≤ 2 ^ 26 }
    ensures exact { Gives (λ _. raw.new.items) result (piz_of shape.now.channels.now shape.now.region packed.now) }
    ensures size { OnOk result (length raw.new.items ≡ raw_size_of shape.now.channels.now shape.now.region) }
{
    let size = shape.raw_size() as usize;
    let parts = cut_parts(packed)?;
    let mut words = huffman_words(alloc, parts.block, size / 2)?;
    let values = stored_values(alloc, parts.first, parts.map)?;
    set_size(alloc, raw, size)?;
    restore(shape, &values, &mut words, raw);
    Ok(())
}

/// The words of a Huffman block.
fn huffman_words(alloc: Global, block: &[u8], words: usize) -> Result<Vec<u16>, Refusal<PizFault>>
    requires some { 0 < words }
    requires most { words ≤ 2 ^ 25 }
    ensures { Gives (λ v. v.items) result (or_huffman (huffman_words_of block.now words)) }
{
    match exr_huffman::unpack(alloc, block, words) {
        Ok(words) => Ok(words),
        Err(Refusal::Fault(fault)) => Err(Refusal::Fault(PizFault::Huffman(fault))),
        Err(Refusal::NoMemory) => Err(Refusal::NoMemory),
    }
}

/// Gives a vector a size, with any bytes. Memory that is not enough is let go of before other memory is taken.
fn set_size(alloc: Global, bytes: &mut Vec<u8>, size: usize) -> Result<(), NoMemory>
    ensures { OnOk result (length bytes.new.items ≡ size) }
{
    if bytes.capacity() < size {
        *bytes = Vec::new(alloc);
        *bytes = vec![in alloc; 0u8; size]?;
        return Ok(());
    }
    bytes.resize(size, 0)?;
    Ok(())
}

/// Writes the raw data of the words of a block, which are used up.
#[tactic(auto, unfolding(crate::specs::Piz::restored_from))]
fn restore(shape: &Shape, values: &[u16], words: &mut [u16], into: &mut [u8])
    requires shape { IsShape shape.now.channels.now shape.now.region }
    requires size { 2 * length words.old ≡ raw_size_of shape.now.channels.now shape.now.region }
    requires some { 0 < length values.now }
    requires few { length values.now ≤ 65536 }
    requires into { length into.old ≡ raw_size_of shape.now.channels.now shape.now.region }
    ensures { into.new ≡ restored_from shape.now.channels.now shape.now.region values.now words.old }
{
    turn_channels(shape, words, Way::Decode, (values.len() - 1) as u16);
    let ranked = RankedWords { values, words };
    put_raw_from(shape, &ranked, into);
}
