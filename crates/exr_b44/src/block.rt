//! Packed data of a region, channel by channel, from raw data and back.

ghost use Rattle.std.specs.Prelude.{◌≡◌, ℕ, ◌^◌, ◌<◌, ◌≤◌, ◌+◌, length, take, slice_index, IsTrue, IfOk, OnOk, IfSome, MatchOption, MatchResult, Ok, Err, All};
ghost use Rattle.std.specs.List.{sum_by};
ghost use Rattle.exr_base.specs.Refusal.{Gives};
ghost use Rattle.exr_base.specs.Shape.{IsShape, raw_size_of};
ghost use Rattle.exr_b44.specs.Block.{IsPlain, channels_len, channels_unpacked, channels_packed, b44_of, b44_pack_of, kept_of};
ghost use Rattle.exr_b44.specs.Sizes.{AreOnEachLine, row_len_of, most_of};
ghost use Rattle.exr_planar.specs.Planar.{raw_from_planar};

use crate::channel::{pack_channel, unpack_channel};
use crate::fault::B44Fault;
use crate::sizes::{counts_of, least_size, line_len, most_size, raw_len, row_len};
use crate::stripe::Stripe;
use exr_base::{NoMemory, Refusal, Shape};
use exr_planar::{put_planar, put_raw};
use std::alloc::Global;

/// The raw data of a region that packed data stands for: of B44 and of B44A, which differ in packing alone. Short comes
/// exactly where the data ends before the last sample, Long exactly where bytes are left. Data that is too short for cells
/// of three bytes takes no memory; else at most twice the raw bytes are held, and no more than the raw bytes where each
/// channel has samples on each line.
///
/// Technical Introduction, "Data Compression"; the bytes are this project's (own).
pub fn unpack(alloc: Global, packed: &[u8], shape: &Shape) -> Result<Vec<u8>, Refusal<B44Fault>>
    requires shape { IsShape shape.now.channels.now shape.now.region }
    requires plain { All IsPlain shape.now.channels.now }
    requires size { raw_size_of shape.now.channels.now shape.now.region ≤ 2 ^ 26 }
    ensures exact { Gives (λ raw. raw.items) result (b44_of shape.now.channels.now shape.now.region packed.now) }
    ensures size { IfOk result (λ raw. length raw.items ≡ raw_size_of shape.now.channels.now shape.now.region) }
{
    if is_short(packed, shape) {
        return Err(Refusal::Fault(B44Fault::Short));
    }
    let mut raw = vec![in alloc; 0u8; shape.raw_size() as usize]?;
    unpack_whole(alloc, packed, shape, &mut raw)?;
    Ok(raw)
}

/// The same in a vector, whose memory is used again where there is enough of it. After a refusal the vector may hold
/// anything.
pub fn unpack_into(
    alloc: Global,
    packed: &[u8],
    shape: &Shape,
    raw: &mut Vec<u8>,
) -> Result<(), Refusal<B44Fault>>
    requires shape { IsShape shape.now.channels.now shape.now.region }
    requires plain { All IsPlain shape.now.channels.now }
    requires size { raw_size_of shape.now.channels.now shape.now.region ≤ 2 ^ 26 }
    ensures exact { Gives (λ _. raw.new.items) result (b44_of shape.now.channels.now shape.now.region packed.now) }
    ensures size { OnOk result (length raw.new.items ≡ raw_size_of shape.now.channels.now shape.now.region) }
{
    if is_short(packed, shape) {
        return Err(Refusal::Fault(B44Fault::Short));
    }
    raw.resize(shape.raw_size() as usize, 0)?;
    unpack_whole(alloc, packed, shape, raw)
}

/// True where packed data is too short even for cells of three bytes.
fn is_short(packed: &[u8], shape: &Shape) -> bool
    requires shape { IsShape shape.now.channels.now shape.now.region }
    requires plain { All IsPlain shape.now.channels.now }
    requires size { raw_size_of shape.now.channels.now shape.now.region ≤ 2 ^ 26 }
    ensures short { IsTrue result → b44_of shape.now.channels.now shape.now.region packed.now ≡ Err B44Fault.Short }
{
    least_size(shape) > packed.len() as u64
}

/// The raw data of a region, over a slice of its length.
fn unpack_whole(
    alloc: Global,
    packed: &[u8],
    shape: &Shape,
    raw: &mut [u8],
) -> Result<(), Refusal<B44Fault>>
    requires shape { IsShape shape.now.channels.now shape.now.region }
    requires plain { All IsPlain shape.now.channels.now }
    requires size { raw_size_of shape.now.channels.now shape.now.region ≤ 2 ^ 26 }
    requires raw { length raw.old ≡ raw_size_of shape.now.channels.now shape.now.region }
    ensures exact { Gives (λ _. raw.new) result (b44_of shape.now.channels.now shape.now.region packed.now) }
    ensures size { length raw.new ≡ length raw.old }
{
    let unpacked = match line_len(shape) {
        Some(line) => unpack_lines(packed, shape, line, raw),
        None => {
            let mut planar = vec![in alloc; 0u8; raw.len()]?;
            unpack_planes(packed, shape, &mut planar, raw)
        }
    };
    match unpacked {
        Ok(()) => Ok(()),
        Err(fault) => Err(Refusal::Fault(fault)),
    }
}

/// The raw data of a region in which each channel has samples on each line, of so many bytes.
fn unpack_lines(packed: &[u8], shape: &Shape, line: usize, raw: &mut [u8]) -> Result<(), B44Fault>
    requires shape { IsShape shape.now.channels.now shape.now.region }
    requires size { raw_size_of shape.now.channels.now shape.now.region ≤ 2 ^ 26 }
    requires each { AreOnEachLine shape.now.channels.now }
    requires line { line ≡ sum_by (row_len_of shape.now.region) shape.now.channels.now }
    requires raw { length raw.old ≡ raw_size_of shape.now.channels.now shape.now.region }
    ensures { MatchResult result (λ _. b44_of shape.now.channels.now shape.now.region packed.now ≡ Ok raw.new) (λ fault. b44_of shape.now.channels.now shape.now.region packed.now ≡ Err fault) }
{
    match unpack_stripes(packed, shape, line, raw) {
        None => Err(B44Fault::Short),
        Some(end) => {
            if end < packed.len() {
                return Err(B44Fault::Long);
            }
            Ok(())
        }
    }
}

/// The samples of all channels, each in its part of each line. Answers where they end in the packed data; None where they
/// are not all there.
fn unpack_stripes(packed: &[u8], shape: &Shape, line: usize, raw: &mut [u8]) -> Option<usize>
    requires shape { IsShape shape.now.channels.now shape.now.region }
    requires size { raw_size_of shape.now.channels.now shape.now.region ≤ 2 ^ 26 }
    requires each { AreOnEachLine shape.now.channels.now }
    requires line { line ≡ sum_by (row_len_of shape.now.region) shape.now.channels.now }
    requires room { length raw.old ≡ raw_size_of shape.now.channels.now shape.now.region }
    ensures none { MatchOption result (length packed.now < channels_len shape.now.region shape.now.channels.now packed.now) (λ end. end ≤ length packed.now) }
    ensures end { IfSome result (λ end. end ≡ channels_len shape.now.region shape.now.channels.now packed.now) }
    ensures raw { IfSome result (λ _. raw.new ≡ raw_from_planar shape.now.channels.now shape.now.region (channels_unpacked shape.now.region shape.now.channels.now packed.now)) }
{
    let region = shape.region;
    let mut at = 0;
    let mut first = 0;
    for channel in shape.channels {
        let counts = counts_of(channel, region);
        match unpack_channel(
            packed,
            at,
            channel.kind,
            counts,
            raw,
            Stripe { line, first },
        ) {
            None => return None,
            Some(end) => at = end,
        }
        first += row_len(channel.kind, counts);
    }
    Some(at)
}

/// The raw data of a region by the planes of its channels, which are laid out first.
fn unpack_planes(
    packed: &[u8],
    shape: &Shape,
    planar: &mut [u8],
    raw: &mut [u8],
) -> Result<(), B44Fault>
    requires shape { IsShape shape.now.channels.now shape.now.region }
    requires size { raw_size_of shape.now.channels.now shape.now.region ≤ 2 ^ 26 }
    requires planar { length planar.old ≡ raw_size_of shape.now.channels.now shape.now.region }
    requires raw { length raw.old ≡ raw_size_of shape.now.channels.now shape.now.region }
    ensures { MatchResult result (λ _. b44_of shape.now.channels.now shape.now.region packed.now ≡ Ok raw.new) (λ fault. b44_of shape.now.channels.now shape.now.region packed.now ≡ Err fault) }
{
    match unpack_channels(packed, shape, planar) {
        None => Err(B44Fault::Short),
        Some(end) => {
            if end < packed.len() {
                return Err(B44Fault::Long);
            }
            put_raw(shape, planar, raw);
            Ok(())
        }
    }
}

/// The samples of all channels one after the other. Answers where they end in the packed data; None where they are not all
/// there.
fn unpack_channels(packed: &[u8], shape: &Shape, planar: &mut [u8]) -> Option<usize>
    requires shape { IsShape shape.now.channels.now shape.now.region }
    requires size { raw_size_of shape.now.channels.now shape.now.region ≤ 2 ^ 26 }
    requires room { length planar.old ≡ raw_size_of shape.now.channels.now shape.now.region }
    ensures none { MatchOption result (length packed.now < channels_len shape.now.region shape.now.channels.now packed.now) (λ end. end ≤ length packed.now) }
    ensures end { IfSome result (λ end. end ≡ channels_len shape.now.region shape.now.channels.now packed.now) }
    ensures samples { IfSome result (λ _. planar.new ≡ channels_unpacked shape.now.region shape.now.channels.now packed.now) }
{
    let region = shape.region;
    let mut at = 0;
    let mut to = 0;
    for channel in shape.channels {
        let counts = counts_of(channel, region);
        let size = raw_len(channel.kind, counts);
        let line = row_len(channel.kind, counts);
        let stripe = Stripe { line, first: 0 };
        let plane = &mut planar[to..to + size];
        match unpack_channel(packed, at, channel.kind, counts, plane, stripe) {
            None => return None,
            Some(end) => at = end,
        }
        to += size;
    }
    Some(at)
}

/// The packed data of the raw data of a region; `flat` is true for B44A. It may be longer than the raw data.
///
/// Technical Introduction, "Data Compression"; the bytes are this project's (own).
pub fn pack(alloc: Global, raw: &[u8], shape: &Shape, flat: bool) -> Result<Vec<u8>, NoMemory>
    requires shape { IsShape shape.now.channels.now shape.now.region }
    requires plain { All IsPlain shape.now.channels.now }
    requires size { raw_size_of shape.now.channels.now shape.now.region ≤ 2 ^ 26 }
    requires raw { length raw.now ≡ raw_size_of shape.now.channels.now shape.now.region }
    ensures exact { IfOk result (λ packed. packed.items ≡ b44_pack_of shape.now.channels.now shape.now.region flat raw.now) }
    // What was packed unpacks to what it keeps.
    ensures keeps { IfOk result (λ packed. b44_of shape.now.channels.now shape.now.region packed.items ≡ Ok (kept_of shape.now.channels.now shape.now.region flat raw.now)) }
{
    let mut planar = vec![in alloc; 0u8; raw.len()]?;
    let mut packed = vec![in alloc; 0u8; most_size(shape) as usize + 4]?;
    let end = pack_into(raw, shape, &mut planar, &mut packed, flat);
    packed.truncate(end);
    Ok(packed)
}

/// The packed data of raw data, in a slice with room for it. Answers how many bytes it has.
fn pack_into(raw: &[u8], shape: &Shape, planar: &mut [u8], into: &mut [u8], flat: bool) -> usize
    requires shape { IsShape shape.now.channels.now shape.now.region }
    requires size { raw_size_of shape.now.channels.now shape.now.region ≤ 2 ^ 26 }
    requires raw { length raw.now ≡ raw_size_of shape.now.channels.now shape.now.region }
    requires planar { length planar.old ≡ raw_size_of shape.now.channels.now shape.now.region }
    requires room { sum_by (most_of shape.now.region) shape.now.channels.now + 4 ≤ length into.old }
    ensures packed { take result into.new ≡ b44_pack_of shape.now.channels.now shape.now.region flat raw.now }
    ensures keeps { b44_of shape.now.channels.now shape.now.region (take result into.new) ≡ Ok (kept_of shape.now.channels.now shape.now.region flat raw.now) }
    ensures few { result ≤ length into.old }
{
    put_planar(shape, raw, planar);
    pack_channels(planar, shape, into, flat)
}

/// Packs the samples of all channels, which stand one after the other, into a slice with room for them. Answers how many
/// bytes the packed data has.
fn pack_channels(planar: &[u8], shape: &Shape, into: &mut [u8], flat: bool) -> usize
    requires shape { IsShape shape.now.channels.now shape.now.region }
    requires size { raw_size_of shape.now.channels.now shape.now.region ≤ 2 ^ 26 }
    requires planar { length planar.now ≡ raw_size_of shape.now.channels.now shape.now.region }
    requires room { sum_by (most_of shape.now.region) shape.now.channels.now + 4 ≤ length into.old }
    ensures packed { take result into.new ≡ channels_packed shape.now.region flat shape.now.channels.now planar.now }
    ensures few { result ≤ length into.old }
    ensures bytes { (k : ℕ) → slice_index planar.now k < 256 }
{
    let region = shape.region;
    let mut at = 0;
    let mut to = 0;
    for channel in shape.channels {
        let counts = counts_of(channel, region);
        let size = raw_len(channel.kind, counts);
        to = pack_channel(&planar[at..at + size], channel.kind, counts, into, to, flat);
        at += size;
    }
    to
}
