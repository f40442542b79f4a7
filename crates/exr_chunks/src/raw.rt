//! The raw sizes of a part's chunks, in a form in which each is looked up in the same time, however many channels and
//! samplings the part has.
//!
//! In a scan line part with subsampled channels, the size of a chunk depends on which samplings divide the numbers of its
//! lines. The data window starts at a multiple of each sampling, so the pattern of sizes repeats after as many chunks as
//! have a whole number of lines of each sampling (own).

ghost use Rattle.std.specs.Prelude.{◌≡◌, ◌≤◌, ◌<◌, ◌+◌, ◌-◌, ◌*◌, ◌%◌, ◌^◌, false, ℕ, All, IfOk, MatchOption, length, slice_index};
ghost use Rattle.exr_chunks.specs.Heads.{IsPicture, chunk_height, chunk_count_of};
ghost use Rattle.exr_chunks.specs.RawBytes.{are_whole, IsPixel, HasRawSizes, IsInLines, group_bytes, groups_bytes, IsPeriod, IsCycle};
ghost use Rattle.exr_chunks.specs.Region.{region_of};
ghost use Rattle.exr_chunks.specs.Sizes.{IsMeasured};

use crate::groups::{Group, groups_of};
use crate::sides::start;
use exr_base::{Box2i, Channel, NoMemory, Shape};
use exr_header::Header;
use std::alloc::Global;

/// What the raw size of a chunk is read from.
#[derive(Drop, Debug)]
pub(crate) enum RawSizes {
    /// Bytes per pixel: of its samples, or of its entry in the sample count table of a deep chunk.
    Pixels { bytes: u64 },
    /// The sizes of the first chunks, a pattern that repeats, and that of the last chunk, which may have fewer lines.
    Lines { cycle: Vec<u32>, last: u32 },
}

/// Bytes per pixel; `None` if some channel is subsampled.
fn pixel(channels: &[Channel]) -> Option<u64>
    requires { length channels.now ≤ 1024 }
    ensures { MatchOption result (are_whole channels.now ≡ false) (IsPixel channels.now) }
{
    let mut bytes = 0;
    for channel in channels {
        if channel.xs != 1 || channel.ys != 1 {
            return None;
        }
        bytes += channel.kind.bytes() as u64;
    }
    Some(bytes)
}

/// The least multiple of `step` chunks after which the pattern of a sampling repeats, or else `most`.
fn multiple(step: u32, ys: u32, rows: u32, most: u32) -> u32
    requires some { 1 ≤ step }
    requires within { step ≤ most }
    requires sampled { 1 ≤ ys }
    requires small { most * rows ≤ 2 ^ 30 }
    requires few { most ≤ 2 ^ 30 }
    ensures some { 1 ≤ result }
    ensures within { result ≤ most }
    ensures whole { result < most → result % step ≡ 0 }
    ensures again { result < most → (result * rows) % ys ≡ 0 }
{
    let mut period = step;
    'steps: while period < most {
        if period * rows % ys == 0 {
            return period;
        }
        period += step;
    }
    most
}

/// Number of chunks of `rows` lines after which the pattern of all groups repeats, or else `most`.
fn period(groups: &[Group], rows: u32, most: u32) -> u32
    requires some { 1 ≤ most }
    requires sampled { All (λ g. 1 ≤ g.ys) groups.now }
    requires small { most * rows ≤ 2 ^ 30 }
    requires few { most ≤ 2 ^ 30 }
    ensures some { 1 ≤ result }
    ensures within { result ≤ most }
    ensures again { result < most → IsPeriod groups.now rows result }
{
    let mut period = 1;
    for group in groups {
        period = multiple(period, group.ys, rows, most);
    }
    period
}

/// Adds the bytes of a group that has samples in each chunk: its sampling is at most the number of lines of a chunk.
fn add_to_each(sizes: &mut [u32], rows: u32, group: Group)
    requires sampled { 1 ≤ group.ys }
    requires dense { group.ys ≤ rows }
    requires small { (i : ℕ) → i < length sizes.old → slice_index sizes.old i + group_bytes rows i group ≤ 2 ^ 26 }
    ensures length { length sizes.new ≡ length sizes.old }
    ensures more { (i : ℕ) → i < length sizes.old → slice_index sizes.new i ≡ slice_index sizes.old i + group_bytes rows i group }
{
    let least = rows / group.ys;
    let rest = rows % group.ys;
    // the lines of a chunk before its first sample
    let mut before = 0;
    for i in 0..sizes.len() {
        if before < rest {
            sizes[i] += (least + 1) * group.bytes;
            before += group.ys - rest;
        } else {
            sizes[i] += least * group.bytes;
            before -= rest;
        }
    }
}

/// Adds the bytes of a group line by line.
fn add_to_lines(sizes: &mut [u32], rows: u32, group: Group)
    requires some { 1 ≤ rows }
    requires sampled { 1 ≤ group.ys }
    requires few { length sizes.old * rows ≤ 2 ^ 30 }
    requires small { (i : ℕ) → i < length sizes.old → slice_index sizes.old i + group_bytes rows i group ≤ 2 ^ 26 }
    ensures length { length sizes.new ≡ length sizes.old }
    ensures more { (i : ℕ) → i < length sizes.old → slice_index sizes.new i ≡ slice_index sizes.old i + group_bytes rows i group }
{
    let rows = rows as usize;
    let lines = sizes.len() * rows;
    let mut line = 0;
    'samples: while line < lines {
        sizes[line / rows] += group.bytes;
        line += group.ys as usize;
    }
}

/// Adds the bytes of a group to the sizes of the first chunks, in at most as many steps as there are chunks.
fn add(sizes: &mut [u32], rows: u32, group: Group)
    requires some { 1 ≤ rows }
    requires sampled { 1 ≤ group.ys }
    requires few { length sizes.old * rows ≤ 2 ^ 30 }
    requires small { (i : ℕ) → i < length sizes.old → slice_index sizes.old i + group_bytes rows i group ≤ 2 ^ 26 }
    ensures length { length sizes.new ≡ length sizes.old }
    ensures more { (i : ℕ) → i < length sizes.old → slice_index sizes.new i ≡ slice_index sizes.old i + group_bytes rows i group }
{
    if group.ys <= rows {
        add_to_each(sizes, rows, group);
    } else {
        add_to_lines(sizes, rows, group);
    }
}

/// The sizes of the first of `whole` uncut chunks, up to where the pattern repeats.
fn cycle_of(alloc: Global, groups: &[Group], rows: u32, whole: u32) -> Result<Vec<u32>, NoMemory>
    requires some { 1 ≤ rows }
    requires sampled { All (λ g. 1 ≤ g.ys) groups.now }
    requires few { whole * rows ≤ 2 ^ 30 }
    requires small { (i : ℕ) → i < whole → groups_bytes groups.now rows i ≤ 2 ^ 26 }
    ensures { IfOk result (λ cycle. IsCycle groups.now rows whole cycle.items) }
{
    if whole == 0 {
        return Ok(Vec::new(alloc));
    }
    let count = period(groups, rows, whole);
    let mut cycle = vec![in alloc; 0u32; count as usize]?;
    for group in groups {
        add(cycle.as_mut_slice(), rows, *group);
    }
    Ok(cycle)
}

/// The region of the last chunk of a part in lines: the lines that the whole chunks leave.
fn last_region(header: &Header, rows: u32, count: u32) -> Box2i
    requires { IsInLines header.now rows count }
    ensures { result ≡ region_of header.now (count - 1) }
{
    let window = header.window();
    let whole = count - 1;
    Box2i {
        x0: window.x0,
        y0: start(window.y0, window.y1, rows, whole),
        x1: window.x1,
        y1: window.y1,
    }
}

/// The sizes of the chunks of a part in lines, flat and without tiles.
fn lines_of(alloc: Global, header: &Header, rows: u32, count: u32) -> Result<RawSizes, NoMemory>
    requires { IsInLines header.now rows count }
    ensures { IfOk result (λ sizes. HasRawSizes sizes header.now) }
{
    let channels = header.channels();
    let groups = groups_of(alloc, channels, header.window())?;
    let whole = count - 1;
    let cycle = cycle_of(alloc, groups.as_slice(), rows, whole)?;
    let last = Shape {
        channels,
        region: last_region(header, rows, count),
    };
    Ok(RawSizes::Lines {
        cycle,
        last: last.raw_size() as u32,
    })
}

impl RawSizes {
    /// The raw sizes of the `count` chunks of a part; an uncut chunk has `rows` lines.
    pub fn new(alloc: Global, header: &Header, rows: u32, count: u32) -> Result<RawSizes, NoMemory>
        requires picture { IsPicture header.now }
        requires measured { IsMeasured header.now }
        requires rows { rows ≡ chunk_height header.now }
        requires count { count ≡ chunk_count_of header.now }
        ensures { IfOk result (λ sizes. HasRawSizes sizes header.now) }
    {
        if header.kind().is_deep() {
            return Ok(RawSizes::Pixels { bytes: 4 });
        }
        match pixel(header.channels()) {
            Some(bytes) => Ok(RawSizes::Pixels { bytes }),
            None => lines_of(alloc, header, rows, count),
        }
    }
}
