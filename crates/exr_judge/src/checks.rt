//! Validating a header: by itself, and against the headers before it.

ghost use Rattle.std.specs.Prelude.{◌≡◌, ◌≤◌, ◌<◌, ◌≤ℤ◌, ◌+◌, ◌^◌, length, sum_by, not, IfSome, OnOk, IfOk};
ghost use Rattle.std.specs.List.{position_from, list_any};
ghost use Rattle.exr_base.specs.Refusal.{Gives};
ghost use Rattle.exr_base.specs.Shape.{IsSide, IsRegion, IsSampled, width_of, height_of};
ghost use Rattle.exr_judge.specs.Picture.{is_everywhere, is_side_aligned, is_aligned, is_sampled_well, chunk_width, chunk_height, chunk_count_of, first_end, first_region, raw_chunk_of, IsPicture};
ghost use Rattle.exr_judge.specs.Judging.{samplings_judged, version_judged, sizes_judged, count_judged, is_called, name_judged, header_judged, judged};

use crate::fields::{all_fields, is_there, value};
use crate::header::Header;
use crate::kind::{Flags, PartKind};
use crate::picture::picture_of;
use crate::words::{int, word};
use exr_attributes::{AttributeMap, Bound, Field, HeaderFault};
use exr_base::{Box2i, Channel, Refusal, Shape, pieces, span};
use std::alloc::Global;

/// Whether a channel has samples at each pixel.
fn is_everywhere(channel: &Channel) -> bool
    ensures { result ≡ is_everywhere channel.now }
{
    channel.xs == 1 && channel.ys == 1
}

/// Whether one side of a data window begins at a sample and has whole multiples of the sampling.
fn is_side_aligned(from: i32, to: i32, sampling: u32) -> bool
    requires side { IsSide from to }
    requires sampled { 1 ≤ sampling }
    ensures { result ≡ is_side_aligned from to sampling }
{
    from.unsigned_abs() % sampling == 0 && span(from, to) % sampling == 0
}

/// Whether the samplings of a channel fit the kind of part and the data window.
fn is_sampled_well(header: &Header, channel: &Channel) -> bool
    requires picture { IsPicture header.now }
    requires sampled { IsSampled channel.now }
    ensures { result ≡ is_sampled_well header.now channel.now }
{
    if header.kind.is_tiled() || header.kind.is_deep() {
        return is_everywhere(channel);
    }
    let window = header.window;
    is_side_aligned(window.x0, window.x1, channel.xs)
        && is_side_aligned(window.y0, window.y1, channel.ys)
}

/// The first channel whose samplings do not fit.
fn badly_sampled(header: &Header) -> Option<usize>
    requires { IsPicture header.now }
    ensures exact { result ≡ position_from (λ c. not (is_sampled_well header.now c)) 0 header.now.channels }
    ensures within { IfSome result (λ i. i < 2 ^ 32) }
{
    let channels = header.channels.as_slice();
    for i in 0..channels.len() {
        if !is_sampled_well(header, &channels[i]) {
            return Some(i);
        }
    }
    None
}

/// Validates the samplings of all channels.
#[tactic(auto, unfolding(crate::specs::Judging::samplings_judged))]
fn samplings_judged(part: u32, header: &Header) -> Result<(), Refusal<HeaderFault>>
    requires { IsPicture header.now }
    ensures { Gives (λ unit. unit) result (samplings_judged part header.now) }
{
    match badly_sampled(header) {
        Some(channel) => Err(Refusal::Fault(HeaderFault::BadSampling {
            part,
            channel: channel as u32,
        })),
        None => Ok(()),
    }
}

/// Validates the version of a deep part.
#[tactic(auto, unfolding(crate::specs::Judging::version_judged))]
fn version_judged(part: u32, header: &Header) -> Result<(), Refusal<HeaderFault>>
    ensures { Gives (λ unit. unit) result (version_judged part header.now) }
{
    if !header.kind.is_deep() {
        return Ok(());
    }
    let version = value(Field::Version, &header.attributes);
    if word(version, 0) == 1 {
        return Ok(());
    }
    Err(Refusal::Fault(HeaderFault::BadDeepVersion {
        part,
        said: int(version, 0),
    }))
}

/// The columns of the data window.
fn width(header: &Header) -> u32
    requires { IsPicture header.now }
    ensures exact { result ≡ width_of header.now.window }
    ensures some { 1 ≤ result }
    ensures small { result ≤ 2 ^ 20 }
{
    span(header.window.x0, header.window.x1)
}

/// The lines of the data window.
fn height(header: &Header) -> u32
    requires { IsPicture header.now }
    ensures exact { result ≡ height_of header.now.window }
    ensures some { 1 ≤ result }
    ensures small { result ≤ 2 ^ 20 }
{
    span(header.window.y0, header.window.y1)
}

/// The columns of a chunk that is not cut.
fn columns(header: &Header) -> u32
    requires { IsPicture header.now }
    ensures exact { result ≡ chunk_width header.now }
    ensures some { 1 ≤ result }
    ensures small { result ≤ 2 ^ 30 }
{
    match header.tiles {
        Some(tiles) => tiles.xsize,
        None => width(header),
    }
}

/// The lines of a chunk that is not cut.
fn rows(header: &Header) -> u32
    requires { IsPicture header.now }
    ensures exact { result ≡ chunk_height header.now }
    ensures some { 1 ≤ result }
    ensures small { result ≤ 2 ^ 30 }
{
    match header.tiles {
        Some(tiles) => tiles.ysize,
        None => header.method.lines(),
    }
}

/// The number of chunks of a part.
#[tactic(auto, unfolding(crate::specs::Picture::chunk_count_of))]
pub fn chunk_count(header: &Header) -> u64
    requires { IsPicture header.now }
    ensures exact { result ≡ chunk_count_of header.now }
    ensures few { result < 2 ^ 62 }
{
    let across = pieces(columns(header), width(header));
    let down = pieces(rows(header), height(header));
    u64::from(across) * u64::from(down)
}

/// Where the first chunk ends on one side.
fn first_end(from: i32, to: i32, most: u32) -> i32
    requires ordered { from ≤ℤ to }
    requires side { IsSide from to }
    requires some { 1 ≤ most }
    ensures exact { result ≡ first_end from to most }
    ensures side { IsSide from result }
{
    from + (span(from, to).min(most) - 1) as i32
}

/// The raw bytes of the first chunk; of a deep one, of its sample count table.
#[tactic(auto, unfolding(crate::specs::Picture::raw_chunk_of))]
fn raw_chunk(header: &Header) -> u64
    requires { IsPicture header.now }
    ensures { result ≡ raw_chunk_of header.now }
{
    if header.kind.is_deep() {
        let across = width(header).min(columns(header));
        let down = height(header).min(rows(header));
        return 4 * (u64::from(across) * u64::from(down));
    }
    let shape = Shape {
        channels: header.channels.as_slice(),
        region: first_region(header),
    };
    shape.raw_size()
}

/// The region of the first chunk.
fn first_region(header: &Header) -> Box2i
    requires { IsPicture header.now }
    ensures exact { result ≡ first_region header.now }
    ensures region { IsRegion result }
{
    let window = header.window;
    Box2i {
        x0: window.x0,
        y0: window.y0,
        x1: first_end(window.x0, window.x1, columns(header)),
        y1: first_end(window.y0, window.y1, rows(header)),
    }
}

/// Validates the number of chunks of all parts so far, of which the earlier ones have `chunks`, and the raw size of one.
#[tactic(auto, unfolding(crate::specs::Judging::sizes_judged))]
fn sizes_judged(
    earlier: &[Header],
    chunks: u64,
    header: &Header,
) -> Result<(), Refusal<HeaderFault>>
    requires picture { IsPicture header.now }
    requires counted { chunks ≡ sum_by chunk_count_of earlier.now }
    requires few { chunks ≤ 2 ^ 20 }
    ensures exact { Gives (λ unit. unit) result (sizes_judged earlier.now header.now) }
    ensures few { OnOk result (chunks + chunk_count_of header.now ≤ 2 ^ 20) }
{
    if chunks + chunk_count(header) > 1 << 20 {
        return Err(Refusal::Fault(HeaderFault::Limit(Bound::Chunks)));
    }
    if raw_chunk(header) > 1 << 26 {
        return Err(Refusal::Fault(HeaderFault::Limit(Bound::RawChunk)));
    }
    Ok(())
}

/// Validates the attribute `chunkCount`, in multi-part and deep files.
#[tactic(auto, unfolding(crate::specs::Judging::count_judged))]
fn count_judged(flags: Flags, part: u32, header: &Header) -> Result<(), Refusal<HeaderFault>>
    requires picture { IsPicture header.now }
    requires few { chunk_count_of header.now ≤ 2 ^ 20 }
    ensures { Gives (λ unit. unit) result (count_judged flags part header.now) }
{
    if !(flags.multi || flags.deep) || !is_there(Field::ChunkCount, &header.attributes) {
        return Ok(());
    }
    let said = value(Field::ChunkCount, &header.attributes);
    let computed = chunk_count(header) as u32;
    if word(said, 0) == computed {
        return Ok(());
    }
    Err(Refusal::Fault(HeaderFault::ChunkCount {
        part,
        said: int(said, 0),
        computed,
    }))
}

/// Whether one of some headers has a part name.
fn is_called(name: &[u8], headers: &[Header]) -> bool
    ensures { result ≡ list_any (is_called name.now) headers.now }
{
    for header in headers {
        if name == value(Field::PartName, &header.attributes) {
            return true;
        }
    }
    false
}

/// Validates the name of a part against the earlier ones.
#[tactic(auto, unfolding(crate::specs::Judging::name_judged))]
fn name_judged(
    flags: Flags,
    earlier: &[Header],
    header: &Header,
) -> Result<(), Refusal<HeaderFault>>
    requires { length earlier.now < 2 ^ 32 }
    ensures { Gives (λ unit. unit) result (name_judged flags earlier.now header.now) }
{
    if !flags.multi || !is_called(value(Field::PartName, &header.attributes), earlier) {
        return Ok(());
    }
    Err(Refusal::Fault(HeaderFault::TwicePart {
        part: earlier.len() as u32,
    }))
}

/// Validates a header, in this order.
#[tactic(auto, unfolding(crate::specs::Judging::header_judged))]
fn header_judged(
    flags: Flags,
    earlier: &[Header],
    chunks: u64,
    header: &Header,
) -> Result<(), Refusal<HeaderFault>>
    requires picture { IsPicture header.now }
    requires parts { length earlier.now < 2 ^ 32 }
    requires counted { chunks ≡ sum_by chunk_count_of earlier.now }
    requires few { chunks ≤ 2 ^ 20 }
    ensures exact { Gives (λ unit. unit) result (header_judged flags earlier.now header.now) }
    ensures few { OnOk result (chunks + chunk_count_of header.now ≤ 2 ^ 20) }
{
    let part = earlier.len() as u32;
    samplings_judged(part, header)?;
    version_judged(part, header)?;
    sizes_judged(earlier, chunks, header)?;
    count_judged(flags, part, header)?;
    name_judged(flags, earlier, header)
}

/// The header of the part that follows the `earlier` ones, which have `chunks` chunks, or its first fault (the order of
/// faults: own): first the attributes that are required of its kind, each with its type and size, then their values, then
/// the samplings, the version of a deep part, the numbers of chunks and of bytes of one, `chunkCount`, and the name of the
/// part.
///
/// File Layout, "Header Attributes (All Files)", "Header Attributes for Tile Parts" and "Header Attributes for
/// Multi-Part and Deep Data Files".
#[tactic(auto, unfolding(crate::specs::Judging::judged))]
pub fn judged(
    alloc: Global,
    flags: Flags,
    earlier: &[Header],
    chunks: u64,
    kind: PartKind,
    attributes: AttributeMap,
) -> Result<Header, Refusal<HeaderFault>>
    requires parts { length earlier.now < 2 ^ 32 }
    requires counted { chunks ≡ sum_by chunk_count_of earlier.now }
    requires few { chunks ≤ 2 ^ 20 }
    ensures exact { Gives (λ header. header) result (judged flags earlier.now kind attributes) }
    ensures picture { IfOk result IsPicture }
    ensures few { IfOk result (λ header. chunks + chunk_count_of header ≤ 2 ^ 20) }
{
    let part = earlier.len() as u32;
    let _ = all_fields(flags, part, kind, &attributes)?;
    let header = picture_of(alloc, part, kind, attributes)?;
    header_judged(flags, earlier, chunks, &header)?;
    Ok(header)
}
