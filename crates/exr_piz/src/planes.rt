//! The wavelet on the planes of all channels, in place.

ghost use Rattle.std.specs.Prelude.{◌≡◌, ◌≢◌, ℕ, ◌+◌, ◌*◌, ◌<◌, ◌≤◌, ◌^◌, length, slice_index};
ghost use Rattle.exr_base.specs.Shape.{IsShape, IsRegion, IsSampled, raw_size_of};
ghost use Rattle.exr_wavelet.specs.Places.{words_of};
ghost use Rattle.exr_piz.specs.Planes.{planes_by, channels_by, columns_of, lines_of, sample_words_of};
ghost use Rattle.exr_piz.specs.Turns.{turn_by};

use exr_base::{Box2i, Channel, Shape, sample_count};
use exr_wavelet::{decode, encode};

/// Which way the wavelet goes.
#[derive(Clone, Copy)]
pub(crate) enum Way {
    Encode,
    Decode,
}

/// How the words of a channel are laid: `columns` samples in each of `lines` lines, each of so many words.
#[derive(Clone, Copy)]
struct Planes {
    columns: usize,
    lines: usize,
    words: usize,
}

/// The planes of a channel.
fn planes_of(channel: &Channel, region: Box2i) -> Planes
    requires region { IsRegion region }
    requires sampled { IsSampled channel.now }
    ensures columns { result.columns ≡ columns_of region channel.now }
    ensures lines { result.lines ≡ lines_of region channel.now }
    ensures words { result.words ≡ sample_words_of channel.now }
    ensures few { result.columns ≤ 2 ^ 20 }
    ensures low { result.lines ≤ 2 ^ 20 }
{
    Planes {
        columns: sample_count(channel.xs, region.x0, region.x1) as usize,
        lines: sample_count(channel.ys, region.y0, region.y1) as usize,
        words: channel.kind.bytes() / 2,
    }
}

/// One plane of a channel, whose words are `step` apart from the word at `first` on.
#[inline(always)]
fn turn_plane(
    words: &mut [u16],
    first: usize,
    nx: usize,
    ny: usize,
    step: usize,
    way: Way,
    max: u16,
)
    requires spread { 1 ≤ step }
    requires within { (x y : ℕ) → x < nx → y < ny → first + (y * nx + x) * step < length words.old }
    ensures placed { (x y : ℕ) → x < nx → y < ny → slice_index words.new (first + (y * nx + x) * step) ≡ turn_by way max nx ny (words_of words.old first nx step) x y }
    ensures others { (k : ℕ) → ((x y : ℕ) → x < nx → y < ny → k ≢ first + (y * nx + x) * step) → slice_index words.new k ≡ slice_index words.old k }
{
    match way {
        Way::Encode => encode(words, first, nx, ny, step, max),
        Way::Decode => decode(words, first, nx, ny, step, max),
    }
}

/// The planes of a channel, interleaved, of `nx` columns and `ny` lines. It is not inlined, so that the loops have registers
/// of their own.
#[inline(never)]
fn turn_planes(words: &mut [u16], nx: usize, ny: usize, step: usize, way: Way, max: u16)
    requires spread { 1 ≤ step }
    requires size { length words.old ≡ nx * ny * step }
    ensures { words.new ≡ planes_by (turn_by way max) nx ny step words.old }
{
    for plane in 0..step {
        turn_plane(words, plane, nx, ny, step, way, max);
    }
}

/// The planes of all channels, which stand one channel after the other. `max` is the greatest word.
pub(crate) fn turn_channels(shape: &Shape, words: &mut [u16], way: Way, max: u16)
    requires shape { IsShape shape.now.channels.now shape.now.region }
    requires size { 2 * length words.old ≡ raw_size_of shape.now.channels.now shape.now.region }
    ensures { words.new ≡ channels_by (turn_by way max) shape.now.region shape.now.channels.now words.old }
{
    let region = shape.region;
    let mut at = 0;
    for channel in shape.channels {
        let planes = planes_of(channel, region);
        let size = planes.columns * planes.lines * planes.words;
        turn_planes(
            &mut words[at..at + size],
            planes.columns,
            planes.lines,
            planes.words,
            way,
            max,
        );
        at += size;
    }
}
