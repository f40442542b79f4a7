//! The samples of one channel: halves in cells, samples of 32 bits as they are.

ghost use Rattle.std.specs.Prelude.{◌≡◌, ◌+◌, ◌*◌, ◌^◌, ◌<◌, ◌≤◌, ◌++◌, length, take, drop, MatchOption, IfSome};
ghost use Rattle.exr_base.specs.Channel.{bytes_of};
ghost use Rattle.exr_b44.specs.Lines.{RowsPut};
ghost use Rattle.exr_b44.specs.Sizes.{most_len};
ghost use Rattle.exr_b44.specs.Block.{packed_len, unpacked, packed_of};

use crate::packing::pack_plane;
use crate::stripe::Stripe;
use crate::unpacking::unpack_halves;
use exr_base::Kind;

/// Columns and lines of a channel's samples.
#[derive(Clone, Copy)]
pub(crate) struct Counts {
    pub(crate) columns: usize,
    pub(crate) rows: usize,
}

/// The samples of a channel, which begin at a place of packed data. Each row of them goes into a line, from the stripe's first
/// byte on. Answers where they end; None where they are not all there, and then the stripe may hold anything.
pub(crate) fn unpack_channel(
    packed: &[u8],
    from: usize,
    kind: Kind,
    counts: Counts,
    lines: &mut [u8],
    stripe: Stripe,
) -> Option<usize>
    requires within { from ≤ length packed.now }
    requires narrow { counts.columns ≤ 2 ^ 20 }
    requires low { counts.rows ≤ 2 ^ 20 }
    requires fits { stripe.first + counts.columns * bytes_of kind ≤ stripe.line }
    requires few { length lines.old ≤ 2 ^ 26 }
    requires room { length lines.old ≡ counts.rows * stripe.line }
    ensures none { MatchOption result (length packed.now < from + packed_len kind counts.columns counts.rows (drop from packed.now)) (λ end. end ≤ length packed.now) }
    ensures end { IfSome result (λ end. end ≡ from + packed_len kind counts.columns counts.rows (drop from packed.now)) }
    ensures rows { IfSome result (λ _. RowsPut (unpacked kind counts.columns counts.rows (drop from packed.now)) lines.old lines.new stripe.line stripe.first (counts.columns * bytes_of kind) counts.rows) }
{
    match kind {
        Kind::Half => unpack_halves(packed, from, lines, stripe, counts.columns, counts.rows),
        Kind::Uint => copy_samples(packed, from, lines, stripe, counts.columns * 4, counts.rows),
        Kind::Float => copy_samples(packed, from, lines, stripe, counts.columns * 4, counts.rows),
    }
}

/// Rows of so many bytes that stand in packed data as they are. Answers where they end; None where they are not all there.
fn copy_samples(
    packed: &[u8],
    from: usize,
    lines: &mut [u8],
    stripe: Stripe,
    wide: usize,
    rows: usize,
) -> Option<usize>
    requires within { from ≤ length packed.now }
    requires fits { stripe.first + wide ≤ stripe.line }
    requires few { length lines.old ≤ 2 ^ 26 }
    requires room { length lines.old ≡ rows * stripe.line }
    ensures none { MatchOption result (length packed.now < from + rows * wide) (λ end. end ≤ length packed.now) }
    ensures end { IfSome result (λ end. end ≡ from + rows * wide) }
    ensures rows { IfSome result (λ _. RowsPut (drop from packed.now) lines.old lines.new stripe.line stripe.first wide rows) }
{
    let size = rows * wide;
    if packed.len() - from < size {
        return None;
    }
    for y in 0..rows {
        let at = from + y * wide;
        let to = y * stripe.line + stripe.first;
        lines[to..to + wide].copy_from_slice(&packed[at..at + wide]);
    }
    Some(from + size)
}

/// The samples of a channel, packed from a place in a slice on, with room for 14 bytes a cell or four a sample and four
/// more bytes, which may change too. Answers where they end.
pub(crate) fn pack_channel(
    samples: &[u8],
    kind: Kind,
    counts: Counts,
    into: &mut [u8],
    to: usize,
    flat: bool,
) -> usize
    requires narrow { counts.columns ≤ 2 ^ 20 }
    requires low { counts.rows ≤ 2 ^ 20 }
    requires whole { length samples.now ≡ counts.columns * counts.rows * bytes_of kind }
    requires room { to + most_len kind counts.columns counts.rows + 4 ≤ length into.old }
    ensures packed { take result into.new ≡ take to into.old ++ packed_of kind counts.columns counts.rows flat samples.now }
    ensures few { result ≤ to + most_len kind counts.columns counts.rows }
{
    match kind {
        Kind::Half => pack_plane(samples, counts.columns, counts.rows, into, to, flat),
        Kind::Uint => put_samples(samples, into, to),
        Kind::Float => put_samples(samples, into, to),
    }
}

/// Samples as they are. Answers where they end.
fn put_samples(samples: &[u8], into: &mut [u8], to: usize) -> usize
    requires { to + length samples.now ≤ length into.old }
    ensures packed { take result into.new ≡ take to into.old ++ samples.now }
    ensures end { result ≡ to + length samples.now }
{
    let end = to + samples.len();
    into[to..end].copy_from_slice(samples);
    end
}
