//! Copying samples to places that lie one stride apart: the innermost loops.

ghost use Rattle.std.specs.Prelude.{◌≡◌, ◌≤◌, ◌<◌, ◌+◌, ◌-◌, ◌*◌, length};
ghost use Rattle.exr_base.specs.Channel.{bytes_of};
ghost use Rattle.exr_frame.specs.Buffer.{IsCopied};
ghost use Rattle.exr_frame.specs.Rows.{IsOfRow, row_place, sample_byte, fill_byte};

use exr_base::Kind;

/// Samples of two bytes.
fn put_halves(into: &mut [u8], at: usize, stride: usize, from: &[u8], samples: usize)
    requires stride { 2 ≤ stride }
    requires from { length from.now ≡ samples * 2 }
    requires room { 0 < samples → at + (samples - 1) * stride + 2 ≤ length into.old }
    ensures { IsCopied (IsOfRow samples 2) (row_place at stride) (sample_byte from.now 2) into.old into.new }
{
    for i in 0..samples {
        let first = from[i * 2];
        let second = from[i * 2 + 1];
        let to = at + i * stride;
        into[to] = first;
        into[to + 1] = second;
    }
}

/// Samples of four bytes.
fn put_words(into: &mut [u8], at: usize, stride: usize, from: &[u8], samples: usize)
    requires stride { 4 ≤ stride }
    requires from { length from.now ≡ samples * 4 }
    requires room { 0 < samples → at + (samples - 1) * stride + 4 ≤ length into.old }
    ensures { IsCopied (IsOfRow samples 4) (row_place at stride) (sample_byte from.now 4) into.old into.new }
{
    for i in 0..samples {
        let first = from[i * 4];
        let second = from[i * 4 + 1];
        let third = from[i * 4 + 2];
        let fourth = from[i * 4 + 3];
        let to = at + i * stride;
        into[to] = first;
        into[to + 1] = second;
        into[to + 2] = third;
        into[to + 3] = fourth;
    }
}

/// Samples without gaps: one copy.
fn put_together(into: &mut [u8], at: usize, size: usize, from: &[u8], samples: usize)
    requires some { 0 < size }
    requires from { length from.now ≡ samples * size }
    requires room { at + length from.now ≤ length into.old }
    ensures { IsCopied (IsOfRow samples size) (row_place at size) (sample_byte from.now size) into.old into.new }
{
    into[at..at + from.len()].copy_from_slice(from);
}

/// Samples of a kind: the first at `at`, each further one `stride` bytes after it.
pub(crate) fn put_samples(
    into: &mut [u8],
    at: usize,
    stride: usize,
    kind: Kind,
    from: &[u8],
    samples: usize,
)
    requires stride { bytes_of kind ≤ stride }
    requires from { length from.now ≡ samples * bytes_of kind }
    requires some { 0 < samples }
    requires room { at + (samples - 1) * stride + bytes_of kind ≤ length into.old }
    ensures { IsCopied (IsOfRow samples (bytes_of kind)) (row_place at stride) (sample_byte from.now (bytes_of kind))
        into.old into.new }
{
    let size = kind.bytes();
    if stride == size {
        put_together(into, at, size, from, samples);
    } else if size == 2 {
        put_halves(into, at, stride, from, samples);
    } else {
        put_words(into, at, stride, from, samples);
    }
}

/// A fill of two bytes.
fn fill_halves(into: &mut [u8], at: usize, stride: usize, fill: u32, samples: usize)
    requires stride { 2 ≤ stride }
    requires room { 0 < samples → at + (samples - 1) * stride + 2 ≤ length into.old }
    ensures { IsCopied (IsOfRow samples 2) (row_place at stride) (fill_byte fill) into.old into.new }
{
    let first = (fill % 256) as u8;
    let second = (fill / 256 % 256) as u8;
    for i in 0..samples {
        let to = at + i * stride;
        into[to] = first;
        into[to + 1] = second;
    }
}

/// A fill of four bytes.
fn fill_words(into: &mut [u8], at: usize, stride: usize, fill: u32, samples: usize)
    requires stride { 4 ≤ stride }
    requires room { 0 < samples → at + (samples - 1) * stride + 4 ≤ length into.old }
    ensures { IsCopied (IsOfRow samples 4) (row_place at stride) (fill_byte fill) into.old into.new }
{
    let first = (fill % 256) as u8;
    let second = (fill / 256 % 256) as u8;
    let third = (fill / 65536 % 256) as u8;
    let fourth = (fill / 16777216 % 256) as u8;
    for i in 0..samples {
        let to = at + i * stride;
        into[to] = first;
        into[to + 1] = second;
        into[to + 2] = third;
        into[to + 3] = fourth;
    }
}

/// The low bytes of a fill, as many as the kind has: the first at `at`, each further one `stride` bytes after it.
pub(crate) fn fill_samples(
    into: &mut [u8],
    at: usize,
    stride: usize,
    kind: Kind,
    fill: u32,
    samples: usize,
)
    requires stride { bytes_of kind ≤ stride }
    requires some { 0 < samples }
    requires room { at + (samples - 1) * stride + bytes_of kind ≤ length into.old }
    ensures { IsCopied (IsOfRow samples (bytes_of kind)) (row_place at stride) (fill_byte fill) into.old into.new }
{
    match kind {
        Kind::Half => fill_halves(into, at, stride, fill, samples),
        Kind::Uint | Kind::Float => fill_words(into, at, stride, fill, samples),
    }
}
