//! Copying samples out of places that lie one stride apart: the innermost loops.

ghost use Rattle.std.specs.Prelude.{◌≡◌, ◌≤◌, ◌<◌, ◌+◌, ◌-◌, ◌*◌, ◌^◌, length, IfOk};
ghost use Rattle.exr_base.specs.Channel.{bytes_of};
ghost use Rattle.exr_frame.specs.Gather.{IsGrown, strided_byte};
ghost use Rattle.exr_frame.specs.Buffer.{IsCopied};
ghost use Rattle.exr_frame.specs.Rows.{IsOfRow, row_place};

use exr_base::{Kind, NoMemory};

/// Samples of two bytes.
fn take_halves(raw: &mut [u8], begin: usize, from: &[u8], at: usize, stride: usize, samples: usize)
    requires room { begin + samples * 2 ≤ length raw.old }
    requires from { 0 < samples → at + (samples - 1) * stride + 2 ≤ length from.now }
    ensures { IsCopied (IsOfRow samples 2) (row_place begin 2) (strided_byte from.now at stride) raw.old raw.new }
{
    for i in 0..samples {
        let place = at + i * stride;
        let first = from[place];
        let second = from[place + 1];
        raw[begin + i * 2] = first;
        raw[begin + i * 2 + 1] = second;
    }
}

/// Samples of four bytes.
fn take_words(raw: &mut [u8], begin: usize, from: &[u8], at: usize, stride: usize, samples: usize)
    requires room { begin + samples * 4 ≤ length raw.old }
    requires from { 0 < samples → at + (samples - 1) * stride + 4 ≤ length from.now }
    ensures { IsCopied (IsOfRow samples 4) (row_place begin 4) (strided_byte from.now at stride) raw.old raw.new }
{
    for i in 0..samples {
        let place = at + i * stride;
        let first = from[place];
        let second = from[place + 1];
        let third = from[place + 2];
        let fourth = from[place + 3];
        raw[begin + i * 4] = first;
        raw[begin + i * 4 + 1] = second;
        raw[begin + i * 4 + 2] = third;
        raw[begin + i * 4 + 3] = fourth;
    }
}

/// Samples of a kind that lie apart, after the first `begin` raw bytes.
fn take_apart(
    from: &[u8],
    at: usize,
    stride: usize,
    kind: Kind,
    samples: usize,
    raw: &mut [u8],
    begin: usize,
)
    requires room { begin + samples * bytes_of kind ≤ length raw.old }
    requires from { 0 < samples → at + (samples - 1) * stride + bytes_of kind ≤ length from.now }
    ensures { IsCopied (IsOfRow samples (bytes_of kind)) (row_place begin (bytes_of kind)) (strided_byte from.now at stride)
        raw.old raw.new }
{
    match kind {
        Kind::Half => take_halves(raw, begin, from, at, stride, samples),
        Kind::Uint | Kind::Float => take_words(raw, begin, from, at, stride, samples),
    }
}

/// Appends samples of a kind to the raw bytes: the first from `at`, each further one from `stride` bytes after it.
pub(crate) fn take_samples(
    from: &[u8],
    at: usize,
    stride: usize,
    kind: Kind,
    samples: usize,
    raw: &mut Vec<u8>,
) -> Result<(), NoMemory>
    requires from { at + (samples - 1) * stride + bytes_of kind ≤ length from.now }
    requires some { 0 < samples }
    requires few { samples ≤ 2 ^ 20 }
    requires small { length raw.old.items ≤ 2 ^ 26 }
    ensures { IfOk result (λ _. IsGrown (IsOfRow samples (bytes_of kind)) (row_place (length raw.old.items) (bytes_of kind))
        (strided_byte from.now at stride) (samples * bytes_of kind) raw.old.items raw.new.items) }
{
    let size = kind.bytes();
    if stride == size {
        raw.extend_from_slice(&from[at..at + samples * size])?;
    } else {
        let begin = raw.len();
        raw.resize(begin + samples * size, 0)?;
        take_apart(from, at, stride, kind, samples, raw.as_mut_slice(), begin);
    }
    Ok(())
}
