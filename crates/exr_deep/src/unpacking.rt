//! The content of a deep chunk from its packed data.

ghost use Rattle.std.specs.Prelude.{◌≡◌, ◌+◌, ◌*◌, ◌≤◌, ◌^◌, length, sum, true, IfOk};
ghost use Rattle.exr_base.specs.Refusal.{Gives};
ghost use Rattle.exr_base.specs.Shape.{IsShape, width_of};
ghost use Rattle.exr_deep.specs.Body.{content_of, body_of};
ghost use Rattle.exr_deep.specs.Counts.{counts_in};
ghost use Rattle.exr_deep.specs.Deep.{deep_of, content_in, fits, are_ints, pixels_of, samples_in};
ghost use Rattle.exr_deep.specs.Steps.{IsWhole};

use crate::block::{DeepBlock, DeepPacked};
use crate::counts::fill_counts;
use crate::fault::DeepFault;
use crate::sizes::{height_of, sample_bytes, width_of};
use crate::stored::unpack_stored;
use exr_base::{Refusal, Shape};
use std::alloc::Global;

/// The counts of all pixels, and their sum.
#[derive(Drop)]
struct Counted {
    counts: Vec<u32>,
    samples: u64,
}

/// The content of a deep chunk, for the channels and the region of a shape. The table and the samples are each raw where
/// they have their raw size, and not copied; otherwise they are run lengths. The region has at most 2^24 pixels, so that the
/// raw table has at most 2^26 bytes.
///
/// The first fault comes that there is, in the order of `DeepFault`. No memory is taken for samples whose size is not the
/// one that the table counts, or that their run lengths do not give; any size may be said.
///
/// File Layout, "Deep Data Blocks".
pub fn unpack_deep(
    alloc: Global,
    shape: &Shape<'_>,
    body: DeepPacked,
) -> Result<DeepBlock, Refusal<DeepFault>>
    requires shape { IsShape shape.now.channels.now shape.now.region }
    requires small { 4 * pixels_of shape.now.region ≤ 2 ^ 26 }
    ensures exact { Gives content_of result (deep_of shape.now.channels.now shape.now.region (body_of body)) }
    // Content of samples that are not too large can be stored again.
    ensures fits { body.unpacked ≤ 2 ^ 26 → IfOk result (λ block. fits shape.now.channels.now shape.now.region (content_of block) ≡ true) }
{
    let width = width_of(shape.region);
    let rows = height_of(shape.region);
    unpack_rows(alloc, width, rows, sample_bytes(shape.channels), body)
}

/// The content of rows of so many pixels, where a sample of each channel takes `sample_bytes`.
fn unpack_rows(
    alloc: Global,
    width: usize,
    rows: usize,
    sample_bytes: u64,
    body: DeepPacked,
) -> Result<DeepBlock, Refusal<DeepFault>>
    requires few { rows ≤ 2 ^ 20 }
    requires small { rows * width ≤ 2 ^ 24 }
    requires bytes { sample_bytes ≤ 2 ^ 12 }
    ensures exact { Gives content_of result (content_in width (rows * width) sample_bytes (body_of body)) }
    ensures whole { IfOk result (λ block. IsWhole width (rows * width) sample_bytes body.unpacked (content_of block)) }
{
    let table_size = 4 * (rows * width) as u64;
    let table = unpack_stored(alloc, body.table, table_size, DeepFault::TableBroken)?;
    let counted = count(alloc, &table, width, rows)?;
    let computed = counted.samples * sample_bytes;
    let samples = unpack_samples(alloc, body.samples, body.unpacked, computed)?;
    Ok(DeepBlock {
        counts: counted.counts,
        samples,
    })
}

/// The counts in a table.
fn count(
    alloc: Global,
    table: &[u8],
    width: usize,
    rows: usize,
) -> Result<Counted, Refusal<DeepFault>>
    requires there { length table.now ≡ 4 * (rows * width) }
    requires few { rows ≤ 2 ^ 20 }
    requires small { rows * width ≤ 2 ^ 24 }
    ensures exact { Gives (λ counted. counted.counts.items) result (counts_in width table.now (rows * width)) }
    ensures size { IfOk result (λ counted. length counted.counts.items ≡ rows * width) }
    ensures ints { IfOk result (λ counted. are_ints width counted.counts.items ≡ true) }
    ensures samples { IfOk result (λ counted. counted.samples ≡ sum counted.counts.items) }
    ensures small { IfOk result (λ counted. counted.samples ≤ rows * 2 ^ 31) }
{
    let mut counts = vec![in alloc; 0u32; rows * width]?;
    match fill_counts(table, width, rows, &mut counts) {
        Ok(samples) => Ok(Counted { counts, samples }),
        Err(pixel) => Err(Refusal::Fault(DeepFault::CountsFall {
            pixel: pixel as u32,
        })),
    }
}

/// The samples, where their size is said as it is computed.
#[tactic(auto, unfolding(crate::specs::Deep::samples_in))]
fn unpack_samples(
    alloc: Global,
    samples: Vec<u8>,
    said: u64,
    computed: u64,
) -> Result<Vec<u8>, Refusal<DeepFault>>
    ensures exact { Gives (λ raw. raw.items) result (samples_in said computed samples.items) }
    ensures size { IfOk result (λ raw. length raw.items ≡ said) }
    ensures same { IfOk result (λ raw. said ≡ computed) }
{
    if said != computed {
        return Err(Refusal::Fault(DeepFault::SizeDiffers { said, computed }));
    }
    unpack_stored(alloc, samples, said, DeepFault::DataBroken)
}
