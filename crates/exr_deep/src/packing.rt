//! The packed data of a deep chunk from its content.

ghost use Rattle.std.specs.Prelude.{◌≡◌, ◌*◌, ◌≤◌, ◌^◌, length, true, IfOk, Ok};
ghost use Rattle.exr_base.specs.Shape.{IsShape, width_of};
ghost use Rattle.exr_deep.specs.Body.{content_of, body_of};
ghost use Rattle.exr_deep.specs.Counts.{table_of};
ghost use Rattle.exr_deep.specs.Deep.{deep_of, deep_pack_of, body_for, fits, are_ints};
ghost use Rattle.exr_deep.specs.Stored.{unpacked_of};

use crate::block::{DeepBlock, DeepPacked};
use crate::sizes::{height_of, width_of};
use crate::stored::{store, store_copy};
use crate::table::put_table;
use exr_base::{Method, NoMemory, Shape};
use std::alloc::Global;

/// The chunk that a writer stores for content: the table and the samples each as run lengths under RLE, where these are
/// smaller, and raw otherwise.
///
/// File Layout, "Deep Data Blocks".
pub fn pack_deep(
    alloc: Global,
    method: Method,
    shape: &Shape<'_>,
    block: &DeepBlock,
) -> Result<DeepPacked, NoMemory>
    requires shape { IsShape shape.now.channels.now shape.now.region }
    requires fits { fits shape.now.channels.now shape.now.region (content_of block.now) ≡ true }
    ensures exact { IfOk result (λ body. body_of body ≡ deep_pack_of method shape.now.region (content_of block.now)) }
    // Unpacking it gives the content back.
    ensures restores { IfOk result (λ body. deep_of shape.now.channels.now shape.now.region (body_of body) ≡ Ok (content_of block.now)) }
{
    let width = width_of(shape.region);
    let rows = height_of(shape.region);
    pack_rows(alloc, method, width, rows, block)
}

/// The chunk that a writer stores for content whose rows have so many pixels.
fn pack_rows(
    alloc: Global,
    method: Method,
    width: usize,
    rows: usize,
    block: &DeepBlock,
) -> Result<DeepPacked, NoMemory>
    requires pixels { length block.now.counts.items ≡ rows * width }
    requires small { rows * width ≤ 2 ^ 24 }
    requires ints { are_ints width block.now.counts.items ≡ true }
    ensures exact { IfOk result (λ body. body_of body ≡ body_for method width (content_of block.now)) }
    ensures table { IfOk result (λ body. unpacked_of (4 * (rows * width)) body.table.items ≡ Ok (table_of width block.now.counts.items)) }
    ensures samples { IfOk result (λ body. unpacked_of (length block.now.samples.items) body.samples.items ≡ Ok block.now.samples.items) }
{
    let table = table_of(alloc, &block.counts, width, rows)?;
    Ok(DeepPacked {
        table: store(alloc, method, table)?,
        samples: store_copy(alloc, method, &block.samples)?,
        unpacked: block.samples.len() as u64,
    })
}

/// The sample count table of counts.
fn table_of(alloc: Global, counts: &[u32], width: usize, rows: usize) -> Result<Vec<u8>, NoMemory>
    requires pixels { length counts.now ≡ rows * width }
    requires small { rows * width ≤ 2 ^ 24 }
    requires ints { are_ints width counts.now ≡ true }
    ensures exact { IfOk result (λ table. table.items ≡ table_of width counts.now) }
    ensures size { IfOk result (λ table. length table.items ≡ 4 * (rows * width)) }
{
    let mut table = vec![in alloc; 0u8; 4 * counts.len()]?;
    put_table(counts, width, rows, &mut table);
    Ok(table)
}
