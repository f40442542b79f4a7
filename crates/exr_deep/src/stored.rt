//! Data that is stored raw or as run lengths.

ghost use Rattle.std.specs.Prelude.{◌≡◌, length, IfOk, MatchOption, Ok};
ghost use Rattle.exr_base.specs.declared.method.Method.TheVariants as method;
ghost use Rattle.exr_base.specs.Refusal.{Gives};
ghost use Rattle.exr_deep.specs.Deep.{or_broken};
ghost use Rattle.exr_deep.specs.Stored.{unpacked_of, stored_of};

use crate::fault::DeepFault;
use exr_base::{Method, NoMemory, Refusal};
use std::alloc::Global;

/// The raw data, `size` bytes, of stored data, which is not copied where it is raw. `broken` is the fault of run lengths
/// that do not give it.
#[tactic(auto, unfolding(crate::specs::Stored::unpacked_of))]
pub(crate) fn unpack_stored(
    alloc: Global,
    stored: Vec<u8>,
    size: u64,
    broken: DeepFault,
) -> Result<Vec<u8>, Refusal<DeepFault>>
    ensures exact { Gives (λ raw. raw.items) result (or_broken broken (unpacked_of size stored.items)) }
    ensures size { IfOk result (λ raw. length raw.items ≡ size) }
{
    if stored.len() as u64 == size {
        return Ok(stored);
    }
    match exr_rle::unpack(alloc, &stored, size as usize) {
        Ok(raw) => Ok(raw),
        Err(Refusal::Fault(_)) => Err(Refusal::Fault(broken)),
        Err(Refusal::NoMemory) => Err(Refusal::NoMemory),
    }
}

/// The data that is stored for raw data under a method.
pub(crate) fn store(alloc: Global, method: Method, raw: Vec<u8>) -> Result<Vec<u8>, NoMemory>
    ensures exact { IfOk result (λ stored. stored.items ≡ stored_of method raw.items) }
    ensures restores { IfOk result (λ stored. unpacked_of (length raw.items) stored.items ≡ Ok raw.items) }
{
    match pack_smaller(alloc, method, &raw)? {
        Some(packed) => Ok(packed),
        None => Ok(raw),
    }
}

/// The same, where the raw data is kept.
pub(crate) fn store_copy(alloc: Global, method: Method, raw: &[u8]) -> Result<Vec<u8>, NoMemory>
    ensures exact { IfOk result (λ stored. stored.items ≡ stored_of method raw.now) }
    ensures restores { IfOk result (λ stored. unpacked_of (length raw.now) stored.items ≡ Ok raw.now) }
{
    match pack_smaller(alloc, method, raw)? {
        Some(packed) => Ok(packed),
        None => Ok(Vec::from_slice(alloc, raw)?),
    }
}

/// The data that is stored for raw data under a method, where it is not the raw data.
#[tactic(auto, unfolding(crate::specs::Stored::unpacked_of, crate::specs::Stored::stored_of))]
fn pack_smaller(alloc: Global, method: Method, raw: &[u8]) -> Result<Option<Vec<u8>>, NoMemory>
    ensures exact { IfOk result (λ smaller. MatchOption smaller (stored_of method raw.now ≡ raw.now) (λ packed. stored_of method raw.now ≡ packed.items)) }
    ensures restores { IfOk result (λ smaller. unpacked_of (length raw.now) (stored_of method raw.now) ≡ Ok raw.now) }
{
    match method {
        Method::Rle => pack_runs(alloc, raw),
        _ => Ok(None),
    }
}

/// The run lengths of raw data, where they are smaller.
#[tactic(auto, unfolding(crate::specs::Stored::unpacked_of, crate::specs::Stored::stored_of))]
fn pack_runs(alloc: Global, raw: &[u8]) -> Result<Option<Vec<u8>>, NoMemory>
    ensures exact { IfOk result (λ smaller. MatchOption smaller (stored_of method.Rle raw.now ≡ raw.now) (λ packed. stored_of method.Rle raw.now ≡ packed.items)) }
    ensures restores { IfOk result (λ smaller. unpacked_of (length raw.now) (stored_of method.Rle raw.now) ≡ Ok raw.now) }
{
    let packed = exr_rle::pack(alloc, raw)?;
    if packed.len() < raw.len() {
        Ok(Some(packed))
    } else {
        Ok(None)
    }
}
