//! Whole transfers over the traits: a read that goes on until there is no more, and writes of whole lists.

ghost use Rattle.std.specs.Prelude.{◌≡◌, ◌+◌, ◌^◌, ◌<◌, ◌≤◌, ◌++◌, ℕ, IsTrue, IfOk, IfErr, OnOk, length, take};
ghost use Rattle.exr_outside.specs.Count.{HasCause, HasFaultCause};
ghost use Rattle.exr_outside.specs.Source.{IsSameSource};
ghost use Rattle.exr_outside.specs.Sink.{replaced};
ghost use Rattle.exr_outside.specs.Transfer.{Fills, AddsAtLeast, ReplacesAtLeast};

use crate::{Printer, Sink, Source};
use exr_base::{Failed, Refusal};
use std::alloc::Global;
use thiserror::Error;

/// A write of a whole list that failed after `taken` of its bytes were written.
#[derive(Clone, Copy, Debug, PartialEq, Eq, Error)]
#[error("cut short after {taken} bytes")]
pub struct CutShort {
    pub taken: usize,
}

/// Reads from a position on until `into` is full or the source ends, and answers how many bytes it read.
pub fn read_full<S: Source>(source: &mut S, pos: u64, into: &mut [u8]) -> Result<usize, Failed>
    requires { pos + length into.old < 2 ^ 64 }
    ensures bytes { IsTrue S.means.tells
        → IfOk result (Fills (S.means.content source.old) pos into.old into.new) }
    ensures bound { IfOk result (λ count. count ≤ length into.old) }
    ensures same { IsSameSource S.means source.old source.new }
    ensures cause { HasCause (S.means.faults source.old) (S.means.faults source.new) result }
{
    let mut count = 0;
    while count < into.len() {
        let more = source.read_at(pos + count as u64, &mut into[count..])?;
        if more == 0 {
            return Ok(count);
        }
        count += more;
    }
    Ok(count)
}

/// Puts all of the bytes in the place of those from a position on.
pub fn write_all_at<K: Sink>(sink: &mut K, pos: u64, bytes: &[u8]) -> Result<(), CutShort>
    requires within { IsTrue K.means.tells → pos + length bytes.now ≤ length (K.means.holds sink.old) }
    requires fits { pos + length bytes.now < 2 ^ 64 }
    ensures all { IsTrue K.means.tells
        → OnOk result (K.means.holds sink.new ≡ replaced pos bytes.now (K.means.holds sink.old)) }
    ensures cut { IsTrue K.means.tells → IfErr result (λ e.
        ReplacesAtLeast e.taken pos bytes.now (K.means.holds sink.old) (K.means.holds sink.new)) }
    ensures taken { IfErr result (λ e. e.taken < length bytes.now) }
    ensures name { K.means.name sink.new ≡ K.means.name sink.old }
    ensures cause { HasCause (K.means.faults sink.old) (K.means.faults sink.new) result }
{
    let mut taken = 0;
    while taken < bytes.len() {
        match sink.write_at(pos + taken as u64, &bytes[taken..]) {
            Ok(more) => taken += more,
            Err(Failed) => return Err(CutShort { taken }),
        }
    }
    Ok(())
}

/// All bytes of a source.
pub fn read_all<S: Source>(alloc: Global, source: &mut S) -> Result<Vec<u8>, Refusal<Failed>>
    ensures bytes { IsTrue S.means.tells → IfOk result (λ v. v.items ≡ S.means.content source.old) }
    ensures same { IsSameSource S.means source.old source.new }
    ensures cause { HasFaultCause (S.means.faults source.old) (S.means.faults source.new) result }
{
    let len = source.len().map_err(Refusal::Fault)?;
    let mut bytes = vec![in alloc; 0u8; len as usize]?;
    let count = read_full(source, 0, &mut bytes).map_err(Refusal::Fault)?;
    bytes.truncate(count);
    Ok(bytes)
}

/// Adds all of the bytes at the end.
pub fn append_all<P: Printer>(printer: &mut P, bytes: &[u8]) -> Result<(), CutShort>
    ensures all { IsTrue P.means.tells
        → OnOk result (P.means.holds printer.new ≡ P.means.holds printer.old ++ bytes.now) }
    ensures cut { IsTrue P.means.tells → IfErr result (λ e.
        AddsAtLeast e.taken bytes.now (P.means.holds printer.old) (P.means.holds printer.new)) }
    ensures taken { IfErr result (λ e. e.taken < length bytes.now) }
    ensures name { P.means.name printer.new ≡ P.means.name printer.old }
    ensures cause { HasCause (P.means.faults printer.old) (P.means.faults printer.new) result }
{
    let mut taken = 0;
    while taken < bytes.len() {
        match printer.append(&bytes[taken..]) {
            Ok(more) => taken += more,
            Err(Failed) => return Err(CutShort { taken }),
        }
    }
    Ok(())
}
