//! Reading the head of a file from a source, in pieces of doubling size, so that little more is read than the head.

ghost use Rattle.std.specs.Prelude.{◌≡◌, ◌+◌, ◌≤◌, ◌^◌, ◌≢◌, ◌<◌, min, ℕ, List, false, IsTrue, IfOk, IfErr, IfSome, None, length, take, drop};
ghost use Rattle.exr_outside.specs.Source.{IsSameSource};
ghost use Rattle.exr_outside.specs.Count.{Rose, HasFaultCause};
ghost use Rattle.exr_opening.specs.Opening.{Opens, Finds, FindsOrWants, IsFront, OnlyReads, OwesRead, is_end};

use exr_attributes::{HEAD_LIMIT, HeaderFault};
use exr_base::{Failed, Refusal};
use exr_header::{FileHead, read_head};
use exr_outside::{Source, read_full};
use std::alloc::Global;
use thiserror::Error;

/// The size of the first piece.
const FIRST: usize = 1 << 16;

/// The most bytes that are read: those of the longest head, and one more, which tells that the input goes on.
const MOST: u64 = HEAD_LIMIT as u64 + 1;

/// Why a file could not be opened.
#[derive(Clone, Copy, Debug, PartialEq, Eq, Error)]
pub enum OpenFault {
    /// Reading the source failed.
    #[error("read fault")]
    Read,
    /// The headers are invalid.
    #[error("head fault")]
    Head(HeaderFault),
}

/// The head of a file, and the lengths of both.
#[derive(Drop, Debug)]
pub struct Opened {
    pub head: FileHead,
    /// The length of the head in bytes, at most 2^24.
    pub head_bytes: usize,
    /// The length of the source in bytes.
    pub length: u64,
}

/// Reads the head at the front of a source. At most twice its bytes and 64 KiB are read, and never more than 2^24 + 1 (own).
pub fn open_head<S: Source>(alloc: Global, source: &mut S) -> Result<Opened, Refusal<OpenFault>>
    ensures opened { IsTrue S.means.tells → Opens result (S.means.content source.old) }
    ensures small { IfOk result (λ o. o.head_bytes ≤ 2 ^ 24) }
    ensures same { IsSameSource S.means source.old source.new }
    ensures later { S.means.faults source.old ≤ S.means.faults source.new }
    ensures read { IfErr result (λ e. OwesRead e (Rose (S.means.faults source.old) (S.means.faults source.new))) }
{
    let Ok(length) = source.len() else {
        return Err(Refusal::Fault(OpenFault::Read));
    };
    let (head, head_bytes) = head_within(alloc, source, length.min(MOST) as usize)?;
    Ok(Opened {
        head,
        head_bytes,
        length,
    })
}

/// The head in the first `most` bytes of a source.
fn head_within<S: Source>(
    alloc: Global,
    source: &mut S,
    most: usize,
) -> Result<(FileHead, usize), Refusal<OpenFault>>
    requires most { IsTrue S.means.tells → most ≡ min (length (S.means.content source.old)) (2 ^ 24 + 1) }
    requires small { most ≤ 2 ^ 24 + 1 }
    ensures found { IsTrue S.means.tells → Finds result (S.means.content source.old) }
    ensures small { IfOk result (λ x. x.1 ≤ 2 ^ 24) }
    ensures same { IsSameSource S.means source.old source.new }
    ensures later { S.means.faults source.old ≤ S.means.faults source.new }
    ensures read { IfErr result (λ e. OwesRead e (Rose (S.means.faults source.old) (S.means.faults source.new))) }
{
    let mut bytes = Vec::new(alloc);
    let mut wanted = most.min(FIRST);
    'grow: loop {
        bytes = longer(alloc, source, bytes, wanted)?;
        if let Some(found) = head_in(alloc, &bytes, wanted < most)? {
            return Ok(found);
        }
        wanted = (2 * wanted).min(most);
    }
}

/// The head that the first bytes of a file begin with, or its fault; `None` where they end too soon and there are more.
fn head_in(
    alloc: Global,
    bytes: &[u8],
    more: bool,
) -> Result<Option<(FileHead, usize)>, Refusal<OpenFault>>
    ensures found { (content : List ℕ) → IsFront bytes.now more content → FindsOrWants result content }
    ensures small { IfOk result (λ o. IfSome o (λ x. x.1 ≤ 2 ^ 24)) }
    ensures ends { more ≡ false → IfOk result (λ o. o ≢ None) }
    ensures unread { IfErr result (λ e. OwesRead e ⊥) }
{
    match read_head(alloc, bytes) {
        Ok(found) => Ok(Some(found)),
        Err(Refusal::NoMemory) => Err(Refusal::NoMemory),
        Err(Refusal::Fault(fault)) => {
            if more && is_end(fault) {
                return Ok(None);
            }
            Err(Refusal::Fault(OpenFault::Head(fault)))
        }
    }
}

/// Whether a fault is that the bytes end.
fn is_end(fault: HeaderFault) -> bool
    ensures { result ≡ is_end fault }
{
    matches!(fault, HeaderFault::Truncated { .. })
}

/// The first `wanted` bytes of a source, of which `bytes` were read before.
fn longer<S: Source>(
    alloc: Global,
    source: &mut S,
    mut bytes: Vec<u8>,
    wanted: usize,
) -> Result<Vec<u8>, Refusal<OpenFault>>
    requires wanted { wanted ≤ 2 ^ 24 + 1 }
    requires few { length bytes.items ≤ wanted }
    ensures bytes { IsTrue S.means.tells
        → bytes.items ≡ take (length bytes.items) (S.means.content source.old)
        → IfOk result (λ v. v.items ≡ take wanted (S.means.content source.old)) }
    ensures short { IfOk result (λ v. length v.items ≤ wanted) }
    ensures same { IsSameSource S.means source.old source.new }
    ensures later { S.means.faults source.old ≤ S.means.faults source.new }
    ensures read { OnlyReads result (Rose (S.means.faults source.old) (S.means.faults source.new)) }
{
    let at = bytes.len();
    let piece = read_piece(alloc, source, at as u64, wanted - at)?;
    bytes.extend_from_slice(&piece)?;
    Ok(bytes)
}

/// At most `size` bytes of a source from an offset on, fewer where it ends. The fault is `Read`.
pub fn read_piece<S: Source>(
    alloc: Global,
    source: &mut S,
    at: u64,
    size: usize,
) -> Result<Vec<u8>, Refusal<OpenFault>>
    requires { at + size < 2 ^ 64 }
    ensures bytes { IsTrue S.means.tells
        → IfOk result (λ v. v.items ≡ take size (drop at (S.means.content source.old))) }
    ensures short { IfOk result (λ v. length v.items ≤ size) }
    ensures same { IsSameSource S.means source.old source.new }
    ensures later { S.means.faults source.old ≤ S.means.faults source.new }
    ensures read { OnlyReads result (Rose (S.means.faults source.old) (S.means.faults source.new)) }
{
    let mut bytes = vec![in alloc; 0u8; size]?;
    let Ok(count) = read_full(source, at, &mut bytes) else {
        return Err(Refusal::Fault(OpenFault::Read));
    };
    bytes.truncate(count);
    Ok(bytes)
}
