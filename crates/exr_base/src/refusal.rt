//! Why a call can fail: memory ran out, reading or writing failed, or the call found a fault in what it was given.

ghost use Rattle.std.specs.Prelude.{◌≡◌, ⊤};
ghost use Rattle.exr_base.specs.declared.refusal.Refusal.TheVariants as refusal;

use std::alloc::{AllocError, AllocFailed};
use thiserror::Error;

/// Memory ran out. No contract says when: a call whose errors include it may return it at any time.
#[derive(Clone, Copy, Debug, PartialEq, Eq, Error)]
#[error("no memory")]
pub struct NoMemory;

/// A call on a source, a sink or a set of files failed. The object counts its failures.
#[derive(Clone, Copy, Debug, PartialEq, Eq, Error)]
#[error("failed")]
pub struct Failed;

/// The error of a call that reads or checks something: the fault that it found, or out of memory.
#[derive(Clone, Copy, Debug, PartialEq, Eq)]
pub enum Refusal<T> {
    Fault(T),
    NoMemory,
}

impl From<AllocError> for NoMemory {
    ghost from_gives = { λ _ _. ⊤ };

    fn from(_error: AllocError) -> NoMemory {
        NoMemory
    }
}

impl<X: Drop> From<AllocFailed<X>> for NoMemory {
    ghost from_gives = { λ _ _. ⊤ };

    fn from(_error: AllocFailed<X>) -> NoMemory {
        NoMemory
    }
}

impl<T> From<NoMemory> for Refusal<T> {
    ghost from_gives = { λ _ e. e ≡ refusal.NoMemory };

    fn from(_error: NoMemory) -> Refusal<T> {
        Refusal::NoMemory
    }
}

impl<T> From<AllocError> for Refusal<T> {
    ghost from_gives = { λ _ e. e ≡ refusal.NoMemory };

    fn from(_error: AllocError) -> Refusal<T> {
        Refusal::NoMemory
    }
}

impl<T, X: Drop> From<AllocFailed<X>> for Refusal<T> {
    ghost from_gives = { λ _ e. e ≡ refusal.NoMemory };

    fn from(_error: AllocFailed<X>) -> Refusal<T> {
        Refusal::NoMemory
    }
}
