//! The world of files: what bytes each file name stands for. A world has no calls; it is what contracts speak of.

ghost use Rattle.std.specs.Prelude.{ℕ, List, []};

use std::marker::Brand;

/// The bytes for which each file name stands. They stay the same during a run.
pub trait World: Send + Sync {
    /// For the bytes of a name, the bytes of the file.
    ghost bytes_of: { List ℕ → List ℕ };
}

/// The world of the running system, of which contracts know nothing.
pub struct RealWorld;

impl World for RealWorld {
    ghost bytes_of = { λ _. [] };
}

/// A world that a caller picks: it gives `bytes_of` where it calls a function at the type `Brand`.
impl World for Brand {
    ghost bytes_of = { λ _. [] };
}
