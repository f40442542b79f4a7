//! A printer, to which bytes are added, and a sink, in which bytes can also be replaced.

ghost use Rattle.std.specs.Prelude.{◌≡◌, ◌+◌, ◌≤◌, ◌++◌, IsTrue, IfOk, OnErr, length, take};
ghost use Rattle.exr_outside.specs.Count.{HasCause};
ghost use Rattle.exr_outside.specs.Sink.{SinkMeaning, TakesSome, AddsPrefix, replaced, ReplacesPrefix};

use exr_base::Failed;

/// What bytes are added to. It counts its failures. Its name is that of its file, or empty where it has none. As for a
/// source, `means.tells` says whether contracts know what it holds.
pub trait Printer {
    ghost means: { SinkMeaning Self };

    /// Adds a first part of the bytes at the end, and answers how many: one at least, unless there are none. After
    /// `Failed` some first part was added.
    fn append(&mut self, bytes: &[u8]) -> Result<usize, Failed>
        ensures added { IsTrue means.tells
            → IfOk result (λ count. means.holds self.new ≡ means.holds self.old ++ take count bytes.now) }
        ensures failed { IsTrue means.tells
            → OnErr result (AddsPrefix bytes.now (means.holds self.old) (means.holds self.new)) }
        ensures some { IfOk result (TakesSome (length bytes.now)) }
        ensures name { means.name self.new ≡ means.name self.old }
        ensures cause { HasCause (means.faults self.old) (means.faults self.new) result };

    /// How often a call has failed; at `u64::MAX` the count stands still.
    fn faults(&self) -> u64
        ensures { result ≡ means.faults self.now };
}

/// A file that is written: by adding at its end, and by replacing bytes that it holds.
pub trait Sink: Printer {
    /// The name.
    fn name(&self) -> &str
        ensures { result.now ≡ Self.means.name self.now };

    /// Puts a first part of the bytes in the place of those from a position on, and answers how many: one at least,
    /// unless there are none. After `Failed` some first part was put.
    fn write_at(&mut self, pos: u64, bytes: &[u8]) -> Result<usize, Failed>
        requires { IsTrue Self.means.tells → pos + length bytes.now ≤ length (Self.means.holds self.old) }
        ensures replaced { IsTrue Self.means.tells
            → IfOk result (λ count. Self.means.holds self.new ≡ replaced pos (take count bytes.now) (Self.means.holds self.old)) }
        ensures failed { IsTrue Self.means.tells
            → OnErr result (ReplacesPrefix pos bytes.now (Self.means.holds self.old) (Self.means.holds self.new)) }
        ensures some { IfOk result (TakesSome (length bytes.now)) }
        ensures name { Self.means.name self.new ≡ Self.means.name self.old }
        ensures cause { HasCause (Self.means.faults self.old) (Self.means.faults self.new) result };
}
