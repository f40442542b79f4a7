//! A set of files by name: what a command opens, creates and gives back.

ghost use Rattle.std.specs.Prelude.{◌≡◌, [], ◌∷◌, ◌++◌, IsTrue, IfOk};
ghost use Rattle.exr_outside.specs.Count.{CountsFailure, CountsReturn};
ghost use Rattle.exr_outside.specs.Files.{FilesMeaning, NotesName, IsNewSource, IsNewSink};

use crate::{Sink, Source, World};
use exr_base::{Failed, Refusal};

/// The files of a world. It hands out sources and sinks, which are given back, and counts failures of its own calls
/// and of what was given back. As for a source, `means.tells` says whether contracts know the names that were asked for
/// and what was given back.
pub trait Files<W: World> {
    type In: Source;

    type Out: Sink;

    ghost means: { FilesMeaning Self };

    /// Opens a file to be read. A name that is not there is a failure.
    fn open(&mut self, name: &str) -> Result<Self::In, Refusal<Failed>>
        ensures fresh { IfOk result (IsNewSource Self.In.means name.now) }
        ensures content { IsTrue Self.In.means.tells
            → IfOk result (λ source. Self.In.means.content source ≡ W.bytes_of name.now) }
        ensures asked { IsTrue means.tells
            → NotesName result name.now (means.opened self.old) (means.opened self.new) }
        ensures kept { IsTrue means.tells → means.kept self.new ≡ means.kept self.old }
        ensures created { IsTrue means.tells → means.created self.new ≡ means.created self.old }
        ensures cause { CountsFailure (means.read_faults self.old) (means.read_faults self.new) result }
        ensures write_faults { means.write_faults self.new ≡ means.write_faults self.old };

    /// Creates a file that holds nothing yet, in place of one of that name.
    fn create(&mut self, name: &str) -> Result<Self::Out, Refusal<Failed>>
        ensures fresh { IfOk result (IsNewSink Self.Out.means name.now) }
        ensures empty { IsTrue Self.Out.means.tells → IfOk result (λ sink. Self.Out.means.holds sink ≡ []) }
        ensures asked { IsTrue means.tells
            → NotesName result name.now (means.created self.old) (means.created self.new) }
        ensures kept { IsTrue means.tells → means.kept self.new ≡ means.kept self.old }
        ensures opened { IsTrue means.tells → means.opened self.new ≡ means.opened self.old }
        ensures cause { CountsFailure (means.write_faults self.old) (means.write_faults self.new) result }
        ensures read_faults { means.read_faults self.new ≡ means.read_faults self.old };

    /// Takes a source back.
    fn back_in(&mut self, source: Self::In)
        ensures kept { IsTrue means.tells → means.kept self.new ≡ means.kept self.old }
        ensures opened { IsTrue means.tells → means.opened self.new ≡ means.opened self.old }
        ensures created { IsTrue means.tells → means.created self.new ≡ means.created self.old }
        ensures cause { CountsReturn (Self.In.means.faults source) (means.read_faults self.old) (means.read_faults self.new) }
        ensures write_faults { means.write_faults self.new ≡ means.write_faults self.old };

    /// Takes a sink back, and keeps what it held under its name.
    fn back_out(&mut self, sink: Self::Out)
        ensures kept { IsTrue means.tells
            → means.kept self.new ≡ means.kept self.old ++ (Self.Out.means.name sink, Self.Out.means.holds sink) ∷ [] }
        ensures opened { IsTrue means.tells → means.opened self.new ≡ means.opened self.old }
        ensures created { IsTrue means.tells → means.created self.new ≡ means.created self.old }
        ensures cause { CountsReturn (Self.Out.means.faults sink) (means.write_faults self.old) (means.write_faults self.new) }
        ensures read_faults { means.read_faults self.new ≡ means.read_faults self.old };

    /// How often an `open` failed or a source came back that had failed; at `u64::MAX` the count stands still.
    fn read_faults(&self) -> u64
        ensures { result ≡ means.read_faults self.now };

    /// How often a `create` failed or a sink came back that had failed; at `u64::MAX` the count stands still.
    fn write_faults(&self) -> u64
        ensures { result ≡ means.write_faults self.now };
}
