//! A source of bytes that is read by position.

ghost use Rattle.std.specs.Prelude.{◌≡◌, ◌≤◌, IsTrue, IfOk, length};
ghost use Rattle.exr_outside.specs.Count.{HasCause};
ghost use Rattle.exr_outside.specs.Source.{SourceMeaning, IsSameSource, ReadsPiece};

use exr_base::Failed;

/// A file that is read by position. It has a name that no call changes, and it counts its failures.
///
/// A type of sources says by `means.tells` whether contracts know what its sources hold. A source in memory tells its
/// content, which then stays the same, and every read is of that content; a file of the system does not, since another
/// program may change it, and then no clause about content says anything.
pub trait Source {
    ghost means: { SourceMeaning Self };

    /// The name.
    fn name(&self) -> &str
        ensures { result.now ≡ means.name self.now };

    /// The number of bytes.
    fn len(&mut self) -> Result<u64, Failed>
        ensures length { IsTrue means.tells → IfOk result (λ n. n ≡ length (means.content self.old)) }
        ensures same { IsSameSource means self.old self.new }
        ensures cause { HasCause (means.faults self.old) (means.faults self.new) result };

    /// Reads bytes from a position on into the front of `into`, and answers how many. 0 is the end of the input, or
    /// an empty `into`. After `Failed` the bytes in `into` are any.
    fn read_at(&mut self, pos: u64, into: &mut [u8]) -> Result<usize, Failed>
        ensures piece { IsTrue means.tells
            → IfOk result (λ count. ReadsPiece (means.content self.old) pos into.old into.new count) }
        ensures bound { IfOk result (λ count. count ≤ length into.old) }
        ensures same { IsSameSource means self.old self.new }
        ensures cause { HasCause (means.faults self.old) (means.faults self.new) result };

    /// How often a call has failed; at `u64::MAX` the count stands still.
    fn faults(&self) -> u64
        ensures { result ≡ means.faults self.now };
}
