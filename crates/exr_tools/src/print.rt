//! What a command prints.

ghost use Rattle.std.specs.Prelude.{◌≡◌, ◌++◌, ◌≤◌, ◌≢◌, IsTrue, IfErr, OnOk, OnErr};
ghost use Rattle.exr_outside.specs.Count.{Rose};
ghost use Rattle.exr_outside.specs.Sink.{AddsPrefix};
ghost use Rattle.exr_tools.specs.Run.{HasReason};

use crate::stop::Stop;
use exr_outside::{Printer, append_all};

/// Prints a text.
pub fn print<O: Printer>(out: &mut O, text: &[u8]) -> Result<(), Stop>
    ensures printed { IsTrue O.means.tells → OnOk result (O.means.holds out.new ≡ O.means.holds out.old ++ text.now) }
    ensures begun { IsTrue O.means.tells → OnErr result (AddsPrefix text.now (O.means.holds out.old) (O.means.holds out.new)) }
    ensures reason { IfErr result (λ stop. HasReason stop (λ _. ⊥) (λ _. ⊥) ⊥
        (Rose (O.means.faults out.old) (O.means.faults out.new))) }
    ensures write { IfErr result (λ stop. stop ≡ Stop.Write) }
{
    match append_all(out, text) {
        Ok(()) => Ok(()),
        Err(_) => Err(Stop::Write),
    }
}
