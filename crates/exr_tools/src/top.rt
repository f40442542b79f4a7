//! The top call: a command from its words to its printed line.

ghost use Rattle.std.specs.Prelude.{◌≡◌, ◌⊎◌, ◌<◌, ◌^◌, ℕ, IsTrue, IfErr, OnOk, length, Ok};
ghost use Rattle.exr_outside.specs.Count.{Rose};
ghost use Rattle.exr_words.specs.Command.{Command};
ghost use Rattle.exr_words.specs.Words.{texts_of, command_of, fault_at};
ghost use Rattle.exr_tools.specs.declared.stop.Stop.{Stop as AnyStop};
ghost use Rattle.exr_tools.specs.Output.{IsUntouched, Leaves};
ghost use Rattle.exr_tools.specs.Run.{Obeys, Gives, IsDue, IsSound, HasReason, OwesRise, StopsOr, ByCommand, Opens, Creates, Keeps};
ghost use Rattle.exr_tools.specs.Scene.{told_of, scene_of};

use crate::check::check;
use crate::extract::{Extraction, extract};
use crate::header::header;
use crate::stop::Stop;
use exr_outside::{Files, Gate, Printer, World};
use exr_reader::Work;
use exr_words::{Order, read_words};
use std::alloc::Global;
use std::thread::Threads;

/// Does what the words say: `header in=NAME`, or `check in=NAME` that may have the key `workers`, or `extract in=NAME
/// out=NAME` with any of the keys `part`, `window`, `layout`,
/// `channels`, `pad`, `fill`, `byte` and `workers` (see `exr_words::read_words`).
///
/// Each file that is opened or created is given back before the call returns. Nothing is printed before all else
/// succeeded. `extract` passes the gate before and after it reads each chunk; it works on the calling thread so far.
pub fn run<R: Threads + Sync, W: World, F: Files<W>, O: Printer, G: Gate>(
    rt: &R,
    alloc: Global,
    words: &[String],
    files: &mut F,
    out: &mut O,
    gate: &G,
) -> Result<(), Stop>
    requires { length words.now < 2 ^ 32 }

    // Where the answer is Ok, the words have a command, and what it gives was done: for `extract` just the buffer was written
    // whose samples the file has, and just its line was printed; for `header` just the text of the file's head was printed, and
    // for `check` just the report on all its chunks, none of which has a fault but that its method is not read.
    ensures obeys { OnOk result (Obeys (told_of F.In.means F.means F.Out.means O.means) W.bytes_of (texts_of words.now)
        (scene_of F.means O.means files.old out.old) (scene_of F.means O.means files.new out.new)) }

    // Else nothing was created, kept or printed, unless the command gives something: then its file may have been begun, and
    // after it its text, where printing failed.
    ensures left { IfErr result (λ stop. ByCommand (texts_of words.now)
        (λ command. Leaves stop (told_of F.In.means F.means F.Out.means O.means) (Gives command W.bytes_of)
        (scene_of F.means O.means files.old out.old) (scene_of F.means O.means files.new out.new))
        (IsUntouched (told_of F.In.means F.means F.Out.means O.means)
        (scene_of F.means O.means files.old out.old) (scene_of F.means O.means files.new out.new))) }

    // A faulty list of words is refused at its position, want of memory apart, and each other stop has its reason.
    ensures words { (position : ℕ) → command_of (texts_of words.now) ≡ fault_at position
        → StopsOr result (Stop.Words position) ⊥ ⊥ }
    ensures reason { IfErr result (λ stop. HasReason stop
        (λ position. command_of (texts_of words.now) ≡ fault_at position)
        (λ due. IsTrue F.In.means.tells → ByCommand (texts_of words.now) (λ command. IsDue command W.bytes_of due) ⊥)
        (Rose (F.means.read_faults files.old) (F.means.read_faults files.new))
        (Rose (F.means.write_faults files.old) (F.means.write_faults files.new)
        ⊎ Rose (O.means.faults out.old) (O.means.faults out.new))) }

    // Where no count rose: a stop that the input calls for is the answer, and where it calls for none the answer is Ok;
    // want of memory apart.
    ensures due { IsTrue F.In.means.tells → (command : Command) (due : AnyStop)
        → command_of (texts_of words.now) ≡ Ok command → IsDue command W.bytes_of due → StopsOr result due
        (Rose (F.means.read_faults files.old) (F.means.read_faults files.new))
        (Rose (F.means.write_faults files.old) (F.means.write_faults files.new)
        ⊎ Rose (O.means.faults out.old) (O.means.faults out.new)) }
    ensures complete { IsTrue F.In.means.tells → (command : Command)
        → command_of (texts_of words.now) ≡ Ok command → IsSound command W.bytes_of
        → IfErr result (λ stop. OwesRise stop
        (Rose (F.means.read_faults files.old) (F.means.read_faults files.new))
        (Rose (F.means.write_faults files.old) (F.means.write_faults files.new)
        ⊎ Rose (O.means.faults out.old) (O.means.faults out.new))) }

    // Only the operands' names are asked, and what was created is given back.
    ensures opened { IsTrue F.means.tells → ByCommand (texts_of words.now)
        (λ command. Opens command (F.means.opened files.old) (F.means.opened files.new))
        (F.means.opened files.new ≡ F.means.opened files.old) }
    ensures created { IsTrue F.means.tells → ByCommand (texts_of words.now)
        (λ command. Creates command (F.means.created files.old) (F.means.created files.new))
        (F.means.created files.new ≡ F.means.created files.old) }
    ensures kept { IsTrue F.means.tells → ByCommand (texts_of words.now)
        (λ command. Keeps command (F.means.kept files.old) (F.means.kept files.new))
        (F.means.kept files.new ≡ F.means.kept files.old) }
{
    match read_words(alloc, words)? {
        Order::Header { inputs } => header::<W, F, O>(alloc, files, out, inputs.first(), 0),
        Order::Check { inputs, workers } => {
            let workers = workers.unwrap_or(1);
            let work = Work {
                workers,
                round: workers,
            };
            check::<R, W, F, O>(rt, alloc, files, out, inputs.first(), 0, work)
        }
        Order::Extract {
            inputs,
            output,
            choices,
        } => {
            let extraction = Extraction::new(0, choices);
            extract::<R, W, F, O, G>(
                rt,
                alloc,
                files,
                out,
                inputs.first(),
                output.as_str(),
                &extraction,
                gate,
            )
        }
    }
}
