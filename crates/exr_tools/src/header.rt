//! The command `header`: the text of a file's head.

ghost use Rattle.std.specs.Prelude.{◌≡◌, ◌≤◌, IsTrue, IfOk, IfErr, OnOk};
ghost use Rattle.exr_outside.specs.Count.{Rose};
ghost use Rattle.exr_outside.specs.Source.{IsSameSource};
ghost use Rattle.exr_tools.specs.Output.{Does, Leaves};
ghost use Rattle.exr_tools.specs.Run.{IsTextOf, GivesText, IsFaulty, HasReason, AsksAtMost};
ghost use Rattle.exr_tools.specs.Scene.{told_of, scene_of};

use crate::print::print;
use crate::stop::{Stop, opening_stop};
use exr_base::{Failed, Refusal};
use exr_header::show_head;
use exr_opening::open_head;
use exr_outside::{Files, Printer, Source, World};
use std::alloc::Global;

/// The text of the head of a source, which is the input of this number, counted from 0.
fn text_of<S: Source>(alloc: Global, source: &mut S, file: u32) -> Result<Vec<u8>, Stop>
    ensures text { IsTrue S.means.tells → IfOk result (λ text. IsTextOf (S.means.content source.old) text.items) }
    ensures same { IsSameSource S.means source.old source.new }
    ensures later { S.means.faults source.old ≤ S.means.faults source.new }
    ensures reason { IfErr result (λ stop. HasReason stop (λ _. ⊥)
        (λ due. IsTrue S.means.tells → IsFaulty due file (S.means.content source.old))
        (Rose (S.means.faults source.old) (S.means.faults source.new)) ⊥) }
{
    match open_head(alloc, source) {
        Ok(opened) => Ok(show_head(alloc, &opened.head)?),
        Err(refusal) => Err(opening_stop(file, refusal)),
    }
}

/// The text of the head of the file of a name.
fn file_text<W: World, F: Files<W>>(
    alloc: Global,
    files: &mut F,
    name: &str,
    file: u32,
) -> Result<Vec<u8>, Stop>
    ensures text { IsTrue F.In.means.tells → IfOk result (λ text. IsTextOf (W.bytes_of name.now) text.items) }
    ensures opened { IsTrue F.means.tells → AsksAtMost (F.means.opened files.old) (F.means.opened files.new) name.now }
    ensures created { IsTrue F.means.tells → F.means.created files.new ≡ F.means.created files.old }
    ensures kept { IsTrue F.means.tells → F.means.kept files.new ≡ F.means.kept files.old }
    ensures reason { IfErr result (λ stop. HasReason stop (λ _. ⊥)
        (λ due. IsTrue F.In.means.tells → IsFaulty due file (W.bytes_of name.now))
        (Rose (F.means.read_faults files.old) (F.means.read_faults files.new)) ⊥) }
{
    match files.open(name) {
        Ok(mut source) => {
            let text = text_of(alloc, &mut source, file);
            files.back_in(source);
            text
        }
        Err(Refusal::Fault(Failed)) => Err(Stop::Read),
        Err(Refusal::NoMemory) => Err(Stop::NoMemory),
    }
}

/// Prints the text of a file's head.
pub fn header<W: World, F: Files<W>, O: Printer>(
    alloc: Global,
    files: &mut F,
    out: &mut O,
    input: &str,
    file: u32,
) -> Result<(), Stop>
    ensures done { OnOk result (Does (told_of F.In.means F.means F.Out.means O.means) (GivesText (W.bytes_of input.now))
        (scene_of F.means O.means files.old out.old) (scene_of F.means O.means files.new out.new)) }
    ensures left { IfErr result (λ stop. Leaves stop (told_of F.In.means F.means F.Out.means O.means) (GivesText (W.bytes_of input.now))
        (scene_of F.means O.means files.old out.old) (scene_of F.means O.means files.new out.new)) }
    ensures opened { IsTrue F.means.tells → AsksAtMost (F.means.opened files.old) (F.means.opened files.new) input.now }
    ensures created { IsTrue F.means.tells → F.means.created files.new ≡ F.means.created files.old }
    ensures kept { IsTrue F.means.tells → F.means.kept files.new ≡ F.means.kept files.old }
    ensures reason { IfErr result (λ stop. HasReason stop (λ _. ⊥)
        (λ due. IsTrue F.In.means.tells → IsFaulty due file (W.bytes_of input.now))
        (Rose (F.means.read_faults files.old) (F.means.read_faults files.new))
        (Rose (O.means.faults out.old) (O.means.faults out.new))) }
{
    let text = file_text::<W, F>(alloc, files, input, file)?;
    print(out, &text)
}
