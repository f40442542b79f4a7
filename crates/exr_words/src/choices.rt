//! The values of the keys that choose samples.

ghost use Rattle.std.specs.Prelude.{◌≡◌, IfOk, Some, None, if◌then◌else◌};
ghost use Rattle.exr_asked.specs.Choices.{choices_in};
ghost use Rattle.exr_words.specs.Fields.{chosen};

use crate::channels::channels;
use crate::fields::place;
use crate::layout::arrangement;
use crate::names::Choice;
use crate::number::{byte, number_within};
use crate::window::window;
use exr_asked::Choices;
use exr_base::NoMemory;
use std::alloc::Global;

/// The most bytes of padding.
const GREATEST_PAD: u32 = 65_535;

/// The most threads that read.
const MOST_WORKERS: u32 = 16;

/// Puts the value of a key into its field. False where it is invalid for the key, or the key was given before.
pub(crate) fn choose(
    choices: &mut Choices,
    alloc: Global,
    key: Choice,
    text: &str,
) -> Result<bool, NoMemory>
    ensures { IfOk result (λ done. chosen key text.now (choices_in choices.old)
        ≡ (if done then Some (choices_in choices.new) else None)) }
{
    let bytes = text.as_bytes();
    Ok(match key {
        Choice::Part => place(&mut choices.part, number_within(bytes, 0, u32::MAX)),
        Choice::Window => place(&mut choices.window, window(text)),
        Choice::Layout => place(&mut choices.layout, arrangement(text)),
        Choice::Channels => place(&mut choices.channels, channels(alloc, text)?),
        Choice::Pad => place(&mut choices.pad, number_within(bytes, 0, GREATEST_PAD)),
        Choice::Fill => place(&mut choices.fill, number_within(bytes, 0, u32::MAX)),
        Choice::Byte => place(&mut choices.byte, byte(bytes)),
        Choice::Workers => place(&mut choices.workers, number_within(bytes, 1, MOST_WORKERS)),
    })
}
