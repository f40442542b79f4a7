//! The values of a command's keys so far.

ghost use Rattle.std.specs.Prelude.{◌≡◌, ◌&&◌, IfOk, is_none, is_some, map, string_bytes, Some, None, if◌then◌else◌};
ghost use Rattle.exr_words.specs.Fields.{nothing, added, put};
ghost use Rattle.exr_words.specs.Views.{fields_in};

use crate::choices::choose;
use crate::names::{Key, Verb, repeats};
use exr_asked::Choices;
use exr_base::NoMemory;
use std::alloc::Global;

/// The values so far.
#[derive(Drop)]
pub(crate) struct Fields {
    pub(crate) inputs: Vec<String>,
    pub(crate) output: Option<String>,
    pub(crate) choices: Choices,
}

impl Fields {
    /// Before the first key.
    pub(crate) fn new(alloc: Global) -> Fields
        ensures { fields_in result ≡ nothing }
    {
        Fields {
            inputs: Vec::new(alloc),
            output: None,
            choices: Choices::none(),
        }
    }

    /// Puts the value of a command's key into its field. False where it is invalid for the key, or the key was given before
    /// and may not be repeated.
    pub(crate) fn put(
        &mut self,
        alloc: Global,
        verb: Verb,
        key: Key,
        text: &str,
    ) -> Result<bool, NoMemory>
        ensures { IfOk result (λ done. put verb key text.now (fields_in self.old)
            ≡ (if done then Some (fields_in self.new) else None)) }
    {
        match key {
            Key::In => add(alloc, &mut self.inputs, text, repeats(verb, key)),
            Key::Out => Ok(place(&mut self.output, Some(String::from_str(alloc, text)?))),
            Key::Choice(choice) => choose(&mut self.choices, alloc, choice, text),
        }
    }
}

/// Puts a value where none was given before. False where there is no value, or one was given.
pub(crate) fn place<T: Drop>(field: &mut Option<T>, value: Option<T>) -> bool
    ensures done { result ≡ (is_none field.old && is_some value) }
    ensures after { field.new ≡ (if result then value else field.old) }
{
    if field.is_some() || value.is_none() {
        return false;
    }
    *field = value;
    true
}

/// Appends a name. False where one was given before and the key may not be repeated.
fn add(alloc: Global, names: &mut Vec<String>, name: &str, repeats: bool) -> Result<bool, NoMemory>
    ensures { IfOk result (λ done. added repeats (map string_bytes names.old.items) name.now
        ≡ (if done then Some (map string_bytes names.new.items) else None)) }
{
    if !repeats && !names.is_empty() {
        return Ok(false);
    }
    names.push(String::from_str(alloc, name)?)?;
    Ok(true)
}
