//! Parsing the words of a command line from left to right: the command, followed by its keys with their values (own).

ghost use Rattle.std.specs.Prelude.{◌≡◌, ◌+◌, ◌^◌, ◌<◌, IfOk, length, Some, None, option_map, if◌then◌else◌};
ghost use Rattle.exr_base.specs.Refusal.{Gives};
ghost use Rattle.exr_words.specs.Command.{command_in};
ghost use Rattle.exr_words.specs.Fields.{nothing};
ghost use Rattle.exr_words.specs.Limits.{IsWithin};
ghost use Rattle.exr_words.specs.Words.{texts_of, fields_with, command_with, or_fault_at, read_from, command_of};
ghost use Rattle.exr_words.specs.Views.{fields_in};

use crate::fields::Fields;
use crate::names::{Verb, key_of, takes, verb_of};
use crate::order::{Inputs, Order, WordFault};
use exr_base::{NoMemory, Refusal};
use std::alloc::Global;

/// Parses the words of a command line; the fault is the position of the first invalid word.
///
/// The first word is the command, each other one a key, `=` and a value that is not empty: `header in=NAME`; or
/// `check in=NAME`, which may have the key `workers=NUMBER` from 1 to 16; or `extract in=NAME out=NAME`, which may have that
/// key too and `part=NUMBER` below 2^32, `window=X0,Y0,X1,Y1` of numbers up to 2^30 that may have a `-`,
/// `layout=planar|lines|pixels`, `channels=NAME,NAME:uint|half|float` of 1 to 1,024 names, `pad=NUMBER` up to 65,535,
/// `fill=NUMBER` below 2^32 and `byte=NUMBER` up to 255. The keys are in any order, each at most once. A number has 1 to 20
/// digits; the name of a channel has 1 to 255 bytes, none of them a comma, a colon or zero.
pub fn read_words(alloc: Global, words: &[String]) -> Result<Order, Refusal<WordFault>>
    requires { length words.now < 2 ^ 32 }
    ensures exact { Gives command_in result (command_of (texts_of words.now)) }
    ensures within { IfOk result (λ order. IsWithin (command_in order)) }
{
    let Some((command, keys)) = words.split_first() else {
        return Err(Refusal::Fault(WordFault { position: 0 }));
    };
    let Some(verb) = verb_of(command.as_str()) else {
        return Err(Refusal::Fault(WordFault { position: 0 }));
    };
    read_keys(alloc, verb, keys)
}

/// Parses the words that follow a command, which is word 0.
fn read_keys(alloc: Global, verb: Verb, keys: &[String]) -> Result<Order, Refusal<WordFault>>
    requires { length keys.now + 1 < 2 ^ 32 }
    ensures { Gives command_in result (read_from verb 1 nothing (texts_of keys.now)) }
{
    let mut fields = Fields::new(alloc);
    let mut position = 1;
    for word in keys {
        read_word(alloc, verb, &mut fields, word.as_str(), position)?;
        position += 1;
    }
    finished(verb, fields, position)
}

/// Parses the word at a position.
fn read_word(
    alloc: Global,
    verb: Verb,
    fields: &mut Fields,
    word: &str,
    position: u32,
) -> Result<(), Refusal<WordFault>>
    ensures { Gives (λ _. fields_in fields.new) result
        (or_fault_at position (fields_with verb (fields_in fields.old) word.now)) }
{
    if read(alloc, verb, fields, word)? {
        Ok(())
    } else {
        Err(Refusal::Fault(WordFault { position }))
    }
}

/// Puts the value of a word into its field. False where the word is invalid.
fn read(alloc: Global, verb: Verb, fields: &mut Fields, word: &str) -> Result<bool, NoMemory>
    ensures { IfOk result (λ done. fields_with verb (fields_in fields.old) word.now
        ≡ (if done then Some (fields_in fields.new) else None)) }
{
    let Some((name, value)) = word.split_once('=') else {
        return Ok(false);
    };
    let Some(key) = key_of(name) else {
        return Ok(false);
    };
    if !takes(verb, key) || value.is_empty() {
        return Ok(false);
    }
    fields.put(alloc, verb, key, value)
}

/// What the command asks for; where a required key is missing the fault is at the position after the last word.
fn finished(verb: Verb, fields: Fields, position: u32) -> Result<Order, Refusal<WordFault>>
    ensures { Gives command_in result (or_fault_at position (command_with verb (fields_in fields))) }
{
    order(verb, fields).ok_or(Refusal::Fault(WordFault { position }))
}

/// What the command asks for, where it has all that it requires.
fn order(verb: Verb, fields: Fields) -> Option<Order>
    ensures { option_map command_in result ≡ command_with verb (fields_in fields) }
{
    let inputs = Inputs::new(fields.inputs)?;
    Some(match verb {
        Verb::Header => Order::Header { inputs },
        Verb::Check => Order::Check {
            inputs,
            workers: fields.choices.workers,
        },
        Verb::Extract => Order::Extract {
            inputs,
            output: fields.output?,
            choices: fields.choices,
        },
    })
}
