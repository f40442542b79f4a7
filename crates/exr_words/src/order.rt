//! What a command line asks for, or where it is invalid.

ghost use Rattle.std.specs.Prelude.{◌≡◌, ◌≤◌, List, length, map, option_map, string_bytes};
ghost use Rattle.exr_words.specs.Command.{first_of, some_names};

use exr_asked::Choices;
use std::marker::Model;
use thiserror::Error;

/// The first word that is invalid (own).
#[derive(Clone, Copy, Debug, PartialEq, Eq, Error)]
#[error("word {position}")]
pub struct WordFault {
    /// Its position, counted from 0; the number of words where a required one is missing.
    pub position: u32,
}

/// The names of input files in their order, at least one.
#[derive(Drop, Debug)]
pub struct Inputs {
    pub(crate) names: Vec<String>,
}

impl Model for Inputs {
    ghost use Rattle.std.specs.Prelude.{ℕ, ◌≤◌, List, length, map, string_bytes};

    ghost Value = { List (List ℕ) };

    ghost view = { λ i. map string_bytes i.names.items };

    ghost invariant = { λ i. 1 ≤ length i.names.items };
}

impl Inputs {
    /// Some names; `None` where there are none.
    pub(crate) fn new(names: Vec<String>) -> Option<Inputs>
        ensures { result ≡ some_names (map string_bytes names.items) }
    {
        if names.is_empty() {
            return None;
        }
        Some(Inputs { names })
    }

    /// The first name.
    pub fn first(&self) -> &str
        ensures { result.now ≡ first_of self.now }
    {
        self.names[0].as_str()
    }
}

/// What the words ask for.
#[derive(Drop, Debug)]
pub enum Order {
    /// Print the text of a file's head.
    Header {
        inputs: Inputs,
    },
    /// Test all chunks of a file.
    Check {
        inputs: Inputs,
        /// How many threads unpack chunks, 1 to 16, where it was given.
        workers: Option<u32>,
    },
    /// Write the samples of a part of a file into another file.
    Extract {
        inputs: Inputs,
        output: String,
        /// The coordinates of a window are within 2^30 of 0, channels are 1 to 1,024, padding is at most 65,535 bytes, and
        /// workers are 1 to 16.
        choices: Choices,
    },
}
