//! One kind of call of an object in memory: which of them are to fail, counted from 0.

ghost use Rattle.std.specs.Prelude.{◌≡◌, ◌↔◌, IsErr, IsTrue};
ghost use Rattle.exr_outside.specs.Count.{HasCause};
ghost use Rattle.exr_outside.specs.Fakes.{IsNamed, counted, faults_after};

use crate::counts::count_failure;
use exr_base::Failed;
use std::marker::Model;

/// The calls of one kind: the numbers of those that are to fail, and how many were made.
#[derive(Drop)]
pub struct Calls {
    fails: Vec<u64>,
    made: u64,
}

impl Model for Calls {
    ghost use Rattle.exr_outside.specs.Fakes.{CallState};

    ghost Value = { CallState };

    ghost view = { λ c. record { fails = c.fails.items; made = c.made } };
}

impl Calls {
    /// No call was made yet.
    pub fn new(fails: Vec<u64>) -> Calls
        ensures { result ≡ record { fails = fails.items; made = 0 } }
    {
        Calls { fails, made: 0 }
    }

    /// Counts a call, and says whether it is one that is to fail.
    pub fn is_next_named(&mut self) -> bool
        ensures named { IsTrue result ↔ IsNamed self.old }
        ensures counted { self.new ≡ counted self.old }
    {
        let named = self.fails.contains(&self.made);
        self.made = self.made.saturating_add(1);
        named
    }

    /// Makes a call: it fails where it is one that is to fail, and is then counted as a failure.
    pub fn make(&mut self, faults: &mut u64) -> Result<(), Failed>
        ensures fails { IsErr result ↔ IsNamed self.old }
        ensures counted { self.new ≡ counted self.old }
        ensures faults { faults.new ≡ faults_after result faults.old }
        ensures cause { HasCause faults.old faults.new result }
    {
        if self.is_next_named() {
            count_failure(faults);
            return Err(Failed);
        }
        Ok(())
    }
}
