//! A sink that takes one byte a call.

ghost use Rattle.std.specs.Prelude.{[], false};

use exr_base::Failed;
use exr_outside::{Printer, Sink};

/// What was written to it, and how often a call has failed. Contracts do not know what it holds.
#[derive(Drop)]
pub struct OneByte {
    pub bytes: Vec<u8>,
    pub faults: u64,
}

impl Printer for OneByte {
    ghost means = { record {
      tells = false;
      name = λ _. [];
      holds = λ _. [];
      faults = λ s. s.faults;
    } };

    fn append(&mut self, bytes: &[u8]) -> Result<usize, Failed> {
        let Some(first) = bytes.first() else {
            return Ok(0);
        };
        if self.bytes.push(*first).is_err() {
            self.faults = self.faults.saturating_add(1);
            return Err(Failed);
        }
        Ok(1)
    }

    fn faults(&self) -> u64 {
        self.faults
    }
}

impl Sink for OneByte {
    fn name(&self) -> &str {
        ""
    }

    fn write_at(&mut self, pos: u64, bytes: &[u8]) -> Result<usize, Failed> {
        let Some(first) = bytes.first() else {
            return Ok(0);
        };
        match self.bytes.get_mut(pos as usize) {
            Some(place) => {
                *place = *first;
                Ok(1)
            }
            None => {
                self.faults = self.faults.saturating_add(1);
                Err(Failed)
            }
        }
    }
}
