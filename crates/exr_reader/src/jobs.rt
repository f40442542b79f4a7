//! Telling a gate of each job, before it begins and when it is done.

ghost use Rattle.std.specs.Prelude.{◌≡◌};

use exr_outside::Gate;

/// A gate that is told of one job after the other: none begins before the one before it is done.
pub(crate) struct Jobs<'a, G> {
    gate: &'a G,
    /// The job that has begun and is not done.
    begun: Option<u32>,
}

impl<'a, G: Gate> Jobs<'a, G> {
    pub fn new(gate: &'a G) -> Jobs<'a, G>
        ensures { result.begun ≡ None }
    {
        Jobs { gate, begun: None }
    }

    /// Passes the gate before a job.
    pub fn begin(&mut self, job: u32)
        requires { self.old.begun ≡ None }
        ensures { self.new.begun ≡ Some job }
    {
        self.gate.pass(job, false);
        self.begun = Some(job);
    }

    /// Passes the gate after the job.
    pub fn end(&mut self, job: u32)
        requires { self.old.begun ≡ Some job }
        ensures { self.new.begun ≡ None }
    {
        self.gate.pass(job, true);
        self.begun = None;
    }

    /// No job follows.
    pub fn close(self)
        requires { self.begun ≡ None }
    {
        let Jobs {
            gate: _gate,
            begun: _begun,
        } = self;
    }
}
