//! A gate that is told of each job before and after it, so that a test can hold the caller there.

/// What callers pass before (`done` is false) and after (`done` is true) each job. It returns, and means nothing.
pub trait Gate: Sync {
    fn pass(&self, job: u32, done: bool);
}

/// A gate that holds nobody.
pub struct PlainGate;

impl Gate for PlainGate {
    fn pass(&self, _job: u32, _done: bool) {}
}
