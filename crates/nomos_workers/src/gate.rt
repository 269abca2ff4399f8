//! Gates: what a worker calls before it evaluates a term outside its turn.

/// What a worker calls while it has no turn, before it evaluates the terms of a process. One worker alone never does.
pub trait Gate: Sync {
    /// The worker, by the number of its pass, is about to evaluate the terms of this process.
    fn before_eval(&self, worker: u32, pid: u32);
}

/// The gate that does nothing.
#[derive(Clone, Copy, Drop, Debug)]
pub struct OpenGate;

impl Gate for OpenGate {
    fn before_eval(&self, _worker: u32, _pid: u32) {}
}
