//! What a firing answers.

use nomos_ir::fault::Fault;

/// What a firing answers.
#[derive(Clone, Copy, Debug)]
pub enum Fire {
    /// The process made its step.
    Fired,
    /// Its instruction has this fault, and nothing changed.
    Faulted(Fault),
}
