//! How firings come to rest that are made one after another, at most so many.

use nomos_ir::fault::Fault;

/// Why no further process is fired.
#[derive(Clone, Copy, PartialEq, Eq, Debug)]
pub enum Rest {
    /// No process is ready.
    Quiet,
    /// The next process, of this number, has a fault.
    Faulted(u32, Fault),
    /// As many were made as may be, and a process is ready still, which may have a fault.
    Steps,
}
