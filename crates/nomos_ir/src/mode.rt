//! The modes of types and processes.

/// The mode of a type or a process.
#[derive(Clone, Copy, PartialEq, Eq, Debug)]
pub enum Mode {
    /// A linear asset.
    R,
    /// A shared contract that waits to be acquired.
    S,
    /// A contract while one client holds it.
    L,
    /// A transaction.
    T,
}
