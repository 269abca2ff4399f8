//! Contracts as they are read of a ledger.

/// A contract: its name, and its shared name.
#[derive(Clone, Copy, Debug)]
pub struct Named<'a> {
    pub name: &'a str,
    pub shared: u32,
}
