//! What is due where a saved ledger is carried on by a script, renumbered, or its next numbers told.
#![tactic(auto)]

pub mod carrying;
mod dense;
pub mod numbering;
pub mod renumbering;
