//! The one walk over a script, item by item, from any ledger; who fires its batches is left to the caller.
#![tactic(auto)]

pub mod entries;
mod entry_text;
pub mod last_result;
pub mod papers;
pub mod sheet;
pub mod started;
pub mod walk;
