//! What ledgers and batches are, which journals of a script are legal, and what holds of every one that is.
#![tactic(auto)]

pub mod journal;
pub mod refusal;
pub mod resolved;
