//! The grammar of contract texts as a table, and the first token at which a text leaves it.
#![tactic(auto)]

pub mod offence;
mod open_counts;
pub mod part;
mod productions;
mod reader;
mod token_sight;
