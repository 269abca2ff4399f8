//! The tokens of a contract text.
#![tactic(auto)]

mod bytes;
mod pieces;
mod reserved_words;
pub mod scan;
pub mod symbol;
pub mod token;
