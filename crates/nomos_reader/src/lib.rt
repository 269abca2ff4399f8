//! From the bytes of a contract text to its tree, by its tokens.
#![tactic(auto)]

mod chain;
mod code_reader;
mod decl_reader;
pub mod parse;
mod step_reader;
mod term_reader;
mod tokens;
pub mod tree_reading;
mod type_reader;
mod value_type_reader;
