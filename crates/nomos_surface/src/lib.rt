//! The tree of a contract text, with the offsets of all that an answer may name.
#![tactic(auto)]

pub mod codes;
pub mod declarations;
pub mod name_at;
pub mod potential;
pub mod steps;
pub mod surface;
pub mod terms;
pub mod types;
pub mod value_type;
