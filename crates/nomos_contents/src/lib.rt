//! What a state of the machine consists of, as plain data, and machines that give it and are made of it.
#![tactic(auto)]

pub mod contents;
pub mod data;
