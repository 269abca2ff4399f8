//! Which kind a term has, if it has one.
#![tactic(auto)]

mod enter;
pub mod kinds;
mod search;
mod tasks;
