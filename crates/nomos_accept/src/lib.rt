//! Acceptance of contract texts.
#![tactic(auto)]

pub mod accepting;
mod causes;
pub mod preparing;
pub mod why;
