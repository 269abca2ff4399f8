//! What typing says at the instructions of an accepted program, and how much potential it asks for there.
#![tactic(auto)]

mod along;
pub mod found_places;
pub mod place;
mod potentials;
mod spares;
