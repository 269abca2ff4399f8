//! Which processes may be ready, kept beside a state, so that the next ready one is found without a walk over all.
#![tactic(auto)]

pub mod awake;
pub mod seeking;
pub mod touch;
mod touching;
pub mod waking;
