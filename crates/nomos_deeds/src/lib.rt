//! What a process of the machine does, worked out once for every form in which a state is kept.
#![tactic(auto)]

pub mod act;
pub mod acting;
mod alone;
mod arms;
pub mod awaiting;
mod decide;
pub mod deeds;
pub mod fire;
mod firing;
pub mod machine;
mod outcomes;
mod receiving;
mod sending;
mod sharing;
pub mod sight;
pub mod talking;
pub mod undo;
pub mod unfolded_types;
mod value_copies;
pub mod value_kinds;
