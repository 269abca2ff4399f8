//! A machine that is moved as a pointer, made out of any machine that can go back to a state that was marked.
#![tactic(auto)]

pub mod boxed;
mod boxed_acting;
mod boxed_contents;
mod boxed_machine;
mod boxed_sight;
mod boxed_talking;
mod boxed_undo;
