//! Acts as small changes of a state, worked out once for every form in which a state is kept.
#![tactic(auto)]

mod acts_alone;
mod beginning;
mod begins_with;
mod calling;
mod given;
mod leaving;
pub mod list_change;
mod messages;
mod messaging;
pub mod newborn;
pub mod outside;
pub mod pairs;
pub mod parts;
pub mod performing;
mod plain_fields;
pub mod process_lists;
mod revising;
mod revision;
mod sharing;
mod spawning;
pub mod starting;
pub mod talking;
