//! Whether plain data are those of a typed state, part by part.
#![tactic(auto)]

mod both;
pub mod fitting;
pub mod founded;
mod heads;
mod leading;
mod likeness;
pub mod message_types;
mod named_by;
mod once;
pub mod owning;
pub mod placing;
pub mod purses;
pub mod sections;
mod tie;
mod told;
pub mod typed;
mod worth;
