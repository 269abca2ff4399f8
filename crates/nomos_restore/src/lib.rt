//! States are made of plain data by small changes, object by object, however they are kept.
#![tactic(auto)]

mod accounts;
pub mod building;
mod names;
mod objects;
pub mod restoring;
