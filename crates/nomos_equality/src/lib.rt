//! Whether two types are equal, and whether a shared type is synchronizing, and between which pairs of amounts that
//! needs equality.
#![tactic(auto)]

mod amount_table;
pub mod carriers;
mod choices;
mod constructor;
mod continuation_walk;
mod continuations;
mod difference;
pub mod equalities;
pub mod equality;
mod free_types;
pub mod hop;
mod known;
pub mod node_parts;
mod pair_table;
mod reach;
pub mod synchronizing;
mod told_pairs;
mod type_classes;
