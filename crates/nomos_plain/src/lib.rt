//! The plain form of a state: lists, which are scanned.
#![tactic(auto)]

mod changing;
mod coming;
mod copying;
mod finds;
mod outside;
pub mod plain;
mod plain_object;
mod plain_parts;
mod readers;
mod redirecting;
mod small_changes;
mod weights;
