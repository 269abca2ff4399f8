//! Talks of an outside party on one channel.
#![tactic(auto)]

mod opener;
pub mod outside_talk;
pub mod rested;
mod running;
pub mod talk_refusal;
