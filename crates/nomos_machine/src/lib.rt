//! What it is to run contracts: states, what a process does where it stands, and which states are typed.
#![tactic(auto)]

pub mod object;
pub mod policy;
pub mod rest;
