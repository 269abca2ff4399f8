//! The turn lock: one work that threads take in turns, and the one history of what they add to it.
#![tactic(auto)]

pub mod crew;
pub mod floor;
mod rule;
pub mod shared_work;
#[cfg(test)]
mod tests;
mod view;
