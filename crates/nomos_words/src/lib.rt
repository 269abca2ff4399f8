//! The words of a call, the load that `bench` runs, and the summary that it prints.
#![tactic(auto)]

mod auction;
mod counted;
pub mod job;
pub mod load;
mod number_words;
mod options;
pub mod summary;
pub mod usage;
pub mod workers;
