//! Runs of contracts on forms of the state, one firing after another, and tests of them; and tests of the indexed form
//! by itself.
#![tactic(auto)]

#[cfg(test)]
mod expecting;
#[cfg(test)]
mod form_tests;
#[cfg(test)]
mod indexed_tests;
#[cfg(test)]
mod outcome_tests;
#[cfg(test)]
mod room_tests;
#[cfg(test)]
mod run_tests;
pub mod runner;
pub mod seen;
#[cfg(test)]
mod sharing_tests;
#[cfg(test)]
mod state_tests;
pub mod transactions;
