//! Tests of the whole program as a call, over texts in memory.
#![tactic(auto)]

#[cfg(test)]
mod answer_tests;
#[cfg(test)]
mod check_tests;
#[cfg(test)]
mod fault_tests;
#[cfg(test)]
mod served_tests;
#[cfg(test)]
mod snapshot_tests;
#[cfg(test)]
mod top_calls;
