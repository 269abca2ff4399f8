//! Tests of what is done with a ledger beside running scripts on it: talks of an outside party; snapshots, line by line
//! and whole; pools to which threads submit, and scripts whose single lines they submit.
#![tactic(auto)]

#[cfg(test)]
mod accepted_texts;
#[cfg(test)]
mod carried_tests;
#[cfg(test)]
mod changed_tests;
#[cfg(test)]
mod gates;
#[cfg(test)]
mod held_tests;
#[cfg(test)]
mod holding;
#[cfg(test)]
mod line_tests;
#[cfg(test)]
mod load_answer;
#[cfg(test)]
mod loading_tests;
#[cfg(test)]
mod opening;
#[cfg(test)]
mod opening_tests;
#[cfg(test)]
mod pool_tests;
#[cfg(test)]
mod pooled_run_tests;
#[cfg(test)]
mod pooled_tests;
#[cfg(test)]
mod programs;
#[cfg(test)]
mod saved_contracts;
#[cfg(test)]
mod talk_answers;
#[cfg(test)]
mod talk_contracts;
