//! Tests of what a call reads and writes beside contracts: scripts and talks, its words, the generated load, sources
//! and sinks; and of columns and what is kept in them.
#![tactic(auto)]

#[cfg(test)]
mod column_tests;
#[cfg(test)]
mod file_tests;
#[cfg(test)]
mod load_tests;
#[cfg(test)]
mod memory_tests;
#[cfg(test)]
mod numbered_tests;
#[cfg(test)]
#[cfg(test)]
mod script_tests;
#[cfg(test)]
mod shelf_tests;
#[cfg(test)]
mod talk_tests;
#[cfg(test)]
mod word_tests;
