//! Tests of what reads, checks and solves contracts: texts against the grammar, terms, types, whole programs, rows.
#![tactic(auto)]

#[cfg(test)]
mod carry_tests;
#[cfg(test)]
mod equality_tests;
#[cfg(test)]
mod fitting_nodes;
#[cfg(test)]
mod forms;
#[cfg(test)]
mod grammar_tests;
#[cfg(test)]
mod kind_tests;
#[cfg(test)]
mod least_tests;
#[cfg(test)]
mod list_tests;
#[cfg(test)]
mod names_tests;
#[cfg(test)]
mod process_tests;
#[cfg(test)]
mod program_tests;
#[cfg(test)]
mod row_tests;
#[cfg(test)]
mod showing_tests;
#[cfg(test)]
mod sketch;
#[cfg(test)]
mod small_tests;
#[cfg(test)]
mod solve_tests;
#[cfg(test)]
mod sync_tests;
#[cfg(test)]
mod term_programs;
#[cfg(test)]
mod token_tests;
#[cfg(test)]
mod type_program;
#[cfg(test)]
mod value_tests;
