//! The rows of a whole program: what its amounts have to meet, where each of its parts has a skeleton.
#![tactic(auto)]

mod declaration_rows;
mod first_fault;
mod functions;
mod processes;
pub mod program_rows;
mod shared_types;
