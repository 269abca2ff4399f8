//! The report of a run: the lines of each item of a script.
#![tactic(auto)]

pub mod block;
pub mod course;
mod left;
mod report_lines;
pub mod show;
