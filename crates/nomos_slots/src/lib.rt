//! Columns of plain records, which can be marked and put back to what they were; records under numbers.
#![tactic(auto)]

pub mod beside;
mod cells;
pub mod channels;
pub mod column;
mod nexts;
pub mod numbered;
pub mod shelf;
mod sweeps;
pub mod tail;
mod users;
