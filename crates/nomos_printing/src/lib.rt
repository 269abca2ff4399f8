//! How numbers, values, causes, faults and ends are written, and how those of a journal are read back.
#![tactic(auto)]

pub mod cause;
pub mod end;
pub mod fault_texts;
pub mod number;
pub mod splitting;
pub mod value_texts;
