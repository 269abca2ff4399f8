//! What runs a script, item by item, from any ledger: by one worker, or by a crew.
#![tactic(auto)]

pub mod one_worker;
pub mod orders;
mod script_course;
pub mod script_crew;
mod script_shop;
pub mod status;
mod way;
