//! Whether a process is typed, and which amounts its potential and its types ask for.
#![tactic(auto)]

mod argument_rules;
mod asked;
pub mod bound;
mod branch;
mod cases;
mod chances;
pub mod checker;
pub mod checking;
mod code_walk;
mod comparing;
mod ending;
mod giving;
mod going;
mod in_hand;
mod label_rule;
mod list_rules;
mod mode_rules;
mod operands;
mod passing;
mod paying;
pub mod potential_form;
mod receiving;
mod sending;
mod sharing;
mod sides;
mod spawning;
pub mod standing;
mod start;
mod step;
mod value_rules;
mod variables;
