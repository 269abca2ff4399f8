//! The whole program: from its words, its sources and its sinks to its status.
#![tactic(auto)]

mod call_due;
mod contract_alone;
mod crew_due;
mod judging;
mod least_block;
mod pool_due;
mod refusal_lines;
mod scripts;
mod snapshots;
mod stage;
mod talk_due;
mod top;
mod unaccepted;

pub use top::{Ended, may_wait, nomos, nomos_by_one};
