//! Batches run by workers: by one as a policy says, or by a worker of several that takes turns over a floor.
#![tactic(auto)]

pub mod batch;
pub mod elsewhere;
pub mod gate;
pub mod look;
pub mod one;
pub mod run;
mod several;
pub mod shop;
pub mod trade;
pub mod work;
