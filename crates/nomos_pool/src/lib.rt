//! Pools: senders submit items from threads of their own, and one taker takes them, of each sender in its order.
#![tactic(auto)]

mod dealing;
pub mod gate;
pub mod gathering;
pub mod hands;
pub mod pool;
mod pool_rule;
pub mod pooled;
