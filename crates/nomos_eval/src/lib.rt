//! Evaluation of terms, with a stack of its own.
#![tactic(auto)]

mod acts;
mod around;
mod ascending;
mod calls;
mod datum;
mod evaluating;
pub mod evaluation;
mod evaluator;
mod frame;
mod list_store;
mod numbers;
mod pending;
mod scopes;
pub mod small;
mod values;
pub mod wanted;
