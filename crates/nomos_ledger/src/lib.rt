//! Ledgers and batches under way, over a machine that can go back to a state that was marked; beside a batch is known
//! who may be ready, so that neither its next process nor its end takes a walk over all objects.
#![tactic(auto)]

pub mod account_names;
mod at_rest;
mod batch_lines;
pub mod begun;
mod books;
pub mod contract_names;
mod declared;
mod fired;
pub mod ledger;
pub mod lent;
pub mod named;
mod resolving;
pub mod start_arguments;
mod taking;
mod type_worth;
mod value_fits;
pub mod watched;
pub mod world;
