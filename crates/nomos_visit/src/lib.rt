//! Talks of an outside party in a ledger, held line by line and printed.
#![tactic(auto)]

pub mod held;
mod label_texts;
mod replies;
