//! Snapshots: a ledger as text, and a text as the ledger that it is the snapshot of.
#![tactic(auto)]

pub mod error;
pub mod gathered;
mod label_table;
pub mod ledger_loading;
pub mod ledger_parts;
pub mod line;
mod line_bounds;
mod line_kind;
pub mod line_reader;
pub mod line_words;
pub mod line_writing;
pub mod loading;
mod marked;
mod message_lines;
mod plain_lines;
mod process_lines;
mod remaining;
pub mod saving;
mod stand;
mod told_lines;
mod value_reading;
pub mod whole;
mod wide;
