//! Journals that are read and run: what their texts tell, or the first line that spoils one; and legal journals that
//! are told again.
#![tactic(auto)]

mod answering;
mod ends;
pub mod error;
mod heading;
mod journal_lines;
mod line_kinds;
pub mod refused;
pub mod replay;
pub mod retelling;
mod same;
mod told_batch;
mod told_firing;
mod told_item;
mod trial;
mod version_one;
