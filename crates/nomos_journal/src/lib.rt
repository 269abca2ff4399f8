//! The lines of a journal's text: how they are written, and how they are read.
#![tactic(auto)]

pub mod firing_lines;
pub mod form_names;
pub mod line;
pub mod read;
pub mod text;
