//! What is due of a script, of a journal, of a talk, of a snapshot, or of the load of `bench`, on an accepted contract,
//! and how it is written.
#![tactic(auto)]

pub mod benches;
pub mod due;
pub mod pools;
pub mod replays;
pub mod resumes;
pub mod runs;
pub mod saves;
pub mod script_found;
pub mod snapshot_lines;
pub mod talks;
pub mod written;
