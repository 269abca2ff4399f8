//! The outside: where all bytes come in and where all bytes go out.
//!
//! A [`Source`] gives bytes and a [`Sink`] takes them, each in pieces, and each counts how often it
//! failed. [`read_all`] and [`write_all`] are built on them and on nothing else. [`MemorySource`] and
//! [`MemorySink`] fail when they are told to, [`SureSource`] and [`SureSink`] never.
#![tactic(auto)]

mod gas;
mod memory_sink;
mod memory_source;
mod plan;
mod reading;
mod sink;
mod source;
mod sure;
mod writing;

pub use gas::push_gas;
pub use memory_sink::MemorySink;
pub use memory_source::MemorySource;
pub use reading::{ReadError, read_all};
pub use sink::{Put, Sink};
pub use source::{Got, Source};
pub use sure::{SureSink, SureSource};
pub use writing::{WriteError, write_all};
