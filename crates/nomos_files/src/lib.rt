//! The files and the standard output of the operating system, as sources and sinks, and the words of a call.
#![tactic(auto)]

mod call_words;
mod file_source;
mod output_sink;
mod over_file;

pub use call_words::own_words;
pub use file_source::FileSource;
pub use output_sink::OutputSink;
pub use over_file::OverFile;
