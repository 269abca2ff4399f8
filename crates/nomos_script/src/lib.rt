//! Scripts: the deposits and transactions that are run against a contract, and how a text is read as one; and talks.
#![tactic(auto)]

mod arguments;
mod assembly;
mod bytes;
mod digits;
mod growing;
pub mod item;
mod line;
mod lines;
pub mod name;
pub mod parsing;
pub mod script;
mod stop;
pub mod talk_line;
pub mod talk_parsing;
mod tokens;
mod value_reader;
mod weighed;
