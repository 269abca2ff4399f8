//! The program as numbered trees: the types of Nomos programs, and the program with its invariant.
#![tactic(auto)]

pub mod amount;
pub mod bindings;
pub mod code_form;
pub mod code_node;
pub mod declaration;
pub mod fault;
pub mod find;
pub mod ids;
pub mod items;
pub mod kind;
pub mod letters;
pub mod limits;
pub mod lists;
pub mod mode;
pub mod name;
pub mod or_no_memory;
pub mod program;
pub mod stack;
mod stars;
pub mod term_node;
pub mod type_node;
pub mod value;
pub mod value_node;
pub mod word;
