//! From the tree of a contract text to its program, or to what breaks the rules of names and costs: the nodes of its
//! declarations with their numbers, and the `work` that a cost model puts in.
#![tactic(auto)]

pub mod builder;
pub mod claims;
mod codes;
mod cost;
pub mod declaration_nodes;
mod declaration_walk;
pub mod elab_error;
pub mod elaborate;
pub mod elaborator;
mod following;
mod given_arguments;
mod kind_nodes;
pub mod name_table;
pub mod scope;
mod sort;
pub mod spaces;
mod steps;
mod terms;
mod type_nodes;
mod works;
