//! Linear forms over the stars of a program, their rows, and the second check of what a solver answers.
#![tactic(auto)]

pub mod collecting;
mod counts;
pub mod form;
pub mod found;
pub mod meeting;
pub mod product;
pub mod refuting;
pub mod row;
mod row_group;
pub mod row_list;
pub mod rows;
pub mod shared_coefs;
pub mod shared_list;
mod sorting;
pub mod verdict;
