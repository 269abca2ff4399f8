//! The pivot run: amounts that meet rows, or a verdict that none do. The least run: amounts with the least goal.
#![tactic(auto)]

mod bounds;
mod choosing;
mod classes;
mod divisors;
mod exchanging;
mod fractions;
mod goal_line;
mod keeping;
pub mod lowering;
mod nearest;
mod refusing;
mod renaming;
mod sizes;
pub mod solved;
pub mod solving;
pub mod table;
mod table_lines;
pub mod turn;
mod turning;
