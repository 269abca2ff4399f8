//! Least bounds: amounts under which a contract text is typed and of which its transactions declare the least, with
//! weights that show it.
#![tactic(auto)]

pub mod goal;
pub mod least;
mod products;
pub mod showing;
