//! What it is for a program to be typed: types behind their names, the tables of modes, derivations, and
//! the type of accepted programs.
#![tactic(auto)]

pub mod accepted;
pub mod contractive;
pub mod forming;
pub mod mode_table;
pub mod modes;
pub mod unfolding;
