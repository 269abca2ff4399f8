//! The table of a pivot run.
use nomos_ir::items::Items;

/// The line of a basic variable: `times * basic` is the sum of the coefficients times the nonbasic variables.
#[derive(Drop, Debug)]
pub struct TableLine {
    pub times: i128,
    pub basic: usize,
    pub coefs: Items<i128>,
}

/// Numbers of variables. Those from 1 on are the stars, and those after them the sums of the rows.
pub type Variables = Items<usize>;

/// Lines.
pub type Lines = Items<TableLine>;

/// The nonbasic variables, and one line for each basic variable: `docs/SOLVER.md`, "The table".
#[derive(Drop, Debug)]
pub struct Table {
    pub nonbasic: Variables,
    pub lines: Lines,
}
