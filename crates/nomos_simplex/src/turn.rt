//! A turn of the run.
use crate::solved::Solved;
use crate::table::Table;

/// The run ends, or goes on at a table.
#[derive(Drop, Debug)]
pub enum PivotTurn {
    Ends(Solved),
    Goes(Table),
}
