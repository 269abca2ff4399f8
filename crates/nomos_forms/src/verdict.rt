//! Verdicts: weights that show that no amounts meet the rows.
use crate::row::Row;
use nomos_ir::items::Items;

/// What is weighted: the bound `star >= 0` of the star with this number, from 1 on, or a row.
#[derive(Drop, Debug)]
pub enum Of {
    Star(u16),
    Row(Row),
}

/// A row or a star's bound, taken a number of times.
#[derive(Drop, Debug)]
pub struct Weight {
    pub times: u64,
    pub of: Of,
}

/// Weights.
pub type Weights = Items<Weight>;

/// Weighted rows and bounds that add up to `0 >= gives`, where `gives` is a number of whole units.
#[derive(Drop, Debug)]
pub struct Verdict {
    pub weights: Weights,
    pub gives: u128,
}
