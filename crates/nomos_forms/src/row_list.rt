//! The rows of a program.
ghost use Rattle.std.specs.Prelude.{◌≤◌, All};
ghost use Rattle.nomos_forms.specs.Bounds.{IsRow};

use crate::rows::Rows;

/// Rows over a number of stars, at most 64. Each has one coefficient for each star, and numbers below 2^45.
#[derive(Drop, Debug)]
pub struct RowList {
    pub rows: Rows,
    pub stars: u16,
    pub ghost few_stars: { stars ≤ 64 },
    pub ghost each: { All (IsRow stars) rows },
}
