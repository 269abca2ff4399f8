//! Amounts that were found for the stars.
use nomos_ir::lists::Amounts;

/// One amount for each star, in parts of a unit of gas of which a unit has `unit`.
#[derive(Drop, Debug)]
pub struct Found {
    pub stars: Amounts,
    pub unit: u32,
}
