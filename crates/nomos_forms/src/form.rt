//! Linear forms over stars.
use nomos_ir::items::Items;

/// The coefficients of the stars, in order of their numbers: the first is that of star 1.
pub type Coefs = Items<i64>;

/// A sum of coefficients times stars plus a number of whole units: `docs/SOLVER.md`, "Forms and rows".
#[derive(Drop, Debug)]
pub struct Form {
    pub coefs: Coefs,
    pub plus: i64,
}

/// Forms.
pub type Forms = Items<Form>;
