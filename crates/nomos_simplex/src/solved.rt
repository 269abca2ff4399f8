//! What a solver answers.
use nomos_forms::found::Found;
use nomos_forms::verdict::{Verdict, Weights};

/// Why a run stopped without an answer.
#[derive(Clone, Copy, PartialEq, Eq, Debug)]
pub enum Stop {
    /// 2,000 pivots were made.
    Pivots,
    /// After this number of pivots a number was too large.
    Large(u32),
}

/// Amounts that meet the rows, a verdict that none do, or neither.
#[derive(Drop, Debug)]
pub enum Solved {
    Found(Found),
    Refuted(Verdict),
    Unsolved(Stop),
}

/// Weighted rows and bounds of stars that add up to `scale` times a goal. They show that no amounts that meet the rows
/// have a smaller goal than `total`, which is in parts of the unit of the amounts that it comes with:
/// `docs/SOLVER.md`, "The least run".
#[derive(Drop, Debug)]
pub struct Proof {
    pub scale: u64,
    pub weights: Weights,
    pub total: u64,
}

/// Amounts that meet the rows, with a proof that no others have a smaller goal, a verdict that none meet the rows, or
/// neither.
#[derive(Drop, Debug)]
pub enum SolvedLeast {
    Found(Found, Proof),
    Refuted(Verdict),
    Unsolved(Stop),
}
