//! The faults of an evaluation.

/// Why an evaluation of a term has no value.
#[derive(Clone, Copy, PartialEq, Eq, Debug)]
pub enum Fault {
    /// A number does not fit 64 bits with a sign.
    Overflow,
    /// A divisor is 0.
    DivideByZero,
    /// Too many nodes are entered.
    TermSteps,
    /// A list is too heavy.
    ListLength,
    /// Too many calls are open.
    Depth,
}
