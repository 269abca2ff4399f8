//! Why a talk is not opened, and why something is not said.

/// Why a talk is not opened, in this order. Amounts are in Dths.
#[derive(Clone, Copy, PartialEq, Eq, Debug)]
pub enum TalkRefusal {
    NoAccount,
    /// No declaration of the name has mode R and no parameters.
    NoProcess,
    /// A channel may be sent on the talk.
    Carries,
    NoGas { has: u128, needs: u128 },
}

/// Why something is not said; then nothing changes. Amounts are in Dths.
#[derive(Clone, Copy, PartialEq, Eq, Debug)]
pub enum SayError {
    /// Nobody is outside, or this may not be said.
    Protocol,
    NoGas { has: u128, needs: u128 },
    NoMemory,
}
