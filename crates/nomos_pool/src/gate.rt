//! Gates: what a thread calls before it submits anything.

/// What the thread of a hand calls once, before it submits the first item of that hand.
pub trait Gate: Sync {
    /// The items of the hand at this place, counted from 0, are about to be submitted.
    fn before_submits(&self, hand: usize);
}

/// The gate that does nothing.
#[derive(Clone, Copy, Drop, Debug)]
pub struct OpenGate;

impl Gate for OpenGate {
    fn before_submits(&self, _hand: usize) {}
}
