//! What a pass knows, in types of which no value is made: they stand in proofs alone.
use std::collections::LinkedList;

/// Where a pass stands with its turn. A ticket is known by the number of tickets that were drawn before it.
pub enum Stage {
    /// It has no ticket.
    Idle,
    /// It has a ticket, and waits until it is served.
    Waiting(u64),
    /// Its ticket is served: it has its turn.
    Serving(u64),
    /// It was joined, and is no pass any more.
    Ended,
}

/// What a pass knows.
pub struct PassView<W, E> {
    pub stage: Stage,
    /// The work with which the floor was opened. A pass that was joined has none.
    pub opened: Option<W>,
    pub number: u32,
    /// The history that it has seen.
    pub seen: LinkedList<(u32, E)>,
    /// Its own entries.
    pub own: LinkedList<E>,
    /// What the pass that it has just joined had seen.
    pub told: LinkedList<(u32, E)>,
    /// Of the opening pass: the next number.
    pub next: u32,
    /// Of the opening pass: the numbers out.
    pub out: LinkedList<u32>,
    /// Of the opening pass: the numbers of ended passes, each with its own entries.
    pub ended: LinkedList<(u32, LinkedList<E>)>,
}
