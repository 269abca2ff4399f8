//! What holds of the queue of a pool, and what its passes know.
ghost use Rattle.std.specs.Prelude.{◌≡◌, ◌+◌, ◌∷◌, ◌++◌, [], ⊤};
ghost use Rattle.nomos_pool.specs.PoolRule.{Delivers, taker_view, sender_view, spent_view, none_left};

use crate::pool::Submission;
use crossbeam_queue::protocol::{Join, Lesson, Outcome, Protocol, Split};
use std::collections::LinkedList;

/// What a pass knows. No value of it is made.
pub struct PoolView<T> {
    /// It is the taker's.
    pub takes: bool,
    /// It is a sender's, which has this number.
    pub sends: bool,
    pub number: u32,
    /// Of the taker: how many senders it has made.
    pub made: u32,
    /// Of a sender: what it submitted.
    pub submitted: LinkedList<T>,
    /// Of the taker: what it took, and what the senders that it took in submitted, in order of number.
    pub taken: LinkedList<Submission<T>>,
    pub known: LinkedList<LinkedList<T>>,
}

/// The rule: what was taken and what the queue holds are what was submitted, of each sender in its order.
pub struct Orderly;

impl<T> Protocol<Submission<T>, PoolView<T>> for Orderly {
    ghost use Rattle.std.specs.Prelude.{[]};
    ghost use Rattle.nomos_pool.specs.PoolRule.{Delivers, taker_view};

    ghost holds = { Delivers };

    ghost first = { taker_view 0 [] [] };
}

/// A sender comes.
pub(crate) struct Enrols;

impl<T> Split<PoolView<T>> for Enrols {
    ghost left = { λ v. record v { made = v.made + 1 } };

    ghost right = { λ v. sender_view v.made };
}

/// The taker takes a sender in.
pub(crate) struct TakesIn;

impl<T> Join<PoolView<T>> for TakesIn {
    ghost both = { λ v w. record v { known = v.known ++ w.submitted ∷ [] } };

    ghost spent = { spent_view };
}

/// A sender submits an item.
pub(crate) struct Submits;

impl<T> Outcome<Submission<T>, PoolView<T>> for Submits {
    ghost then = { λ v x w. w ≡ record v { submitted = v.submitted ++ x.item ∷ [] } };
}

impl<T> Lesson<Submission<T>, PoolView<T>> for Submits {
    ghost fact = { λ v items. ⊤ };
}

/// The taker takes an item.
pub(crate) struct Takes;

impl<T> Outcome<Submission<T>, PoolView<T>> for Takes {
    ghost then = { λ v x w. w ≡ record v { taken = v.taken ++ x ∷ [] } };
}

/// All senders are taken in: what is left is what they submitted and was not taken.
pub(crate) struct Left;

impl<T> Outcome<Submission<T>, PoolView<T>> for Left {
    ghost then = { λ v x w. w ≡ record v { taken = v.taken ++ x ∷ [] } };
}

impl<T> Lesson<Submission<T>, PoolView<T>> for Left {
    ghost fact = { λ v items. none_left v items };
}

impl<T> Lesson<Submission<T>, PoolView<T>> for Takes {
    ghost fact = { λ v items. ⊤ };
}
