//! The rule of a floor's words, slot and views, and the names of its atomic steps.
ghost use Rattle.nomos_floor.specs.FloorInvariant.{Invariant};
ghost use Rattle.nomos_floor.specs.FloorView.{opening_view, ended_view};
ghost use Rattle.nomos_floor.specs.FloorSteps.{draw, look, count, serve, split_off, newcomer, joined, learn};

use crate::shared_work::Shared;
use crate::view::PassView;
use atomic_table::{Join, Play, Split, TableRule};
use std::marker::PhantomData;
use std::snapshot::Snapshot;

/// The rule that every step keeps. It is told the work with which the floor is opened.
pub struct FloorRule<W> {
    work: PhantomData<W>,
}

impl<W: Shared> TableRule<Option<W>, PassView<W, W::Entry>, Snapshot<W>> for FloorRule<W> {
    ghost holds = { λ key. Invariant W.start W.history key.value };

    ghost first = { λ key. opening_view key.value };
}

/// A ticket is drawn.
pub(crate) struct Draw;

impl<W, E> Play<Option<W>, PassView<W, E>> for Draw {
    ghost then = { draw };
}

/// The ticket that is served is looked at, and the turn begins where it is the caller's own.
pub(crate) struct Look<W> {
    work: PhantomData<W>,
}

impl<W: Shared> Play<Option<W>, PassView<W, W::Entry>> for Look<W> {
    ghost then = { look W.start W.history };
}

/// An entry is counted: the firing.
pub(crate) struct Count<W> {
    work: PhantomData<W>,
}

impl<W: Shared> Play<Option<W>, PassView<W, W::Entry>> for Count<W> {
    ghost then = { count W.history };
}

/// The next ticket is served.
pub(crate) struct Serve;

impl<W, E> Play<Option<W>, PassView<W, E>> for Serve {
    ghost then = { serve };
}

/// The opening pass learns which history is the longer.
pub(crate) struct Learn;

impl<W, E> Play<Option<W>, PassView<W, E>> for Learn {
    ghost then = { learn };
}

/// A pass is split off the opening one.
pub(crate) struct SplitOff;

impl<W, E> Split<PassView<W, E>> for SplitOff {
    ghost left = { split_off };

    ghost right = { newcomer };
}

/// The opening pass takes in another.
pub(crate) struct TakeIn;

impl<W, E> Join<PassView<W, E>> for TakeIn {
    ghost both = { joined };

    ghost spent = { ended_view };
}
