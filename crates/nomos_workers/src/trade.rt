//! Works that workers carry on in turns, look by look.
ghost use Rattle.std.specs.Prelude.{◌≡◌, ℕ, List, IfOk, IfSome};
ghost use Rattle.nomos_types.specs.Acceptance.{Acceptance};
ghost use Rattle.nomos_floor.specs.FloorPass.{AddsAtMostOne};
ghost use Rattle.nomos_workers.specs.Looks.{IsKnown, TurnsOut};

use nomos_eval::wanted::{Outcome, Wanted};
use nomos_floor::shared_work::Shared;
use std::alloc::{AllocError, Global};

/// What the terms of an instruction came to, which was wanted of a process.
#[derive(Drop)]
pub struct KnownOutcome {
    pub wanted: Wanted,
    pub outcome: Outcome,
}

/// Over which process a worker looks for its next one, what it has evaluated, if anything, and how often it has rested,
/// less one for each turn in which it went on.
#[derive(Drop)]
pub struct Seeks {
    pub after: u32,
    pub known: Option<KnownOutcome>,
    pub rests: u32,
}

/// What a look of a worker comes to.
#[derive(Drop)]
pub enum Turned<A, S> {
    /// The work went on: this process fired, or nobody needed to. The worker looks over it next.
    Goes(u32),
    /// The worker stops.
    Ends(S),
    /// This process is to be evaluated first, of which this is asked.
    Wants(u32, A),
    /// Each process that is ready is evaluated by another worker: this one rests.
    Rests,
}

/// A work that workers carry on in turns, look by look; a look adds one entry at most. A worker tells something of the
/// work that was opened and of the history that it has seen, when it stops.
pub trait Trade: Shared {
    /// What is asked for, to be evaluated outside the turn.
    type Asked: Drop;

    /// How a worker stops.
    type Stop: Drop;

    /// The program of a work with this start.
    ghost program: { Self.Start → Acceptance };

    /// The program for which this is asked.
    ghost asked_of: { Self.Asked → Acceptance };

    /// What a worker tells that stops so: of the work that was opened, and of the history that it has seen.
    ghost stops: { Self → List (ℕ × Self.Entry) → Self.Stop → Type 0 };

    /// How a worker stops for which memory is wanting.
    ghost wanting: { Self.Stop };

    /// What a look by this pass comes to.
    fn step(
        &mut self,
        alloc: Global,
        pass: u32,
        seeks: &Seeks,
    ) -> Result<Turned<Self::Asked, Self::Stop>, AllocError>
        requires known { IfSome seeks.now.known (IsKnown (program (Self.start self.old))) }
        ensures start { Self.start self.new ≡ Self.start self.old }
        ensures history { AddsAtMostOne pass (Self.history self.old) (Self.history self.new) }
        ensures turns { (opened : Self) → Self.start self.new ≡ Self.start opened
            → IfOk result (TurnsOut (λ asked. asked_of asked ≡ program (Self.start opened))
            (stops opened (Self.history self.new))) }
        ensures free { (opened : Self) → Self.start self.new ≡ Self.start opened
            → stops opened (Self.history self.new) wanting };

    /// Evaluates what was asked for.
    fn evaluate(alloc: Global, asked: Self::Asked) -> Result<KnownOutcome, AllocError>
        ensures { IfOk result (IsKnown (asked_of asked)) };

    /// How a worker stops for which memory is wanting.
    fn no_memory() -> Self::Stop
        ensures { result ≡ wanting };
}
