//! How a batch may end that is replayed, and which end is found of it.

ghost use Rattle.std.specs.Prelude.{◌≡◌, ◌<◌, ◌↔◌, ℕ, IsTrue, IfOk, MatchOption, MatchResult, None, Some, length};
ghost use Rattle.nomos_machine.specs.Step.{fault};
ghost use Rattle.nomos_types.specs.Acceptance.{Acceptance};
ghost use Rattle.nomos_machine.specs.State.{State};
ghost use Rattle.nomos_legal.specs.Ending.{EndsAs, GoesOn, IsAllowed};
ghost use Rattle.nomos_legal.specs.StandsFor.{WorldStandsFor};
ghost use Rattle.nomos_ledger.specs.Watching.{IsWatched};
ghost use Rattle.nomos_replay.specs.Spoiled.{Finds};
ghost use Rattle.nomos_replay.specs.mirror.BatchUnderWay.{EndStops};

use crate::error::ReplayError;
use crate::same::is_same_end;
use nomos_deeds::undo::Undo;
use nomos_ir::fault::Fault;
use nomos_ledger::watched::Watched;
use nomos_ledger::world::World;
use nomos_legal::journal::End;
use nomos_types::accepted::Accepted;
use std::alloc::{AllocError, Global};

/// An end that is kept, and the number of its line in the text.
#[derive(Drop)]
pub(crate) struct KeptEnd {
    pub(crate) at: u32,
    pub(crate) end: End,
}

// How a batch ends where it stands, faults apart, if it does, and of how many firings it has at most.
#[derive(Drop)]
struct GivenEnd {
    most: u32,
    end: Option<End>,
}

// Whether this end is given by a state, of which it is known how the batch ends there, faults apart.
fn gives(given: &Option<End>, end: &End) -> bool
    ensures { (a : Acceptance) (s : State) (count most : ℕ)
        → MatchOption given.now (GoesOn a s count most) (EndsAs a s count most)
        → (IsTrue result ↔ EndsAs a s count most end.now) }
{
    match given {
        Some(given) => is_same_end(given, end),
        None => false,
    }
}

// Whether the process of this number has this fault.
fn has_fault<M: Undo>(
    alloc: Global,
    accepted: &Accepted,
    world: &World<M>,
    pid: u32,
    cause: Fault,
) -> Result<bool, AllocError>
    requires { WorldStandsFor accepted.now world.now }
    ensures { IfOk result (λ has. IsTrue has ↔ (fault accepted.now world.now.state pid ≡ Some cause)) }
{
    match world.fault(alloc, accepted, pid)? {
        Some(found) => Ok(found == cause),
        None => Ok(false),
    }
}

// Whether a batch may end so, of which it is known how it ends here, faults apart.
fn may_end<M: Undo>(
    alloc: Global,
    accepted: &Accepted,
    world: &World<M>,
    given: &GivenEnd,
    end: &End,
) -> Result<bool, AllocError>
    requires stands { WorldStandsFor accepted.now world.now }
    requires given { MatchOption given.now.end
        (GoesOn accepted.now world.now.state (length world.now.firings) given.now.most)
        (EndsAs accepted.now world.now.state (length world.now.firings) given.now.most) }
    ensures { IfOk result (λ may. IsTrue may
        ↔ IsAllowed accepted.now world.now.state (length world.now.firings) given.now.most end.now) }
{
    if let End::Aborted(pid, cause) = end {
        let has = has_fault(alloc, accepted, world, *pid, *cause)?;
        return Ok(has && world.firings().len() < given.most as usize);
    }
    Ok(gives(&given.end, end))
}

// The end that is found of a batch, of which it is known how it ends here, faults apart.
fn found_end<M: Undo>(
    alloc: Global,
    accepted: &Accepted,
    world: &World<M>,
    given: Option<End>,
) -> Result<Option<End>, AllocError>
    requires { WorldStandsFor accepted.now world.now }
    ensures { (most : ℕ) → MatchOption given (GoesOn accepted.now world.now.state (length world.now.firings) most)
        (EndsAs accepted.now world.now.state (length world.now.firings) most)
        → IfOk result (Finds accepted.now world.now.state (length world.now.firings) most) }
{
    match given {
        Some(end) => Ok(Some(end)),
        None => match world.lowest_fault(alloc, accepted)? {
            Some((pid, fault)) => Ok(Some(End::Aborted(pid, fault))),
            None => Ok(None),
        },
    }
}

/// The end of a batch that is kept, where the batch may end so.
pub(crate) fn judge_end<M: Undo>(
    alloc: Global,
    accepted: &Accepted,
    watched: &mut Watched<M>,
    most: u32,
    kept: KeptEnd,
) -> Result<End, ReplayError>
    requires stands { WorldStandsFor accepted.now watched.old.world }
    requires watched { IsWatched accepted.now watched.old.world.state watched.old.awake }
    ensures world { watched.new.world ≡ watched.old.world }
    ensures judged { MatchResult result
        (λ end. (end ≡ kept.end)
        × IsAllowed accepted.now watched.old.world.state (length watched.old.world.firings) most end)
        (EndStops accepted.now watched.old.world.state (length watched.old.world.firings) most kept) }
{
    let KeptEnd { at, end } = kept;
    let ended = watched.end(accepted, most);
    let given = GivenEnd { most, end: ended };
    if may_end(alloc, accepted, &watched.world, &given, &end)? {
        return Ok(end);
    }
    let found = found_end(alloc, accepted, &watched.world, given.end)?;
    Err(ReplayError::WrongEnd {
        line: at,
        kept: end,
        found,
    })
}
