//! Which process fires next, or how the batch ends.
ghost use Rattle.std.specs.Prelude.{◌≡◌, IfOk, IfSome, MatchOption};
ghost use Rattle.nomos_machine.specs.Run.{IsQuiet};
ghost use Rattle.nomos_machine.specs.Step.{IsReady};
ghost use Rattle.nomos_legal.specs.StandsFor.{WorldStandsFor};
ghost use Rattle.nomos_ledger.specs.Watching.{IsWatched};
ghost use Rattle.nomos_tale.specs.mirror.Choices.{IsChoice};

use crate::kept_journal::KeptJournal;
use crate::untold::Untold;
use nomos_deeds::machine::Machine;
use nomos_deeds::undo::Undo;
use nomos_journal::line::JournalLine;
use nomos_ledger::watched::Watched;
use nomos_ledger::world::World;
use nomos_legal::journal::End;
use nomos_types::accepted::Accepted;
use std::alloc::{AllocError, Global};

/// How a process is chosen.
#[derive(Drop)]
pub(crate) enum TaleChooser<'a> {
    /// The lowest that is ready.
    First,
    /// The lowest that is ready over the one of this number, which fired last, or else the lowest.
    Round(u32),
    /// The one at a place among those that are ready, for which a number is drawn behind this one.
    Seed(u64),
    /// The one that the journal says.
    Kept(KeptJournal<'a>),
}

/// What is chosen: a process that fires, or how the batch ends.
#[derive(Drop)]
pub(crate) enum NextStep {
    Fires(u32),
    Ends(End),
}

// Among how many ready processes one is drawn at most: the lowest ones.
const MOST_DRAWN: u64 = 256;

// The number that is drawn behind this one.
fn next_draw(drawn: u64) -> u64 {
    drawn
        .wrapping_mul(6_364_136_223_846_793_005)
        .wrapping_add(1_442_695_040_888_963_407)
}

// How many processes are ready, if they are not too many.
fn ready_count<M: Undo>(accepted: &Accepted, watched: &mut Watched<M>) -> u64
    requires stands { WorldStandsFor accepted.now watched.old.world }
    requires watched { IsWatched accepted.now watched.old.world.state watched.old.awake }
    ensures world { watched.new.world ≡ watched.old.world }
    ensures watched { IsWatched accepted.now watched.new.world.state watched.new.awake }
{
    let mut after = 0;
    'processes: for count in 0..MOST_DRAWN {
        match watched.next_ready(accepted, after) {
            Some(pid) => after = pid,
            None => return count,
        }
    }
    MOST_DRAWN
}

// The ready process behind so many others, if there is one.
fn ready_at<M: Undo>(accepted: &Accepted, watched: &mut Watched<M>, place: u64) -> Option<u32>
    requires stands { WorldStandsFor accepted.now watched.old.world }
    requires watched { IsWatched accepted.now watched.old.world.state watched.old.awake }
    ensures world { watched.new.world ≡ watched.old.world }
    ensures watched { IsWatched accepted.now watched.new.world.state watched.new.awake }
    ensures ready { IfSome result (IsReady accepted.now watched.old.world.state) }
{
    let mut after = 0;
    'processes: for _before in 0..place {
        after = watched.next_ready(accepted, after)?;
    }
    watched.next_ready(accepted, after)
}

// The process at the place that a number gives, or else the lowest.
fn drawn<M: Undo>(accepted: &Accepted, watched: &mut Watched<M>, number: u64) -> Option<u32>
    requires stands { WorldStandsFor accepted.now watched.old.world }
    requires watched { IsWatched accepted.now watched.old.world.state watched.old.awake }
    ensures world { watched.new.world ≡ watched.old.world }
    ensures watched { IsWatched accepted.now watched.new.world.state watched.new.awake }
    ensures ready { MatchOption result (IsQuiet accepted.now watched.old.world.state)
        (IsReady accepted.now watched.old.world.state) }
{
    let count = ready_count(accepted, watched);
    if count == 0 {
        return watched.lowest(accepted);
    }
    match ready_at(accepted, watched, (number >> 33) % count) {
        Some(pid) => Some(pid),
        None => watched.lowest(accepted),
    }
}

// The process that is ready over a number, or else the lowest.
fn over<M: Undo>(accepted: &Accepted, watched: &mut Watched<M>, last: u32) -> Option<u32>
    requires stands { WorldStandsFor accepted.now watched.old.world }
    requires watched { IsWatched accepted.now watched.old.world.state watched.old.awake }
    ensures world { watched.new.world ≡ watched.old.world }
    ensures watched { IsWatched accepted.now watched.new.world.state watched.new.awake }
    ensures ready { MatchOption result (IsQuiet accepted.now watched.old.world.state)
        (IsReady accepted.now watched.old.world.state) }
{
    match watched.next_ready(accepted, last) {
        Some(pid) => Some(pid),
        None => watched.lowest(accepted),
    }
}

// The process fires, or the batch ends at rest where there is none.
fn fires_or_rests<M: Undo>(accepted: &Accepted, world: &World<M>, pid: Option<u32>) -> NextStep
    requires stands { WorldStandsFor accepted.now world.now }
    requires ready { MatchOption pid (IsQuiet accepted.now world.now.state) (IsReady accepted.now world.now.state) }
    ensures { IsChoice accepted.now world.now result }
{
    match pid {
        Some(pid) => NextStep::Fires(pid),
        None => NextStep::Ends(world.end_at_rest(accepted)),
    }
}

// What the next line of a journal says, where it may.
fn said<M: Undo>(
    alloc: Global,
    accepted: &Accepted,
    watched: &mut Watched<M>,
    kept: &KeptJournal<'_>,
) -> Result<NextStep, Untold>
    requires stands { WorldStandsFor accepted.now watched.old.world }
    requires watched { IsWatched accepted.now watched.old.world.state watched.old.awake }
    ensures world { watched.new.world ≡ watched.old.world }
    ensures watched { IsWatched accepted.now watched.new.world.state watched.new.awake }
    ensures choice { IfOk result (IsChoice accepted.now watched.old.world) }
{
    let Some(line) = kept.said(alloc, accepted.unit())? else {
        return Err(kept.unfit());
    };
    let choice = match kept.fired(&line) {
        Some(pid) => fires_where_ready(accepted, &watched.world, pid),
        None => ends_as(alloc, accepted, watched, &line)?,
    };
    match choice {
        Some(choice) => Ok(choice),
        None => Err(kept.unfit()),
    }
}

// The batch ends where a line says that it does, if it does.
fn ends_as<M: Undo>(
    alloc: Global,
    accepted: &Accepted,
    watched: &mut Watched<M>,
    line: &JournalLine,
) -> Result<Option<NextStep>, AllocError>
    requires stands { WorldStandsFor accepted.now watched.old.world }
    requires watched { IsWatched accepted.now watched.old.world.state watched.old.awake }
    ensures world { watched.new.world ≡ watched.old.world }
    ensures watched { IsWatched accepted.now watched.new.world.state watched.new.awake }
    ensures choice { IfOk result (λ found. IfSome found (IsChoice accepted.now watched.old.world)) }
{
    match line {
        JournalLine::End(End::Aborted(pid, _)) => aborts(alloc, accepted, &watched.world, *pid),
        JournalLine::End(_) => match watched.lowest(accepted) {
            None => Ok(Some(fires_or_rests(accepted, &watched.world, None))),
            Some(_) => Ok(None),
        },
        _ => Ok(None),
    }
}

// The batch ends by the fault of a process, if it has one.
fn aborts<M: Undo>(
    alloc: Global,
    accepted: &Accepted,
    world: &World<M>,
    pid: u32,
) -> Result<Option<NextStep>, AllocError>
    requires stands { WorldStandsFor accepted.now world.now }
    ensures { IfOk result (λ found. IfSome found (IsChoice accepted.now world.now)) }
{
    match world.fault(alloc, accepted, pid)? {
        Some(fault) => Ok(Some(NextStep::Ends(End::Aborted(pid, fault)))),
        None => Ok(None),
    }
}

// The process fires, if it is ready.
fn fires_where_ready<M: Undo>(accepted: &Accepted, world: &World<M>, pid: u32) -> Option<NextStep>
    requires stands { WorldStandsFor accepted.now world.now }
    ensures { IfSome result (IsChoice accepted.now world.now) }
{
    accepted.know();
    if world.state().ready(accepted, pid) {
        Some(NextStep::Fires(pid))
    } else {
        None
    }
}

/// What is chosen next.
pub(crate) fn choose<M: Undo>(
    alloc: Global,
    accepted: &Accepted,
    watched: &mut Watched<M>,
    chooser: &mut TaleChooser<'_>,
) -> Result<NextStep, Untold>
    requires stands { WorldStandsFor accepted.now watched.old.world }
    requires watched { IsWatched accepted.now watched.old.world.state watched.old.awake }
    ensures world { watched.new.world ≡ watched.old.world }
    ensures watched { IsWatched accepted.now watched.new.world.state watched.new.awake }
    ensures choice { IfOk result (IsChoice accepted.now watched.old.world) }
{
    let pid = match chooser {
        TaleChooser::First => watched.lowest(accepted),
        TaleChooser::Round(last) => {
            let pid = over(accepted, watched, *last);
            *last = pid.unwrap_or(0);
            pid
        }
        TaleChooser::Seed(number) => {
            *number = next_draw(*number);
            drawn(accepted, watched, *number)
        }
        TaleChooser::Kept(kept) => return said(alloc, accepted, watched, kept),
    };
    Ok(fires_or_rests(accepted, &watched.world, pid))
}
