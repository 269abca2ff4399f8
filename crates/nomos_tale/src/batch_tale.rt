//! A batch that is fired to its end, and told.
ghost use Rattle.std.specs.Prelude.{◌≡◌, IfOk, OnOk, length};
ghost use Rattle.nomos_deeds.specs.Acting.{HasNumbers};
ghost use Rattle.nomos_legal.specs.Ending.{IsAllowed};
ghost use Rattle.nomos_legal.specs.StandsFor.{WorldStandsFor};
ghost use Rattle.nomos_ledger.specs.Running.{MayRun, RunsOn};
ghost use Rattle.nomos_ledger.specs.Watching.{IsWatched};
ghost use Rattle.nomos_tale.specs.mirror.Choices.{GoesOnAs};

use crate::firing_tale::fire_told;
use crate::next_firing::{NextStep, choose};
use crate::teller::Teller;
use crate::untold::Untold;
use nomos_deeds::undo::Undo;
use nomos_ledger::watched::Watched;
use nomos_legal::journal::End;
use nomos_types::accepted::Accepted;
use std::alloc::Global;

// Fires the process that is chosen, or tells the end of the batch.
fn step<M: Undo>(
    alloc: Global,
    accepted: &Accepted,
    teller: &mut Teller<'_>,
    watched: &mut Watched<M>,
) -> Result<Option<End>, Untold>
    requires stands { WorldStandsFor accepted.now watched.old.world }
    requires watched { IsWatched accepted.now watched.old.world.state watched.old.awake }
    requires numbers { HasNumbers watched.old.world.state }
    ensures goes { IfOk result (λ end. GoesOnAs accepted.now watched.old.world end watched.new.world) }
    ensures stands { WorldStandsFor accepted.now watched.new.world }
    ensures watched { IsWatched accepted.now watched.new.world.state watched.new.awake }
{
    match choose(alloc, accepted, watched, &mut teller.chooser)? {
        NextStep::Fires(pid) => fire_told(alloc, accepted, teller, watched, pid),
        NextStep::Ends(end) => Ok(Some(end)),
    }
}

// How a batch ends that has made as many firings as it may.
fn end_at_limit<M: Undo>(accepted: &Accepted, watched: &mut Watched<M>, limit: u32) -> End
    requires stands { WorldStandsFor accepted.now watched.old.world }
    requires watched { IsWatched accepted.now watched.old.world.state watched.old.awake }
    requires full { length watched.old.world.firings ≡ limit }
    ensures world { watched.new.world ≡ watched.old.world }
    ensures watched { IsWatched accepted.now watched.new.world.state watched.new.awake }
    ensures ends { IsAllowed accepted.now watched.old.world.state (length watched.old.world.firings) limit result }
{
    match watched.lowest(accepted) {
        Some(_) => End::Steps(limit),
        None => watched.world.end_at_rest(accepted),
    }
}

/// Fires processes as they are chosen, at most so often, up to the end of the batch, and tells each firing.
pub(crate) fn fire_all<M: Undo>(
    alloc: Global,
    accepted: &Accepted,
    teller: &mut Teller<'_>,
    watched: &mut Watched<M>,
    limit: u32,
) -> Result<End, Untold>
    requires may { MayRun accepted.now limit watched.old.world }
    requires watched { IsWatched accepted.now watched.old.world.state watched.old.awake }
    ensures runs { OnOk result (RunsOn accepted.now limit watched.old.world watched.new.world) }
    ensures end { IfOk result (IsAllowed accepted.now watched.new.world.state (length watched.new.world.firings)
        limit) }
{
    accepted.know();
    'firings: for _made in 0..limit {
        if let Some(end) = step(alloc, accepted, teller, watched)? {
            return Ok(end);
        }
    }
    Ok(end_at_limit(accepted, watched, limit))
}
