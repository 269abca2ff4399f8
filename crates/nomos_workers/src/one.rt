//! One worker: a batch is run by firing the process that the policy chooses, again and again.
ghost use Rattle.std.specs.Prelude.{◌≡◌, ◌+◌, ◌<◌, ◌^◌, IfOk, OnErr, MatchOption, length};
ghost use Rattle.nomos_machine.specs.Policies.{IsChosen};
ghost use Rattle.nomos_machine.specs.Run.{IsQuiet};
ghost use Rattle.nomos_legal.specs.Ending.{EndsAs};
ghost use Rattle.nomos_legal.specs.StandsFor.{WorldStandsFor};
ghost use Rattle.nomos_deeds.specs.Acting.{HasNumbers};
ghost use Rattle.nomos_ledger.specs.Running.{MayRun};
ghost use Rattle.nomos_workers.specs.OneWorker.{EndsBy, RunsBy};
ghost use Rattle.nomos_workers.specs.mirror.WorkerSteps.{Steps};
ghost use Rattle.nomos_ledger.specs.Watching.{IsWatched};

use crate::batch::{BatchEnd, Ran};
use nomos_deeds::fire::Fire;
use nomos_deeds::undo::Undo;
use nomos_ledger::watched::Watched;
use nomos_ledger::world::World;
use nomos_legal::journal::{End, Firing};
use nomos_machine::policy::Policy;
use nomos_types::accepted::Accepted;
use std::alloc::{AllocError, Global};

// By what a worker chooses: the policy, and the process that fired last, or 0 where none did.
#[derive(Clone, Copy)]
pub(crate) struct Chooser {
    policy: Policy,
    last: u32,
}

// What one look at a batch comes to: the process that fired, or an end.
#[derive(Drop)]
pub(crate) enum Stepped {
    Fired(u32),
    Ends(End),
}

// The process that is chosen, or none where no process is ready.
fn chosen<M: Undo>(accepted: &Accepted, watched: &mut Watched<M>, chooser: Chooser) -> Option<u32>
    requires stands { WorldStandsFor accepted.now watched.old.world }
    requires watched { IsWatched accepted.now watched.old.world.state watched.old.awake }
    ensures world { watched.new.world ≡ watched.old.world }
    ensures watched { IsWatched accepted.now watched.new.world.state watched.new.awake }
    ensures chosen { MatchOption result (IsQuiet accepted.now watched.old.world.state)
        (IsChosen chooser.policy accepted.now watched.old.world.state chooser.last) }
{
    match chooser.policy {
        Policy::First => watched.lowest(accepted),
        Policy::Round => match watched.next_ready(accepted, chooser.last) {
            Some(pid) => Some(pid),
            None => watched.lowest(accepted),
        },
    }
}

// How a batch ends that has made as many firings as it may.
fn end_at_limit<M: Undo>(accepted: &Accepted, watched: &mut Watched<M>, limit: u32) -> End
    requires stands { WorldStandsFor accepted.now watched.old.world }
    requires full { length watched.old.world.firings ≡ limit }
    requires watched { IsWatched accepted.now watched.old.world.state watched.old.awake }
    ensures world { watched.new.world ≡ watched.old.world }
    ensures ends { EndsAs accepted.now watched.old.world.state (length watched.old.world.firings) limit result }
{
    match watched.lowest(accepted) {
        Some(_) => End::Steps(limit),
        None => watched.world.end_at_rest(accepted),
    }
}

// Fires the process that is chosen, or tells the end of the batch.
fn step<M: Undo>(
    alloc: Global,
    accepted: &Accepted,
    watched: &mut Watched<M>,
    limit: u32,
    chooser: Chooser,
) -> Result<Stepped, AllocError>
    requires stands { WorldStandsFor accepted.now watched.old.world }
    requires room { length watched.old.world.firings < limit }
    requires numbers { HasNumbers watched.old.world.state }
    requires watched { IsWatched accepted.now watched.old.world.state watched.old.awake }
    ensures ok { IfOk result (λ stepped.
        Steps chooser.policy accepted.now limit chooser.last watched.old.world stepped watched.new.world) }
    ensures err { OnErr result (watched.new.world ≡ watched.old.world) }
    ensures stands { WorldStandsFor accepted.now watched.new.world }
    ensures watched { IsWatched accepted.now watched.new.world.state watched.new.awake }
{
    let Some(pid) = chosen(accepted, watched, chooser) else {
        return Ok(Stepped::Ends(watched.world.end_at_rest(accepted)));
    };
    match watched.fire(alloc, accepted, Firing { pass: 0, pid })? {
        Fire::Fired => Ok(Stepped::Fired(pid)),
        Fire::Faulted(fault) => Ok(Stepped::Ends(End::Aborted(pid, fault))),
    }
}

// Fires as the policy says, up to the end of the batch.
fn fire_all<M: Undo>(
    alloc: Global,
    accepted: &Accepted,
    watched: &mut Watched<M>,
    limit: u32,
    policy: Policy,
) -> BatchEnd
    requires may { MayRun accepted.now limit watched.old.world }
    requires watched { IsWatched accepted.now watched.old.world.state watched.old.awake }
    ensures runs { RunsBy policy accepted.now limit watched.old.world watched.new.world }
    ensures ends { EndsBy policy accepted.now limit watched.new.world result }
{
    accepted.know();
    let mut chooser = Chooser { policy, last: 0 };
    'firings: for _made in 0..limit {
        match step(alloc, accepted, watched, limit, chooser) {
            Ok(Stepped::Fired(pid)) => chooser.last = pid,
            Ok(Stepped::Ends(end)) => return BatchEnd::Done(end),
            Err(_) => return BatchEnd::NoMemory,
        }
    }
    BatchEnd::Done(end_at_limit(accepted, watched, limit))
}

/// Runs a batch by one worker, which fires the process that the policy chooses (docs/MACHINE.md, "Workers") until the
/// batch ends, at most `limit` times. The world comes back whatever the end, and also where memory was wanting.
pub fn run_by<M: Undo>(
    alloc: Global,
    accepted: &Accepted,
    world: World<M>,
    limit: u32,
    policy: Policy,
) -> Ran<M>
    requires { MayRun accepted.now limit world }
    ensures runs { RunsBy policy accepted.now limit world result.world }
    ensures ends { EndsBy policy accepted.now limit result.world result.end }
{
    let mut watched = Watched::of(world);
    watched.watch(alloc, accepted);
    let end = fire_all(alloc, accepted, &mut watched, limit, policy);
    Ran {
        world: watched.into_world(),
        end,
    }
}
