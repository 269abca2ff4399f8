//! Batches run by a crew: one worker by a policy, or several that take turns over a floor.
ghost use Rattle.std.specs.Prelude.{◌≡◌, ℕ, ◌≤◌, All, length};
ghost use Rattle.nomos_ir.specs.CostAll.{IsUnderCostAll};
ghost use Rattle.nomos_machine.specs.Costs.{PaysFor};
ghost use Rattle.nomos_machine.specs.declared.policy.Policy.{Policy};
ghost use Rattle.nomos_legal.specs.StandsFor.{WorldStandsFor};
ghost use Rattle.nomos_ledger.specs.Watching.{IsWatched};
ghost use Rattle.nomos_ledger.specs.Running.{MayRun, RunsOn};
ghost use Rattle.nomos_workers.specs.Crews.{AbortsAtLowest, IsCrew, IsOfWorker};
ghost use Rattle.nomos_workers.specs.OneWorker.{EndsBy, RunsBy};
ghost use Rattle.nomos_workers.specs.Shops.{MayEnd};

use crate::batch::{BatchEnd, Crew, Ran};
use crate::gate::Gate;
use crate::one::run_by;
use crate::several::run_shop;
use crate::shop::Shop;
use nomos_deeds::undo::Undo;
use nomos_ledger::watched::Watched;
use nomos_ledger::world::World;
use nomos_legal::journal::End;
use nomos_types::accepted::Accepted;
use std::alloc::Global;
use std::sync::Wait;
use std::thread::Threads;

// How a batch ends that several workers have left. Where it goes on, the lowest process that has a fault aborts it;
// where none has one, a worker stopped for want of memory.
fn end_of<M: Undo>(
    alloc: Global,
    accepted: &Accepted,
    watched: &mut Watched<M>,
    limit: u32,
) -> BatchEnd
    requires stands { WorldStandsFor accepted.now watched.old.world }
    requires watched { IsWatched accepted.now watched.old.world.state watched.old.awake }
    requires within { length watched.old.world.firings ≤ limit }
    ensures world { watched.new.world ≡ watched.old.world }
    ensures ends { MayEnd accepted.now watched.old.world.state (length watched.old.world.firings) limit result }
    ensures aborts { AbortsAtLowest accepted.now watched.old.world.state result }
{
    if let Some(end) = watched.end(accepted, limit) {
        return BatchEnd::Done(end);
    }
    match watched.world.lowest_fault(alloc, accepted) {
        Ok(Some((pid, fault))) => BatchEnd::Done(End::Aborted(pid, fault)),
        Ok(None) | Err(_) => BatchEnd::NoMemory,
    }
}

/// Runs a batch to its end, which may make so many firings (docs/MACHINE.md, "Workers"). One worker fires as its policy
/// says, and calls no gate; several take turns over a floor, each in a thread of its own, and nothing says when they
/// get their turns. Where the batch is at its end already no thread is made. The world comes back whatever the end, and
/// also where memory was wanting. Under `cost all` the firings, a unit for each, come to at most twice the gas spent
/// since the ledger before the batch, and a unit for each process of that ledger.
pub fn run_batch<M: Undo + Drop + Send, G: Gate, R: Threads + Wait + Sync>(
    rt: &R,
    alloc: Global,
    accepted: &Accepted,
    world: World<M>,
    limit: u32,
    crew: Crew,
    gate: &G,
) -> Ran<M>
    requires may { MayRun accepted.now limit world }
    requires crew { IsCrew crew }
    ensures runs { RunsOn accepted.now limit world result.world }
    ensures ends { MayEnd accepted.now result.world.state (length result.world.firings) limit result.end }
    ensures one { (policy : Policy) → crew ≡ Crew.One policy → RunsBy policy accepted.now limit world result.world
        × EndsBy policy accepted.now limit result.world result.end }
    ensures passes { (workers : ℕ) → crew ≡ Crew.Many workers → All (IsOfWorker workers) result.world.firings }
    ensures aborts { (workers : ℕ) → crew ≡ Crew.Many workers
        → AbortsAtLowest accepted.now result.world.state result.end }
    ensures pays { IsUnderCostAll accepted.now.program
        → PaysFor accepted.now (length result.world.firings) result.world.origin.state result.world.state }
{
    accepted.know();
    let workers = match crew {
        Crew::One(policy) => return run_by(alloc, accepted, world, limit, policy),
        Crew::Many(workers) => workers,
    };
    let mut watched = Watched::of(world);
    watched.watch(alloc, accepted);
    if let Some(end) = watched.end(accepted, limit) {
        return Ran {
            world: watched.into_world(),
            end: BatchEnd::Done(end),
        };
    }
    let shop = Shop::over(accepted, watched, limit);
    let mut watched = run_shop(rt, alloc, shop, workers, gate).into_watched();
    let end = end_of(alloc, accepted, &mut watched, limit);
    Ran {
        world: watched.into_world(),
        end,
    }
}
