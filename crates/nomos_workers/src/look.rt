//! One look of a worker at a batch under way.
ghost use Rattle.std.specs.Prelude.{◌≡◌, ℕ, IfOk, IfSome, OnErr, length};
ghost use Rattle.nomos_deeds.specs.Acting.{HasNumbers};
ghost use Rattle.nomos_machine.specs.Step.{IsReady};
ghost use Rattle.nomos_legal.specs.Ending.{IsAllowed};
ghost use Rattle.nomos_legal.specs.StandsFor.{WorldStandsFor};
ghost use Rattle.nomos_floor.specs.FloorPass.{AddsAtMostOne};
ghost use Rattle.nomos_ledger.specs.Calls.{FiresIn};
ghost use Rattle.nomos_ledger.specs.Watching.{IsWatched};
ghost use Rattle.nomos_workers.specs.Crews.{AbortsAtLowest};
ghost use Rattle.nomos_workers.specs.Looks.{IsKnown, TurnsOut};
ghost use Rattle.nomos_workers.specs.declared.batch.BatchEnd.TheVariants as batch_end;
ghost use Rattle.nomos_workers.specs.Shops.{IsShop, history_of, opening, shop_of};

use crate::elsewhere::Elsewhere;
use crate::trade::{KnownOutcome, Seeks, Turned};
use nomos_deeds::fire::Fire;
use nomos_deeds::sight::Sight;
use nomos_deeds::undo::Undo;
use nomos_eval::wanted::Wanted;
use nomos_ir::ids::VarId;
use nomos_ir::value::Value;
use nomos_ledger::watched::Watched;
use nomos_ledger::world::World;
use nomos_legal::journal::{End, Firing};
use nomos_types::accepted::Accepted;
use std::alloc::{AllocError, Global};

/// Who looks: a pass, where and with what it seeks, and what all workers have in hand.
#[derive(Clone, Copy)]
pub struct Looker<'a> {
    pub pass: u32,
    pub seeks: &'a Seeks,
    pub elsewhere: &'a Elsewhere,
}

// So often a worker has rested when it takes what another one has in hand.
const RESTS: u32 = 64;

// So many ready processes a look goes past that others have in hand.
const PASSED_BY: u32 = 16;

// So many variables, and lists of such a weight in all, a process has at most whose terms are evaluated outside the
// turn: its values are copied for that, and compared when the outcome comes back.
const MOST_VARIABLES: usize = 100;

const MOST_WEIGHT: u32 = 1_000;

// Whether to copy and to compare these values takes no longer than a turn or two.
fn are_light(values: &[(VarId, Value)]) -> bool {
    if values.len() > MOST_VARIABLES {
        return false;
    }
    let mut weight: u32 = 0;
    for bound in values {
        weight = weight.saturating_add(bound.1.node().weight());
    }
    weight <= MOST_WEIGHT
}

// A ready process that no other worker has in hand, from the one that was found on; or none, where so many are with
// others.
fn free_one<M: Undo>(
    accepted: &Accepted,
    watched: &mut Watched<M>,
    found: u32,
    looker: Looker<'_>,
) -> Option<u32>
    requires stands { WorldStandsFor accepted.now watched.old.world }
    requires watched { IsWatched accepted.now watched.old.world.state watched.old.awake }
    requires ready { IsReady accepted.now watched.old.world.state found }
    ensures world { watched.new.world ≡ watched.old.world }
    ensures watched { IsWatched accepted.now watched.new.world.state watched.new.awake }
    ensures free { IfSome result (IsReady accepted.now watched.old.world.state) }
{
    let mut pid = found;
    'passed: for _ in 0..PASSED_BY {
        if !looker.elsewhere.is_with_another(looker.pass, pid) {
            return Some(pid);
        }
        let next = watched.any_ready(accepted, pid)?;
        if next == found {
            return None;
        }
        pid = next;
    }
    None
}

// The ready process that this worker goes on with, where one was found; or none, if others have all in hand. Who has
// rested long takes the one that was found.
fn chosen_one<M: Undo>(
    accepted: &Accepted,
    watched: &mut Watched<M>,
    found: u32,
    looker: Looker<'_>,
) -> Option<u32>
    requires stands { WorldStandsFor accepted.now watched.old.world }
    requires watched { IsWatched accepted.now watched.old.world.state watched.old.awake }
    requires ready { IsReady accepted.now watched.old.world.state found }
    ensures world { watched.new.world ≡ watched.old.world }
    ensures watched { IsWatched accepted.now watched.new.world.state watched.new.awake }
    ensures chosen { IfSome result (IsReady accepted.now watched.old.world.state) }
{
    if looker.seeks.rests >= RESTS {
        Some(found)
    } else {
        free_one(accepted, watched, found, looker)
    }
}

// What is to be evaluated of a process outside the turn before it fires, if anything is and nothing was evaluated. The
// terms of one with many values are evaluated within the turn.
fn asked<M: Undo>(
    alloc: Global,
    accepted: &Accepted,
    watched: &Watched<M>,
    pid: u32,
    known: Option<&KnownOutcome>,
) -> Result<Option<Wanted>, AllocError>
    requires { WorldStandsFor accepted.now watched.now.world }
{
    if known.is_some() || !are_light(watched.world.state().values(pid)) {
        return Ok(None);
    }
    watched.world.wanted(alloc, accepted, pid)
}

// Fires a ready process, with what was evaluated, if anything.
fn fire<M: Undo>(
    alloc: Global,
    accepted: &Accepted,
    watched: &mut Watched<M>,
    firing: Firing,
    known: Option<&KnownOutcome>,
) -> Result<Fire, AllocError>
    requires stands { WorldStandsFor accepted.now watched.old.world }
    requires ready { IsReady accepted.now watched.old.world.state firing.pid }
    requires numbers { HasNumbers watched.old.world.state }
    requires watched { IsWatched accepted.now watched.old.world.state watched.old.awake }
    requires known { IfSome known (λ k. IsKnown accepted.now k.now) }
    ensures ok { IfOk result (λ answer. FiresIn accepted.now watched.old.world firing answer watched.new.world) }
    ensures err { OnErr result (watched.new.world ≡ watched.old.world) }
    ensures stands { WorldStandsFor accepted.now watched.new.world }
    ensures watched { IsWatched accepted.now watched.new.world.state watched.new.awake }
{
    accepted.know();
    match known {
        Some(known) => {
            watched.fire_with(alloc, accepted, firing, (&known.wanted, &known.outcome))
        }
        None => watched.fire(alloc, accepted, firing),
    }
}

/// What a look at a batch under way comes to, which may make so many firings, by this pass: an end, a process that is
/// to be evaluated first, one that fired, or a rest, where others evaluate all that are ready.
pub fn look<M: Undo>(
    alloc: Global,
    accepted: &Accepted,
    watched: &mut Watched<M>,
    limit: u32,
    looker: Looker<'_>,
) -> Result<Turned<Wanted, End>, AllocError>
    requires shop { IsShop (shop_of accepted.now watched.old.world limit) }
    requires watched { IsWatched accepted.now watched.old.world.state watched.old.awake }
    requires known { IfSome looker.seeks.now.known (IsKnown accepted.now) }
    ensures shop { IsShop (shop_of accepted.now watched.new.world limit) }
    ensures watched { IsWatched accepted.now watched.new.world.state watched.new.awake }
    ensures start { opening (shop_of accepted.now watched.new.world limit)
        ≡ opening (shop_of accepted.now watched.old.world limit) }
    ensures history { AddsAtMostOne looker.entry.pass (history_of (shop_of accepted.now watched.old.world limit))
        (history_of (shop_of accepted.now watched.new.world limit)) }
    ensures turns { IfOk result (TurnsOut (λ _. Unit {0})
        (IsAllowed accepted.now watched.new.world.state (length watched.new.world.firings) limit)) }
{
    accepted.know();
    watched.watch(alloc, accepted);
    let ready = watched.any_ready(accepted, looker.seeks.after);
    if let Some(end) = watched.end_where(accepted, limit, ready) {
        return Ok(Turned::Ends(end));
    }
    let Some(found) = ready else { unreachable!() };
    let Some(pid) = chosen_one(accepted, watched, found, looker) else {
        return Ok(Turned::Rests);
    };
    let known = looker.seeks.known.as_ref();
    if let Some(wanted) = asked(alloc, accepted, watched, pid, known)? {
        return Ok(Turned::Wants(pid, wanted));
    }
    let firing = Firing {
        pass: looker.pass,
        pid,
    };
    match fire(alloc, accepted, watched, firing, known)? {
        Fire::Fired => Ok(Turned::Goes(pid)),
        Fire::Faulted(fault) => Ok(Turned::Ends(End::Aborted(pid, fault))),
    }
}

/// The end to which a batch comes at which a worker has found one: an abort names the lowest process that has a fault
/// there, and any other end is the one that was found.
pub fn told_end<M: Undo>(
    alloc: Global,
    accepted: &Accepted,
    world: &World<M>,
    found: End,
) -> Result<End, AllocError>
    requires stands { WorldStandsFor accepted.now world.now }
    requires found { (limit : ℕ) × IsAllowed accepted.now world.now.state (length world.now.firings) limit found }
    ensures allowed { (limit : ℕ) → IsAllowed accepted.now world.now.state (length world.now.firings) limit found
        → IfOk result (IsAllowed accepted.now world.now.state (length world.now.firings) limit) }
    ensures aborts { IfOk result (λ end. AbortsAtLowest accepted.now world.now.state (batch_end.Done end)) }
{
    let End::Aborted(_, _) = found else {
        return Ok(found);
    };
    match world.lowest_fault(alloc, accepted)? {
        Some((pid, fault)) => Ok(End::Aborted(pid, fault)),
        None => unreachable!(),
    }
}
