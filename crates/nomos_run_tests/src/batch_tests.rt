//! Tests: batches that are run by themselves, and the worlds that come back.
ghost use Rattle.std.specs.Prelude.{◌≤◌};
ghost use Rattle.nomos_legal.specs.StandsFor.{WorldStandsFor};
ghost use Rattle.nomos_workers.specs.Crews.{IsCrew};

use crate::crew_telling::SAY;
use crate::told_scripts::accepted_of;
use crate::worlds::{ONE_ACCOUNT, SAY_TWICE, world_of};
use nomos_ledger::ledger::Ledger;
use nomos_ledger::world::World;
use nomos_legal::journal::End;
use nomos_machine::policy::Policy;
use nomos_state::indexed::IndexedState;
use nomos_types::accepted::Accepted;
use nomos_workers::batch::{BatchEnd, Crew, Ran};
use nomos_workers::gate::OpenGate;
use nomos_workers::run::run_batch;
use std::process::Abort;
use std::sync::Wait;
use std::thread::Threads;

// A batch of two transactions that is run.
fn run_say<R: Abort + AllocGlobal + Threads + Wait + Sync>(
    rt: &R,
    limit: u32,
    crew: Crew,
) -> Ran<IndexedState>
    requires limit { limit ≤ 1000000 }
    requires crew { IsCrew crew }
{
    let accepted = accepted_of(rt, SAY);
    let world = world_of(rt, &accepted, ONE_ACCOUNT, SAY_TWICE);
    run_batch(rt, rt.alloc(), &accepted, world, limit, crew, &OpenGate)
}

// Fails unless a batch that may make no firing ends at once.
fn expect_no_firing<R: Abort + AllocGlobal + Threads + Wait + Sync>(rt: &R, crew: Crew)
    requires { IsCrew crew }
{
    let Ran { world, end } = run_say(rt, 0, crew);
    assert!(rt; matches!(end, BatchEnd::Done(End::Steps(0))));
    assert!(rt; world.firings().is_empty());
}

// A batch may be left no firings, where the batches before it made all that a script may make.
#[test]
fn a_batch_may_have_no_firing(rt: HostRuntime) {
    expect_no_firing(&rt, Crew::One(Policy::First));
    expect_no_firing(&rt, Crew::One(Policy::Round));
    expect_no_firing(&rt, Crew::Many(2));
    expect_no_firing(&rt, Crew::Many(16));
}

// Fails unless the ledger is as it was before the batch.
fn expect_untouched<R: Abort>(rt: &R, ledger: &Ledger<IndexedState>) {
    assert!(rt; ledger.account(0) == Some("u"));
    assert!(rt; ledger.account(1).is_none());
    assert_eq!(rt; ledger.contracts(), 0);
    assert_eq!(rt; ledger.deposits(), 3);
}

// The world comes back however the batch ended, also where memory was wanting: it can be undone.
#[test]
fn worlds_come_back(rt: HostRuntime) {
    let Ran { world, end: _end } = run_say(&rt, 1_000_000, Crew::Many(4));
    expect_untouched(&rt, &world.undo());
}

// Fails unless a batch goes on that may make a million firings, and has reached its limit where it may make none.
fn expect_goes_on<R: Abort>(rt: &R, accepted: &Accepted, world: &World<IndexedState>)
    requires { WorldStandsFor accepted.now world.now }
{
    assert!(rt; world.end(accepted, 1_000_000).is_none());
    assert!(rt; matches!(world.end(accepted, 0), Some(End::Steps(0))));
}

// Fails unless a world tells that its batch stays.
fn expect_stays<R: Abort>(rt: &R, accepted: &Accepted, world: &World<IndexedState>)
    requires { WorldStandsFor accepted.now world.now }
{
    assert!(rt; matches!(world.end(accepted, 1_000_000), Some(End::Committed)));
}

// Fails unless a world tells before its batch is run that it goes on, and how it ends behind that.
fn expect_told_ends<R: Abort + AllocGlobal + Threads + Wait + Sync>(rt: &R) {
    let accepted = accepted_of(rt, SAY);
    let world = world_of(rt, &accepted, ONE_ACCOUNT, SAY_TWICE);
    expect_goes_on(rt, &accepted, &world);
    let crew = Crew::One(Policy::First);
    let Ran { world, end } = run_batch(
        rt,
        rt.alloc(),
        &accepted,
        world,
        1_000_000,
        crew,
        &OpenGate,
    );
    assert!(rt; matches!(end, BatchEnd::Done(End::Committed)));
    expect_stays(rt, &accepted, &world);
}

// A world tells how its batch ends, as the run does that comes to it.
#[test]
fn worlds_tell_how_batches_end(rt: HostRuntime) {
    expect_told_ends(&rt);
}
