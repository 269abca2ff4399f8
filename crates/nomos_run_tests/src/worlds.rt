//! Worlds of tests: a batch that has begun behind other items.
ghost use Rattle.std.specs.Prelude.{ℕ, ◌+◌, ◌^◌, ◌≤◌, length};
ghost use Rattle.nomos_legal.specs.NextNumbers.{HasNumbered};
ghost use Rattle.nomos_legal.specs.StandsFor.{StandsFor};
ghost use Rattle.nomos_ledger.specs.Running.{MayRun};

use crate::told_scripts::{ran, script_of};
use nomos_ledger::begun::Begun;
use nomos_ledger::ledger::Ledger;
use nomos_ledger::world::World;
use nomos_machine::policy::Policy;
use nomos_run::orders::{Orders, Runner, ScriptRun, WholeRun};
use nomos_script::item::{Batch, ScriptItem};
use nomos_script::script::Script;
use nomos_state::indexed::IndexedState;
use nomos_types::accepted::Accepted;
use nomos_workers::batch::Crew;
use nomos_workers::gate::OpenGate;
use std::process::Abort;
use std::sync::Wait;
use std::thread::Threads;

/// An account with three units.
pub(crate) const ONE_ACCOUNT: &str = "deposit u 3
";

/// Two transactions that emit, in one batch.
pub(crate) const SAY_TWICE: &str = "begin
exec u say(1;)
exec u say(2;)
end
";

// The ledger behind a script.
fn ledger_behind<R: Abort + AllocGlobal + Threads + Wait + Sync>(
    rt: &R,
    accepted: &Accepted,
    text: &str,
) -> Ledger<IndexedState>
    ensures stands { StandsFor accepted.now result }
    ensures numbered { HasNumbered (2 ^ 20 + 20000000) result.state }
{
    // Where the items are read it is known how many they are.
    accepted.know();
    let script = script_of(rt, text);
    let _items = script.items();
    let orders = Orders {
        crew: Crew::One(Policy::First),
        limit: 1_000_000,
        text: false,
        result: false,
    };
    let gate = OpenGate;
    let runner = Runner {
        rt,
        gate: &gate,
        orders,
    };
    let ScriptRun {
        journal: _journal,
        finished,
    } = ran(&runner, rt.alloc(), accepted, &script);
    let Some(whole) = finished else {
        panic!(rt; "memory was wanting")
    };
    let WholeRun { ledger, .. } = whole;
    ledger
}

// The first item of a script, which is a batch.
fn first_batch<'a, R: Abort>(rt: &R, script: &'a Script) -> &'a Batch
    ensures { length result.now.starts ≤ 2 ^ 20 }
{
    match script.items().as_slice().first() {
        Some(ScriptItem::Batch(batch)) => batch,
        _ => panic!(rt; "no batch"),
    }
}

/// The world in which the first item of a script has begun, which is a batch, behind another script.
pub(crate) fn world_of<R: Abort + AllocGlobal + Threads + Wait + Sync>(
    rt: &R,
    accepted: &Accepted,
    before: &str,
    batch: &str,
) -> World<IndexedState>
    ensures { (limit : ℕ) → limit ≤ 1000000 → MayRun accepted.now limit result }
{
    accepted.know();
    let ledger = ledger_behind(rt, accepted, before);
    let script = script_of(rt, batch);
    match ledger.begin(rt.alloc(), accepted, first_batch(rt, &script)) {
        Begun::World(world) => world,
        _ => panic!(rt; "the batch did not begin"),
    }
}
