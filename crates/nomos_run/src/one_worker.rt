//! Runs a script by one worker, from any ledger. No thread is made and no gate is called, so that each call returns.
ghost use Rattle.std.specs.Prelude.{◌≡◌, ◌<◌, ◌≤◌, ◌^◌, [], IfOk, IfSome, OnErr, length};
ghost use Rattle.nomos_machine.specs.declared.policy.Policy.{Policy};
ghost use Rattle.nomos_script.specs.declared.item.ScriptItem.{ScriptItem};
ghost use Rattle.nomos_script.specs.Size.{IsScriptSize};
ghost use Rattle.nomos_legal.specs.Ledger.{IsLedger, LedgerState};
ghost use Rattle.nomos_legal.specs.Legal.{IsLimit, batch_limit, max_firings};
ghost use Rattle.nomos_legal.specs.NextNumbers.{HasNumbered};
ghost use Rattle.nomos_legal.specs.StandsFor.{StandsFor};
ghost use Rattle.nomos_journal.specs.JournalText.{IsTextOf};
ghost use Rattle.nomos_journal.specs.declared.line.Version.TheVariants as version;
ghost use Rattle.nomos_ledger.specs.Running.{MayRun};
ghost use Rattle.nomos_report.specs.Reported.{IsReport, IsReportFrom};
ghost use Rattle.nomos_walk.specs.Walks.{HasBegunBatch, HasRoomFor};
ghost use Rattle.nomos_run.specs.Carried.{RunsScript, RunsScriptFrom};
ghost use Rattle.nomos_run.specs.mirror.Runs.{CarriesOut, HasGone, RunsSoFar};

use crate::orders::{Orders, ScriptRun};
use crate::way::{RunWay, begin, end, end_at_once, finish_ran, know_ledger};
use nomos_deeds::undo::Undo;
use nomos_ledger::ledger::Ledger;
use nomos_machine::policy::Policy;
use nomos_script::item::ScriptItem;
use nomos_script::script::Script;
use nomos_types::accepted::Accepted;
use nomos_walk::entries::keep;
use nomos_walk::started::{BatchUnderWay, PassedItem, StartedItem};
use nomos_walk::walk::Walk;
use nomos_workers::batch::Crew;
use nomos_workers::one::run_by;
use std::alloc::{AllocError, Global};

// Fires a batch to its end, and finishes it.
fn fire_batch<M: Undo + Drop>(
    policy: Policy,
    alloc: Global,
    walk: &mut Walk<'_>,
    under: BatchUnderWay<M>,
) -> Result<PassedItem<M>, AllocError>
    requires made { walk.old.made ≤ max_firings }
    requires may { MayRun walk.old.accepted (batch_limit walk.old.limit walk.old.made) under.world }
    requires spent { under.outset.spent ≡ under.world.origin.state.spent }
    ensures { (l : LedgerState) (i : ScriptItem)
        → HasBegunBatch walk.old l i under.outset.line under.outset.spent under.world walk.old
        → IfOk result (λ passed. CarriesOut (Crew.One policy) walk.old l i passed walk.new) }
{
    let limit = walk.next_limit();
    let BatchUnderWay { outset, world } = under;
    let ran = run_by(alloc, walk.accepted(), world, limit, policy);
    finish_ran(alloc, walk, outset, ran)
}

// Carries out an item.
fn carry_out<M: Undo + Drop>(
    policy: Policy,
    alloc: Global,
    walk: &mut Walk<'_>,
    ledger: Ledger<M>,
    item: &ScriptItem,
) -> Result<PassedItem<M>, AllocError>
    requires stands { StandsFor walk.old.accepted ledger }
    requires room { HasRoomFor walk.old ledger item.now }
    requires made { walk.old.made ≤ max_firings }
    ensures { IfOk result (λ passed. CarriesOut (Crew.One policy) walk.old ledger item.now passed walk.new) }
{
    walk.accepted().know();
    match walk.start(alloc, ledger, item)? {
        StartedItem::Passed(passed) => Ok(passed),
        StartedItem::UnderWay(under) => fire_batch(policy, alloc, walk, under),
    }
}

// Carries out all items from a ledger, and keeps their entries. Where memory is wanting those of the items before are
// kept.
fn run_items<M: Undo + Drop>(
    orders: Orders,
    alloc: Global,
    way: &mut RunWay<'_>,
    from: Ledger<M>,
    items: &[ScriptItem],
) -> Result<Ledger<M>, AllocError>
    requires size { IsScriptSize items.now }
    requires one { (policy : Policy) × (orders.crew ≡ Crew.One policy) }
    requires ledger { IsLedger from }
    requires stands { StandsFor way.old.walk.accepted from }
    requires numbers { HasNumbered (2 ^ 31) from.state }
    requires accounts { length from.accounts < 2 ^ 31 }
    requires begins { HasGone way.old.walk.accepted from orders [] way.old.entries.items from way.old.walk }
    ensures ok { IfOk result (λ last.
        HasGone way.old.walk.accepted from orders items.now way.new.entries.items last way.new.walk) }
    ensures err { OnErr result (RunsSoFar way.old.walk.accepted from items.now orders way.new.entries.items) }
{
    way.walk.accepted().know();
    let Crew::One(policy) = orders.crew else {
        unreachable!()
    };
    let mut ledger = from;
    'items: for item in items {
        let passed = carry_out(policy, alloc, &mut way.walk, ledger, item)?;
        ledger = passed.ledger;
        keep(&mut way.entries, passed.entry)?;
    }
    Ok(ledger)
}

/// Runs a script by one worker, from a ledger (docs/MACHINE.md, "Legal journals"): item by item, each batch as the
/// policy says. The report, and the text of the journal where it is wanted, are made while it goes. Where memory is
/// wanting, the journal of some first items is given. The ledger stands for the program, and each of its next numbers,
/// and the number of its accounts, is at most some 2^31.
pub fn run_from<M: Undo + Drop>(
    orders: Orders,
    alloc: Global,
    accepted: &Accepted,
    from: Ledger<M>,
    script: &Script,
) -> ScriptRun<M>
    requires one { (policy : Policy) × (orders.crew ≡ Crew.One policy) }
    requires limit { IsLimit orders.limit }
    requires stands { StandsFor accepted.now from }
    requires numbers { HasNumbered (2 ^ 31) from.state }
    requires accounts { length from.accounts < 2 ^ 31 }
    ensures runs { RunsScriptFrom accepted.now from script.now orders result }
    ensures report { IfSome result.finished (λ f.
        IsReportFrom accepted.now from script.now result.journal f.report.items) }
{
    accepted.know();
    know_ledger(&from);
    let Ok(mut way) = begin(alloc, accepted, orders) else {
        return end_at_once(alloc, orders.limit);
    };
    let items = script.items().as_slice();
    let last = run_items(orders, alloc, &mut way, from, items);
    end(way, orders.limit, last)
}

/// Runs a script by one worker, from the empty ledger: see `run_from`.
///
/// ```
/// let accepted = accept(alloc, b"proc T twice(n : int;) = emit n + n; close;")?;
/// let script = parse_script(alloc, b"deposit ann 5\nexec ann twice(21;)\n")?;
/// let crew = Crew::One(Policy::First);
/// let orders = Orders { crew, limit: 1_000_000, text: true, result: true };
/// let ran = run_script::<IndexedState>(orders, alloc, &accepted, &script);
/// // The report says `line 2 committed firings 2 spent 0`, and `result 1 42` behind it.
/// ```
pub fn run_script<M: Undo + Drop>(
    orders: Orders,
    alloc: Global,
    accepted: &Accepted,
    script: &Script,
) -> ScriptRun<M>
    requires one { (policy : Policy) × (orders.crew ≡ Crew.One policy) }
    requires limit { IsLimit orders.limit }
    ensures runs { RunsScript accepted.now script.now orders result }
    ensures report { IfSome result.finished (λ f. IsReport accepted.now script.now result.journal f.report.items) }
    ensures text { IfSome result.finished (λ f.
        IfSome f.text (λ t. IsTextOf version.Two accepted.now script.now result.journal t.items)) }
{
    run_from(orders, alloc, accepted, Ledger::empty(alloc), script)
}
