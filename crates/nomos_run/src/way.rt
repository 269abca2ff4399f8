//! How far the run of a script has come, whoever fires its batches.
ghost use Rattle.std.specs.Prelude.{◌≡◌, ◌+◌, ◌<◌, ◌^◌, [], IfOk, IfSome, IsSome, None, OnErr, length};
ghost use Rattle.nomos_legal.specs.Ledger.{IsLedger};
ghost use Rattle.nomos_legal.specs.Legal.{batch_limit};
ghost use Rattle.nomos_legal.specs.StandsFor.{WorldStandsFor};
ghost use Rattle.nomos_walk.specs.Coming.{journal_of};
ghost use Rattle.nomos_walk.specs.Walks.{walk_of};
ghost use Rattle.nomos_workers.specs.Shops.{MayEnd};
ghost use Rattle.nomos_run.specs.mirror.Runs.{FinishesAs, IsWholeOf, wanted_by};

use crate::orders::{Orders, ScriptRun, WholeRun};
use nomos_deeds::undo::Undo;
use nomos_ir::items::Items;
use nomos_ledger::ledger::Ledger;
use nomos_legal::journal::{Entry, Journal};
use nomos_report::course::Outset;
use nomos_types::accepted::Accepted;
use nomos_walk::papers::{Papers, WantedTexts};
use nomos_walk::started::{BatchUnderWay, PassedItem};
use nomos_walk::walk::Walk;
use nomos_workers::batch::{BatchEnd, Ran};
use std::alloc::{AllocError, Global};

/// How far a run has come: its walk, and the entries that it keeps.
#[derive(Drop)]
pub(crate) struct RunWay<'a> {
    pub(crate) walk: Walk<'a>,
    pub(crate) entries: Vec<Entry>,
}

/// A run before any item.
pub(crate) fn begin<'a>(
    alloc: Global,
    accepted: &'a Accepted,
    orders: Orders,
) -> Result<RunWay<'a>, AllocError>
    ensures walk { IfOk result (λ way. way.walk ≡ walk_of accepted.now orders.limit (wanted_by orders) []) }
    ensures entries { IfOk result (λ way. way.entries.items ≡ []) }
{
    let wanted = WantedTexts {
        report: true,
        text: orders.text,
        result: orders.result,
    };
    let walk = Walk::new(alloc, accepted, orders.limit, wanted)?;
    let entries = Vec::new(alloc);
    Ok(RunWay { walk, entries })
}

/// Where a name is read, a ledger is known to be one.
pub(crate) fn know_ledger<M: Undo>(ledger: &Ledger<M>)
    ensures { IsLedger ledger.now }
{
    let _name = ledger.account(0);
}

/// Finishes a batch that was run, where it has come to an end.
pub(crate) fn finish_ran<M: Undo + Drop>(
    alloc: Global,
    walk: &mut Walk<'_>,
    outset: Outset,
    ran: Ran<M>,
) -> Result<PassedItem<M>, AllocError>
    requires stands { WorldStandsFor walk.old.accepted ran.world }
    requires spent { outset.spent ≡ ran.world.origin.state.spent }
    requires few { walk.old.made + length ran.world.firings < 2 ^ 32 }
    requires ends { MayEnd walk.old.accepted ran.world.state (length ran.world.firings)
        (batch_limit walk.old.limit walk.old.made) ran.end }
    ensures { IfOk result (λ passed. FinishesAs walk.old outset.line ran.world ran.end passed walk.new) }
{
    let Ran { world, end } = ran;
    let BatchEnd::Done(end) = end else {
        return Err(AllocError);
    };
    walk.finish(alloc, BatchUnderWay { outset, world }, end)
}

// What is given of a walk that has come to its end.
fn whole<M: Undo + Drop>(walk: Walk<'_>, ledger: Ledger<M>) -> WholeRun<M>
    requires { IsSome walk.papers.report }
    ensures { IsWholeOf walk.entry ledger result }
{
    let Papers {
        report,
        text,
        result,
    } = walk.into_papers();
    match report.into_text() {
        Some(report) => WholeRun {
            report,
            text: text.into_text(),
            last_result: result.into_value(),
            ledger,
        },
        None => unreachable!(),
    }
}

// What is given of a run beside its journal, where it came to the last ledger.
fn finished<M: Undo + Drop>(
    walk: Walk<'_>,
    last: Result<Ledger<M>, AllocError>,
) -> Option<WholeRun<M>>
    requires { IfOk last (λ _. IsSome walk.papers.report) }
    ensures whole { IfSome result (λ whole. IfOk last (λ l. IsWholeOf walk.entry l whole)) }
    ensures none { OnErr last (result ≡ None) }
{
    match last {
        Ok(ledger) => Some(whole(walk, ledger)),
        Err(_) => None,
    }
}

/// What a run comes to: its journal, and where it came to the last ledger, all that is given.
pub(crate) fn end<M: Undo + Drop>(
    way: RunWay<'_>,
    limit: u32,
    last: Result<Ledger<M>, AllocError>,
) -> ScriptRun<M>
    requires { IfOk last (λ _. IsSome way.walk.papers.report) }
    ensures journal { result.journal ≡ journal_of limit way.entry.entries.items }
    ensures whole { IfSome result.finished (λ whole. IfOk last (λ l. IsWholeOf way.entry.walk l whole)) }
    ensures none { OnErr last (result.finished ≡ None) }
{
    let RunWay { walk, entries } = way;
    let finished = finished(walk, last);
    ScriptRun {
        journal: Journal {
            limit,
            entries: Items::of_vec(entries),
        },
        finished,
    }
}

/// What a run comes to of which no item has passed, since memory was wanting.
pub(crate) fn end_at_once<M: Undo + Drop>(alloc: Global, limit: u32) -> ScriptRun<M>
    ensures journal { result.journal ≡ journal_of limit [] }
    ensures none { result.finished ≡ None }
{
    ScriptRun {
        journal: Journal {
            limit,
            entries: Items::of_vec(Vec::new(alloc)),
        },
        finished: None,
    }
}
