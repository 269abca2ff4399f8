//! Items of a script that a text tells, one by one, along the walk.

ghost use Rattle.std.specs.Prelude.{◌≡◌, ◌≤◌, ◌∷◌, [], ℕ, List, IfOk, IfErr, OnOk, MatchResult, length};
ghost use Rattle.nomos_script.specs.declared.item.ScriptItem.{ScriptItem};
ghost use Rattle.nomos_legal.specs.Ledger.{LedgerState};
ghost use Rattle.nomos_legal.specs.Legal.{batch_limit, max_firings};
ghost use Rattle.nomos_legal.specs.StandsFor.{StandsFor, WorldStandsFor};
ghost use Rattle.nomos_walk.specs.Walks.{HasBegunBatch, HasItemRoom, HasRoomFor};
ghost use Rattle.nomos_replay.specs.Stand.{before, entry_at, fires};
ghost use Rattle.nomos_replay.specs.Told.{Told, next_limit};
ghost use Rattle.nomos_replay.specs.mirror.Items.{PassesOn};
ghost use Rattle.nomos_replay.specs.mirror.JournalReading.{HasRead, HasReadEnd, HasReadLine, IsCounted, Stops, StopsAtEnd, StopsAtOwn};
ghost use Rattle.nomos_replay.specs.mirror.BatchUnderWay.{under_way};

use crate::error::ReplayError;
use crate::journal_lines::JournalLines;
use crate::line_kinds::{end_in, names_line};
use crate::same::is_same_end;
use crate::told_batch::replay_firings;
use crate::trial::Trial;
use nomos_deeds::undo::Undo;
use nomos_journal::line::JournalLine;
use nomos_ledger::ledger::Ledger;
use nomos_ledger::watched::Watched;
use nomos_legal::journal::{End, Entry};
use nomos_script::item::ScriptItem;
use nomos_walk::started::{BatchUnderWay, PassedItem, StartedItem};
use nomos_walk::walk::Walk;

/// A text that is read, and the entries of what was told so far.
#[derive(Drop)]
pub(crate) struct Reading<'a> {
    pub(crate) source: JournalLines<'a>,
    pub(crate) entries: Vec<Entry>,
}

// The line of the script at which an item stands; a `show` has no entry.
fn entry_line(item: &ScriptItem) -> Option<u32>
    ensures { result ≡ entry_at item.now }
{
    match item {
        ScriptItem::Deposit { line, .. } => Some(*line),
        ScriptItem::Batch(batch) => Some(batch.line),
        ScriptItem::Show { .. } => None,
    }
}

// Reads the line that names a line of the script.
fn read_item_line(
    trial: &Trial<'_>,
    source: &mut JournalLines<'_>,
    at: u32,
) -> Result<(), ReplayError>
    requires { IsCounted source.old }
    ensures ok { OnOk result
        (HasRead trial.now.accepted.now.annotations.unit source.old (JournalLine.Line at) source.new) }
    ensures err { IfErr result (λ e. (told : Told) (i : ScriptItem) (first : LedgerState) (all items : List ScriptItem)
        → entry_at i ≡ Some at
        → Stops trial.now.accepted.now first all source.old (before trial.now.version told (i ∷ items)) e) }
    ensures counted { IsCounted source.new }
{
    trial.accepted.know();
    let line = source.next_line(trial.alloc, trial.accepted)?;
    let named = names_line(line, at);
    if named {
        Ok(())
    } else {
        Err(ReplayError::BadLine(source.at))
    }
}

// Reads the line that names an item, where it has an entry.
fn read_line_of(
    trial: &Trial<'_>,
    source: &mut JournalLines<'_>,
    item: &ScriptItem,
) -> Result<(), ReplayError>
    requires { IsCounted source.old }
    ensures ok { OnOk result
        (HasReadLine trial.now.accepted.now.annotations.unit (entry_at item.now) source.old source.new) }
    ensures err { IfErr result (λ e. (told : Told) (first : LedgerState) (all items : List ScriptItem)
        → Stops trial.now.accepted.now first all source.old (before trial.now.version told (item.now ∷ items)) e) }
    ensures counted { IsCounted source.new }
{
    match entry_line(item) {
        Some(at) => read_item_line(trial, source, at),
        None => Ok(()),
    }
}

// Reads the end of an item without firings, which has to be its own.
fn read_own_end(
    trial: &Trial<'_>,
    source: &mut JournalLines<'_>,
    own: End,
) -> Result<End, ReplayError>
    requires { IsCounted source.old }
    ensures ok { IfOk result (λ e. (e ≡ own)
        × HasRead trial.now.accepted.now.annotations.unit source.old (JournalLine.End own) source.new) }
    ensures err { IfErr result (StopsAtOwn trial.now.accepted.now trial.now.version source.old own) }
    ensures counted { IsCounted source.new }
{
    trial.accepted.know();
    let line = source.next_line(trial.alloc, trial.accepted)?;
    let kept = match end_in(line) {
        Ok(kept) => kept,
        Err(_) => return Err(ReplayError::BadLine(source.at)),
    };
    let same = is_same_end(&kept, &own);
    if same {
        Ok(own)
    } else {
        Err(ReplayError::WrongEnd {
            line: source.at,
            kept,
            found: Some(own),
        })
    }
}

// Reads the end of an entry, which has to be its own.
fn read_entry_end(
    trial: &Trial<'_>,
    source: &mut JournalLines<'_>,
    entry: Entry,
) -> Result<Entry, ReplayError>
    requires { IsCounted source.old }
    ensures ok { IfOk result (λ kept. (kept ≡ entry)
        × HasRead trial.now.accepted.now.annotations.unit source.old (JournalLine.End entry.end) source.new) }
    ensures err { IfErr result (StopsAtOwn trial.now.accepted.now trial.now.version source.old entry.end) }
    ensures counted { IsCounted source.new }
{
    let Entry { line, firings, end } = entry;
    let end = read_own_end(trial, source, end)?;
    Ok(Entry { line, firings, end })
}

// Reads the end of an entry, if there is one, which has to be its own.
fn read_end_of(
    trial: &Trial<'_>,
    source: &mut JournalLines<'_>,
    entry: Option<Entry>,
) -> Result<Option<Entry>, ReplayError>
    requires { IsCounted source.old }
    ensures ok { IfOk result (λ kept. (kept ≡ entry)
        × HasReadEnd trial.now.accepted.now.annotations.unit entry source.old source.new) }
    ensures err { IfErr result (StopsAtEnd trial.now.accepted.now trial.now.version source.old entry) }
    ensures counted { IsCounted source.new }
{
    match entry {
        Some(entry) => {
            let kept = read_entry_end(trial, source, entry)?;
            Ok(Some(kept))
        }
        None => Ok(None),
    }
}

// Reads and makes the firings of a batch whose lines started, up to the end that the text keeps, and finishes it with
// that end.
fn replay_batch<M: Undo + Drop>(
    trial: &Trial<'_>,
    walk: &mut Walk<'_>,
    source: &mut JournalLines<'_>,
    under: BatchUnderWay<M>,
) -> Result<PassedItem<M>, ReplayError>
    requires program { walk.old.accepted ≡ trial.now.accepted.now }
    requires counted { IsCounted source.old }
    requires stands { WorldStandsFor trial.now.accepted.now under.world }
    requires fresh { under.world.firings ≡ [] }
    requires spent { under.outset.spent ≡ under.world.origin.state.spent }
    requires made { walk.old.made ≤ max_firings }
    requires room { HasItemRoom under.world.origin (length under.world.starts)
        (batch_limit walk.old.limit walk.old.made) }
    ensures tells { (told : Told) (i : ScriptItem)
        (begun : HasBegunBatch walk.old told.ledger i under.outset.line under.outset.spent under.world walk.old)
        → next_limit told ≡ batch_limit walk.old.limit walk.old.made → MatchResult result
        (λ passed. PassesOn trial.now.accepted.now trial.now.version told walk.old
        (fires trial.now.version told (under_way begun.batch under.world)) source.old i passed source.new walk.new)
        (λ e. (first : LedgerState) (all items : List ScriptItem) → Stops trial.now.accepted.now first all source.old
        (fires trial.now.version told (under_way begun.batch under.world) items) e) }
    ensures counted { IsCounted source.new }
{
    let limit = walk.next_limit();
    let BatchUnderWay { outset, world } = under;
    let mut watched = Watched::of(world);
    watched.watch(trial.alloc, trial.accepted);
    let end = replay_firings(trial, source, &mut watched, limit)?;
    let world = watched.into_world();
    let passed = walk.finish(trial.alloc, BatchUnderWay { outset, world }, end)?;
    Ok(passed)
}

// Reads the end of an item that has passed without firings.
fn replay_still<M: Undo + Drop>(
    trial: &Trial<'_>,
    source: &mut JournalLines<'_>,
    passed: PassedItem<M>,
) -> Result<PassedItem<M>, ReplayError>
    requires { IsCounted source.old }
    ensures ok { IfOk result (λ kept. (kept.ledger ≡ passed.ledger) × (kept.entry ≡ passed.entry)
        × HasReadEnd trial.now.accepted.now.annotations.unit passed.entry source.old source.new) }
    ensures err { IfErr result (StopsAtEnd trial.now.accepted.now trial.now.version source.old passed.entry) }
    ensures counted { IsCounted source.new }
{
    let PassedItem { ledger, entry } = passed;
    let entry = read_end_of(trial, source, entry)?;
    Ok(PassedItem { ledger, entry })
}

/// Reads and carries out an item of the script.
pub(crate) fn replay_item<M: Undo + Drop>(
    trial: &Trial<'_>,
    walk: &mut Walk<'_>,
    source: &mut JournalLines<'_>,
    ledger: Ledger<M>,
    item: &ScriptItem,
) -> Result<PassedItem<M>, ReplayError>
    requires program { walk.old.accepted ≡ trial.now.accepted.now }
    requires counted { IsCounted source.old }
    requires stands { StandsFor trial.now.accepted.now ledger }
    requires room { HasRoomFor walk.old ledger item.now }
    requires made { walk.old.made ≤ max_firings }
    ensures tells { (told : Told) → told.ledger ≡ ledger → next_limit told ≡ batch_limit walk.old.limit walk.old.made
        → MatchResult result
        (λ passed. PassesOn trial.now.accepted.now trial.now.version told walk.old
        (λ items. before trial.now.version told (item.now ∷ items)) source.old item.now passed source.new walk.new)
        (λ e. (first : LedgerState) (all items : List ScriptItem) → Stops trial.now.accepted.now first all source.old
        (before trial.now.version told (item.now ∷ items)) e) }
    ensures counted { IsCounted source.new }
{
    read_line_of(trial, source, item)?;
    match walk.start(trial.alloc, ledger, item)? {
        StartedItem::Passed(passed) => replay_still(trial, source, passed),
        StartedItem::UnderWay(under) => replay_batch(trial, walk, source, under),
    }
}
