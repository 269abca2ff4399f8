//! What is answered of the text of a journal: it is read and run line by line, and all of it is told, or it is refused.

ghost use Rattle.std.specs.Prelude.{◌≡◌, ◌<◌, ◌^◌, [], List, IfOk, MatchResult, length};
ghost use Rattle.nomos_script.specs.Size.{IsScriptSize};
ghost use Rattle.nomos_script.specs.declared.item.ScriptItem.{ScriptItem};
ghost use Rattle.nomos_legal.specs.Ledger.{IsLedger};
ghost use Rattle.nomos_legal.specs.Legal.{IsLimit};
ghost use Rattle.nomos_legal.specs.NextNumbers.{HasNumbered};
ghost use Rattle.nomos_legal.specs.StandsFor.{StandsFor};
ghost use Rattle.nomos_walk.specs.Coming.{journal_of};
ghost use Rattle.nomos_walk.specs.Walks.{walk_of};
ghost use Rattle.nomos_replay.specs.Replayed.{IsRefusedFrom};
ghost use Rattle.nomos_replay.specs.Stand.{before};
ghost use Rattle.nomos_replay.specs.Told.{nothing_told};
ghost use Rattle.nomos_replay.specs.mirror.Items.{AllTold, IsAnswered, ToldUpTo};
ghost use Rattle.nomos_replay.specs.mirror.JournalReading.{IsCounted, Stops};

use crate::error::ReplayError;
use crate::heading::{read_limit, read_version};
use crate::journal_lines::JournalLines;
use crate::told_item::{Reading, replay_item};
use crate::trial::Trial;
use nomos_deeds::undo::Undo;
use nomos_ir::items::Items;
use nomos_journal::text::TextLines;
use nomos_ledger::ledger::Ledger;
use nomos_legal::journal::{Entry, Journal};
use nomos_script::item::ScriptItem;
use nomos_script::script::Script;
use nomos_types::accepted::Accepted;
use nomos_walk::entries::keep;
use nomos_walk::papers::{Papers, WantedTexts};
use nomos_walk::walk::Walk;
use std::alloc::{AllocError, Global};

/// The most bytes of a journal's text.
pub const MAX_BYTES: usize = 1_073_741_824;

/// What the text of a journal is read for: the script whose journal it is, and what is to be written of it.
#[derive(Clone, Copy)]
pub(crate) struct AskedOfText<'a> {
    pub(crate) script: &'a Script,
    pub(crate) wanted: WantedTexts,
}

/// What a text gives that was read to its end: the journal, the ledger to which it leads, and what was written of it.
#[derive(Drop)]
pub(crate) struct ToldText<M: Undo> {
    pub(crate) journal: Journal,
    pub(crate) ledger: Ledger<M>,
    pub(crate) papers: Papers,
}

// The walk before any item.
fn begin<'a>(trial: &Trial<'a>, limit: u32) -> Result<Walk<'a>, AllocError>
    ensures { IfOk result (λ walk. walk ≡ walk_of trial.now.accepted.now limit trial.now.wanted []) }
{
    Walk::new(trial.alloc, trial.accepted, limit, trial.wanted)
}

// Reads and carries out the items of a script from a ledger, and gives the ledger after them.
fn replay_items<M: Undo + Drop>(
    trial: &Trial<'_>,
    walk: &mut Walk<'_>,
    reading: &mut Reading<'_>,
    from: Ledger<M>,
    items: &[ScriptItem],
) -> Result<Ledger<M>, ReplayError>
    requires size { IsScriptSize items.now }
    requires counted { IsCounted reading.old.source }
    requires ledger { IsLedger from }
    requires stands { StandsFor trial.now.accepted.now from }
    requires numbers { HasNumbered (2 ^ 31) from.state }
    requires accounts { length from.accounts < 2 ^ 31 }
    requires none { reading.old.entries.items ≡ [] }
    requires limit { IsLimit walk.old.limit }
    requires begins { walk.old ≡ walk_of trial.now.accepted.now walk.old.limit trial.now.wanted [] }
    ensures tells { MatchResult result
        (λ last. ToldUpTo trial.now.accepted.now trial.now.version from walk.old.limit trial.now.wanted
        reading.old.source
        items.now items.now [] reading.new last walk.new)
        (λ e. (all : List ScriptItem) → Stops trial.now.accepted.now from all reading.old.source
        (before trial.now.version (nothing_told from walk.old.limit) items.now) e) }
    ensures counted { IsCounted reading.new.source }
{
    trial.accepted.know();
    let mut ledger = from;
    'items: for item in items {
        let passed = replay_item(trial, walk, &mut reading.source, ledger, item)?;
        ledger = passed.ledger;
        keep(&mut reading.entries, passed.entry)?;
    }
    Ok(ledger)
}

// What is given of a walk that has come to its end, with these entries and this ledger.
fn whole<M: Undo>(walk: Walk<'_>, limit: u32, entries: Vec<Entry>, ledger: Ledger<M>) -> ToldText<M>
    ensures journal { result.journal ≡ journal_of limit entries.items }
    ensures ledger { result.ledger ≡ ledger }
    ensures papers { result.papers ≡ walk.entry.papers }
{
    ToldText {
        journal: Journal {
            limit,
            entries: Items::of_vec(entries),
        },
        ledger,
        papers: walk.into_papers(),
    }
}

// Reads and carries out the items of a script from a ledger, behind which the text has to end.
fn replay_all<M: Undo + Drop>(
    trial: &Trial<'_>,
    source: JournalLines<'_>,
    limit: u32,
    from: Ledger<M>,
    script: &Script,
) -> Result<ToldText<M>, ReplayError>
    requires counted { IsCounted source }
    requires limit { IsLimit limit }
    requires ledger { IsLedger from }
    requires stands { StandsFor trial.now.accepted.now from }
    requires numbers { HasNumbered (2 ^ 31) from.state }
    requires accounts { length from.accounts < 2 ^ 31 }
    ensures { MatchResult result
        (AllTold trial.now.accepted.now trial.now.version from limit trial.now.wanted source.entry script.now)
        (λ e. (all : List ScriptItem) → Stops trial.now.accepted.now from all source.entry
        (before trial.now.version (nothing_told from limit) script.now) e) }
{
    let mut walk = begin(trial, limit)?;
    let mut reading = Reading {
        source,
        entries: Vec::new(trial.alloc),
    };
    let items = script.items().as_slice();
    let ledger = replay_items(trial, &mut walk, &mut reading, from, items)?;
    let over = reading.source.is_over();
    if !over {
        return Err(ReplayError::BadLine(reading.source.at + 1));
    }
    Ok(whole(walk, limit, reading.entries, ledger))
}

/// What is answered of the text of a journal, from a ledger: all of it is told, or it is refused, or memory is wanting.
pub(crate) fn answer<M: Undo + Drop>(
    alloc: Global,
    accepted: &Accepted,
    from: Ledger<M>,
    asked: AskedOfText<'_>,
    bytes: &[u8],
) -> Result<ToldText<M>, ReplayError>
    requires stands { StandsFor accepted.now from }
    requires numbers { HasNumbered (2 ^ 31) from.state }
    requires accounts { length from.accounts < 2 ^ 31 }
    ensures { MatchResult result
        (IsAnswered accepted.now from asked.entry.script.now bytes.now asked.entry.wanted)
        (IsRefusedFrom accepted.now from asked.entry.script.now bytes.now) }
{
    // Where an account is read, a ledger is known to be one.
    let _account = from.account(0);
    if bytes.len() > MAX_BYTES {
        return Err(ReplayError::TooLong);
    }
    let mut source = JournalLines {
        lines: TextLines::new(bytes),
        at: 0,
    };
    let version = read_version(alloc, accepted, &mut source)?;
    let limit = read_limit(alloc, accepted, &mut source)?;
    let trial = Trial {
        alloc,
        accepted,
        version,
        wanted: asked.wanted,
    };
    replay_all(&trial, source, limit, from, asked.script)
}
