//! What is written of a run while it goes: its report, the text of its journal, and its last result.
ghost use Rattle.std.specs.Prelude.{◌≡◌, [], ◌∷◌, ◌++◌, IfOk, None, OnOk, length};
ghost use Rattle.nomos_machine.specs.State.{empty};
ghost use Rattle.nomos_script.specs.declared.item.Batch.{Batch};
ghost use Rattle.nomos_script.specs.declared.item.ScriptItem.{ScriptItem};
ghost use Rattle.nomos_legal.specs.Ledger.{LedgerState};
ghost use Rattle.nomos_legal.specs.Passage.{bare, runs, still};
ghost use Rattle.nomos_legal.specs.StandsFor.{StandsFor, WorldStandsFor};
ghost use Rattle.nomos_legal.specs.World.{pids_of, ledger_begun};
ghost use Rattle.nomos_journal.specs.JournalText.{placed_lines};
ghost use Rattle.nomos_journal.specs.Text.{lines_text};
ghost use Rattle.nomos_journal.specs.declared.line.JournalLine.TheVariants as journal_line;
ghost use Rattle.nomos_report.specs.Reported.{HasNoFirings, end_lines, report_of, shown_lines};
ghost use Rattle.nomos_walk.specs.Wanted.{journal_text_of, where_wanted};
ghost use Rattle.nomos_walk.specs.Papers.{papers_of, papers_with, with_lines};

use crate::entry_text::{push_batch_entry, push_front, push_still_entry};
use crate::last_result::LastResult;
use crate::sheet::Sheet;
use nomos_deeds::machine::Machine;
use nomos_deeds::undo::Undo;
use nomos_ledger::ledger::Ledger;
use nomos_ledger::world::World;
use nomos_legal::journal::End;
use nomos_report::block::push_block;
use nomos_report::course::{Outset, push_batch_end, push_still_end};
use nomos_report::show::push_show;
use nomos_types::accepted::Accepted;
use std::alloc::{AllocError, Global};

/// What is to be written: the report, the text of the journal, and the last result.
#[derive(Clone, Copy)]
pub struct WantedTexts {
    pub report: bool,
    pub text: bool,
    pub result: bool,
}

/// What is written of a run: its report, the text of its journal, and its last result, each where it is wanted.
#[derive(Drop)]
pub struct Papers {
    pub report: Sheet,
    pub text: Sheet,
    pub result: LastResult,
}

// What a report begins with, where one is wanted.
fn new_report(alloc: Global, accepted: &Accepted, wanted: bool) -> Result<Sheet, AllocError>
    ensures { IfOk result (λ made. made ≡ where_wanted wanted (report_of accepted.now [])) }
{
    if !wanted {
        return Ok(Sheet { text: None });
    }
    let mut text = Vec::new(alloc);
    push_block(&mut text, accepted)?;
    Ok(Sheet { text: Some(text) })
}

// What the text of a journal with this limit begins with, where one is wanted.
fn new_text(
    alloc: Global,
    accepted: &Accepted,
    limit: u32,
    wanted: bool,
) -> Result<Sheet, AllocError>
    ensures { IfOk result (λ made. made ≡ where_wanted wanted (journal_text_of accepted.now limit [])) }
{
    if !wanted {
        return Ok(Sheet { text: None });
    }
    let mut text = Vec::new(alloc);
    push_front(&mut text, accepted.unit(), limit)?;
    Ok(Sheet { text: Some(text) })
}

impl Papers {
    /// What is written before any item, where a batch may make so many firings.
    pub(crate) fn new(
        alloc: Global,
        accepted: &Accepted,
        limit: u32,
        wanted: WantedTexts,
    ) -> Result<Papers, AllocError>
        ensures { IfOk result (λ made. made ≡ papers_of accepted.now limit wanted []) }
    {
        let report = new_report(alloc, accepted, wanted.report)?;
        let text = new_text(alloc, accepted, limit, wanted.text)?;
        let result = LastResult::new(alloc, wanted.result);
        Ok(Papers {
            report,
            text,
            result,
        })
    }

    /// Writes the lines of a `show` of a ledger, which stands for the program.
    pub(crate) fn show<M: Undo>(
        &mut self,
        accepted: &Accepted,
        ledger: &Ledger<M>,
        line: u32,
    ) -> Result<(), AllocError>
        requires { StandsFor accepted.now ledger.now }
        ensures { OnOk result (self.new
            ≡ papers_with accepted.now (still (ScriptItem.Show line) None ledger.now ledger.now) self.old) }
    {
        match &mut self.report.text {
            Some(report) => push_show(report, accepted, ledger, line),
            None => Ok(()),
        }
    }

    /// Writes the lines of an item without firings: of a deposit, or of a batch of which a line is refused.
    pub(crate) fn still(
        &mut self,
        accepted: &Accepted,
        line: u32,
        end: &End,
    ) -> Result<(), AllocError>
        requires { HasNoFirings end.now }
        ensures { (i : ScriptItem) (before after : LedgerState) → shown_lines accepted.now before i ≡ []
            → OnOk result (self.new ≡ papers_with accepted.now (still i (bare line end.now) before after) self.old) }
    {
        still_on_report(&mut self.report, accepted, line, end)?;
        still_on_text(&mut self.text, accepted.unit(), line, end)?;
        self.result.clear();
        Ok(())
    }

    /// Writes the lines of a batch that has come to this world and ended so.
    pub(crate) fn batch<M: Undo>(
        &mut self,
        accepted: &Accepted,
        world: &World<M>,
        outset: Outset,
        end: &End,
    ) -> Result<(), AllocError>
        requires stands { WorldStandsFor accepted.now world.now }
        requires spent { outset.spent ≡ world.now.origin.state.spent }
        ensures { (batch : Batch) (after : LedgerState) → batch.line ≡ outset.line
            → OnOk result (self.new ≡ papers_with accepted.now
            (runs batch (pids_of world.now.firings) end.now world.now.origin (ledger_begun accepted.now world.now)
            world.now.state after) self.old) }
    {
        batch_on_report(&mut self.report, accepted, world, outset, end)?;
        batch_on_text(&mut self.text, accepted, world, outset.line, end)?;
        self.result.note(world.state().results(), end)?;
        Ok(())
    }
}

// Appends the line of an item without firings, which is the same in all states.
fn push_still(
    text: &mut Vec<u8>,
    accepted: &Accepted,
    line: u32,
    end: &End,
) -> Result<(), AllocError>
    requires { HasNoFirings end.now }
    ensures { OnOk result (text.new.items ≡ text.old.items ++ end_lines accepted.now line 0 0 empty end.now) }
{
    push_still_end(text, accepted, line, end)
}

// Writes on a report the line of an item without firings.
fn still_on_report(
    sheet: &mut Sheet,
    accepted: &Accepted,
    line: u32,
    end: &End,
) -> Result<(), AllocError>
    requires { HasNoFirings end.now }
    ensures { OnOk result (sheet.new ≡ with_lines sheet.old (end_lines accepted.now line 0 0 empty end.now)) }
{
    match &mut sheet.text {
        Some(text) => push_still(text, accepted, line, end),
        None => Ok(()),
    }
}

// Writes on the text of a journal the lines of an entry without firings.
fn still_on_text(sheet: &mut Sheet, unit: u32, line: u32, end: &End) -> Result<(), AllocError>
    ensures { OnOk result (sheet.new
        ≡ with_lines sheet.old (lines_text unit (journal_line.Line line ∷ journal_line.End end.now ∷ []))) }
{
    match &mut sheet.text {
        Some(text) => push_still_entry(text, unit, line, end),
        None => Ok(()),
    }
}

// Writes on a report the lines of a batch.
fn batch_on_report<M: Undo>(
    sheet: &mut Sheet,
    accepted: &Accepted,
    world: &World<M>,
    outset: Outset,
    end: &End,
) -> Result<(), AllocError>
    requires stands { WorldStandsFor accepted.now world.now }
    requires spent { outset.spent ≡ world.now.origin.state.spent }
    ensures { OnOk result (sheet.new ≡ with_lines sheet.old
        (end_lines accepted.now outset.line (length world.now.firings) (ledger_begun accepted.now world.now).state.spent
        world.now.state end.now)) }
{
    match &mut sheet.text {
        Some(text) => push_batch_end(text, accepted, world, outset, end),
        None => Ok(()),
    }
}

// Writes on the text of a journal the lines of a batch.
fn batch_on_text<M: Undo>(
    sheet: &mut Sheet,
    accepted: &Accepted,
    world: &World<M>,
    line: u32,
    end: &End,
) -> Result<(), AllocError>
    ensures { OnOk result (sheet.new ≡ with_lines sheet.old
        (lines_text accepted.now.annotations.unit (journal_line.Line line
        ∷ (placed_lines accepted.now (pids_of world.now.firings) world.now.places ++ journal_line.End end.now ∷ [])))) }
{
    match &mut sheet.text {
        Some(text) => push_batch_entry(text, accepted, world, line, end),
        None => Ok(()),
    }
}
