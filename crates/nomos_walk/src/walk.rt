//! The way along a script, item by item, with what is written of it.
ghost use Rattle.std.specs.Prelude.{◌≡◌, ℕ, ◌+◌, ◌-◌, ◌<◌, ◌≤◌, ◌^◌, [], IfOk, OnOk, Some, length};
ghost use Rattle.nomos_types.specs.Acceptance.{Acceptance, IsAccepted};
ghost use Rattle.nomos_script.specs.declared.item.Batch.{Batch};
ghost use Rattle.nomos_script.specs.declared.item.ScriptItem.{ScriptItem};
ghost use Rattle.nomos_legal.specs.Ending.{IsAllowed};
ghost use Rattle.nomos_legal.specs.Leaving.{left_by, passage_of};
ghost use Rattle.nomos_legal.specs.Ledger.{LedgerState};
ghost use Rattle.nomos_legal.specs.Legal.{batch_limit, max_firings};
ghost use Rattle.nomos_legal.specs.Passage.{bare, still};
ghost use Rattle.nomos_legal.specs.StandsFor.{StandsFor, WorldStandsFor};
ghost use Rattle.nomos_report.specs.Reported.{HasNoFirings, shown_lines};
ghost use Rattle.nomos_walk.specs.Walks.{HasRoomFor, StartsAs, batch_entry, walk_counting, walk_of, walk_with, walk_writing};

use crate::entries::{bare, pids};
use crate::papers::{Papers, WantedTexts};
use crate::started::{BatchUnderWay, PassedItem, StartedItem};
use nomos_deeds::machine::Machine;
use nomos_deeds::undo::Undo;
use nomos_ir::limits::MAX_FIRINGS;
use nomos_ledger::begun::Begun;
use nomos_ledger::ledger::Ledger;
use nomos_ledger::start_arguments::Arguments;
use nomos_ledger::world::World;
use nomos_legal::journal::{End, Entry};
use nomos_report::course::Outset;
use nomos_script::item::{Batch, ScriptItem};
use nomos_script::name::ScriptName;
use nomos_types::accepted::Accepted;
use std::alloc::{AllocError, Global};
use std::marker::Model;

/// How far a script was gone along: what arguments are judged by, the most firings of one batch, the firings so far,
/// and what is written. Contracts see the program in place of the first.
#[derive(Drop)]
pub struct Walk<'a> {
    arguments: Arguments<'a>,
    limit: u32,
    made: u32,
    papers: Papers,
}

impl<'a> Model for Walk<'a> {
    ghost use Rattle.nomos_walk.specs.WalkState.{WalkState};

    ghost Value = { WalkState };

    ghost use Rattle.std.specs.Coded.{codes};
    ghost use Rattle.nomos_ir.specs.ValueCode.{value_code};

    ghost coded = { Prim.hlevel (codes, value_code) };

    ghost view = { λ w. record { accepted = w.arguments; limit = w.limit; made = w.made; papers = w.papers } };
}

// A deposit of a script: its line, the name of an account, and whole units.
#[derive(Clone, Copy)]
struct Deposit<'s> {
    line: u32,
    name: &'s ScriptName,
    units: u64,
}

// The ledger that a batch leaves which ended so.
fn leave<M: Undo>(world: World<M>, end: &End) -> Ledger<M>
    ensures ledger { result ≡ left_by end.now world }
    ensures stands { (a : Acceptance) (limit : ℕ) → IsAccepted a → WorldStandsFor a world
        → IsAllowed a world.state (length world.firings) limit end.now → StandsFor a result }
{
    match end {
        End::Committed => world.commit(),
        _ => world.undo(),
    }
}

impl<'a> Walk<'a> {
    /// The walk before any item, where one batch may make so many firings.
    pub fn new(
        alloc: Global,
        accepted: &'a Accepted,
        limit: u32,
        wanted: WantedTexts,
    ) -> Result<Walk<'a>, AllocError>
        ensures { IfOk result (λ made. made ≡ walk_of accepted.now limit wanted []) }
    {
        let arguments = Arguments::new(alloc, accepted)?;
        let papers = Papers::new(alloc, accepted, limit, wanted)?;
        Ok(Walk {
            arguments,
            limit,
            made: 0,
            papers,
        })
    }

    /// The program.
    pub fn accepted(&self) -> &'a Accepted
        ensures { result.now ≡ self.now.accepted }
    {
        self.arguments.accepted()
    }

    /// The most firings of the next batch.
    pub fn next_limit(&self) -> u32
        requires { self.now.made ≤ max_firings }
        ensures limit { result ≡ batch_limit self.now.limit self.now.made }
        ensures sum { self.now.made + result ≤ max_firings }
    {
        self.limit.min(MAX_FIRINGS - self.made)
    }

    /// What was written.
    pub fn into_papers(self) -> Papers
        ensures { result ≡ self.entry.papers }
    {
        self.papers
    }

    // An item without firings has passed, which ended so.
    fn pass<M: Undo + Drop>(
        &mut self,
        alloc: Global,
        ledger: Ledger<M>,
        line: u32,
        end: End,
    ) -> Result<PassedItem<M>, AllocError>
        requires { HasNoFirings end }
        ensures walk { (i : ScriptItem) (before : LedgerState) → shown_lines self.old.accepted before i ≡ []
            → OnOk result (self.new ≡ walk_with (still i (bare line end) before ledger) self.old) }
        ensures passed { IfOk result (λ passed. (passed.ledger ≡ ledger) × (passed.entry ≡ bare line end)) }
    {
        self.papers.still(self.arguments.accepted(), line, &end)?;
        Ok(PassedItem {
            ledger,
            entry: Some(bare(alloc, line, end)),
        })
    }

    // Makes a deposit, or refuses it.
    fn deposit<M: Undo + Drop>(
        &mut self,
        alloc: Global,
        mut ledger: Ledger<M>,
        deposit: Deposit<'_>,
    ) -> Result<StartedItem<M>, AllocError>
        requires stands { StandsFor self.old.accepted ledger }
        requires accounts { length ledger.accounts < 2 ^ 32 - 1 }
        ensures { IfOk result (λ started. StartsAs self.old ledger
            (ScriptItem.Deposit deposit.entry.line deposit.entry.name.now deposit.entry.units) started self.new) }
    {
        let Deposit { line, name, units } = deposit;
        let end = ledger.deposit(alloc, self.arguments.accepted(), line, name, units)?;
        Ok(StartedItem::Passed(self.pass(alloc, ledger, line, end)?))
    }

    // Starts the lines of a batch, or refuses it.
    fn begin<M: Undo + Drop>(
        &mut self,
        alloc: Global,
        ledger: Ledger<M>,
        batch: &Batch,
    ) -> Result<StartedItem<M>, AllocError>
        requires stands { StandsFor self.old.accepted ledger }
        requires objects { ledger.state.next_object + length batch.now.starts < 2 ^ 32 }
        requires names { ledger.state.next_name + length batch.now.starts < 2 ^ 32 }
        ensures { IfOk result (λ started. StartsAs self.old ledger (ScriptItem.Batch batch.now) started self.new) }
    {
        let outset = Outset {
            line: batch.line,
            spent: ledger.state().spent(),
        };
        match ledger.begin_with(alloc, &mut self.arguments, batch) {
            Begun::World(world) => Ok(StartedItem::UnderWay(BatchUnderWay { outset, world })),
            Begun::Refused(ledger, line, cause) => {
                let end = End::Refused(line, cause);
                Ok(StartedItem::Passed(self.pass(alloc, ledger, batch.line, end)?))
            }
            Begun::NoMemory(_) => Err(AllocError),
        }
    }

    // Writes what a `show` prints.
    fn show<M: Undo + Drop>(
        &mut self,
        ledger: Ledger<M>,
        line: u32,
    ) -> Result<StartedItem<M>, AllocError>
        requires { StandsFor self.old.accepted ledger }
        ensures { IfOk result (λ started. StartsAs self.old ledger (ScriptItem.Show line) started self.new) }
    {
        self.papers.show(self.arguments.accepted(), &ledger, line)?;
        Ok(StartedItem::Passed(PassedItem {
            ledger,
            entry: None,
        }))
    }

    /// Starts an item. Where a batch is under way then, it is to be fired, and then finished.
    pub fn start<M: Undo + Drop>(
        &mut self,
        alloc: Global,
        ledger: Ledger<M>,
        item: &ScriptItem,
    ) -> Result<StartedItem<M>, AllocError>
        requires stands { StandsFor self.old.accepted ledger }
        requires room { HasRoomFor self.old ledger item.now }
        ensures { IfOk result (λ started. StartsAs self.old ledger item.now started self.new) }
    {
        match item {
            ScriptItem::Deposit { line, name, units } => {
                let deposit = Deposit {
                    line: *line,
                    name,
                    units: *units,
                };
                self.deposit(alloc, ledger, deposit)
            }
            ScriptItem::Batch(batch) => self.begin(alloc, ledger, batch),
            ScriptItem::Show { line } => self.show(ledger, *line),
        }
    }

    /// Writes the lines of a batch that has been fired and ended so. The batch is only looked at, so that it is whole
    /// where memory is wanting; its firings are not counted yet.
    pub fn write<M: Undo>(&mut self, under: &BatchUnderWay<M>, end: &End) -> Result<(), AllocError>
        requires stands { WorldStandsFor self.old.accepted under.now.world }
        requires spent { under.now.outset.spent ≡ under.now.world.origin.state.spent }
        ensures { (batch : Batch) → batch.line ≡ under.now.outset.line → OnOk result (self.new
            ≡ walk_writing (passage_of self.old.accepted batch under.now.world end.now) self.old) }
    {
        self.papers
            .batch(self.arguments.accepted(), &under.world, under.outset, end)
    }

    /// Writes the lines of a batch that has been fired and ended so, and gives its entry. The batch is only looked at,
    /// so that it is whole where memory is wanting; its firings are not counted yet.
    pub fn written<M: Undo>(
        &mut self,
        alloc: Global,
        under: &BatchUnderWay<M>,
        end: End,
    ) -> Result<Entry, AllocError>
        requires stands { WorldStandsFor self.old.accepted under.now.world }
        requires spent { under.now.outset.spent ≡ under.now.world.origin.state.spent }
        ensures entry { IfOk result (λ entry. entry ≡ batch_entry under.now.outset.line under.now.world end) }
        ensures walk { (batch : Batch) → batch.line ≡ under.now.outset.line → OnOk result (self.new
            ≡ walk_writing (passage_of self.old.accepted batch under.now.world end) self.old) }
    {
        let firings = pids(alloc, under.world.firings())?;
        self.write(under, &end)?;
        Ok(Entry {
            line: under.outset.line,
            firings,
            end,
        })
    }

    /// The ledger that a batch leaves which has been fired and ended so: it stays, or is undone. Its firings are
    /// counted. It takes no memory.
    pub fn settle<M: Undo>(&mut self, under: BatchUnderWay<M>, end: &End) -> Ledger<M>
        requires few { self.old.made + length under.world.firings < 2 ^ 32 }
        ensures ledger { result ≡ left_by end.now under.world }
        ensures walk { self.new ≡ walk_counting (length under.world.firings) self.old }
        ensures stands { (limit : ℕ) → WorldStandsFor self.old.accepted under.world
            → IsAllowed self.old.accepted under.world.state (length under.world.firings) limit end.now
            → StandsFor self.old.accepted result }
    {
        self.arguments.accepted().know();
        let BatchUnderWay {
            outset: _outset,
            world,
        } = under;
        self.made += world.firings().len() as u32;
        leave(world, end)
    }

    /// Finishes a batch that has been fired and ended so: its lines are written, its firings are counted, and it stays
    /// or is undone.
    pub fn finish<M: Undo + Drop>(
        &mut self,
        alloc: Global,
        under: BatchUnderWay<M>,
        end: End,
    ) -> Result<PassedItem<M>, AllocError>
        requires stands { WorldStandsFor self.old.accepted under.world }
        requires spent { under.outset.spent ≡ under.world.origin.state.spent }
        requires few { self.old.made + length under.world.firings < 2 ^ 32 }
        requires allowed { IsAllowed self.old.accepted under.world.state (length under.world.firings)
            (batch_limit self.old.limit self.old.made) end }
        ensures ledger { IfOk result (λ passed. passed.ledger ≡ left_by end under.world) }
        ensures entry { IfOk result (λ passed.
            passed.entry ≡ Some (batch_entry under.outset.line under.world end)) }
        ensures walk { (batch : Batch) → batch.line ≡ under.outset.line → OnOk result (self.new
            ≡ walk_with (passage_of self.old.accepted batch under.world end) self.old) }
        ensures stands { IfOk result (λ passed. StandsFor self.old.accepted passed.ledger) }
    {
        let entry = self.written(alloc, &under, end)?;
        let ledger = self.settle(under, &entry.end);
        Ok(PassedItem {
            ledger,
            entry: Some(entry),
        })
    }
}
