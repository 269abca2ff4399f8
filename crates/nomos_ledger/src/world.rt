//! Worlds: a batch under way.
ghost use Rattle.std.specs.Prelude.{◌≡◌, ◌≤◌, ◌<◌, ◌+◌, ◌-◌, ℕ, IfOk, OnErr, MatchOption, length, slice_get};
ghost use Rattle.std.specs.Option.{option_map};
ghost use Rattle.nomos_ir.specs.CostAll.{IsUnderCostAll};
ghost use Rattle.nomos_ir.specs.TermsEvaluation.{instruction_evaluation};
ghost use Rattle.nomos_eval.specs.Outcomes.{outcome_of};
ghost use Rattle.nomos_types.specs.Acceptance.{Acceptance, IsAccepted};
ghost use Rattle.nomos_machine.specs.Costs.{PaysFor};
ghost use Rattle.nomos_machine.specs.Run.{IsNextReady, IsQuiet, NoneReady};
ghost use Rattle.nomos_machine.specs.Step.{IsReady, fault};
ghost use Rattle.nomos_machine.specs.TypedState.{IsTyped};
ghost use Rattle.nomos_deeds.specs.Acting.{HasNumbers};
ghost use Rattle.nomos_deeds.specs.Firings.{Wants};
ghost use Rattle.nomos_deeds.specs.Readers.{IsTransaction};
ghost use Rattle.nomos_legal.specs.Ending.{EndsAs, GoesOn};
ghost use Rattle.nomos_legal.specs.LowestFault.{IsFaultless, IsLowestFault};
ghost use Rattle.nomos_legal.specs.StandsFor.{StandsFor, WorldStandsFor};
ghost use Rattle.nomos_legal.specs.World.{IsWorld, committed};
ghost use Rattle.nomos_ledger.specs.Calls.{FiresIn};

use crate::at_rest::{has_transaction, is_quiet, lowered};
use crate::books::Books;
use crate::fired::Fired;
use crate::ledger::Ledger;
use nomos_deeds::fire::Fire;
use nomos_deeds::undo::Undo;
use nomos_eval::wanted::{Outcome, Wanted};
use nomos_ir::fault::Fault;
use nomos_ir::ids::CodeId;
use nomos_legal::journal::{End, Firing};
use nomos_legal::resolved::ResolvedStarts;
use nomos_types::accepted::Accepted;
use std::alloc::{AllocError, Global};
use std::marker::Model;

/// A batch under way (docs/MACHINE.md, "Batches"). Contracts see it as the ledger that it began from, its starts as
/// they were resolved, the contracts with those that it made, its firings in order with the instructions that were
/// fired, and its state.
#[derive(Drop, Debug)]
pub struct World<M: Undo> {
    pub(crate) books: Books<M>,
    /// How many contracts there were before the batch.
    pub(crate) kept: usize,
    pub(crate) starts: ResolvedStarts,
    pub(crate) fired: Fired,
}

impl<M: Undo> Model for World<M> {
    ghost use Rattle.std.specs.Coded.{codes};
    ghost use Rattle.nomos_ir.specs.ValueCode.{value_code};
    ghost use Rattle.nomos_legal.specs.World.{WorldState};

    ghost Value = { WorldState };

    ghost coded = { Prim.hlevel (codes, value_code) };

    ghost use Rattle.nomos_ledger.specs.mirror.Books.{IsUnderWay};
    ghost use Rattle.nomos_ledger.specs.mirror.Worlds.{world_of};

    ghost view = { λ w. world_of w.books w.kept w.starts w.fired };

    ghost invariant = { λ w. IsUnderWay w.books w.kept };
}

impl<M: Undo> World<M> {
    // The machine, whose state is typed.
    fn machine(&self, accepted: &Accepted) -> &M
        requires { WorldStandsFor accepted.now self.now }
        ensures state { M.state result.now ≡ self.now.state }
        ensures typed { IsTyped accepted.now self.now.state }
    {
        accepted.know();
        &self.books.machine
    }

    /// The lowest process over a number that is ready, or none where no process over it is ready. It takes no memory.
    pub fn next_ready(&self, accepted: &Accepted, after: u32) -> Option<u32>
        requires { WorldStandsFor accepted.now self.now }
        ensures { MatchOption result (NoneReady accepted.now self.now.state after)
            (IsNextReady accepted.now self.now.state after) }
    {
        self.machine(accepted).next_ready(accepted, after)
    }

    /// The fault of the process of this number, if it has one.
    pub fn fault(
        &self,
        alloc: Global,
        accepted: &Accepted,
        pid: u32,
    ) -> Result<Option<Fault>, AllocError>
        requires { WorldStandsFor accepted.now self.now }
        ensures { IfOk result (λ found. found ≡ fault accepted.now self.now.state pid) }
    {
        self.machine(accepted).fault(alloc, accepted, pid)
    }

    /// The lowest process that has a fault, with it, or none where no process has one. It goes along all processes.
    pub fn lowest_fault(
        &self,
        alloc: Global,
        accepted: &Accepted,
    ) -> Result<Option<(u32, Fault)>, AllocError>
        requires { WorldStandsFor accepted.now self.now }
        ensures { IfOk result (λ found. MatchOption found (IsFaultless accepted.now self.now.state)
            (λ it. IsLowestFault accepted.now self.now.state it.0 it.1)) }
    {
        accepted.know();
        let mut after = 0;
        'processes: while let Some(pid) = self.next_ready(accepted, after) {
            if let Some(fault) = self.fault(alloc, accepted, pid)? {
                return Ok(Some((pid, fault)));
            }
            after = pid;
        }
        Ok(None)
    }

    /// What has to be evaluated for the process of this number: its instruction, where that has terms, and its values.
    pub fn wanted(
        &self,
        alloc: Global,
        accepted: &Accepted,
        pid: u32,
    ) -> Result<Option<Wanted>, AllocError>
        requires { WorldStandsFor accepted.now self.now }
        ensures { IfOk result (λ found. Wants accepted.now self.now.state pid found) }
    {
        self.machine(accepted).wanted(alloc, accepted, pid)
    }

    /// Fires a ready process, and keeps the firing and its instruction where the process took its step. Where its
    /// instruction has a fault, and where memory is wanting, the world is as it was. Under `cost all` the firings, a
    /// unit for each, come to at most twice the gas spent since the origin, and a unit for each process of the origin.
    #[inline(always)]
    pub fn fire(
        &mut self,
        alloc: Global,
        accepted: &Accepted,
        firing: Firing,
    ) -> Result<Fire, AllocError>
        requires stands { WorldStandsFor accepted.now self.old }
        requires ready { IsReady accepted.now self.old.state firing.pid }
        requires numbers { HasNumbers self.old.state }
        ensures ok { IfOk result (λ answer. FiresIn accepted.now self.old firing answer self.new) }
        ensures err { OnErr result (self.new ≡ self.old) }
        ensures stands { WorldStandsFor accepted.now self.new }
        ensures pays { IsUnderCostAll accepted.now.program
            → PaysFor accepted.now (length self.new.firings) self.new.origin.state self.new.state }
    {
        accepted.know();
        let Some(place) = self.books.place(firing.pid) else {
            unreachable!()
        };
        self.fired.reserve()?;
        let answer = self.books.fire(alloc, accepted, firing.pid)?;
        if let Fire::Fired = answer {
            self.fired.note(firing, place);
        }
        Ok(answer)
    }

    /// Fires a ready process, as `fire` does. What the terms of the wanted instruction come to among the wanted values
    /// is used where the process still stands there with these values, and is evaluated otherwise.
    pub fn fire_with(
        &mut self,
        alloc: Global,
        accepted: &Accepted,
        firing: Firing,
        known: (&Wanted, &Outcome),
    ) -> Result<Fire, AllocError>
        requires known { outcome_of known.1.now
            ≡ instruction_evaluation accepted.now.program known.0.now.env known.0.now.code.0 }
        requires stands { WorldStandsFor accepted.now self.old }
        requires ready { IsReady accepted.now self.old.state firing.pid }
        requires numbers { HasNumbers self.old.state }
        ensures ok { IfOk result (λ answer. FiresIn accepted.now self.old firing answer self.new) }
        ensures err { OnErr result (self.new ≡ self.old) }
        ensures stands { WorldStandsFor accepted.now self.new }
        ensures pays { IsUnderCostAll accepted.now.program
            → PaysFor accepted.now (length self.new.firings) self.new.origin.state self.new.state }
    {
        accepted.know();
        let Some(place) = self.books.place(firing.pid) else {
            unreachable!()
        };
        self.fired.reserve()?;
        let answer = self.books.fire_with(alloc, accepted, firing.pid, known)?;
        if let Fire::Fired = answer {
            self.fired.note(firing, place);
        }
        Ok(answer)
    }

    /// The firings so far, in order.
    pub fn firings(&self) -> &[Firing]
        ensures { result.now ≡ self.now.firings }
    {
        self.fired.firings.as_slice()
    }

    /// For each firing, in order, the instruction that was fired.
    pub fn places(&self) -> &[CodeId]
        ensures { result.now ≡ self.now.places }
    {
        self.fired.places.as_slice()
    }

    /// How many starts the batch has.
    pub fn starts(&self) -> usize
        ensures { result ≡ length self.now.starts }
    {
        self.starts.len()
    }

    /// The shared name of the first contract that the batch makes, if it makes one.
    pub fn first_made(&self) -> Option<u32>
        ensures { result ≡ option_map (λ c. c.1) (slice_get self.now.contracts (length self.now.origin.contracts)) }
    {
        self.books.shared_at(self.kept)
    }

    /// The state of the machine. The clauses also say what holds of every world.
    pub fn state(&self) -> &M
        ensures state { M.state result.now ≡ self.now.state }
        ensures world { IsWorld self.now }
    {
        &self.books.machine
    }

    /// The number of the first object that came in the batch, or a lower one: lower by as many as there are firings by
    /// which no object came. It takes no memory.
    pub fn first_number(&self, accepted: &Accepted) -> u32
        requires { WorldStandsFor accepted.now self.now }
        ensures number { result ≡ self.now.state.next_object - (length self.now.starts + length self.now.firings) }
        ensures low { result ≤ self.now.origin.state.next_object }
    {
        accepted.know();
        let without_firings = lowered(self.state().next_object(), self.firings().len());
        lowered(without_firings, self.starts())
    }

    /// A number below that of each transaction that is left. It takes no memory.
    pub fn before_transactions(&self, accepted: &Accepted) -> u32
        requires { WorldStandsFor accepted.now self.now }
        ensures { (pid : ℕ) → IsTransaction self.now.state.objects pid → result < pid }
    {
        accepted.know();
        self.first_number(accepted).saturating_sub(1)
    }

    /// How a batch ends in which no process is ready: a transaction is left, or none is. It takes no memory, and looks
    /// only among the objects that came in the batch.
    pub fn end_at_rest(&self, accepted: &Accepted) -> End
        requires stands { WorldStandsFor accepted.now self.now }
        requires quiet { IsQuiet accepted.now self.now.state }
        ensures { (count limit : ℕ) → EndsAs accepted.now self.now.state count limit result }
    {
        accepted.know();
        let before = self.before_transactions(accepted);
        if has_transaction(self.machine(accepted), before) {
            End::Blocked
        } else {
            End::Committed
        }
    }

    /// How a batch ends here that may make so many firings, faults apart, or none where it goes on. It takes no memory.
    pub fn end(&self, accepted: &Accepted, limit: u32) -> Option<End>
        requires { WorldStandsFor accepted.now self.now }
        ensures { MatchOption result (GoesOn accepted.now self.now.state (length self.now.firings) limit)
            (EndsAs accepted.now self.now.state (length self.now.firings) limit) }
    {
        if !is_quiet(self.machine(accepted), accepted) {
            let made = self.fired.firings.len();
            return if made == limit as usize {
                Some(End::Steps(limit))
            } else {
                None
            };
        }
        Some(self.end_at_rest(accepted))
    }

    /// The ledger that a batch leaves which stays: the accounts' names and the deposits of the ledger before, with
    /// the contracts and the state of the world, in which what was emitted is forgotten. It takes no memory.
    pub fn commit(self) -> Ledger<M>
        ensures committed { result ≡ committed self }
        ensures stands { (a : Acceptance) (limit : ℕ) → IsAccepted a → WorldStandsFor a self
            → EndsAs a self.state (length self.firings) limit End.Committed → StandsFor a result }
    {
        let World {
            mut books,
            kept: _kept,
            starts: _starts,
            fired: _fired,
        } = self;
        books.settle();
        Ledger { books }
    }

    /// The ledger before the batch. It takes no memory.
    pub fn undo(self) -> Ledger<M>
        ensures { result ≡ self.origin }
    {
        let World {
            mut books,
            kept,
            starts: _starts,
            fired: _fired,
        } = self;
        books.back(kept);
        Ledger { books }
    }
}
