//! What a ledger and a batch under way are kept in: the same memory, which the lines and the firings change in place.
ghost use Rattle.std.specs.Prelude.{◌≡◌, ◌≢◌, ◌+◌, ◌-◌, ◌<◌, ◌^◌, None, IfOk, OnOk, OnErr, length, slice_get};
ghost use Rattle.std.specs.Option.{option_map};
ghost use Rattle.nomos_ir.specs.TermsEvaluation.{instruction_evaluation};
ghost use Rattle.nomos_eval.specs.Outcomes.{outcome_of};
ghost use Rattle.nomos_deeds.specs.Firings.{Fires, MayFire};
ghost use Rattle.nomos_machine.specs.State.{gas_of, process_at};
ghost use Rattle.nomos_machine.specs.Step.{IsReady};
ghost use Rattle.nomos_legal.specs.Ledger.{account_of};
ghost use Rattle.nomos_ledger.specs.mirror.Books.{before_batch, books_with, books_deposited, marked_now, settled, with_state};

use crate::account_names::AccountNames;
use crate::contract_names::ContractNames;
use nomos_deeds::fire::Fire;
use nomos_deeds::undo::Undo;
use nomos_eval::wanted::{Outcome, Wanted};
use nomos_ir::ids::CodeId;
use nomos_script::name::ScriptName;
use nomos_types::accepted::Accepted;
use std::alloc::{AllocError, Global};
use std::marker::Model;

/// Accounts and contracts by name, the sum of the deposits in whole units, and the machine. Contracts see them as the
/// ledger as it stands, and the state that is marked.
#[derive(Drop, Debug)]
pub(crate) struct Books<M: Undo> {
    pub(crate) accounts: AccountNames,
    pub(crate) contracts: ContractNames,
    pub(crate) deposits: u64,
    pub(crate) machine: M,
}

impl<M: Undo> Model for Books<M> {
    ghost use Rattle.std.specs.Coded.{codes};
    ghost use Rattle.nomos_ir.specs.ValueCode.{value_code};
    ghost use Rattle.nomos_ledger.specs.mirror.Books.{BooksState};

    ghost Value = { BooksState };

    ghost coded = { Prim.hlevel (codes, value_code) };

    ghost view = { λ b. record {
      now = record {
        accounts = b.accounts;
        contracts = b.contracts;
        deposits = b.deposits;
        state = M.state b.machine;
      };
      marked = M.marked b.machine;
    } };
}

impl<M: Undo> Books<M> {
    /// The shared name of the contract of this place, if there is one.
    pub(crate) fn shared_at(&self, place: usize) -> Option<u32>
        ensures { result ≡ option_map (λ c. c.1) (slice_get self.now.now.contracts place) }
    {
        match self.contracts.contract(place) {
            Some(made) => Some(made.shared),
            None => None,
        }
    }

    // Makes the next account, with this name and this balance in Dths. Want of memory changes nothing.
    fn open(&mut self, alloc: Global, name: &ScriptName, dths: u128) -> Result<(), AllocError>
        requires new { account_of self.old.now.accounts name.now ≡ None }
        requires few { length self.old.now.state.balances < 2 ^ 32 - 1 }
        ensures ok { OnOk result (self.new ≡ books_with self.old name.now dths None) }
        ensures err { OnErr result (self.new ≡ self.old) }
    {
        self.accounts.add(alloc, name)?;
        let opened = self.machine.open_account(dths);
        if opened.is_err() {
            self.accounts.drop_last();
        }
        opened?;
        Ok(())
    }

    // Adds Dths to the account of this name, and makes the account where there is none. Want of memory changes nothing.
    fn add(&mut self, alloc: Global, name: &ScriptName, dths: u128) -> Result<(), AllocError>
        requires few { length self.old.now.accounts < 2 ^ 32 - 1 }
        requires each { length self.old.now.accounts ≡ length self.old.now.state.balances }
        requires gas { gas_of self.old.now.state + dths < 2 ^ 96 }
        ensures ok { OnOk result
            (self.new ≡ books_with self.old name.now dths (account_of self.old.now.accounts name.now)) }
        ensures err { OnErr result (self.new ≡ self.old) }
    {
        match self.accounts.number_of(name) {
            Some(account) => self.machine.credit(account, dths),
            None => self.open(alloc, name, dths)?,
        }
        Ok(())
    }

    /// Adds Dths to the account of this name, and makes the account where there is none; the deposits then have this
    /// sum. Want of memory changes nothing.
    pub(crate) fn deposit(
        &mut self,
        alloc: Global,
        name: &ScriptName,
        dths: u128,
        deposits: u64,
    ) -> Result<(), AllocError>
        requires few { length self.old.now.accounts < 2 ^ 32 - 1 }
        requires each { length self.old.now.accounts ≡ length self.old.now.state.balances }
        requires gas { gas_of self.old.now.state + dths < 2 ^ 96 }
        ensures ok { OnOk result (self.new ≡ books_deposited self.old name.now dths deposits) }
        ensures err { OnErr result (self.new ≡ self.old) }
    {
        self.add(alloc, name, dths)?;
        self.deposits = deposits;
        Ok(())
    }

    /// The instruction at which the process of this number stands, if there is one.
    #[inline(always)]
    pub(crate) fn place(&self, pid: u32) -> Option<CodeId>
        ensures { result ≡ option_map (λ p. p.code) (process_at self.now.now.state pid) }
    {
        self.machine.process(pid).map(|seen| seen.code)
    }

    /// Fires a ready process, as the machine does.
    #[inline(always)]
    pub(crate) fn fire(
        &mut self,
        alloc: Global,
        accepted: &Accepted,
        pid: u32,
    ) -> Result<Fire, AllocError>
        requires may { MayFire accepted.now self.old.now.state }
        requires ready { IsReady accepted.now self.old.now.state pid }
        ensures ok { IfOk result (λ answer. Fires accepted.now self.old.now.state pid answer self.new.now.state) }
        ensures err { OnErr result (self.new ≡ self.old) }
        ensures rest { self.new ≡ with_state self.old self.new.now.state }
    {
        self.machine.fire(alloc, accepted, pid)
    }

    /// Fires a ready process, for which it may be known what its terms come to, as the machine does.
    pub(crate) fn fire_with(
        &mut self,
        alloc: Global,
        accepted: &Accepted,
        pid: u32,
        known: (&Wanted, &Outcome),
    ) -> Result<Fire, AllocError>
        requires known { outcome_of known.1.now
            ≡ instruction_evaluation accepted.now.program known.0.now.env known.0.now.code.0 }
        requires may { MayFire accepted.now self.old.now.state }
        requires ready { IsReady accepted.now self.old.now.state pid }
        ensures ok { IfOk result (λ answer. Fires accepted.now self.old.now.state pid answer self.new.now.state) }
        ensures err { OnErr result (self.new ≡ self.old) }
        ensures rest { self.new ≡ with_state self.old self.new.now.state }
    {
        self.machine.fire_with(alloc, accepted, pid, known)
    }

    /// Marks the state. It takes no memory.
    pub(crate) fn mark(&mut self)
        requires { self.old.marked ≡ None }
        ensures { self.new ≡ marked_now self.old }
    {
        self.machine.mark();
    }

    /// Forgets which state is marked, and what was emitted. It takes no memory.
    pub(crate) fn settle(&mut self)
        ensures { self.new ≡ settled self.old }
    {
        self.machine.forget();
        self.machine.clear_results();
    }

    /// Goes back to the state that is marked, and leaves so many contracts, those that were named first. It takes no
    /// memory.
    pub(crate) fn back(&mut self, kept: usize)
        requires { self.old.marked ≢ None }
        ensures { self.new ≡ before_batch self.old kept }
    {
        self.machine.back();
        self.contracts.truncate(kept);
    }
}
