//! Ledgers.
ghost use Rattle.std.specs.Prelude.{◌≡◌, ◌-◌, ◌<◌, ◌^◌, All, IfOk, OnErr, length, slice_get};
ghost use Rattle.std.specs.Option.{option_map};
ghost use Rattle.nomos_script.specs.ScriptNames.{IsScriptName};
ghost use Rattle.nomos_types.specs.Acceptance.{Acceptance};
ghost use Rattle.nomos_legal.specs.Ledger.{IsLedger, empty_ledger};
ghost use Rattle.nomos_legal.specs.StandsFor.{StandsFor, Deposits};

use crate::account_names::AccountNames;
use crate::books::Books;
use crate::contract_names::ContractNames;
use crate::named::Named;
use nomos_deeds::undo::Undo;
use nomos_legal::journal::End;
use nomos_legal::refusal::Refusal;
use nomos_script::name::ScriptName;
use nomos_types::accepted::Accepted;
use std::alloc::{AllocError, Global};
use std::marker::Model;

/// A ledger: named accounts and contracts, the sum of its deposits, and the state of a machine between batches
/// (docs/MACHINE.md, "The ledger"). Contracts see it as these four, with the names of accounts in order of their
/// numbers.
#[derive(Drop, Debug)]
pub struct Ledger<M: Undo> {
    pub(crate) books: Books<M>,
}

impl<M: Undo> Model for Ledger<M> {
    ghost use Rattle.std.specs.Coded.{codes};
    ghost use Rattle.nomos_ir.specs.ValueCode.{value_code};
    ghost use Rattle.nomos_legal.specs.Ledger.{LedgerState};
    ghost use Rattle.nomos_ledger.specs.mirror.Books.{IsAtRest};

    ghost Value = { LedgerState };

    ghost coded = { Prim.hlevel (codes, value_code) };

    ghost view = { λ l. l.books.now };

    ghost invariant = { λ l. IsAtRest l.books };
}

impl<M: Undo> Ledger<M> {
    /// The ledger with nothing in it. It takes no memory.
    pub fn empty(alloc: Global) -> Ledger<M>
        ensures empty { result ≡ empty_ledger }
        ensures stands { (a : Acceptance) → StandsFor a result }
    {
        Ledger {
            books: Books {
                accounts: AccountNames::new(alloc),
                contracts: ContractNames::new(alloc),
                deposits: 0,
                machine: M::empty(alloc),
            },
        }
    }

    /// Adds whole units to the account of this name, and makes the account where there is none. The answer is
    /// `Deposited`, or `TooMuchGas` at this line exactly where all deposits would reach 2^64 units; then nothing
    /// changes, and no account is made. Want of memory changes nothing.
    pub fn deposit(
        &mut self,
        alloc: Global,
        accepted: &Accepted,
        line: u32,
        name: &ScriptName,
        units: u64,
    ) -> Result<End, AllocError>
        requires stands { StandsFor accepted.now self.old }
        requires accounts { length self.old.accounts < 2 ^ 32 - 1 }
        ensures ok { IfOk result (λ answer. Deposits accepted.now self.old line name.now units answer self.new) }
        ensures err { OnErr result (self.new ≡ self.old) }
        ensures stands { StandsFor accepted.now self.new }
    {
        let Some(deposits) = self.books.deposits.checked_add(units) else {
            return Ok(End::Refused(line, Refusal::TooMuchGas));
        };
        accepted.know();
        let dths = u128::from(units) * u128::from(accepted.unit());
        self.books.deposit(alloc, name, dths, deposits)?;
        Ok(End::Deposited)
    }

    /// The state of the machine.
    pub fn state(&self) -> &M
        ensures { M.state result.now ≡ self.now.state }
    {
        &self.books.machine
    }

    /// The name of an account, if there is one of this number. The clauses also say what holds of every ledger.
    pub fn account(&self, n: u32) -> Option<&str>
        ensures account { option_map (λ name. name.now) result ≡ slice_get self.now.accounts n }
        ensures names { All IsScriptName self.now.accounts }
        ensures ledger { IsLedger self.now }
    {
        self.books.accounts.name(n)
    }

    /// The contract of this place, in order of naming, if there is one.
    pub fn contract(&self, n: u32) -> Option<Named<'_>>
        ensures contract { option_map (λ c. (c.name.now, c.shared)) result ≡ slice_get self.now.contracts n }
        ensures names { All (λ c. IsScriptName c.0) self.now.contracts }
    {
        self.contract_at(n as usize)
    }

    /// How many contracts there are.
    pub fn contracts(&self) -> usize
        ensures { result ≡ length self.now.contracts }
    {
        self.books.contracts.len()
    }

    /// The contract of this place, in order of naming, if there is one: as `contract`, without an end of its numbers.
    pub fn contract_at(&self, place: usize) -> Option<Named<'_>>
        ensures contract { option_map (λ c. (c.name.now, c.shared)) result ≡ slice_get self.now.contracts place }
        ensures names { All (λ c. IsScriptName c.0) self.now.contracts }
    {
        self.books.contracts.contract(place)
    }

    /// The sum of the accepted deposits, in whole units.
    pub fn deposits(&self) -> u64
        ensures { result ≡ self.now.deposits }
    {
        self.books.deposits
    }
}
