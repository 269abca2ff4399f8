//! Accounts of an indexed state with tallies, the gas that is spent, and what is emitted.
ghost use Rattle.std.specs.Prelude.{◌≡◌, ◌<◌, ◌+◌, ◌-◌, ◌++◌, ◌∷◌, ◌^◌, [], IfOk, OnErr, OnOk, None, Some, length, slice_index};
ghost use Rattle.nomos_machine.specs.Change.{CanGive, paid_in, paid_out};
ghost use Rattle.nomos_machine.specs.Starting.{cleared, opened};

use crate::tallied::Tallied;
use nomos_ir::value::Value;
use std::alloc::AllocError;

impl Tallied {
    /// An account has so many Dths more. It takes no room.
    pub(crate) fn pay_in(&mut self, account: u32, dths: u128)
        requires account { account < length self.old.state.balances }
        requires fits { slice_index self.old.state.balances account + dths < 2 ^ 128 }
        ensures state { self.new.state ≡ record self.old.state
            { balances = paid_in (Some (account, dths)) self.old.state.balances } }
        ensures room { self.new.room ≡ self.old.room }
        ensures marked { self.new.marked ≡ self.old.marked }
    {
        self.inside.pay_in(account, dths);
    }

    /// An account has so many Dths less. It takes no room.
    pub(crate) fn pay_out(&mut self, account: u32, dths: u128)
        requires { CanGive (Some (account, dths)) self.old.state.balances }
        ensures state { self.new.state ≡ record self.old.state
            { balances = paid_out (Some (account, dths)) self.old.state.balances } }
        ensures room { self.new.room ≡ self.old.room }
        ensures marked { self.new.marked ≡ self.old.marked }
    {
        self.inside.pay_out(account, dths);
    }

    /// Makes the next account, with so many Dths, and gives its number. Want of memory leaves the state as it was.
    pub(crate) fn open_account(&mut self, dths: u128) -> Result<u32, AllocError>
        requires { length self.old.state.balances < 2 ^ 32 - 1 }
        ensures ok { IfOk result (λ account. (account ≡ length self.old.state.balances)
            × (self.new.state ≡ opened self.old.state dths)) }
        ensures err { OnErr result (self.new.state ≡ self.old.state) }
        ensures room { self.new.room ≡ self.old.room }
        ensures marked { self.new.marked ≡ self.old.marked }
    {
        let account = self.inside.open_account(dths)?;
        Ok(account)
    }

    /// So many Dths are spent. It takes no room.
    pub(crate) fn burn(&mut self, dths: u128)
        requires { self.old.state.spent + dths < 2 ^ 128 }
        ensures state { self.new.state ≡ record self.old.state { spent = self.old.state.spent + dths } }
        ensures room { self.new.room ≡ self.old.room }
        ensures marked { self.new.marked ≡ self.old.marked }
    {
        self.inside.burn(dths);
    }

    /// A value is emitted by the process of this number.
    pub(crate) fn emit(&mut self, pid: u32, x: Value) -> Result<(), AllocError>
        ensures ok { OnOk result (self.new.state ≡ record self.old.state
            { results = self.old.state.results ++ (pid, x) ∷ [] }) }
        ensures err { OnErr result (self.new.state ≡ self.old.state) }
        ensures room { self.new.room ≡ self.old.room }
        ensures marked { self.new.marked ≡ self.old.marked }
    {
        self.inside.emit(pid, x)?;
        Ok(())
    }

    /// Forgets what was emitted. It takes no memory.
    pub(crate) fn clear_results(&mut self)
        requires { self.old.marked ≡ None }
        ensures state { self.new.state ≡ cleared self.old.state }
        ensures room { self.new.room ≡ self.old.room }
        ensures marked { self.new.marked ≡ self.old.marked }
    {
        self.inside.clear_results();
    }
}
