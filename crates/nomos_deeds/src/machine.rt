//! The machine, however its state is kept: which processes are ready, and what a firing answers.
ghost use Rattle.std.specs.Prelude.{◌≡◌, ◌≤◌, ◌<◌, ◌+◌, ◌-◌, ◌^◌, ◌↔◌, IsTrue, IsOk, IfOk, OnErr, None, Some, MatchOption, length, slice_get, sum_by};
ghost use Rattle.std.specs.Option.{option_map};
ghost use Rattle.nomos_ir.specs.TermsEvaluation.{instruction_evaluation};
ghost use Rattle.nomos_eval.specs.Outcomes.{outcome_of};
ghost use Rattle.nomos_machine.specs.Balances.{NoBalanceFalls};
ghost use Rattle.nomos_machine.specs.Objects.{purse_of};
ghost use Rattle.nomos_machine.specs.Run.{IsNextReady, NoneReady};
ghost use Rattle.nomos_machine.specs.Sight.{owner};
ghost use Rattle.nomos_machine.specs.Starting.{CanStartWith, opened, credited, cleared, started_with};
ghost use Rattle.nomos_machine.specs.State.{gas_of, process_at, type_of};
ghost use Rattle.nomos_machine.specs.Step.{IsReady, fault};
ghost use Rattle.nomos_machine.specs.TypedState.{IsTyped, Numbered};
ghost use Rattle.nomos_deeds.specs.Acting.{IsFrugal};
ghost use Rattle.nomos_deeds.specs.Firings.{Fires, HaveOneOwner, MayFire, Wants};
ghost use Rattle.nomos_deeds.specs.Lowest.{FindsNext};
ghost use Rattle.nomos_deeds.specs.Readers.{IsLinearName, IsTransaction, IsWaiting, keeper, view_of, waits};

use crate::acting::Acting;
use crate::decide::{decide, decide_with, fault_of};
use crate::deeds::looks_ready;
use crate::fire::Fire;
use crate::firing::act_on;
use crate::outcomes::code_with_terms;
use crate::value_copies::copy_env;
use nomos_eval::wanted::{Outcome, Wanted};
use nomos_ir::fault::Fault;
use nomos_ir::ids::{CodeId, ProcId, TypeId};
use nomos_ir::mode::Mode;
use nomos_ir::value::{Value, Values};
use nomos_types::accepted::Accepted;
use std::alloc::{AllocError, Global};

/// What is shown of a process.
#[derive(Clone, Copy, Debug)]
pub struct View {
    pub mode: Mode,
    /// The instruction at which it stands.
    pub code: CodeId,
    pub offers: u32,
    /// The shared name to which it goes back, at mode L.
    pub base: Option<u32>,
    /// In Dths.
    pub purse: u128,
}

/// A machine. docs/MACHINE.md says what its states are, which processes are ready, and what they do. Each call that
/// takes an accepted program asks for a state that is typed for it.
pub trait Machine: Acting {
    /// Whether the process of this number is ready. It evaluates nothing, and takes no memory.
    fn ready(&self, accepted: &Accepted, pid: u32) -> bool
        requires { IsTyped accepted.now (Self.state self.now) }
        ensures { IsTrue result ↔ IsReady accepted.now (Self.state self.now) pid }
    {
        accepted.know();
        looks_ready(self, accepted, pid)
    }

    /// Fires a ready process. Its step is made, or its instruction has a fault, and then nothing changes. Want of
    /// memory leaves the state as it was; where there is room for a firing, it does not come at an instruction that
    /// takes none (docs/MACHINE.md, "Firings that take no memory"). Whatever is answered, all gas is kept, no account
    /// has less, and each channel of mode R or L has one owner as before, where no outside party has it.
    #[inline(always)]
    fn fire(&mut self, alloc: Global, accepted: &Accepted, pid: u32) -> Result<Fire, AllocError>
        requires may { MayFire accepted.now (Self.state self.old) }
        requires ready { IsReady accepted.now (Self.state self.old) pid }
        ensures ok { IfOk result (λ answer. Fires accepted.now (Self.state self.old) pid answer (Self.state self.new)) }
        ensures err { OnErr result (Self.state self.new ≡ Self.state self.old) }
        ensures typed { IsTyped accepted.now (Self.state self.new) }
        ensures gas { gas_of (Self.state self.new) ≡ gas_of (Self.state self.old) }
        ensures balances { NoBalanceFalls (Self.state self.old) (Self.state self.new) }
        ensures owners { HaveOneOwner accepted.now (Self.state self.old)
            × HaveOneOwner accepted.now (Self.state self.new) }
        ensures spare { Self.spare self.old ≤ Self.spare self.new + 1 }
        ensures frugal { 0 < Self.spare self.old → IsFrugal accepted.now (Self.state self.old) pid → IsOk result }
        ensures marked { Self.marked self.new ≡ Self.marked self.old }
    {
        accepted.know();
        let decision = decide(&*self, alloc, accepted, pid)?;
        act_on(self, alloc, accepted, pid, decision)
    }

    /// The fault of the process of this number, if it has one.
    fn fault(
        &self,
        alloc: Global,
        accepted: &Accepted,
        pid: u32,
    ) -> Result<Option<Fault>, AllocError>
        requires { IsTyped accepted.now (Self.state self.now) }
        ensures { IfOk result (λ found. found ≡ fault accepted.now (Self.state self.now) pid) }
    {
        let Some(_) = self.process(pid) else {
            return Ok(None);
        };
        let decision = decide(self, alloc, accepted, pid)?;
        Ok(fault_of(decision.doing))
    }

    /// What has to be evaluated for the process of this number: its instruction, where that has terms, and its values.
    fn wanted(
        &self,
        alloc: Global,
        accepted: &Accepted,
        pid: u32,
    ) -> Result<Option<Wanted>, AllocError>
        requires { IsTyped accepted.now (Self.state self.now) }
        ensures { IfOk result (λ found. Wants accepted.now (Self.state self.now) pid found) }
    {
        let Some(code) = code_with_terms(self, accepted, pid) else {
            return Ok(None);
        };
        let env = copy_env(alloc, self.values(pid))?;
        Ok(Some(Wanted { code, env }))
    }

    /// Fires a ready process, as `fire` does. What the terms of the wanted instruction come to among the wanted values
    /// is used where the process still stands there with these values, and is evaluated otherwise.
    fn fire_with(
        &mut self,
        alloc: Global,
        accepted: &Accepted,
        pid: u32,
        known: (&Wanted, &Outcome),
    ) -> Result<Fire, AllocError>
        requires known { outcome_of known.1.now
            ≡ instruction_evaluation accepted.now.program known.0.now.env known.0.now.code.0 }
        requires may { MayFire accepted.now (Self.state self.old) }
        requires ready { IsReady accepted.now (Self.state self.old) pid }
        ensures ok { IfOk result (λ answer. Fires accepted.now (Self.state self.old) pid answer (Self.state self.new)) }
        ensures err { OnErr result (Self.state self.new ≡ Self.state self.old) }
        ensures typed { IsTyped accepted.now (Self.state self.new) }
        ensures gas { gas_of (Self.state self.new) ≡ gas_of (Self.state self.old) }
        ensures balances { NoBalanceFalls (Self.state self.old) (Self.state self.new) }
        ensures owners { HaveOneOwner accepted.now (Self.state self.old)
            × HaveOneOwner accepted.now (Self.state self.new) }
        ensures spare { Self.spare self.old ≤ Self.spare self.new + 1 }
        ensures frugal { 0 < Self.spare self.old → IsFrugal accepted.now (Self.state self.old) pid → IsOk result }
        ensures marked { Self.marked self.new ≡ Self.marked self.old }
    {
        accepted.know();
        let decision = decide_with(&*self, alloc, accepted, pid, known)?;
        act_on(self, alloc, accepted, pid, decision)
    }

    /// The lowest ready process over a number. It evaluates nothing, and takes no memory.
    fn next_ready(&self, accepted: &Accepted, after: u32) -> Option<u32>
        requires { IsTyped accepted.now (Self.state self.now) }
        ensures { MatchOption result (NoneReady accepted.now (Self.state self.now) after)
            (IsNextReady accepted.now (Self.state self.now) after) };

    /// Makes the next account, with so many Dths, and gives its number. Want of memory leaves the state as it was.
    fn open_account(&mut self, dths: u128) -> Result<u32, AllocError>
        requires { length (Self.state self.old).balances < 2 ^ 32 - 1 }
        ensures ok { IfOk result (λ account. (account ≡ length (Self.state self.old).balances)
            × (Self.state self.new ≡ opened (Self.state self.old) dths)) }
        ensures err { OnErr result (Self.state self.new ≡ Self.state self.old) }
        ensures spare { Self.spare self.old ≤ Self.spare self.new }
        ensures marked { Self.marked self.new ≡ Self.marked self.old };

    /// An account has so many Dths more.
    fn credit(&mut self, account: u32, dths: u128)
        requires account { account < length (Self.state self.old).balances }
        requires gas { gas_of (Self.state self.old) + dths < 2 ^ 96 }
        ensures state { Self.state self.new ≡ credited (Self.state self.old) account dths }
        ensures spare { Self.spare self.old ≤ Self.spare self.new }
        ensures marked { Self.marked self.new ≡ Self.marked self.old };

    /// Forgets what was emitted. It takes no memory.
    fn clear_results(&mut self)
        requires { Self.marked self.old ≡ None }
        ensures state { Self.state self.new ≡ cleared (Self.state self.old) }
        ensures spare { Self.spare self.old ≤ Self.spare self.new }
        ensures marked { Self.marked self.new ≡ Self.marked self.old };

    /// Starts a contract or a transaction: a process of the declaration, with values and the names of channels for its
    /// parameters, in their order. The payer's account gives its declared potential. It gives the number of the
    /// process. Want of memory leaves the state as it was.
    fn start(
        &mut self,
        alloc: Global,
        accepted: &Accepted,
        declaration: ProcId,
        given: (&Values, &[u32]),
        payer: u32,
    ) -> Result<u32, AllocError>
        requires may { MayFire accepted.now (Self.state self.old) }
        requires start { CanStartWith accepted.now (Self.state self.old) declaration.0 given.0.now given.1.now payer }
        ensures ok { IfOk result (λ pid. (pid ≡ (Self.state self.old).next_object)
            × (started_with accepted.now (Self.state self.old) declaration.0 given.entry.0.now given.entry.1.now payer
            ≡ Some (Self.state self.new))) }
        ensures err { OnErr result (Self.state self.new ≡ Self.state self.old) }
        ensures typed { IsTyped accepted.now (Self.state self.new) }
        ensures spare { Self.spare self.old ≤ Self.spare self.new }
        ensures marked { Self.marked self.new ≡ Self.marked self.old };

    /// What an account has, in Dths, if there is one of that number. This reader and all below take no memory.
    fn balance(&self, account: u32) -> Option<u128>
        ensures { result ≡ slice_get (Self.state self.now).balances account };

    /// The gas spent, in Dths.
    fn spent(&self) -> u128
        ensures { result ≡ (Self.state self.now).spent };

    /// What all processes and messages carry, in Dths.
    fn stored(&self) -> u128
        requires { gas_of (Self.state self.now) < 2 ^ 96 }
        ensures { result ≡ sum_by purse_of (Self.state self.now).objects };

    /// What processes emitted: the number of the process, and the value.
    fn results(&self) -> &[(u32, Value)]
        ensures { result.now ≡ (Self.state self.now).results };

    /// The number that the next object will have.
    fn next_object(&self) -> u32
        ensures { result ≡ (Self.state self.now).next_object };

    /// The number that the next name will have.
    fn next_name(&self) -> u32
        ensures { result ≡ (Self.state self.now).next_name };

    /// What is shown of the process of this number; nothing, exactly where no process has it.
    fn view(&self, pid: u32) -> Option<View>
        ensures { result ≡ option_map view_of (process_at (Self.state self.now) pid) };

    /// The shared name for which the process of this number waits, where it stands at `acquire`.
    fn waits(&self, accepted: &Accepted, pid: u32) -> Option<u32>
        ensures { result ≡ waits accepted.now (Self.state self.now).objects pid };

    /// The number of the process that stands for a shared name: it offers the name, or it is acquired and has the name
    /// as base. It is asked of shared names alone: nobody stands for a name of another mode, though a process offers
    /// it.
    fn keeper(&self, shared: u32) -> Option<u32>
        ensures { result ≡ keeper (Self.state self.now).objects shared };

    /// The number of the object that uses a name whose type has mode R or L; nothing at any other name.
    fn owner(&self, accepted: &Accepted, name: u32) -> Option<u32>
        requires { IsTyped accepted.now (Self.state self.now) }
        ensures linear { IsLinearName accepted.now.program (Self.state self.now).types name
            → result ≡ owner (Self.state self.now) name }
        ensures other { ¬ (IsLinearName accepted.now.program (Self.state self.now).types name) → result ≡ None };

    /// The type of this name, if it has one.
    fn name_type(&self, name: u32) -> Option<TypeId>
        ensures { result ≡ type_of (Self.state self.now).types name };

    /// The lowest process over a number that has mode T.
    fn next_transaction(&self, after: u32) -> Option<u32>
        requires { Numbered (Self.state self.now) }
        ensures { FindsNext (IsTransaction (Self.state self.now).objects) after result };

    /// The lowest process over a number that stands at `acquire`.
    fn next_waiting(&self, accepted: &Accepted, after: u32) -> Option<u32>
        requires { IsTyped accepted.now (Self.state self.now) }
        ensures { FindsNext (IsWaiting accepted.now (Self.state self.now).objects) after result };

    /// The lowest name over a number whose type has mode R or L.
    fn next_owned(&self, accepted: &Accepted, after: u32) -> Option<u32>
        requires { IsTyped accepted.now (Self.state self.now) }
        ensures { FindsNext (IsLinearName accepted.now.program (Self.state self.now).types) after result };
}
