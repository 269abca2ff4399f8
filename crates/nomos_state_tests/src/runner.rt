//! Runs of an accepted program on any form of the state.
ghost use Rattle.std.specs.Prelude.{◌≡◌, ◌<◌, ◌^◌, IfOk, IfSome, IsTrue, None};
ghost use Rattle.nomos_ir.specs.TermsEvaluation.{instruction_evaluation};
ghost use Rattle.nomos_ir.specs.declared.lists.ProgramLists.{ProgramLists};
ghost use Rattle.nomos_eval.specs.Outcomes.{outcome_of};
ghost use Rattle.nomos_machine.specs.State.{empty, gas_of};
ghost use Rattle.nomos_machine.specs.TypedState.{IsTyped};
ghost use Rattle.nomos_deeds.specs.Acting.{IsFrugal, IsFrugalNode};
ghost use Rattle.nomos_deeds.specs.Firings.{Fires};

use crate::transactions::transaction_named;
use nomos_deeds::acting::Acting;
use nomos_deeds::fire::Fire;
use nomos_deeds::machine::Machine;
use nomos_eval::wanted::{Outcome, Wanted, evaluate};
use nomos_ir::code_node::CodeNode;
use nomos_ir::fault::Fault;
use nomos_ir::find::find_code;
use nomos_ir::value::Values;
use nomos_ir::value_node::ValueNode;
use nomos_types::accepted::Accepted;
use std::alloc::{AllocError, Global};
use std::marker::Model;

/// A run of an accepted program on a form of the state, which a count of calls keeps far from the greatest numbers.
#[derive(Drop, Debug)]
pub struct FormRunner<M: Machine> {
    accepted: Accepted,
    machine: M,
    left: u32,
}

impl<M: Machine> Model for FormRunner<M> {
    ghost use Rattle.std.specs.Prelude.{◌≡◌, None};
    ghost use Rattle.std.specs.Coded.{codes};
    ghost use Rattle.nomos_ir.specs.ValueCode.{value_code};
    ghost use Rattle.nomos_state_tests.specs.PlainRuns.{Running, GoesOn};

    ghost Value = { Running };

    ghost coded = { Prim.hlevel (codes, value_code) };

    ghost view = { λ r. record { accepted = r.accepted; state = M.state r.machine; left = r.left } };

    ghost invariant = { λ r. GoesOn (record { accepted = r.accepted; state = M.state r.machine; left = r.left })
        × (M.marked r.machine ≡ None) };
}

/// What was wanted of a process, and what it came to.
#[derive(Drop, Debug)]
pub struct Outlook {
    pub wanted: Wanted,
    pub outcome: Outcome,
}

/// A process that waits: its number, the shared name for which it waits, and who stands for that.
pub type Waiting = (u32, Option<u32>, Option<u32>);

// So many calls may be made.
const CALLS: u32 = 1_000_000;

// The number of the last account that there can be.
const LAST_ACCOUNT: u32 = u32::MAX - 1;

// Whether an instruction takes no memory where there is room for a firing; of those that test a term none is told.
fn is_frugal_node(node: &CodeNode) -> bool
    ensures { (lists : ProgramLists) → IsTrue result → IsFrugalNode lists node.now }
{
    matches!(
        node,
        CodeNode::Work(_, _, _)
            | CodeNode::Get(_, _, _, _)
            | CodeNode::Wait(_, _, _)
            | CodeNode::Case(_, _, _)
            | CodeNode::Recv(_, _, _, _)
            | CodeNode::Acquire(_, _, _, _)
            | CodeNode::Release(_, _, _, _)
            | CodeNode::Close(_)
            | CodeNode::Fwd(_, _)
    )
}

impl<M: Machine> FormRunner<M> {
    /// A run that begins with nothing.
    pub fn new(accepted: Accepted, machine: M) -> FormRunner<M>
        requires state { M.state machine ≡ empty }
        requires marked { M.marked machine ≡ None }
        ensures { result.accepted ≡ accepted }
    {
        accepted.know();
        FormRunner {
            accepted,
            machine,
            left: CALLS,
        }
    }

    /// The program.
    pub fn accepted(&self) -> &Accepted
        ensures { result.now ≡ self.now.accepted }
    {
        &self.accepted
    }

    /// The machine in its present state.
    pub fn machine(&self) -> &M
        ensures state { M.state result.now ≡ self.now.state }
        ensures typed { IsTyped self.now.accepted (M.state result.now) }
        ensures gas { gas_of (M.state result.now) < 2 ^ 96 }
    {
        &self.machine
    }

    /// Makes room for so many firings.
    pub fn reserve(&mut self, firings: usize) -> Result<(), AllocError>
        ensures { self.new ≡ self.old }
    {
        self.machine.reserve(firings)
    }

    /// Opens an account with so many Dths, and gives its number.
    pub fn deposit(&mut self, dths: u64) -> Result<Option<u32>, AllocError>
        ensures { self.new.accepted ≡ self.old.accepted }
    {
        if self.left == 0 {
            return Ok(None);
        }
        if self.machine.balance(LAST_ACCOUNT).is_some() {
            return Ok(None);
        }
        let account = self.machine.open_account(u128::from(dths))?;
        self.left -= 1;
        Ok(Some(account))
    }

    /// Starts the transaction of this name, where it takes no arguments and the account has its potential. It gives
    /// the number of the process.
    pub fn exec(&mut self, alloc: Global, name: &str, payer: u32) -> Result<Option<u32>, AllocError>
        ensures { self.new.accepted ≡ self.old.accepted }
    {
        if self.left == 0 {
            return Ok(None);
        }
        let Some(f) = transaction_named(&self.accepted, name) else {
            return Ok(None);
        };
        let Some(dths) = self.machine.balance(payer) else {
            return Ok(None);
        };
        if dths < u128::from(self.accepted.bound(f)) {
            return Ok(None);
        }
        let nothing = Values::empty();
        let pid = self
            .machine
            .start(alloc, &self.accepted, f, (&nothing, &[]), payer)?;
        self.left -= 1;
        Ok(Some(pid))
    }

    /// Fires the process of this number, where it is ready.
    pub fn fire(&mut self, alloc: Global, pid: u32) -> Result<Option<Fire>, AllocError>
        ensures accepted { self.new.accepted ≡ self.old.accepted }
        ensures fires { IfOk result (λ fired. IfSome fired (λ answer.
            Fires self.old.accepted self.old.state pid answer self.new.state)) }
    {
        if self.left == 0 {
            return Ok(None);
        }
        if !self.machine.ready(&self.accepted, pid) {
            return Ok(None);
        }
        let answer = self.machine.fire(alloc, &self.accepted, pid)?;
        self.left -= 1;
        Ok(Some(answer))
    }

    /// Whether the process of this number stands at an instruction that takes no memory where there is room for a
    /// firing.
    pub fn is_frugal(&self, pid: u32) -> bool
        ensures { IsTrue result → IsFrugal self.now.accepted self.now.state pid }
    {
        let Some(view) = self.machine.view(pid) else {
            return false;
        };
        match find_code(self.accepted.program().lists(), view.code) {
            Some(node) => is_frugal_node(node),
            None => false,
        }
    }

    /// Fires the process of this number, where it is ready and stands at an instruction that takes no memory where
    /// there is room for a firing. Memory may be wanting for the room, and then nothing is fired; behind it none is
    /// wanting.
    pub fn fire_in_room(&mut self, alloc: Global, pid: u32) -> Result<Option<Fire>, AllocError>
        ensures accepted { self.new.accepted ≡ self.old.accepted }
        ensures fires { IfOk result (λ fired. IfSome fired (λ answer.
            Fires self.old.accepted self.old.state pid answer self.new.state)) }
    {
        if self.left == 0 {
            return Ok(None);
        }
        if !self.is_frugal(pid) {
            return Ok(None);
        }
        if !self.machine.ready(&self.accepted, pid) {
            return Ok(None);
        }
        self.machine.reserve(1)?;
        let Ok(answer) = self.machine.fire(alloc, &self.accepted, pid) else {
            unreachable!()
        };
        self.left -= 1;
        Ok(Some(answer))
    }

    /// Fires the process of this number, where it is ready, with what was known of it or of another instruction.
    pub fn fire_with(
        &mut self,
        alloc: Global,
        pid: u32,
        known: &Outlook,
    ) -> Result<Option<Fire>, AllocError>
        requires { outcome_of known.now.outcome
            ≡ instruction_evaluation self.old.accepted.program known.now.wanted.env known.now.wanted.code.0 }
        ensures accepted { self.new.accepted ≡ self.old.accepted }
        ensures fires { IfOk result (λ fired. IfSome fired (λ answer.
            Fires self.old.accepted self.old.state pid answer self.new.state)) }
    {
        if self.left == 0 {
            return Ok(None);
        }
        if !self.machine.ready(&self.accepted, pid) {
            return Ok(None);
        }
        let both = (&known.wanted, &known.outcome);
        let answer = self.machine.fire_with(alloc, &self.accepted, pid, both)?;
        self.left -= 1;
        Ok(Some(answer))
    }

    /// The lowest process that is ready, if there is one.
    pub fn lowest(&self) -> Option<u32> {
        self.machine.next_ready(&self.accepted, 0)
    }

    /// Fires the lowest process that is ready: its number, and what it answers.
    pub fn fire_lowest(&mut self, alloc: Global) -> Result<Option<(u32, Fire)>, AllocError>
        ensures { self.new.accepted ≡ self.old.accepted }
    {
        let Some(pid) = self.lowest() else {
            return Ok(None);
        };
        match self.fire(alloc, pid)? {
            Some(answer) => Ok(Some((pid, answer))),
            None => Ok(None),
        }
    }

    /// The fault of the process of this number, if it has one.
    pub fn fault(&self, alloc: Global, pid: u32) -> Result<Option<Fault>, AllocError> {
        self.machine.fault(alloc, &self.accepted, pid)
    }

    /// What is wanted of the process of this number, and what it comes to.
    pub fn ask(&self, alloc: Global, pid: u32) -> Result<Option<Outlook>, AllocError>
        ensures { IfOk result (λ found. IfSome found (λ known. outcome_of known.outcome
            ≡ instruction_evaluation self.now.accepted.program known.wanted.env known.wanted.code.0)) }
    {
        match self.machine.wanted(alloc, &self.accepted, pid)? {
            Some(wanted) => {
                let outcome = evaluate(alloc, self.accepted.program(), &wanted)?;
                Ok(Some(Outlook { wanted, outcome }))
            }
            None => Ok(None),
        }
    }

    /// Forgets what was emitted.
    pub fn clear(&mut self)
        ensures { self.new.accepted ≡ self.old.accepted }
    {
        self.machine.clear_results();
    }

    /// The gas spent, in Dths.
    pub fn spent(&self) -> u128 {
        self.machine.spent()
    }

    /// How many values were emitted.
    pub fn result_count(&self) -> usize {
        self.machine.results().len()
    }

    /// The number that was emitted at a place among all, with the number of its process.
    pub fn result(&self, place: usize) -> Option<(u32, i64)> {
        let (pid, value) = self.machine.results().get(place)?;
        match value.node() {
            ValueNode::Int(n) => Some((*pid, *n)),
            _ => None,
        }
    }

    /// The lowest transaction over a number.
    pub fn transaction(&self, after: u32) -> Option<u32> {
        let _left = self.left;
        self.machine.next_transaction(after)
    }

    /// The lowest process over a number that waits.
    pub fn waiting(&self, after: u32) -> Option<Waiting> {
        let pid = self.machine.next_waiting(&self.accepted, after)?;
        let shared = self.machine.waits(&self.accepted, pid);
        let keeper = match shared {
            Some(name) => self.machine.keeper(name),
            None => None,
        };
        Some((pid, shared, keeper))
    }

    /// How many names have an owner; nothing where one of those that have to have one does not.
    pub fn owned_names(&self) -> Option<u32> {
        let mut count: u32 = 0;
        let mut after: u32 = 0;
        while let Some(name) = self.machine.next_owned(&self.accepted, after) {
            self.machine.owner(&self.accepted, name)?;
            count = count.checked_add(1)?;
            after = name;
        }
        Some(count)
    }
}

impl<M: Machine + Drop> FormRunner<M> {
    /// Goes on with another machine in the same state.
    pub fn go_on_with(&mut self, machine: M)
        requires state { M.state machine ≡ self.old.state }
        requires marked { M.marked machine ≡ None }
        ensures { self.new ≡ self.old }
    {
        self.machine = machine;
    }
}
