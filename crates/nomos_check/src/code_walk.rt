//! What is gathered on the way along the code of a process.
ghost use Rattle.std.specs.Prelude.{◌≡◌, ℕ, IfOk, OnOk};
ghost use Rattle.nomos_types.specs.Typed.{IsWellFormed};
ghost use Rattle.nomos_check.specs.Account.{Account, spends, form_of};
ghost use Rattle.nomos_ir.specs.Instruction.{code_offset, code_form};
ghost use Rattle.nomos_check.specs.mirror.Fresh.{IsFresh};
ghost use Rattle.nomos_check.specs.Room.{HasRoom};
ghost use Rattle.nomos_check.specs.mirror.StandingData.{IsWithin};
ghost use Rattle.nomos_check.specs.mirror.Stops.{first_stuck};
ghost use Rattle.nomos_check.specs.mirror.Walking.{Notes, NotesForms, TakesPlace, TakesPotential};

use crate::asked::Asked;
use crate::branch::copy_of;
use crate::potential_form::PotentialForm;
use crate::standing::{Forks, Standing};
use nomos_equality::equalities::Equalities;
use nomos_forms::form::Form;
use nomos_ir::amount::Amount;
use nomos_ir::code_form::CodeForm;
use nomos_ir::code_node::CodeNode;
use nomos_ir::ids::CodeId;
use nomos_ir::mode::Mode;
use nomos_ir::program::Program;
use nomos_ir::stack::Stack;
use std::alloc::{AllocError, Global};

/// An instruction to which no rule applies: its offset in the text, in bytes, and its form.
#[derive(Clone, Copy)]
pub(crate) struct Stuck {
    pub(crate) at: u32,
    pub(crate) form: CodeForm,
}

/// What is gathered so far: the pairs that were asked for, the forms of the potential, and the first instruction that
/// is stuck. Beside it stand the branches that are not gone yet.
#[derive(Drop)]
pub(crate) struct CodeWalk<'p> {
    pub(crate) asked: Asked<'p>,
    pub(crate) forms: Vec<Form>,
    pub(crate) stuck: Option<Stuck>,
    pub(crate) todo: Stack<Forks>,
    /// Whether what is in hand at the instruction of this number is wanted.
    pub(crate) wanted: &'p [bool],
    /// What is in hand at such instructions.
    pub(crate) places: Vec<Standing>,
    /// The potential before each instruction of which `wanted` says something, as a form.
    pub(crate) potentials: Vec<(CodeId, Form)>,
}

/// The one of the two that is stuck first.
fn first_stuck(old: Option<Stuck>, found: Stuck) -> Option<Stuck>
    ensures { result ≡ first_stuck old found }
{
    match old {
        None => Some(found),
        Some(known) => {
            if found.at < known.at {
                Some(found)
            } else {
                Some(known)
            }
        }
    }
}

/// The form of the potential less an amount.
fn less(alloc: Global, potential: &PotentialForm, amount: Amount) -> Result<Form, AllocError>
    requires { HasRoom potential.now amount }
    ensures { IfOk result (λ f. (n : ℕ) (a : Account) → potential.now ≡ form_of n a → f ≡ form_of n (spends amount a)) }
{
    let mut left = potential.copy(alloc)?;
    left.spend(amount);
    Ok(left.into_form())
}

impl<'p> CodeWalk<'p> {
    /// Nothing is gathered yet. It takes no memory.
    pub(crate) fn new(
        alloc: Global,
        modes: &'p [Mode],
        equalities: Equalities,
        wanted: &'p [bool],
    ) -> CodeWalk<'p>
        ensures wanted { result.wanted.now ≡ wanted.now }
        ensures modes { result.asked.modes.now ≡ modes.now }
        ensures equalities { result.asked.equalities ≡ equalities }
        ensures fresh { IsFresh result }
    {
        CodeWalk {
            asked: Asked {
                alloc,
                modes,
                equalities,
                pairs: Vec::new(alloc),
            },
            forms: Vec::new(alloc),
            stuck: None,
            todo: Stack::new(alloc),
            wanted,
            places: Vec::new(alloc),
            potentials: Vec::new(alloc),
        }
    }

    // Keeps what is in hand, where it is wanted.
    fn keep(&mut self, now: &Standing) -> Result<(), AllocError>
        ensures asked { self.new.asked ≡ self.old.asked }
        ensures others { OnOk result (self.new ≡ record self.old { places = self.new.places }) }
        ensures takes { OnOk result (TakesPlace now.now self.old self.new) }
    {
        if let Some(true) = self.wanted.get(now.code.0 as usize).copied() {
            let kept = copy_of(self.asked.alloc, now)?;
            self.places.push(kept)?;
        }
        Ok(())
    }

    // Keeps the potential, where something is said of what is wanted.
    fn keep_potential(&mut self, now: &Standing) -> Result<(), AllocError>
        ensures asked { self.new.asked ≡ self.old.asked }
        ensures others { OnOk result (self.new ≡ record self.old { potentials = self.new.potentials }) }
        ensures takes { OnOk result (TakesPotential now.now self.old self.new) }
    {
        if (now.code.0 as usize) < self.wanted.len() {
            let form = now.potential.copy(self.asked.alloc)?.into_form();
            self.potentials.push((now.code, form))?;
        }
        Ok(())
    }

    /// Notes what is in hand before the instruction, where it is wanted, and the potential before it, and at a call
    /// that less what the called declaration needs.
    pub(crate) fn note(&mut self, program: &Program, now: &Standing) -> Result<(), AllocError>
        requires formed { IsWellFormed program.now }
        requires within { IsWithin program.now now.now }
        ensures asked { self.new.asked ≡ self.old.asked }
        ensures notes { OnOk result (Notes program.now now.now self.old self.new) }
    {
        self.keep(now)?;
        self.keep_potential(now)?;
        self.note_forms(program, now)
    }

    // Notes the potential before the instruction, and at a call that less what the called declaration needs.
    fn note_forms(&mut self, program: &Program, now: &Standing) -> Result<(), AllocError>
        requires formed { IsWellFormed program.now }
        requires within { IsWithin program.now now.now }
        ensures asked { self.new.asked ≡ self.old.asked }
        ensures notes { OnOk result (NotesForms program.now now.now self.old self.new) }
    {
        program.know();
        let alloc = self.asked.alloc;
        let form = now.potential.copy(alloc)?.into_form();
        self.forms.push(form)?;
        if let CodeNode::Call(_at, f, _args) = program.code(now.code) {
            let left = less(alloc, &now.potential, program.proc(*f).amount)?;
            self.forms.push(left)?;
        }
        Ok(())
    }

    /// The instruction is stuck.
    pub(crate) fn stop(&mut self, node: &CodeNode)
        ensures { self.new ≡ record self.old {
          stuck = first_stuck self.old.stuck
              (record { at = code_offset node.now; form = code_form node.now });
        } }
    {
        let found = Stuck {
            at: node.offset(),
            form: node.form(),
        };
        self.stuck = first_stuck(self.stuck, found);
    }
}
