//! What the arguments of starts are judged by.
ghost use Rattle.std.specs.Prelude.{◌≡◌, ◌↔◌, ◌<◌, IfOk, IfSome, IsTrue, length, position};
ghost use Rattle.std.specs.Option.{option_map};
ghost use Rattle.nomos_ir.specs.declared.mode.Mode.{Mode};
ghost use Rattle.nomos_ir.specs.declared.mode.Mode.TheVariants as mode;
ghost use Rattle.nomos_types.specs.Alike.{AlikeTypes};
ghost use Rattle.nomos_types.specs.Equality.{EqualTypes};
ghost use Rattle.nomos_types.specs.Modes.{HasMode};
ghost use Rattle.nomos_legal.specs.LineStarts.{has_mode, is_wanted};

use crate::declared::ProcNames;
use crate::type_worth::are_equal;
use indexmap::IndexMap;
use nomos_ir::ids::{ProcId, TypeId};
use nomos_ir::mode::Mode;
use nomos_script::item::Start;
use nomos_types::accepted::Accepted;
use nomos_types::unfolding::unfold;
use std::alloc::{AllocError, Global};
use std::marker::Model;

/// What the arguments of starts are judged by: an accepted program, whose declarations are found by their names in one
/// step, and which of its types were found equal or not under its amounts, so that no two are compared twice. Contracts
/// see the acceptance.
#[derive(Drop)]
pub struct Arguments<'a> {
    accepted: &'a Accepted,
    names: ProcNames<'a>,
    answers: IndexMap<(u32, u32), bool>,
}

impl<'a> Model for Arguments<'a> {
    ghost use Rattle.nomos_types.specs.Acceptance.{Acceptance};
    ghost use Rattle.nomos_ledger.specs.mirror.StartArguments.{IsKept};

    ghost Value = { Acceptance };

    ghost view = { λ a. a.accepted.now };

    ghost invariant = { λ a. IsKept a.accepted.now a.names a.answers.entries };
}

// Whether a declaration has the mode that a start wants, which names a contract or does not.
fn has_mode(named: bool, mode: Mode) -> bool
    ensures { result ≡ has_mode named mode }
{
    match mode {
        Mode::S => named,
        Mode::T => !named,
        _ => false,
    }
}

impl<'a> Arguments<'a> {
    /// What arguments are judged by in this program, of which no types were compared yet.
    pub fn new(alloc: Global, accepted: &'a Accepted) -> Result<Arguments<'a>, AllocError>
        ensures { IfOk result (λ made. made ≡ accepted.now) }
    {
        let procs = accepted.program().lists().procs.as_slice();
        Ok(Arguments {
            accepted,
            names: ProcNames::of(alloc, procs)?,
            answers: IndexMap::new(alloc),
        })
    }

    /// The accepted program.
    pub fn accepted(&self) -> &'a Accepted
        ensures { result.now ≡ self.now }
    {
        self.accepted
    }

    /// The declaration that a start wants, if there is one.
    pub(crate) fn declaration(&self, start: &Start) -> Option<ProcId>
        ensures { option_map (λ p. p.0) result ≡ position (is_wanted start.now) self.now.program.procs }
    {
        let place = self.names.place_of(start.proc.as_bytes())?;
        let procs = self.accepted.program().lists().procs.as_slice();
        if has_mode(start.contract.is_some(), procs[place].mode) {
            Some(ProcId(place as u32))
        } else {
            None
        }
    }

    // Whether two types were found equal, if they were compared.
    fn known(&self, left: TypeId, right: TypeId) -> Option<bool>
        ensures { IfSome result (λ same. IsTrue same ↔ EqualTypes self.now.program self.now.annotations left right) }
    {
        self.answers.get(&(left.0, right.0)).copied()
    }

    // Whether two types are equal under the amounts. The answer is kept.
    fn are_equal(&mut self, alloc: Global, left: TypeId, right: TypeId) -> Result<bool, AllocError>
        requires left { left.0 < length self.old.program.types }
        requires right { right.0 < length self.old.program.types }
        ensures tells { IfOk result (λ same.
            IsTrue same ↔ EqualTypes self.old.program self.old.annotations left right) }
        ensures stays { self.new ≡ self.old }
    {
        if let Some(known) = self.known(left, right) {
            return Ok(known);
        }
        let same = are_equal(alloc, self.accepted, left, right)?;
        self.answers.insert((left.0, right.0), same)?;
        Ok(same)
    }

    /// Whether the type of a contract's name is alike to that of a parameter: equal under the amounts, and of mode S.
    pub(crate) fn are_alike(
        &mut self,
        alloc: Global,
        own: TypeId,
        wanted: TypeId,
    ) -> Result<bool, AllocError>
        requires own { HasMode self.old.program own mode.S }
        requires wanted { (m : Mode) × HasMode self.old.program wanted m }
        ensures tells { IfOk result (λ alike.
            IsTrue alike ↔ AlikeTypes self.old.program self.old.annotations own wanted) }
        ensures stays { self.new ≡ self.old }
    {
        let program = self.accepted.program();
        let left = unfold(program, own);
        let right = unfold(program, wanted);
        if left == right {
            return Ok(true);
        }
        self.are_equal(alloc, left, right)
    }
}
