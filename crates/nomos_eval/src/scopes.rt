//! The variables of one evaluation. No list of them is ever changed, so they share their parts.
ghost use Rattle.std.specs.Prelude.{◌≡◌, ◌<◌, ◌≤◌, ◌++◌, ◌∷◌, ◌↔◌, [], IsTrue, length, map, IfOk, slice_index_or};
ghost use Rattle.std.specs.List.{zip};
ghost use Rattle.nomos_ir.specs.Bindings.{bound_to};
ghost use Rattle.nomos_eval.specs.mirror.Ascending.{Rises};
ghost use Rattle.nomos_eval.specs.mirror.EvalScope.{IsOutside, Leads};

use crate::datum::Datum;
use crate::frame::Frame;
use nomos_ir::ids::VarId;
use nomos_ir::kind::Kind;
use std::alloc::{AllocError, Global};
use std::marker::Model;

/// A place further on, and between which numbers all variables stand that are passed on the way there; with how many
/// they are.
#[derive(Clone, Copy, PartialEq, Eq, Debug)]
pub(crate) struct Leap {
    place: usize,
    least: u32,
    most: u32,
    count: u32,
}

/// No variables; a variable with its value, the place of the others, and a leap over this one and some of those; or the
/// variables of one call.
#[derive(Drop)]
pub(crate) enum Binding {
    Nothing,
    More(VarId, Datum, usize, Leap),
    Call(Frame),
}

impl Leap {
    // Whether a look-up of the variable may take this leap.
    fn passes(&self, v: VarId) -> bool
        ensures { IsTrue result ↔ IsOutside self.now v.0 }
    {
        v.0 < self.least || self.most < v.0
    }
}

/// Lists of variables by their places, which contracts see as the list of these lists.
#[derive(Drop)]
pub(crate) struct Scopes {
    cells: Vec<Binding>,
}

impl Model for Scopes {
    ghost use Rattle.std.specs.Prelude.{List};
    ghost use Rattle.nomos_ir.specs.declared.ids.VarId.{VarId};
    ghost use Rattle.nomos_eval.specs.declared.datum.Datum.{Datum};

    ghost Value = { List (List (VarId × Datum)) };

    ghost use Rattle.nomos_eval.specs.mirror.EvalScope.{scopes_of, AreScopes};

    ghost view = { λ s. scopes_of s.cells.items };

    ghost invariant = { λ s. AreScopes s.cells.items };
}

impl Scopes {
    /// No lists of variables. It takes no memory.
    pub(crate) fn new(alloc: Global) -> Self
        ensures { result ≡ [] }
    {
        Scopes {
            cells: Vec::new(alloc),
        }
    }

    /// Adds a list without variables, and gives its place.
    pub(crate) fn add_nothing(&mut self) -> Result<usize, AllocError>
        ensures { IfOk result (λ p. (p ≡ length self.old) × (self.new ≡ self.old ++ [] ∷ [])) }
    {
        let place = self.cells.len();
        self.cells.push(Binding::Nothing)?;
        Ok(place)
    }

    /// Adds the list of parameters, which ascend, with their arguments, and gives its place.
    pub(crate) fn add_call(
        &mut self,
        pars: &[(VarId, Kind)],
        arguments: &[Datum],
    ) -> Result<usize, AllocError>
        requires { Rises pars.now (length pars.now) }
        ensures { IfOk result (λ p. (p ≡ length self.old)
            × (self.new ≡ self.old ++ zip (map (λ par. par.0) pars.now) arguments.now ∷ [])) }
    {
        let place = self.cells.len();
        let alloc = *self.cells.allocator();
        let frame = Frame::of_call(alloc, pars, arguments)?;
        self.cells.push(Binding::Call(frame))?;
        Ok(place)
    }

    /// Adds the list of a variable with its value before those at a place, and gives its place.
    pub(crate) fn add_more(
        &mut self,
        v: VarId,
        value: Datum,
        others: usize,
    ) -> Result<usize, AllocError>
        requires { others < length self.old }
        ensures { IfOk result (λ p. (p ≡ length self.old)
            × (self.new ≡ self.old ++ ((v, value) ∷ slice_index_or self.old others []) ∷ [])) }
    {
        let place = self.cells.len();
        let leap = self.leap_from(v, others);
        self.cells.push(Binding::More(v, value, others, leap))?;
        Ok(place)
    }

    // The leap of a variable before those at a place: over itself, or, where the two leaps behind it are alike, over
    // both of them too. So a look-up takes few steps where variables ascend or descend.
    fn leap_from(&self, v: VarId, others: usize) -> Leap
        requires { others < length self.now }
        ensures { Leads self.now v others result }
    {
        let near = Leap {
            place: others,
            least: v.0,
            most: v.0,
            count: 1,
        };
        let Binding::More(_, _, _, first) = &self.cells[others] else {
            return near;
        };
        let Binding::More(_, _, _, second) = &self.cells[first.place] else {
            return near;
        };
        if first.count != second.count {
            return near;
        }
        Leap {
            place: second.place,
            least: v.0.min(first.least).min(second.least),
            most: v.0.max(first.most).max(second.most),
            count: first.count.saturating_mul(2).saturating_add(1),
        }
    }

    /// The value of the variable, by the first with its number at a place.
    pub(crate) fn look_up(&self, place: usize, v: VarId) -> Option<Datum>
        requires { place < length self.now }
        ensures { result ≡ bound_to v.0 (slice_index_or self.now place []) }
    {
        let mut at = place;
        loop {
            match &self.cells[at] {
                Binding::Nothing => return None,
                Binding::More(w, value, others, leap) => {
                    if *w == v {
                        return Some(*value);
                    }
                    at = if leap.passes(v) { leap.place } else { *others };
                }
                Binding::Call(frame) => return frame.look_up(v),
            }
        }
    }
}
