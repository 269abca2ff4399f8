//! The arguments of one call of a function with many parameters, which ascend.
ghost use Rattle.std.specs.Prelude.{◌≡◌, IfOk, length, map};
ghost use Rattle.std.specs.List.{zip};
ghost use Rattle.nomos_ir.specs.Bindings.{bound_to};
ghost use Rattle.nomos_eval.specs.mirror.Ascending.{Rises};

use crate::ascending::place_known;
use crate::datum::Datum;
use nomos_ir::ids::VarId;
use nomos_ir::kind::Kind;
use std::alloc::{AllocError, Global};
use std::marker::Model;

/// Variables with their values, side by side, which contracts see as the list of these pairs. They ascend.
#[derive(Drop)]
pub(crate) struct Frame {
    pairs: Vec<(VarId, Datum)>,
}

impl Model for Frame {
    ghost use Rattle.std.specs.Prelude.{List, length};
    ghost use Rattle.nomos_ir.specs.declared.ids.VarId.{VarId};
    ghost use Rattle.nomos_eval.specs.declared.datum.Datum.{Datum};
    ghost use Rattle.nomos_eval.specs.mirror.Ascending.{Rises};

    ghost Value = { List (VarId × Datum) };

    ghost view = { λ f. f.pairs.items };

    ghost invariant = { λ f. Rises f.pairs.items (length f.pairs.items) };
}

impl Frame {
    /// Parameters, each with its argument; those without one are left out, and so are arguments without a parameter.
    pub(crate) fn of_call(
        alloc: Global,
        pars: &[(VarId, Kind)],
        arguments: &[Datum],
    ) -> Result<Self, AllocError>
        requires { Rises pars.now (length pars.now) }
        ensures { IfOk result (λ frame. frame ≡ zip (map (λ par. par.0) pars.now) arguments.now) }
    {
        let pairs = paired(alloc, pars, arguments)?;
        Ok(Frame { pairs })
    }

    /// The value of the variable.
    pub(crate) fn look_up(&self, v: VarId) -> Option<Datum>
        ensures { result ≡ bound_to v.0 self.now }
    {
        let pairs = self.pairs.as_slice();
        match place_known(pairs, pairs.len(), v) {
            Some(place) => Some(pairs[place].1),
            None => None,
        }
    }
}

// Parameters, each with its argument.
fn paired(
    alloc: Global,
    pars: &[(VarId, Kind)],
    arguments: &[Datum],
) -> Result<Vec<(VarId, Datum)>, AllocError>
    ensures { IfOk result (λ pairs. pairs.items ≡ zip (map (λ par. par.0) pars.now) arguments.now) }
{
    let count = pars.len().min(arguments.len());
    let mut pairs = Vec::with_capacity(alloc, count)?;
    for at in 0..count {
        pairs.push((pars[at].0, arguments[at]))?;
    }
    Ok(pairs)
}
