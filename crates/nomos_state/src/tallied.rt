//! An indexed state with tallies of what its objects do with names.

use crate::inside::Inside;
use crate::tallies::Tallies;
use std::marker::Model;

/// An indexed state, with tallies of names beside it. Contracts see the indexed state.
#[derive(Drop, Debug)]
pub struct Tallied {
    pub(crate) inside: Inside,
    pub(crate) tallies: Tallies,
    /// Whether tallies were exact where the state is marked.
    pub(crate) was_exact: bool,
    /// Whether there were suspects there, or some were lost.
    pub(crate) was_lost: bool,
    /// Whether an object or a name left since gaps were closed last; no clause rests on it.
    pub(crate) has_left: bool,
}

impl Model for Tallied {
    ghost use Rattle.std.specs.Coded.{codes};
    ghost use Rattle.nomos_ir.specs.ValueCode.{value_code};
    ghost use Rattle.nomos_state.specs.Indexed.{Indexed};
    ghost use Rattle.nomos_state.specs.Tallied.{indexed_in, IsTallied};

    ghost Value = { Indexed };

    ghost coded = { Prim.hlevel (codes, value_code) };

    ghost view = { indexed_in };

    ghost invariant = { IsTallied };
}
