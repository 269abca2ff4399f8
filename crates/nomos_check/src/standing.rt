//! Where a process stands while its code is checked, and where an instruction leads from there.
ghost use Rattle.std.specs.Prelude.{◌≡◌, []};

use crate::bound::Bound;
use crate::potential_form::PotentialForm;
use nomos_ir::amount::Amount;
use nomos_ir::code_node::Chan;
use nomos_ir::ids::{CodeId, TypeId, VarId};
use nomos_ir::kind::Kind;
use nomos_ir::mode::Mode;
use std::alloc::Global;

/// A list that carries potential: the kind of its elements, and the amount that each of them carries.
#[derive(Clone, Copy)]
pub struct Carried {
    pub kind: Kind,
    pub amount: Amount,
}

/// What the process has in hand at an instruction: its mode, the kinds of its values, its lists, the types of its
/// references and of its other channels, its potential in units, the instruction, and what it offers.
#[derive(Drop)]
pub struct Standing {
    pub mode: Mode,
    pub kinds: Bound<Kind>,
    pub lists: Bound<Carried>,
    pub shared: Bound<TypeId>,
    pub linear: Bound<TypeId>,
    pub potential: PotentialForm,
    pub code: CodeId,
    pub offers: TypeId,
}

impl Standing {
    /// Nothing is bound. It takes no memory.
    pub(crate) fn unbound(
        alloc: Global,
        mode: Mode,
        potential: PotentialForm,
        code: CodeId,
        offers: TypeId,
    ) -> Standing
        ensures { result ≡ record {
          mode = mode;
          kinds = [];
          lists = [];
          shared = [];
          linear = [];
          potential = potential;
          code = code;
          offers = offers;
        } }
    {
        Standing {
            mode,
            kinds: Bound::new(alloc),
            lists: Bound::new(alloc),
            shared: Bound::new(alloc),
            linear: Bound::new(alloc),
            potential,
            code,
            offers,
        }
    }
}

/// A list that is taken apart: its head and its tail, what it carries, and the code with which it goes on.
#[derive(Clone, Copy)]
pub(crate) struct ListParts {
    pub(crate) list: VarId,
    pub(crate) carried: Carried,
    pub(crate) head: VarId,
    pub(crate) tail: VarId,
    pub(crate) next: CodeId,
}

/// One way on of an instruction that has several.
#[derive(Clone, Copy)]
pub(crate) enum WayOn {
    /// The channel goes on at the type: a branch of a `case`.
    Label(Chan, TypeId, CodeId),
    /// Nothing changes: a code of an `if`.
    Truth(CodeId),
    /// The list is empty, and used up: the first code of a `match`.
    Empty(VarId, CodeId),
    /// The list has a head and a tail: the second code of a `match`.
    Full(ListParts),
}

/// Where an instruction leads.
#[derive(Drop)]
pub(crate) enum Step {
    /// No rule applies.
    Stuck,
    /// The code ends.
    Done,
    /// To one next instruction.
    Next,
    /// On each of these ways.
    Branches(Vec<WayOn>),
}

/// Ways that are not gone yet, and what the process has in hand before them.
#[derive(Drop)]
pub(crate) struct Forks {
    pub(crate) before: Standing,
    pub(crate) ways: Vec<WayOn>,
}
