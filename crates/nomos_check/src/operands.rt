//! What instructions with several parts work on.
ghost use Rattle.std.specs.Prelude.{◌≡◌};

use nomos_ir::code_node::{Args, Chan};
use nomos_ir::ids::{CodeId, ProcId, TermId, VarId};

/// What an instruction sends or receives over a channel, and the code with which it goes on.
#[derive(Clone, Copy, PartialEq, Eq, Debug)]
pub(crate) struct Over<X> {
    pub(crate) channel: Chan,
    pub(crate) what: X,
    pub(crate) next: CodeId,
}

impl<X> Over<X> {
    /// These operands.
    pub(crate) fn new(channel: Chan, what: X, next: CodeId) -> Self
        ensures channel { result.channel ≡ channel }
        ensures what { result.what ≡ what }
        ensures next { result.next ≡ next }
    {
        Over {
            channel,
            what,
            next,
        }
    }
}

/// A variable with the term to which it is bound, and the code with which the instruction goes on.
#[derive(Clone, Copy, PartialEq, Eq, Debug)]
pub(crate) struct Letting {
    pub(crate) var: VarId,
    pub(crate) term: TermId,
    pub(crate) next: CodeId,
}

impl Letting {
    /// These operands.
    pub(crate) fn new(var: VarId, term: TermId, next: CodeId) -> Self
        ensures var { result.var ≡ var }
        ensures term { result.term ≡ term }
        ensures next { result.next ≡ next }
    {
        Letting { var, term, next }
    }
}

/// The codes of an `if`: where its test is true, and where it is false.
#[derive(Clone, Copy, PartialEq, Eq, Debug)]
pub(crate) struct Choosing {
    pub(crate) test: TermId,
    pub(crate) then_next: CodeId,
    pub(crate) else_next: CodeId,
}

impl Choosing {
    /// These operands.
    pub(crate) fn new(test: TermId, then_next: CodeId, else_next: CodeId) -> Self
        ensures test { result.test ≡ test }
        ensures then_next { result.then_next ≡ then_next }
        ensures else_next { result.else_next ≡ else_next }
    {
        Choosing {
            test,
            then_next,
            else_next,
        }
    }
}

/// A list with a new first element: its name, the element, the list that goes behind it, and the code with which the
/// instruction goes on.
#[derive(Clone, Copy, PartialEq, Eq, Debug)]
pub(crate) struct Adding {
    pub(crate) longer: VarId,
    pub(crate) element: TermId,
    pub(crate) list: VarId,
    pub(crate) next: CodeId,
}

impl Adding {
    /// These operands.
    pub(crate) fn new(longer: VarId, element: TermId, list: VarId, next: CodeId) -> Self
        ensures longer { result.longer ≡ longer }
        ensures element { result.element ≡ element }
        ensures list { result.list ≡ list }
        ensures next { result.next ≡ next }
    {
        Adding {
            longer,
            element,
            list,
            next,
        }
    }
}

/// A list that is to be taken apart: the code where it is empty, the names of its head and its tail, and the code where
/// it has them.
#[derive(Clone, Copy, PartialEq, Eq, Debug)]
pub(crate) struct Matching {
    pub(crate) list: VarId,
    pub(crate) empty_next: CodeId,
    pub(crate) head: VarId,
    pub(crate) tail: VarId,
    pub(crate) full_next: CodeId,
}

impl Matching {
    /// These operands.
    pub(crate) fn new(
        list: VarId,
        empty_next: CodeId,
        head: VarId,
        tail: VarId,
        full_next: CodeId,
    ) -> Self
        ensures list { result.list ≡ list }
        ensures empty_next { result.empty_next ≡ empty_next }
        ensures head { result.head ≡ head }
        ensures tail { result.tail ≡ tail }
        ensures full_next { result.full_next ≡ full_next }
    {
        Matching {
            list,
            empty_next,
            head,
            tail,
            full_next,
        }
    }
}

/// A process that is spawned: the name of its channel, its declaration, its arguments, and the code with which the
/// instruction goes on.
#[derive(Clone, Copy)]
pub(crate) struct Spawning<'p> {
    pub(crate) name: VarId,
    pub(crate) callee: ProcId,
    pub(crate) args: &'p Args,
    pub(crate) next: CodeId,
}

impl<'p> Spawning<'p> {
    /// These operands.
    pub(crate) fn new(name: VarId, callee: ProcId, args: &'p Args, next: CodeId) -> Self
        ensures name { result.name ≡ name }
        ensures callee { result.callee ≡ callee }
        ensures args { result.args.now ≡ args.now }
        ensures next { result.next ≡ next }
    {
        Spawning {
            name,
            callee,
            args,
            next,
        }
    }
}
