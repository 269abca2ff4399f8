//! What is left to do in an evaluation.
use crate::numbers::NumberOperator;
use nomos_ir::ids::{FnId, TermId, VarId};

/// Where a term is evaluated: the place of its variables, and how many calls are open.
#[derive(Clone, Copy, PartialEq, Eq, Debug)]
pub(crate) struct TermScope {
    pub(crate) variables: usize,
    pub(crate) calls: u32,
}

/// The parts of a `match`: what is taken where the list is empty, the names of its head and its tail, and what is taken
/// where it has them.
#[derive(Clone, Copy, PartialEq, Eq, Debug)]
pub(crate) struct Cases {
    pub(crate) empty: TermId,
    pub(crate) head: VarId,
    pub(crate) tail: VarId,
    pub(crate) full: TermId,
}

/// Something that is left to do. The values found last are the topmost ones.
#[derive(Clone, Copy, PartialEq, Eq, Debug)]
pub(crate) enum Pending {
    /// A term is to be evaluated.
    Term(TermScope, TermId),
    /// An operator takes the two topmost values.
    Numbers(NumberOperator),
    /// The value before the topmost one is put before the topmost one, a list.
    PutBefore,
    /// The topmost value is the left part of an `and`, and this is the right one.
    Both(TermScope, TermId),
    /// The topmost value is the left part of an `or`, and this is the right one.
    Either(TermScope, TermId),
    /// The topmost value is to be a truth value.
    Truth,
    /// The topmost value is turned round.
    Not,
    /// The topmost value is the test of an `if`, and these are its parts.
    Choose(TermScope, TermId, TermId),
    /// The topmost value is taken apart by a `match` with these parts.
    Open(TermScope, Cases),
    /// So many topmost values are the arguments of a function, which is called where so many calls are open.
    Enter(u32, FnId, usize),
}
