//! Terms: the nodes of their trees.
use crate::ids::{FnId, TermId, VarId};
use crate::items::Items;
use crate::kind::Kind;

/// Terms in order of text.
pub type TermIds = Items<TermId>;

/// A node of a term. The first part is its offset in the text, in bytes; the others stand in order of
/// text.
#[derive(Drop, Debug)]
pub enum TermNode {
    Number(u32, u32),
    Truth(u32, bool),
    Var(u32, VarId),
    Call(u32, FnId, TermIds),
    /// The empty list of this kind of elements.
    Nil(u32, Kind),
    Add(u32, TermId, TermId),
    Sub(u32, TermId, TermId),
    Mul(u32, TermId, TermId),
    Div(u32, TermId, TermId),
    Rem(u32, TermId, TermId),
    Less(u32, TermId, TermId),
    Equal(u32, TermId, TermId),
    And(u32, TermId, TermId),
    Or(u32, TermId, TermId),
    Cons(u32, TermId, TermId),
    Not(u32, TermId),
    /// The test, what is taken where it is true, and what where it is false.
    If(u32, TermId, TermId, TermId),
    /// The list, what is taken where it is empty, the names of its head and its tail, and what is taken
    /// where it has them.
    Match(u32, TermId, TermId, VarId, VarId, TermId),
}

impl TermNode {
    ghost use Rattle.std.specs.Prelude.{◌≡◌};
    ghost use Rattle.nomos_ir.specs.TermOffset.{term_offset};

    /// The offset of the term in the text, in bytes.
    pub fn offset(&self) -> u32
        ensures { result ≡ term_offset self.now }
    {
        match self {
            TermNode::Number(at, _)
            | TermNode::Truth(at, _)
            | TermNode::Var(at, _)
            | TermNode::Call(at, _, _)
            | TermNode::Nil(at, _)
            | TermNode::Add(at, _, _)
            | TermNode::Sub(at, _, _)
            | TermNode::Mul(at, _, _)
            | TermNode::Div(at, _, _)
            | TermNode::Rem(at, _, _)
            | TermNode::Less(at, _, _)
            | TermNode::Equal(at, _, _)
            | TermNode::And(at, _, _)
            | TermNode::Or(at, _, _)
            | TermNode::Cons(at, _, _)
            | TermNode::Not(at, _)
            | TermNode::If(at, _, _, _)
            | TermNode::Match(at, _, _, _, _, _) => *at,
        }
    }
}

/// The term nodes of a program.
pub type TermNodes = Items<TermNode>;
