//! The constructors of type nodes, and what beside its parts and its labels a node has.
ghost use Rattle.std.specs.Prelude.{◌≡◌, ◌↔◌, IsTrue};
ghost use Rattle.nomos_equality.specs.Paths.{paid_by};
ghost use Rattle.nomos_equality.specs.mirror.Heads.{constructor_of, kind_of};

use nomos_ir::amount::Amount;
use nomos_ir::kind::Kind;
use nomos_ir::type_node::TypeNode;

/// With what a type node begins.
#[derive(Clone, Copy, PartialEq, Eq, Debug)]
enum Constructor {
    One,
    Plus,
    With,
    Tensor,
    Lolli,
    ValueOut,
    ValueIn,
    PotOut,
    PotIn,
    Up,
    Down,
    Named,
}

/// The constructor of a node.
fn constructor_of(node: &TypeNode) -> Constructor
    ensures { result ≡ constructor_of node.now }
{
    match node {
        TypeNode::One => Constructor::One,
        TypeNode::Plus(_) => Constructor::Plus,
        TypeNode::With(_) => Constructor::With,
        TypeNode::Tensor(_, _) => Constructor::Tensor,
        TypeNode::Lolli(_, _) => Constructor::Lolli,
        TypeNode::ValueOut(_, _) => Constructor::ValueOut,
        TypeNode::ValueIn(_, _) => Constructor::ValueIn,
        TypeNode::PotOut(_, _) => Constructor::PotOut,
        TypeNode::PotIn(_, _) => Constructor::PotIn,
        TypeNode::Up(_) => Constructor::Up,
        TypeNode::Down(_) => Constructor::Down,
        TypeNode::Named(_) => Constructor::Named,
    }
}

/// Whether two nodes have the same constructor.
pub(crate) fn same_constructor(left: &TypeNode, right: &TypeNode) -> bool
    ensures { IsTrue result ↔ (constructor_of left.now ≡ constructor_of right.now) }
{
    constructor_of(left) == constructor_of(right)
}

/// The kind of the values that a node sends or receives.
fn kind_of(node: &TypeNode) -> Option<Kind>
    ensures { result ≡ kind_of node.now }
{
    match node {
        TypeNode::ValueOut(kind, _) => Some(*kind),
        TypeNode::ValueIn(kind, _) => Some(*kind),
        _ => None,
    }
}

/// Whether two nodes have the same kind, if any.
pub(crate) fn same_kind(left: &TypeNode, right: &TypeNode) -> bool
    ensures { IsTrue result ↔ (kind_of left.now ≡ kind_of right.now) }
{
    match (kind_of(left), kind_of(right)) {
        (Some(kind), Some(other)) => kind == other,
        (None, None) => true,
        _ => false,
    }
}

/// The amount that a node pays or gets.
pub(crate) fn paid_by(node: &TypeNode) -> Option<Amount>
    ensures { result ≡ paid_by node.now }
{
    match node {
        TypeNode::PotOut(amount, _) => Some(*amount),
        TypeNode::PotIn(amount, _) => Some(*amount),
        _ => None,
    }
}
