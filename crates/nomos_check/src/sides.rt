//! Type nodes as a process sees them on a channel: its own, which it provides, or one of which it is the client.
ghost use Rattle.std.specs.Prelude.{◌≡◌, ◌↔◌, IsTrue, option_copied};
ghost use Rattle.nomos_ir.specs.declared.type_node.TypeNode.{TypeNode};
ghost use Rattle.nomos_types.specs.Premises.{by_side};
ghost use Rattle.nomos_check.specs.mirror.FoundWrong.{IsFound};

use nomos_ir::amount::Amount;
use nomos_ir::code_node::Chan;
use nomos_ir::ids::TypeId;
use nomos_ir::kind::Kind;
use nomos_ir::type_node::{Branches, TypeNode};

/// The branches of a choice that the process makes.
pub(crate) fn sent_choice(c: Chan, node: &TypeNode) -> Option<&Branches>
    ensures { IsFound (λ branches. by_side c (TypeNode.Plus branches) (TypeNode.With branches) ≡ node.now)
        (option_copied result) }
{
    match (c, node) {
        (Chan::Own, TypeNode::Plus(branches)) => Some(branches),
        (Chan::Var(_), TypeNode::With(branches)) => Some(branches),
        _ => None,
    }
}

/// The branches of a choice that is made at the other end.
pub(crate) fn awaited_choice(c: Chan, node: &TypeNode) -> Option<&Branches>
    ensures { IsFound (λ branches. by_side c (TypeNode.With branches) (TypeNode.Plus branches) ≡ node.now)
        (option_copied result) }
{
    match (c, node) {
        (Chan::Own, TypeNode::With(branches)) => Some(branches),
        (Chan::Var(_), TypeNode::Plus(branches)) => Some(branches),
        _ => None,
    }
}

/// The type of the channel that the process sends, and the type with which it goes on.
pub(crate) fn sent_channel(c: Chan, node: &TypeNode) -> Option<(TypeId, TypeId)>
    ensures { IsFound (λ p. by_side c (TypeNode.Tensor p.0 p.1) (TypeNode.Lolli p.0 p.1) ≡ node.now) result }
{
    match (c, node) {
        (Chan::Own, TypeNode::Tensor(carried, next)) => Some((*carried, *next)),
        (Chan::Var(_), TypeNode::Lolli(carried, next)) => Some((*carried, *next)),
        _ => None,
    }
}

/// The type of the channel that the process receives, and the type with which it goes on.
pub(crate) fn received_channel(c: Chan, node: &TypeNode) -> Option<(TypeId, TypeId)>
    ensures { IsFound (λ p. by_side c (TypeNode.Lolli p.0 p.1) (TypeNode.Tensor p.0 p.1) ≡ node.now) result }
{
    match (c, node) {
        (Chan::Own, TypeNode::Lolli(carried, next)) => Some((*carried, *next)),
        (Chan::Var(_), TypeNode::Tensor(carried, next)) => Some((*carried, *next)),
        _ => None,
    }
}

/// The kind of the value that the process sends, and the type with which it goes on.
pub(crate) fn sent_value(c: Chan, node: &TypeNode) -> Option<(Kind, TypeId)>
    ensures { IsFound (λ p. by_side c (TypeNode.ValueOut p.0 p.1) (TypeNode.ValueIn p.0 p.1) ≡ node.now) result }
{
    match (c, node) {
        (Chan::Own, TypeNode::ValueOut(kind, next)) => Some((*kind, *next)),
        (Chan::Var(_), TypeNode::ValueIn(kind, next)) => Some((*kind, *next)),
        _ => None,
    }
}

/// The kind of the value that the process receives, and the type with which it goes on.
pub(crate) fn received_value(c: Chan, node: &TypeNode) -> Option<(Kind, TypeId)>
    ensures { IsFound (λ p. by_side c (TypeNode.ValueIn p.0 p.1) (TypeNode.ValueOut p.0 p.1) ≡ node.now) result }
{
    match (c, node) {
        (Chan::Own, TypeNode::ValueIn(kind, next)) => Some((*kind, *next)),
        (Chan::Var(_), TypeNode::ValueOut(kind, next)) => Some((*kind, *next)),
        _ => None,
    }
}

/// The amount that the process pays, and the type with which it goes on.
pub(crate) fn paid_amount(c: Chan, node: &TypeNode) -> Option<(Amount, TypeId)>
    ensures { IsFound (λ p. by_side c (TypeNode.PotOut p.0 p.1) (TypeNode.PotIn p.0 p.1) ≡ node.now) result }
{
    match (c, node) {
        (Chan::Own, TypeNode::PotOut(amount, next)) => Some((*amount, *next)),
        (Chan::Var(_), TypeNode::PotIn(amount, next)) => Some((*amount, *next)),
        _ => None,
    }
}

/// The amount that the process gets, and the type with which it goes on.
pub(crate) fn got_amount(c: Chan, node: &TypeNode) -> Option<(Amount, TypeId)>
    ensures { IsFound (λ p. by_side c (TypeNode.PotIn p.0 p.1) (TypeNode.PotOut p.0 p.1) ≡ node.now) result }
{
    match (c, node) {
        (Chan::Own, TypeNode::PotIn(amount, next)) => Some((*amount, *next)),
        (Chan::Var(_), TypeNode::PotOut(amount, next)) => Some((*amount, *next)),
        _ => None,
    }
}

/// Whether the node is the end.
pub(crate) fn is_one(node: &TypeNode) -> bool
    ensures { IsTrue result ↔ (node.now ≡ TypeNode.One) }
{
    match node {
        TypeNode::One => true,
        _ => false,
    }
}

/// The type of a shared contract while it is held.
pub(crate) fn behind_up(node: &TypeNode) -> Option<TypeId>
    ensures { IsFound (λ t. TypeNode.Up t ≡ node.now) result }
{
    match node {
        TypeNode::Up(t) => Some(*t),
        _ => None,
    }
}

/// The type of a held contract when it is shared again.
pub(crate) fn behind_down(node: &TypeNode) -> Option<TypeId>
    ensures { IsFound (λ t. TypeNode.Down t ≡ node.now) result }
{
    match node {
        TypeNode::Down(t) => Some(*t),
        _ => None,
    }
}
