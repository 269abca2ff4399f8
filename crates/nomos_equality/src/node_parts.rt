//! The parts of type nodes.
ghost use Rattle.std.specs.Prelude.{◌≡◌};
ghost use Rattle.nomos_types.specs.Branches.{goes_by};
ghost use Rattle.nomos_equality.specs.Paths.{part_by, next_of, carried_of, choices_of};

use crate::hop::Hop;
use nomos_ir::ids::{Label, TypeId};
use nomos_ir::type_node::{Branch, TypeNode};

/// The branches of a choice, none of any other node.
pub fn choices_of(node: &TypeNode) -> &[Branch]
    ensures { result.now ≡ choices_of node.now }
{
    match node {
        TypeNode::Plus(branches) => branches.as_slice(),
        TypeNode::With(branches) => branches.as_slice(),
        _ => &[],
    }
}

/// The type with which a choice goes on after a label.
pub fn goes_by(branches: &[Branch], label: Label) -> Option<TypeId>
    ensures { result ≡ goes_by branches.now label }
{
    branches
        .iter()
        .find(|b| b.label.0 == label.0)
        .map(|b| b.goes)
}

/// The type with which a node goes on that is no choice.
fn next_of(node: &TypeNode) -> Option<TypeId>
    ensures { result ≡ next_of node.now }
{
    match node {
        TypeNode::Tensor(_, next) => Some(*next),
        TypeNode::Lolli(_, next) => Some(*next),
        TypeNode::ValueOut(_, next) => Some(*next),
        TypeNode::ValueIn(_, next) => Some(*next),
        TypeNode::PotOut(_, next) => Some(*next),
        TypeNode::PotIn(_, next) => Some(*next),
        TypeNode::Up(next) => Some(*next),
        TypeNode::Down(next) => Some(*next),
        _ => None,
    }
}

/// The type of the channel that a node sends or receives.
fn carried_of(node: &TypeNode) -> Option<TypeId>
    ensures { result ≡ carried_of node.now }
{
    match node {
        TypeNode::Tensor(carried, _) => Some(*carried),
        TypeNode::Lolli(carried, _) => Some(*carried),
        _ => None,
    }
}

/// The part of a node to which a hop leads.
pub fn part_by(node: &TypeNode, hop: Hop) -> Option<TypeId>
    ensures { result ≡ part_by node.now hop }
{
    match hop {
        Hop::Label(label) => goes_by(choices_of(node), label),
        Hop::Next => next_of(node),
        Hop::Carried => carried_of(node),
    }
}
