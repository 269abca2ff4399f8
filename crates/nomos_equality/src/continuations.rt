//! The types with which a talk goes on, within one critical section.
ghost use Rattle.std.specs.Prelude.{◌≡◌};
ghost use Rattle.nomos_equality.specs.Continuing.{next_within, continuation_by, behind_down};

use crate::hop::Hop;
use crate::node_parts::part_by;
use nomos_ir::ids::TypeId;
use nomos_ir::type_node::TypeNode;

/// The type with which a node goes on that is no choice, none behind `up` and `down`.
fn next_within(node: &TypeNode) -> Option<TypeId>
    ensures { result ≡ next_within node.now }
{
    match node {
        TypeNode::Up(_) => None,
        TypeNode::Down(_) => None,
        _ => part_by(node, Hop::Next),
    }
}

/// The type with which a node goes on by a hop: what is carried is none, and behind `up` and `down` there
/// is none.
pub(crate) fn continuation_by(node: &TypeNode, hop: Hop) -> Option<TypeId>
    ensures { result ≡ continuation_by node.now hop }
{
    match hop {
        Hop::Label(_) => part_by(node, hop),
        Hop::Next => next_within(node),
        Hop::Carried => None,
    }
}

/// The type with which a shared talk goes on after a `down`.
pub(crate) fn behind_down(node: &TypeNode) -> Option<TypeId>
    ensures { result ≡ behind_down node.now }
{
    match node {
        TypeNode::Down(next) => Some(*next),
        _ => None,
    }
}
