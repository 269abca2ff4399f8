//! Whether two type nodes begin alike.
ghost use Rattle.std.specs.Prelude.{◌≡◌, ◌↔◌, IsTrue, IsSome, All};
ghost use Rattle.nomos_ir.specs.Unfold.{IsConstructor};
ghost use Rattle.nomos_types.specs.Branches.{goes_by};
ghost use Rattle.nomos_equality.specs.Differences.{SameForm};
ghost use Rattle.nomos_equality.specs.Paths.{choices_of};

use crate::constructor::{same_constructor, same_kind};
use crate::node_parts::{choices_of, goes_by};
use nomos_ir::type_node::{Branch, TypeNode};

/// Whether each label of the first branches is one of the others.
fn has_labels(branches: &[Branch], others: &[Branch]) -> bool
    ensures { IsTrue result ↔ All (λ b. IsSome (goes_by others.now b.label)) branches.now }
{
    branches.iter().all(|b| goes_by(others, b.label).is_some())
}

/// Whether each label of a node is one of another node.
fn covers(other: &TypeNode, node: &TypeNode) -> bool
    ensures { IsTrue result ↔ All (λ b. IsSome (goes_by (choices_of other.now) b.label)) (choices_of node.now) }
{
    has_labels(choices_of(node), choices_of(other))
}

/// Whether two nodes have the same constructor, labels and kind.
pub(crate) fn same_form(left: &TypeNode, right: &TypeNode) -> bool
    requires { IsConstructor left.now }
    ensures { IsTrue result ↔ SameForm left.now right.now }
{
    if !same_constructor(left, right) {
        return false;
    }
    if !same_kind(left, right) {
        return false;
    }
    if !covers(right, left) {
        return false;
    }
    covers(left, right)
}
