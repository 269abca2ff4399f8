//! Whether values have kinds.
ghost use Rattle.std.specs.Prelude.{◌≡◌, ◌↔◌, IsTrue};
ghost use Rattle.nomos_ir.specs.Value.{value_list};
ghost use Rattle.nomos_ir.specs.ValueKind.{ValueHasKind, AllHaveKind};
ghost use Rattle.nomos_ir.specs.ValueNode.{value_of};

use nomos_ir::kind::Kind;
use nomos_ir::value::Values;
use nomos_ir::value_node::ValueNode;

/// Whether the value of a node has a kind. It uses the machine's stack in step with how deep lists are nested in it.
#[cycle(kinds)]
pub fn has_kind(node: &ValueNode, kind: Kind) -> bool
    ensures { IsTrue result ↔ ValueHasKind (value_of node.now) kind }
{
    match node {
        ValueNode::Int(_) => kind == Kind::INT,
        ValueNode::Bool(_) => kind == Kind::BOOL,
        ValueNode::List(items) => match kind.element() {
            Some(element) => all_have_kind(items, element),
            None => false,
        },
    }
}

/// Whether all values have a kind. It uses the machine's stack in step with how deep lists are nested in them.
#[cycle(kinds)]
pub fn all_have_kind(items: &Values, kind: Kind) -> bool
    ensures { IsTrue result ↔ AllHaveKind (value_list items.now) kind }
{
    let mut left = items;
    while let Some((first, rest)) = left.parts() {
        if !has_kind(first, kind) {
            return false;
        }
        left = rest;
    }
    true
}
