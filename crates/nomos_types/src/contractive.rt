//! Whether a type begins with a constructor.
ghost use Rattle.std.specs.Prelude.{◌↔◌, IsTrue};
ghost use Rattle.nomos_ir.specs.Unfold.{IsConstructor};

use nomos_ir::type_node::TypeNode;

/// Whether the node is no type name.
pub fn is_constructor(node: &TypeNode) -> bool
    ensures { IsTrue result ↔ IsConstructor node.now }
{
    match node {
        TypeNode::Named(_) => false,
        _ => true,
    }
}
