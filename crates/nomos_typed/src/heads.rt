//! What the node of a type asks of a message in a direction.
ghost use Rattle.std.specs.Prelude.{◌≡◌, ◌↔◌, IsTrue};
ghost use Rattle.nomos_typed.specs.mirror.MessageHeads.{LabelFits, sent_by, kind_by, due_by, IsEnd, goes_of};

use nomos_equality::hop::Hop;
use nomos_equality::node_parts::{goes_by, part_by};
use nomos_ir::amount::Amount;
use nomos_ir::ids::{Label, TypeId};
use nomos_ir::kind::Kind;
use nomos_ir::type_node::TypeNode;
use nomos_machine::object::Payload;

/// Whether the label may be chosen.
pub(crate) fn label_fits(head: &TypeNode, to_client: bool, label: Label) -> bool
    ensures { IsTrue result ↔ LabelFits to_client head.now label }
{
    match head {
        TypeNode::Plus(branches) => to_client && goes_by(branches.as_slice(), label).is_some(),
        TypeNode::With(branches) => !to_client && goes_by(branches.as_slice(), label).is_some(),
        _ => false,
    }
}

/// The type of the channel that is sent.
pub(crate) fn sent_by(head: &TypeNode, to_client: bool) -> Option<TypeId>
    ensures { result ≡ sent_by to_client head.now }
{
    match head {
        TypeNode::Tensor(sent, _) => if to_client { Some(*sent) } else { None },
        TypeNode::Lolli(sent, _) => if to_client { None } else { Some(*sent) },
        _ => None,
    }
}

/// The kind of the value that is sent.
pub(crate) fn kind_by(head: &TypeNode, to_client: bool) -> Option<Kind>
    ensures { result ≡ kind_by to_client head.now }
{
    match head {
        TypeNode::ValueOut(kind, _) => if to_client { Some(*kind) } else { None },
        TypeNode::ValueIn(kind, _) => if to_client { None } else { Some(*kind) },
        _ => None,
    }
}

/// The amount that is paid.
pub(crate) fn due_by(head: &TypeNode, to_client: bool) -> Option<Amount>
    ensures { result ≡ due_by to_client head.now }
{
    match head {
        TypeNode::PotOut(amount, _) => if to_client { Some(*amount) } else { None },
        TypeNode::PotIn(amount, _) => if to_client { None } else { Some(*amount) },
        _ => None,
    }
}

/// Whether the talk ends.
pub(crate) fn is_end(head: &TypeNode, to_client: bool) -> bool
    ensures { IsTrue result ↔ IsEnd to_client head.now }
{
    match head {
        TypeNode::One => to_client,
        _ => false,
    }
}

/// The type with which the talk goes on.
pub(crate) fn goes_of(head: &TypeNode, payload: &Payload) -> Option<TypeId>
    ensures { result ≡ goes_of head.now payload.now }
{
    match payload {
        Payload::Label(label) => part_by(head, Hop::Label(*label)),
        _ => part_by(head, Hop::Next),
    }
}
