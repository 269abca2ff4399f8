//! What the type of a channel awaits from its client.
ghost use Rattle.std.specs.Prelude.{◌≡◌, ℕ, All, MatchOption, Some, None};
ghost use Rattle.nomos_ir.specs.TypeParts.{type_amounts};
ghost use Rattle.nomos_ir.specs.declared.ids.TypeId.{TypeId as Goes};
ghost use Rattle.nomos_types.specs.Acceptance.{IsAmountOf};
ghost use Rattle.nomos_machine.specs.Saying.{Awaits, AwaitsOn};

use crate::sight::Sight;
use crate::unfolded_types::{goes_by, unfolded};
use crate::value_kinds::has_kind;
use nomos_ir::ids::TypeId;
use nomos_ir::type_node::TypeNode;
use nomos_machine::object::Said;
use nomos_types::accepted::Accepted;

/// How a talk goes on after what is said: at which type, and with how many Dths that are paid.
#[derive(Clone, Copy, Debug)]
pub struct Way {
    pub goes: TypeId,
    pub gas: u64,
}

// How the talk goes on without gas, if it does.
fn free(goes: Option<TypeId>) -> Option<Way>
    ensures { MatchOption result (goes ≡ None) (λ w. (goes ≡ Some w.goes) × (w.gas ≡ 0)) }
{
    Some(Way {
        goes: goes?,
        gas: 0,
    })
}

// How a talk goes on at a node after what is said, if the node awaits that.
fn way_at(accepted: &Accepted, node: &TypeNode, said: &Said) -> Option<Way>
    requires { All (IsAmountOf accepted.now.program) (type_amounts node.now) }
    ensures { MatchOption result ((gas : ℕ) (goes : Goes) → Awaits accepted.now node.now said.now gas goes → ⊥)
        (λ w. Awaits accepted.now node.now said.now w.gas w.goes) }
{
    match (node, said) {
        (TypeNode::With(branches), Said::Label(label)) => {
            free(goes_by(branches.as_slice(), *label))
        }
        (TypeNode::ValueIn(kind, goes), Said::Value(value)) => {
            if has_kind(value.node(), *kind) {
                free(Some(*goes))
            } else {
                None
            }
        }
        (TypeNode::PotIn(amount, goes), Said::Pay) => Some(Way {
            goes: *goes,
            gas: accepted.amount(*amount),
        }),
        _ => None,
    }
}

/// How a talk on a name goes on after what is said, if the name's type awaits that. It takes no memory.
pub fn way_on<S: Sight>(sight: &S, accepted: &Accepted, name: u32, said: &Said) -> Option<Way>
    ensures { MatchOption result
        ((gas : ℕ) (goes : Goes) → AwaitsOn accepted.now (S.state sight.now).types name said.now gas goes → ⊥)
        (λ w. AwaitsOn accepted.now (S.state sight.now).types name said.now w.gas w.goes) }
{
    let program = accepted.program();
    let Some(t) = sight.type_of(name) else {
        return None;
    };
    match unfolded(program, t) {
        Some(node) => way_at(accepted, node, said),
        None => None,
    }
}
