//! Types behind their names, and with which type a channel goes on.
ghost use Rattle.std.specs.Prelude.{◌≡◌, ◌==◌, ◌↔◌, IsTrue, option_copied, slice_get};
ghost use Rattle.std.specs.List.{list_any};
ghost use Rattle.nomos_ir.specs.Unfold.{unfolded};
ghost use Rattle.nomos_types.specs.Branches.{goes_by};
ghost use Rattle.nomos_machine.specs.Sight.{after_label, after_channel, after_value, after_potential, after_acquire, shows_shared, accept_next, detach_next};
ghost use Rattle.nomos_deeds.specs.Readers.{IsLinearType, looks_linear, offers_at_t};

use nomos_ir::code_node::CodeNode;
use nomos_ir::ids::{CodeId, Label, TypeId};
use nomos_ir::mode::Mode;
use nomos_ir::program::Program;
use nomos_ir::type_node::{Branch, TypeNode};
use nomos_types::accepted::Accepted;

/// The node to which a type unfolds; none where the number is no type's.
pub(crate) fn unfolded(program: &Program, t: TypeId) -> Option<&TypeNode>
    ensures { option_copied result ≡ unfolded program.now t.0 }
{
    let lists = program.lists();
    let at = lists.types.as_slice().get(t.0 as usize)?;
    match &at.node {
        TypeNode::Named(id) => {
            let def = lists.defs.as_slice().get(id.0 as usize)?;
            let body = lists.types.as_slice().get(def.body.0 as usize)?;
            Some(&body.node)
        }
        node => Some(node),
    }
}

/// The type with which a choice goes on after a label.
pub(crate) fn goes_by(branches: &[Branch], label: Label) -> Option<TypeId>
    ensures { result ≡ goes_by branches.now label }
{
    branches
        .iter()
        .find(|b| b.label.0 == label.0)
        .map(|b| b.goes)
}

/// The type with which a channel goes on after a label.
pub(crate) fn after_label(node: &TypeNode, label: Label) -> Option<TypeId>
    ensures { result ≡ after_label label node.now }
{
    match node {
        TypeNode::Plus(branches) | TypeNode::With(branches) => goes_by(branches.as_slice(), label),
        _ => None,
    }
}

/// The type with which a channel goes on after a channel.
pub(crate) fn after_channel(node: &TypeNode) -> Option<TypeId>
    ensures { result ≡ after_channel node.now }
{
    match node {
        TypeNode::Tensor(_, goes) | TypeNode::Lolli(_, goes) => Some(*goes),
        _ => None,
    }
}

/// The type with which a channel goes on after a value.
pub(crate) fn after_value(node: &TypeNode) -> Option<TypeId>
    ensures { result ≡ after_value node.now }
{
    match node {
        TypeNode::ValueOut(_, goes) | TypeNode::ValueIn(_, goes) => Some(*goes),
        _ => None,
    }
}

/// The type with which a channel goes on after potential.
pub(crate) fn after_potential(node: &TypeNode) -> Option<TypeId>
    ensures { result ≡ after_potential node.now }
{
    match node {
        TypeNode::PotOut(_, goes) | TypeNode::PotIn(_, goes) => Some(*goes),
        _ => None,
    }
}

/// What an acquired contract offers.
pub(crate) fn after_acquire(node: &TypeNode) -> Option<TypeId>
    ensures { result ≡ after_acquire node.now }
{
    match node {
        TypeNode::Up(goes) => Some(*goes),
        _ => None,
    }
}

/// Whether the head of a type shows that it is a shared one.
pub fn shows_shared(program: &Program, t: TypeId) -> bool
    ensures { result ≡ shows_shared program.now (Some t) }
{
    let lists = program.lists();
    match lists.types.as_slice().get(t.0 as usize) {
        Some(at) => match &at.node {
            TypeNode::Up(_) => true,
            TypeNode::Named(id) => match lists.defs.as_slice().get(id.0 as usize) {
                Some(def) => def.mode == Mode::S,
                None => false,
            },
            _ => false,
        },
        None => false,
    }
}

// Whether a declaration of transactions offers a type.
fn is_of_transactions(program: &Program, t: TypeId) -> bool
    ensures { result ≡ list_any (offers_at_t t) program.now.procs }
{
    let declarations = program.lists().procs.as_slice();
    declarations
        .iter()
        .any(|d| d.mode == Mode::T && d.offers.0 == t.0)
}

// Whether a type is one of the program's whose head does not show S, and which no declaration of transactions offers.
fn looks_linear(program: &Program, t: TypeId) -> bool
    ensures { result ≡ looks_linear program.now t }
{
    (t.0 as usize) < program.lists().types.len()
        && !shows_shared(program, t)
        && !is_of_transactions(program, t)
}

/// Whether a type has mode R or L, so that its names are used exactly once.
pub fn is_linear(accepted: &Accepted, t: TypeId) -> bool
    ensures look { result ≡ looks_linear accepted.now.program t }
    ensures linear { IsTrue result ↔ IsLinearType accepted.now.program t }
{
    looks_linear(accepted.program(), t)
}

/// Where a process goes on that stands at `accept`.
pub(crate) fn accept_next(node: &CodeNode) -> Option<CodeId>
    ensures { result ≡ accept_next node.now }
{
    match node {
        CodeNode::Accept(_, next) => Some(*next),
        _ => None,
    }
}

/// Where a process goes on that stands at `detach`.
pub(crate) fn detach_next(node: &CodeNode) -> Option<CodeId>
    ensures { result ≡ detach_next node.now }
{
    match node {
        CodeNode::Detach(_, next) => Some(*next),
        _ => None,
    }
}
