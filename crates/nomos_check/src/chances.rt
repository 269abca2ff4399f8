//! What a process may do next on a channel, by the node to which the channel's type unfolds.
ghost use Rattle.std.specs.Prelude.{◌≡◌, ◌↔◌, IsTrue, option_copied};
ghost use Rattle.nomos_ir.specs.declared.type_node.TypeNode.{TypeNode};
ghost use Rattle.nomos_types.specs.Premises.{HasType, by_side};
ghost use Rattle.nomos_types.specs.Typed.{IsWellFormed};
ghost use Rattle.nomos_check.specs.mirror.FoundWrong.{IsFound};
ghost use Rattle.nomos_check.specs.mirror.StandingData.{shape_of, IsWithin};

use crate::in_hand::channel_node;
use crate::sides::{
    awaited_choice, behind_down, behind_up, got_amount, is_one, paid_amount, received_channel,
    received_value, sent_channel, sent_choice, sent_value,
};
use crate::standing::Standing;
use nomos_ir::amount::Amount;
use nomos_ir::code_node::Chan;
use nomos_ir::ids::TypeId;
use nomos_ir::kind::Kind;
use nomos_ir::program::Program;
use nomos_ir::type_node::Branches;

/// The branches of the choice that the process makes on the channel.
pub(crate) fn sends_choice<'p>(
    program: &'p Program,
    now: &Standing,
    c: Chan,
) -> Option<&'p Branches>
    requires formed { IsWellFormed program.now }
    requires within { IsWithin program.now now.now }
    ensures { IsFound (λ branches. HasType program.now (shape_of now.now) c (by_side c (TypeNode.Plus branches)
        (TypeNode.With branches))) (option_copied result) }
{
    let node = channel_node(program, now, c)?;
    sent_choice(c, node)
}

/// The branches of the choice that is made at the other end of the channel.
pub(crate) fn awaits_choice<'p>(
    program: &'p Program,
    now: &Standing,
    c: Chan,
) -> Option<&'p Branches>
    requires formed { IsWellFormed program.now }
    requires within { IsWithin program.now now.now }
    ensures { IsFound (λ branches. HasType program.now (shape_of now.now) c (by_side c (TypeNode.With branches)
        (TypeNode.Plus branches))) (option_copied result) }
{
    let node = channel_node(program, now, c)?;
    awaited_choice(c, node)
}

/// The type of the channel that the process sends over this one, and the type with which this one goes on.
pub(crate) fn sends_channel(program: &Program, now: &Standing, c: Chan) -> Option<(TypeId, TypeId)>
    requires formed { IsWellFormed program.now }
    requires within { IsWithin program.now now.now }
    ensures { IsFound (λ p. HasType program.now (shape_of now.now) c (by_side c (TypeNode.Tensor p.0 p.1)
        (TypeNode.Lolli p.0 p.1))) result }
{
    let node = channel_node(program, now, c)?;
    sent_channel(c, node)
}

/// The type of the channel that the process receives over this one, and the type with which this one goes on.
pub(crate) fn receives_channel(
    program: &Program,
    now: &Standing,
    c: Chan,
) -> Option<(TypeId, TypeId)>
    requires formed { IsWellFormed program.now }
    requires within { IsWithin program.now now.now }
    ensures { IsFound (λ p. HasType program.now (shape_of now.now) c (by_side c (TypeNode.Lolli p.0 p.1)
        (TypeNode.Tensor p.0 p.1))) result }
{
    let node = channel_node(program, now, c)?;
    received_channel(c, node)
}

/// The kind of the value that the process sends over the channel, and the type with which this goes on.
pub(crate) fn sends_value(program: &Program, now: &Standing, c: Chan) -> Option<(Kind, TypeId)>
    requires formed { IsWellFormed program.now }
    requires within { IsWithin program.now now.now }
    ensures { IsFound (λ p. HasType program.now (shape_of now.now) c (by_side c (TypeNode.ValueOut p.0 p.1)
        (TypeNode.ValueIn p.0 p.1))) result }
{
    let node = channel_node(program, now, c)?;
    sent_value(c, node)
}

/// The kind of the value that the process receives over the channel, and the type with which this goes on.
pub(crate) fn receives_value(program: &Program, now: &Standing, c: Chan) -> Option<(Kind, TypeId)>
    requires formed { IsWellFormed program.now }
    requires within { IsWithin program.now now.now }
    ensures { IsFound (λ p. HasType program.now (shape_of now.now) c (by_side c (TypeNode.ValueIn p.0 p.1)
        (TypeNode.ValueOut p.0 p.1))) result }
{
    let node = channel_node(program, now, c)?;
    received_value(c, node)
}

/// The amount that the process pays over the channel, and the type with which this goes on.
pub(crate) fn pays_amount(program: &Program, now: &Standing, c: Chan) -> Option<(Amount, TypeId)>
    requires formed { IsWellFormed program.now }
    requires within { IsWithin program.now now.now }
    ensures { IsFound (λ p. HasType program.now (shape_of now.now) c (by_side c (TypeNode.PotOut p.0 p.1)
        (TypeNode.PotIn p.0 p.1))) result }
{
    let node = channel_node(program, now, c)?;
    paid_amount(c, node)
}

/// The amount that the process gets over the channel, and the type with which this goes on.
pub(crate) fn gets_amount(program: &Program, now: &Standing, c: Chan) -> Option<(Amount, TypeId)>
    requires formed { IsWellFormed program.now }
    requires within { IsWithin program.now now.now }
    ensures { IsFound (λ p. HasType program.now (shape_of now.now) c (by_side c (TypeNode.PotIn p.0 p.1)
        (TypeNode.PotOut p.0 p.1))) result }
{
    let node = channel_node(program, now, c)?;
    got_amount(c, node)
}

/// Whether the channel ends.
pub(crate) fn ends(program: &Program, now: &Standing, c: Chan) -> bool
    requires formed { IsWellFormed program.now }
    requires within { IsWithin program.now now.now }
    ensures { IsTrue result ↔ HasType program.now (shape_of now.now) c TypeNode.One }
{
    match channel_node(program, now, c) {
        Some(node) => is_one(node),
        None => false,
    }
}

/// The type of the channel once it is held, where it is that of a shared contract.
pub(crate) fn accepts(program: &Program, now: &Standing, c: Chan) -> Option<TypeId>
    requires formed { IsWellFormed program.now }
    requires within { IsWithin program.now now.now }
    ensures { IsFound (λ t. HasType program.now (shape_of now.now) c (TypeNode.Up t)) result }
{
    let node = channel_node(program, now, c)?;
    behind_up(node)
}

/// The type of the channel once it is shared again, where it is that of a held contract.
pub(crate) fn detaches(program: &Program, now: &Standing, c: Chan) -> Option<TypeId>
    requires formed { IsWellFormed program.now }
    requires within { IsWithin program.now now.now }
    ensures { IsFound (λ t. HasType program.now (shape_of now.now) c (TypeNode.Down t)) result }
{
    let node = channel_node(program, now, c)?;
    behind_down(node)
}
