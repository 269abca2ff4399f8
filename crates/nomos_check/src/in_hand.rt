//! The channels that a process has in hand, and the types to which they unfold.
ghost use Rattle.std.specs.Prelude.{◌≡◌, ◌<◌, OnOk, length, option_copied};
ghost use Rattle.nomos_ir.specs.declared.code_node.Chan.{Chan};
ghost use Rattle.nomos_types.specs.Judgement.{at_code, channel_type, goes_on};
ghost use Rattle.nomos_types.specs.Premises.{HasType};
ghost use Rattle.nomos_types.specs.TypingRule.{gives_up};
ghost use Rattle.nomos_types.specs.Typed.{IsWellFormed};
ghost use Rattle.nomos_check.specs.mirror.FoundWrong.{IsFound};
ghost use Rattle.nomos_check.specs.mirror.StepMoves.{KeepsAmounts};
ghost use Rattle.nomos_check.specs.mirror.StandingData.{shape_of, IsWithin};

use crate::standing::Standing;
use nomos_ir::code_node::Chan;
use nomos_ir::ids::{CodeId, TypeId, VarId};
use nomos_ir::program::Program;
use nomos_ir::type_node::TypeNode;
use nomos_types::unfolding::unfold;
use std::alloc::AllocError;

/// The type of the process's own channel, or of one that it holds.
pub(crate) fn channel_type(now: &Standing, c: Chan) -> Option<TypeId>
    ensures { result ≡ channel_type (shape_of now.now) c }
{
    match c {
        Chan::Own => Some(now.offers),
        Chan::Var(v) => now.linear.get(v),
    }
}

/// The node to which the channel's type unfolds.
pub(crate) fn channel_node<'p>(
    program: &'p Program,
    now: &Standing,
    c: Chan,
) -> Option<&'p TypeNode>
    requires formed { IsWellFormed program.now }
    requires within { IsWithin program.now now.now }
    ensures { IsFound (HasType program.now (shape_of now.now) c) (option_copied result) }
{
    match channel_type(now, c) {
        Some(t) => Some(program.node(unfold(program, t))),
        None => None,
    }
}

/// The channel goes on at the type, and the process at the instruction.
pub(crate) fn go_on(now: &mut Standing, c: Chan, t: TypeId, next: CodeId) -> Result<(), AllocError>
    ensures shape { OnOk result (shape_of now.new ≡ goes_on (shape_of now.old) c t next) }
    ensures amounts { KeepsAmounts now.old now.new }
{
    now.code = next;
    match c {
        Chan::Own => {
            now.offers = t;
            Ok(())
        }
        Chan::Var(v) => now.linear.bind(v, t),
    }
}

/// The process uses the channel up, and goes on at the instruction.
pub(crate) fn give_up(now: &mut Standing, v: VarId, next: CodeId)
    ensures shape { shape_of now.new ≡ at_code (gives_up (shape_of now.old) v) next }
    ensures amounts { KeepsAmounts now.old now.new }
{
    now.linear.unbind(v);
    now.code = next;
}
