//! The rule of a channel that is received.
ghost use Rattle.std.specs.Prelude.{◌≡◌, ℕ, IfOk};
ghost use Rattle.nomos_ir.specs.declared.code_node.CodeNode.{CodeNode};
ghost use Rattle.nomos_types.specs.ModeTable.{AreModesOf};
ghost use Rattle.nomos_types.specs.Premises.{ReceivesChannel};
ghost use Rattle.nomos_types.specs.TypingRule.{StandsAtCode};
ghost use Rattle.nomos_types.specs.Typed.{IsWellFormed};
ghost use Rattle.nomos_check.specs.mirror.FoundWrong.{IsFound};
ghost use Rattle.nomos_check.specs.mirror.StandingData.{shape_of, IsWithin, StepTells};

use crate::chances::receives_channel;
use crate::in_hand::go_on;
use crate::mode_rules::mode_of;
use crate::operands::Over;
use crate::standing::{Standing, Step};
use crate::variables::{bind_channel, is_free};
use nomos_ir::code_node::Chan;
use nomos_ir::ids::{TypeId, VarId};
use nomos_ir::mode::Mode;
use nomos_ir::program::Program;
use std::alloc::AllocError;

/// A channel that comes over another one: its mode and type, and the type with which the other one goes on.
#[derive(Clone, Copy, PartialEq, Eq, Debug)]
struct Received {
    mode: Mode,
    carried: TypeId,
    goes: TypeId,
}

/// The channel that the process receives under the name.
fn channel_comes(
    program: &Program,
    modes: &[Mode],
    now: &Standing,
    c: Chan,
    y: VarId,
) -> Option<Received>
    requires formed { IsWellFormed program.now }
    requires within { IsWithin program.now now.now }
    requires modes { AreModesOf program.now modes.now }
    ensures { IsFound (λ r. ReceivesChannel program.now (shape_of now.now) c y r.mode r.carried r.goes) result }
{
    if !is_free(now, y) {
        return None;
    }
    let (carried, goes) = receives_channel(program, now, c)?;
    Some(Received {
        mode: mode_of(program, modes, carried),
        carried,
        goes,
    })
}

/// The rule of a channel that is received.
pub(crate) fn at_recv(
    program: &Program,
    modes: &[Mode],
    now: &mut Standing,
    over: Over<VarId>,
) -> Result<Step, AllocError>
    requires formed { IsWellFormed program.now }
    requires within { IsWithin program.now now.old }
    requires modes { AreModesOf program.now modes.now }
    requires stands { (at : ℕ) × StandsAtCode program.now (shape_of now.old)
        (CodeNode.Recv at over.channel over.what over.next) }
    ensures { IfOk result (StepTells program.now now.old now.new) }
{
    match channel_comes(program, modes, now, over.channel, over.what) {
        Some(received) => {
            go_on(now, over.channel, received.goes, over.next)?;
            bind_channel(now, over.what, received.mode, received.carried)?;
            Ok(Step::Next)
        }
        None => Ok(Step::Stuck),
    }
}
