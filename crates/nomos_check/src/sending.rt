//! The rules of a channel that is sent, and of a process that hands its place on.
ghost use Rattle.std.specs.Prelude.{◌≡◌, ◌↔◌, ◌∷◌, [], ℕ, IsTrue, IfOk};
ghost use Rattle.nomos_ir.specs.declared.code_node.Chan.{Chan};
ghost use Rattle.nomos_ir.specs.declared.code_node.CodeNode.{CodeNode};
ghost use Rattle.nomos_types.specs.TypingRule.{StandsAtCode};
ghost use Rattle.nomos_types.specs.Typed.{IsWellFormed};
ghost use Rattle.nomos_check.specs.mirror.FoundWrong.{IsFound};
ghost use Rattle.nomos_check.specs.mirror.StandingData.{shape_of, IsReady, KeepsCompared, IsWithin, StepAsks, StepTells};

use crate::asked::Asked;
use crate::chances::sends_channel;
use crate::comparing::are_alike;
use crate::in_hand::go_on;
use crate::mode_rules::is_mode;
use crate::operands::Over;
use crate::passing::pass_channel;
use crate::standing::{Standing, Step};
use crate::variables::is_same_variable;
use nomos_ir::code_node::Chan;
use nomos_ir::ids::{TypeId, VarId};
use nomos_ir::mode::Mode;
use nomos_ir::program::Program;
use std::alloc::AllocError;

/// Whether the channel is that of the variable.
fn is_channel_of(c: Chan, y: VarId) -> bool
    ensures { IsTrue result ↔ (c ≡ Chan.Var y) }
{
    match c {
        Chan::Own => false,
        Chan::Var(v) => is_same_variable(v, y),
    }
}

/// The rule of a channel that is sent.
pub(crate) fn at_send(
    program: &Program,
    asked: &mut Asked<'_>,
    now: &mut Standing,
    over: Over<VarId>,
) -> Result<Step, AllocError>
    requires formed { IsWellFormed program.now }
    requires within { IsWithin program.now now.old }
    requires ready { IsReady program.now asked.old }
    requires stands { (at : ℕ) × StandsAtCode program.now (shape_of now.old)
        (CodeNode.Send at over.channel over.what over.next) }
    ensures ready { IsReady program.now asked.new }
    ensures kept { KeepsCompared asked.old asked.new }
    ensures tells { IfOk result (StepTells program.now now.old now.new) }
    ensures asks { IfOk result (StepAsks program.now now.old asked.old asked.new) }
{
    if is_channel_of(over.channel, over.what) {
        return Ok(Step::Stuck);
    }
    let (carried, t) = match sends_channel(program, now, over.channel) {
        Some(found) => found,
        None => return Ok(Step::Stuck),
    };
    if !pass_channel(program, asked, now, over.what, carried)? {
        return Ok(Step::Stuck);
    }
    go_on(now, over.channel, t, over.next)?;
    Ok(Step::Next)
}

/// The type of the one channel that the process holds, where it is that of the variable.
fn only_channel(now: &Standing, v: VarId) -> Option<TypeId>
    ensures { IsFound (λ own. (shape_of now.now).linear ≡ (v, own) ∷ []) result }
{
    let channels = now.linear.pairs().as_slice();
    if channels.len() != 1 {
        return None;
    }
    let only = channels[0];
    if !is_same_variable(only.0, v) {
        return None;
    }
    Some(only.1)
}

/// The rule of `fwd`.
pub(crate) fn at_fwd(
    program: &Program,
    asked: &mut Asked<'_>,
    now: &Standing,
    v: VarId,
) -> Result<Step, AllocError>
    requires formed { IsWellFormed program.now }
    requires within { IsWithin program.now now.now }
    requires ready { IsReady program.now asked.old }
    requires stands { (at : ℕ) × StandsAtCode program.now (shape_of now.now) (CodeNode.Fwd at v) }
    ensures ready { IsReady program.now asked.new }
    ensures kept { KeepsCompared asked.old asked.new }
    ensures tells { IfOk result (StepTells program.now now.now now.now) }
    ensures asks { IfOk result (StepAsks program.now now.now asked.old asked.new) }
{
    if !is_mode(now.mode, Mode::R) {
        return Ok(Step::Stuck);
    }
    let own = match only_channel(now, v) {
        Some(own) => own,
        None => return Ok(Step::Stuck),
    };
    if are_alike(program, asked, now.offers, own)? {
        Ok(Step::Done)
    } else {
        Ok(Step::Stuck)
    }
}
