//! The rules of `spawn` and `call`.
ghost use Rattle.std.specs.Prelude.{◌≡◌, ℕ, IfOk};
ghost use Rattle.nomos_ir.specs.declared.code_node.CodeNode.{CodeNode};
ghost use Rattle.nomos_types.specs.TypingRule.{StandsAtCode};
ghost use Rattle.nomos_types.specs.Typed.{IsWellFormed};
ghost use Rattle.nomos_check.specs.mirror.StandingData.{shape_of, IsReady, KeepsCompared, IsWithin, StepAsks, StepTells};

use crate::argument_rules::pass_arguments;
use crate::asked::Asked;
use crate::comparing::are_alike;
use crate::mode_rules::is_mode;
use crate::operands::Spawning;
use crate::standing::{Standing, Step};
use crate::variables::{bind_channel, go_to, is_free};
use nomos_ir::code_node::Args;
use nomos_ir::ids::ProcId;
use nomos_ir::program::Program;
use nomos_types::modes::may_spawn;
use std::alloc::AllocError;

/// The rule of `spawn`.
pub(crate) fn at_spawn(
    program: &Program,
    asked: &mut Asked<'_>,
    now: &mut Standing,
    spawning: Spawning<'_>,
) -> Result<Step, AllocError>
    requires formed { IsWellFormed program.now }
    requires within { IsWithin program.now now.old }
    requires ready { IsReady program.now asked.old }
    requires stands { (at : ℕ) × StandsAtCode program.now (shape_of now.old)
        (CodeNode.Spawn at spawning.name spawning.callee spawning.args.now spawning.next) }
    ensures ready { IsReady program.now asked.new }
    ensures kept { KeepsCompared asked.old asked.new }
    ensures tells { IfOk result (StepTells program.now now.old now.new) }
    ensures asks { IfOk result (StepAsks program.now now.old asked.old asked.new) }
{
    let child = program.proc(spawning.callee);
    if !may_spawn(now.mode, child.mode) {
        return Ok(Step::Stuck);
    }
    if !is_free(now, spawning.name) {
        return Ok(Step::Stuck);
    }
    if !pass_arguments(program, asked, now, child, spawning.args)? {
        return Ok(Step::Stuck);
    }
    now.potential.spend(child.amount);
    go_to(now, spawning.next);
    bind_channel(now, spawning.name, child.mode, child.offers)?;
    Ok(Step::Next)
}

/// The rule of `call`.
pub(crate) fn at_call(
    program: &Program,
    asked: &mut Asked<'_>,
    now: &mut Standing,
    f: ProcId,
    args: &Args,
) -> Result<Step, AllocError>
    requires formed { IsWellFormed program.now }
    requires within { IsWithin program.now now.old }
    requires ready { IsReady program.now asked.old }
    requires stands { (at : ℕ) × StandsAtCode program.now (shape_of now.old) (CodeNode.Call at f args.now) }
    ensures ready { IsReady program.now asked.new }
    ensures kept { KeepsCompared asked.old asked.new }
    ensures tells { IfOk result (StepTells program.now now.old now.new) }
    ensures asks { IfOk result (StepAsks program.now now.old asked.old asked.new) }
{
    let called = program.proc(f);
    if !is_mode(called.mode, now.mode) {
        return Ok(Step::Stuck);
    }
    if !are_alike(program, asked, now.offers, called.offers)? {
        return Ok(Step::Stuck);
    }
    if !pass_arguments(program, asked, now, called, args)? {
        return Ok(Step::Stuck);
    }
    if now.linear.is_empty() {
        Ok(Step::Done)
    } else {
        Ok(Step::Stuck)
    }
}
