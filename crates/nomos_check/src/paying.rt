//! The rules of instructions on potential: `work`, `pay` and `get`.
ghost use Rattle.std.specs.Prelude.{◌≡◌, ℕ, IfOk};
ghost use Rattle.nomos_ir.specs.declared.code_node.CodeNode.{CodeNode};
ghost use Rattle.nomos_types.specs.TypingRule.{StandsAtCode};
ghost use Rattle.nomos_types.specs.Typed.{IsWellFormed};
ghost use Rattle.nomos_check.specs.mirror.StandingData.{shape_of, IsReady, KeepsCompared, IsWithin, StepAsks, StepTells};

use crate::asked::Asked;
use crate::chances::{gets_amount, pays_amount};
use crate::in_hand::go_on;
use crate::operands::Over;
use crate::standing::{Standing, Step};
use nomos_ir::amount::Amount;
use nomos_ir::ids::CodeId;
use nomos_ir::program::Program;
use std::alloc::AllocError;

/// The rule of `work`.
pub(crate) fn at_work(program: &Program, now: &mut Standing, amount: Amount, next: CodeId) -> Step
    requires within { IsWithin program.now now.old }
    requires stands { (at : ℕ) × StandsAtCode program.now (shape_of now.old) (CodeNode.Work at amount next) }
    ensures { StepTells program.now now.old now.new result }
{
    program.know();
    now.potential.spend(amount);
    now.code = next;
    Step::Next
}

/// The rule of `pay`.
pub(crate) fn at_pay(
    program: &Program,
    asked: &mut Asked<'_>,
    now: &mut Standing,
    over: Over<Amount>,
) -> Result<Step, AllocError>
    requires formed { IsWellFormed program.now }
    requires within { IsWithin program.now now.old }
    requires ready { IsReady program.now asked.old }
    requires stands { (at : ℕ) × StandsAtCode program.now (shape_of now.old)
        (CodeNode.Pay at over.channel over.what over.next) }
    ensures ready { IsReady program.now asked.new }
    ensures kept { KeepsCompared asked.old asked.new }
    ensures tells { IfOk result (StepTells program.now now.old now.new) }
    ensures asks { IfOk result (StepAsks program.now now.old asked.old asked.new) }
{
    match pays_amount(program, now, over.channel) {
        Some((said, t)) => {
            asked.note(over.what, said)?;
            now.potential.spend(over.what);
            go_on(now, over.channel, t, over.next)?;
            Ok(Step::Next)
        }
        None => Ok(Step::Stuck),
    }
}

/// The rule of `get`.
pub(crate) fn at_get(
    program: &Program,
    asked: &mut Asked<'_>,
    now: &mut Standing,
    over: Over<Amount>,
) -> Result<Step, AllocError>
    requires formed { IsWellFormed program.now }
    requires within { IsWithin program.now now.old }
    requires ready { IsReady program.now asked.old }
    requires stands { (at : ℕ) × StandsAtCode program.now (shape_of now.old)
        (CodeNode.Get at over.channel over.what over.next) }
    ensures ready { IsReady program.now asked.new }
    ensures kept { KeepsCompared asked.old asked.new }
    ensures tells { IfOk result (StepTells program.now now.old now.new) }
    ensures asks { IfOk result (StepAsks program.now now.old asked.old asked.new) }
{
    match gets_amount(program, now, over.channel) {
        Some((said, t)) => {
            asked.note(over.what, said)?;
            now.potential.gain(over.what);
            go_on(now, over.channel, t, over.next)?;
            Ok(Step::Next)
        }
        None => Ok(Step::Stuck),
    }
}
