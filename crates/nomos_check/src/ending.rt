//! The rules of `wait` and `close`.
ghost use Rattle.std.specs.Prelude.{◌≡◌, ℕ};
ghost use Rattle.nomos_ir.specs.declared.code_node.CodeNode.{CodeNode};
ghost use Rattle.nomos_types.specs.TypingRule.{StandsAtCode};
ghost use Rattle.nomos_types.specs.Typed.{IsWellFormed};
ghost use Rattle.nomos_check.specs.mirror.StandingData.{shape_of, IsWithin, StepTells};

use crate::chances::ends;
use crate::in_hand::give_up;
use crate::mode_rules::may_close;
use crate::standing::{Standing, Step};
use nomos_ir::code_node::Chan;
use nomos_ir::ids::{CodeId, VarId};
use nomos_ir::program::Program;

/// The rule of `wait`.
pub(crate) fn at_wait(program: &Program, now: &mut Standing, v: VarId, next: CodeId) -> Step
    requires formed { IsWellFormed program.now }
    requires within { IsWithin program.now now.old }
    requires stands { (at : ℕ) × StandsAtCode program.now (shape_of now.old) (CodeNode.Wait at v next) }
    ensures { StepTells program.now now.old now.new result }
{
    if !ends(program, now, Chan::Var(v)) {
        return Step::Stuck;
    }
    give_up(now, v, next);
    Step::Next
}

/// The rule of `close`.
pub(crate) fn at_close(program: &Program, now: &Standing) -> Step
    requires formed { IsWellFormed program.now }
    requires within { IsWithin program.now now.now }
    requires stands { (at : ℕ) × StandsAtCode program.now (shape_of now.now) (CodeNode.Close at) }
    ensures { StepTells program.now now.now now.now result }
{
    if !may_close(now.mode) {
        return Step::Stuck;
    }
    if !now.linear.is_empty() {
        return Step::Stuck;
    }
    if !ends(program, now, Chan::Own) {
        return Step::Stuck;
    }
    Step::Done
}
