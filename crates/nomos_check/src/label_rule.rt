//! The rule of a label.
ghost use Rattle.std.specs.Prelude.{◌≡◌, ℕ, IfOk};
ghost use Rattle.nomos_ir.specs.declared.code_node.CodeNode.{CodeNode};
ghost use Rattle.nomos_types.specs.Premises.{SendsLabel};
ghost use Rattle.nomos_types.specs.TypingRule.{StandsAtCode};
ghost use Rattle.nomos_types.specs.Typed.{IsWellFormed};
ghost use Rattle.nomos_check.specs.mirror.FoundWrong.{IsFound};
ghost use Rattle.nomos_check.specs.mirror.StandingData.{shape_of, IsWithin, StepTells};

use crate::chances::sends_choice;
use crate::in_hand::go_on;
use crate::standing::{Standing, Step};
use nomos_equality::node_parts::goes_by;
use nomos_ir::code_node::Chan;
use nomos_ir::ids::{CodeId, Label, TypeId};
use nomos_ir::program::Program;
use std::alloc::AllocError;

/// The type with which the channel goes on when the process sends the label.
fn label_goes(program: &Program, now: &Standing, c: Chan, label: Label) -> Option<TypeId>
    requires formed { IsWellFormed program.now }
    requires within { IsWithin program.now now.now }
    ensures { IsFound (SendsLabel program.now (shape_of now.now) c label) result }
{
    let branches = sends_choice(program, now, c)?;
    goes_by(branches.as_slice(), label)
}

/// The rule of a label.
pub(crate) fn at_label(
    program: &Program,
    now: &mut Standing,
    c: Chan,
    label: Label,
    next: CodeId,
) -> Result<Step, AllocError>
    requires formed { IsWellFormed program.now }
    requires within { IsWithin program.now now.old }
    requires stands { (at : ℕ) × StandsAtCode program.now (shape_of now.old) (CodeNode.Label at c label next) }
    ensures { IfOk result (StepTells program.now now.old now.new) }
{
    match label_goes(program, now, c, label) {
        Some(t) => {
            go_on(now, c, t, next)?;
            Ok(Step::Next)
        }
        None => Ok(Step::Stuck),
    }
}
