//! The rule of `case`.
ghost use Rattle.std.specs.Prelude.{◌≡◌, ◌↔◌, ℕ, All, IsTrue, IfOk, MatchOption, nat_eq};
ghost use Rattle.std.specs.HashSet.{contains};
ghost use Rattle.nomos_ir.specs.declared.code_node.CodeNode.{CodeNode};
ghost use Rattle.nomos_ir.specs.declared.ids.Label.{Label};
ghost use Rattle.nomos_types.specs.TypingRule.{StandsAtCode};
ghost use Rattle.nomos_types.specs.Typed.{IsWellFormed};
ghost use Rattle.nomos_check.specs.mirror.Cases.{AreWays, HasArm, HasOddArm};
ghost use Rattle.nomos_check.specs.mirror.StandingData.{shape_of, IsWithin, StepTells};

use crate::chances::awaits_choice;
use crate::standing::{Standing, Step, WayOn};
use nomos_equality::node_parts::goes_by;
use nomos_ir::code_node::{Arm, Chan};
use nomos_ir::program::Program;
use nomos_ir::type_node::Branch;
use std::alloc::{AllocError, Global};
use std::collections::HashSet;

/// The labels of arms.
fn labels_of(alloc: Global, arms: &[Arm]) -> Result<HashSet<u32>, AllocError>
    ensures { IfOk result (λ labels. (l : Label) → IsTrue (contains nat_eq labels l.0) ↔ HasArm arms.now l) }
{
    arms.iter().map(|a| a.label.0).collect(alloc)
}

/// Whether the label of each branch is that of an arm.
fn all_have_arms(alloc: Global, branches: &[Branch], arms: &[Arm]) -> Result<bool, AllocError>
    ensures { IfOk result (λ yes. IsTrue yes ↔ All (λ b. HasArm arms.now b.label) branches.now) }
{
    let labels = labels_of(alloc, arms)?;
    for b in branches {
        if !labels.contains(&b.label.0) {
            return Ok(false);
        }
    }
    Ok(true)
}

/// Where each arm leads, in order; none where the label of an arm is that of no branch.
fn ways_of(
    alloc: Global,
    c: Chan,
    branches: &[Branch],
    arms: &[Arm],
) -> Result<Option<Vec<WayOn>>, AllocError>
    ensures { IfOk result (λ found. MatchOption found (HasOddArm branches.now arms.now)
        (λ ways. AreWays c branches.now arms.now ways.items)) }
{
    let mut ways = Vec::new(alloc);
    for a in arms {
        let goes = match goes_by(branches, a.label) {
            Some(goes) => goes,
            None => return Ok(None),
        };
        ways.push(WayOn::Label(c, goes, a.goes))?;
    }
    Ok(Some(ways))
}

/// The rule of `case`.
pub(crate) fn at_case(
    program: &Program,
    alloc: Global,
    now: &Standing,
    c: Chan,
    arms: &[Arm],
) -> Result<Step, AllocError>
    requires formed { IsWellFormed program.now }
    requires within { IsWithin program.now now.now }
    requires stands { (at : ℕ) × StandsAtCode program.now (shape_of now.now) (CodeNode.Case at c arms.now) }
    ensures { IfOk result (StepTells program.now now.now now.now) }
{
    let branches = match awaits_choice(program, now, c) {
        Some(branches) => branches.as_slice(),
        None => return Ok(Step::Stuck),
    };
    if !all_have_arms(alloc, branches, arms)? {
        return Ok(Step::Stuck);
    }
    match ways_of(alloc, c, branches, arms)? {
        Some(ways) => Ok(Step::Branches(ways)),
        None => Ok(Step::Stuck),
    }
}
