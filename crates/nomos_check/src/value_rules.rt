//! The rules of instructions on values: `put`, `take`, `let`, `emit` and `if`.
ghost use Rattle.std.specs.Prelude.{◌≡◌, ◌<◌, ℕ, IfOk, length};
ghost use Rattle.nomos_ir.specs.declared.code_node.CodeNode.{CodeNode};
ghost use Rattle.nomos_ir.specs.TermKind.{HasKind};
ghost use Rattle.nomos_types.specs.Judgement.{IsFree};
ghost use Rattle.nomos_types.specs.Premises.{ReceivesValue, SendsValue};
ghost use Rattle.nomos_types.specs.TypingRule.{StandsAtCode};
ghost use Rattle.nomos_types.specs.Typed.{IsWellFormed};
ghost use Rattle.nomos_check.specs.mirror.FoundWrong.{IsFound};
ghost use Rattle.nomos_check.specs.mirror.StandingData.{shape_of, IsWithin, StepTells};

use crate::chances::{receives_value, sends_value};
use crate::in_hand::go_on;
use crate::operands::{Choosing, Letting, Over};
use crate::standing::{Standing, Step, WayOn};
use crate::variables::{bind_value, go_to, is_free, is_of_kind, kind_of};
use nomos_ir::code_node::Chan;
use nomos_ir::ids::{CodeId, TermId, TypeId, VarId};
use nomos_ir::kind::{Base, Kind};
use nomos_ir::program::Program;
use std::alloc::{AllocError, Global};

/// The type with which the channel goes on when the process sends the value of the term.
fn value_goes(
    program: &Program,
    alloc: Global,
    now: &Standing,
    c: Chan,
    e: TermId,
) -> Result<Option<TypeId>, AllocError>
    requires formed { IsWellFormed program.now }
    requires within { IsWithin program.now now.now }
    requires term { e.0 < length program.now.terms }
    ensures { IfOk result (IsFound (SendsValue program.now (shape_of now.now) c e)) }
{
    let (kind, t) = match sends_value(program, now, c) {
        Some(found) => found,
        None => return Ok(None),
    };
    if is_of_kind(program, alloc, now, e, kind)? {
        Ok(Some(t))
    } else {
        Ok(None)
    }
}

/// The rule of `put`.
pub(crate) fn at_put(
    program: &Program,
    alloc: Global,
    now: &mut Standing,
    over: Over<TermId>,
) -> Result<Step, AllocError>
    requires formed { IsWellFormed program.now }
    requires within { IsWithin program.now now.old }
    requires stands { (at : ℕ) × StandsAtCode program.now (shape_of now.old)
        (CodeNode.Put at over.channel over.what over.next) }
    ensures { IfOk result (StepTells program.now now.old now.new) }
{
    match value_goes(program, alloc, now, over.channel, over.what)? {
        Some(t) => {
            go_on(now, over.channel, t, over.next)?;
            Ok(Step::Next)
        }
        None => Ok(Step::Stuck),
    }
}

/// The kind of the value that the process receives under the name, and the type with which the channel goes on.
fn value_comes(program: &Program, now: &Standing, c: Chan, v: VarId) -> Option<(Kind, TypeId)>
    requires formed { IsWellFormed program.now }
    requires within { IsWithin program.now now.now }
    ensures { IsFound (λ p. ReceivesValue program.now (shape_of now.now) c v p.0 p.1) result }
{
    if !is_free(now, v) {
        return None;
    }
    receives_value(program, now, c)
}

/// The rule of `take`.
pub(crate) fn at_take(
    program: &Program,
    now: &mut Standing,
    over: Over<VarId>,
) -> Result<Step, AllocError>
    requires formed { IsWellFormed program.now }
    requires within { IsWithin program.now now.old }
    requires stands { (at : ℕ) × StandsAtCode program.now (shape_of now.old)
        (CodeNode.Take at over.channel over.what over.next) }
    ensures { IfOk result (StepTells program.now now.old now.new) }
{
    match value_comes(program, now, over.channel, over.what) {
        Some((kind, t)) => {
            go_on(now, over.channel, t, over.next)?;
            bind_value(now, over.what, kind)?;
            Ok(Step::Next)
        }
        None => Ok(Step::Stuck),
    }
}

/// The rule of `let`.
pub(crate) fn at_let(
    program: &Program,
    alloc: Global,
    now: &mut Standing,
    letting: Letting,
) -> Result<Step, AllocError>
    requires within { IsWithin program.now now.old }
    requires stands { (at : ℕ) × StandsAtCode program.now (shape_of now.old)
        (CodeNode.Let at letting.var letting.term letting.next) }
    ensures { IfOk result (StepTells program.now now.old now.new) }
{
    program.know();
    if !is_free(now, letting.var) {
        return Ok(Step::Stuck);
    }
    match kind_of(program, alloc, now, letting.term)? {
        Some(kind) => {
            go_to(now, letting.next);
            bind_value(now, letting.var, kind)?;
            Ok(Step::Next)
        }
        None => Ok(Step::Stuck),
    }
}

/// The rule of `emit`.
pub(crate) fn at_emit(
    program: &Program,
    alloc: Global,
    now: &mut Standing,
    e: TermId,
    next: CodeId,
) -> Result<Step, AllocError>
    requires within { IsWithin program.now now.old }
    requires stands { (at : ℕ) × StandsAtCode program.now (shape_of now.old) (CodeNode.Emit at e next) }
    ensures { IfOk result (StepTells program.now now.old now.new) }
{
    program.know();
    match kind_of(program, alloc, now, e)? {
        Some(_) => {
            go_to(now, next);
            Ok(Step::Next)
        }
        None => Ok(Step::Stuck),
    }
}

/// The rule of `if`.
pub(crate) fn at_if(
    program: &Program,
    alloc: Global,
    now: &Standing,
    choosing: Choosing,
) -> Result<Step, AllocError>
    requires within { IsWithin program.now now.now }
    requires stands { (at : ℕ) × StandsAtCode program.now (shape_of now.now)
        (CodeNode.If at choosing.test choosing.then_next choosing.else_next) }
    ensures { IfOk result (StepTells program.now now.now now.now) }
{
    program.know();
    let truth = Kind {
        lists: 0,
        base: Base::Bool,
    };
    if !is_of_kind(program, alloc, now, choosing.test, truth)? {
        return Ok(Step::Stuck);
    }
    let ways = vec![in alloc;
        WayOn::Truth(choosing.then_next),
        WayOn::Truth(choosing.else_next),
    ]?;
    Ok(Step::Branches(ways))
}
