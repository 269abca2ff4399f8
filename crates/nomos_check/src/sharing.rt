//! The rules of instructions on shared contracts.
ghost use Rattle.std.specs.Prelude.{◌≡◌, ◌<◌, ◌↔◌, ℕ, IsTrue, All, Some, IfOk, length};
ghost use Rattle.nomos_ir.specs.declared.code_node.CodeNode.{CodeNode};
ghost use Rattle.nomos_ir.specs.declared.ids.TypeId.{TypeId};
ghost use Rattle.nomos_ir.specs.declared.mode.Mode.{Mode};
ghost use Rattle.nomos_ir.specs.declared.type_node.TypeNode.{TypeNode};
ghost use Rattle.nomos_ir.specs.Bindings.{bound_to};
ghost use Rattle.nomos_ir.specs.Unfold.{Unfolds};
ghost use Rattle.nomos_types.specs.ModeTable.{AreModesOf};
ghost use Rattle.nomos_types.specs.Modes.{HasMode};
ghost use Rattle.nomos_types.specs.Premises.{Accepts, Acquires, Detaches, Releases};
ghost use Rattle.nomos_types.specs.TypingRule.{StandsAtCode};
ghost use Rattle.nomos_types.specs.Typed.{IsWellFormed};
ghost use Rattle.nomos_check.specs.mirror.FoundWrong.{IsFound};
ghost use Rattle.nomos_check.specs.mirror.StandingData.{shape_of, IsWithin, StepTells};

use crate::chances::{accepts, detaches};
use crate::in_hand::give_up;
use crate::mode_rules::{has_mode, is_mode, may_acquire};
use crate::sides::behind_up;
use crate::standing::{Standing, Step};
use crate::variables::{bind_channel, go_to, is_free};
use nomos_ir::code_node::Chan;
use nomos_ir::ids::{CodeId, TypeId, VarId};
use nomos_ir::mode::Mode;
use nomos_ir::program::Program;
use nomos_types::unfolding::unfold;
use std::alloc::AllocError;

/// The rule of `accept`.
pub(crate) fn at_accept(program: &Program, now: &mut Standing, next: CodeId) -> Step
    requires formed { IsWellFormed program.now }
    requires within { IsWithin program.now now.old }
    requires stands { (at : ℕ) × StandsAtCode program.now (shape_of now.old) (CodeNode.Accept at next) }
    ensures { StepTells program.now now.old now.new result }
{
    if !is_mode(now.mode, Mode::S) {
        return Step::Stuck;
    }
    match accepts(program, now, Chan::Own) {
        Some(t) => {
            now.mode = Mode::L;
            now.offers = t;
            now.code = next;
            Step::Next
        }
        None => Step::Stuck,
    }
}

/// Whether each channel has mode R.
fn all_at_r(program: &Program, modes: &[Mode], channels: &[(VarId, TypeId)]) -> bool
    requires modes { AreModesOf program.now modes.now }
    requires in_range { All (λ b. b.1.0 < length program.now.types) channels.now }
    ensures { IsTrue result ↔ All (λ b. HasMode program.now b.1 Mode.R) channels.now }
{
    for held in channels {
        if !has_mode(program, modes, held.1, Mode::R) {
            return false;
        }
    }
    true
}

/// The rule of `detach`.
pub(crate) fn at_detach(program: &Program, modes: &[Mode], now: &mut Standing, next: CodeId) -> Step
    requires formed { IsWellFormed program.now }
    requires within { IsWithin program.now now.old }
    requires modes { AreModesOf program.now modes.now }
    requires stands { (at : ℕ) × StandsAtCode program.now (shape_of now.old) (CodeNode.Detach at next) }
    ensures { StepTells program.now now.old now.new result }
{
    if !is_mode(now.mode, Mode::L) {
        return Step::Stuck;
    }
    if !all_at_r(program, modes, now.linear.pairs().as_slice()) {
        return Step::Stuck;
    }
    match detaches(program, now, Chan::Own) {
        Some(t) => {
            now.mode = Mode::S;
            now.offers = t;
            now.code = next;
            Step::Next
        }
        None => Step::Stuck,
    }
}

/// The type of the shared contract to which the variable refers, once it is held.
fn reference_held(program: &Program, now: &Standing, a: VarId) -> Option<TypeId>
    requires formed { IsWellFormed program.now }
    requires within { IsWithin program.now now.now }
    ensures { IsFound (λ t. (own : TypeId) × (bound_to a.0 (shape_of now.now).shared ≡ Some own) ×
        Unfolds program.now own.0 (TypeNode.Up t)) result }
{
    let own = now.shared.get(a)?;
    behind_up(program.node(unfold(program, own)))
}

/// The type with which the process holds the contract that it acquires under the name.
fn acquired(program: &Program, now: &Standing, a: VarId, v: VarId) -> Option<TypeId>
    requires formed { IsWellFormed program.now }
    requires within { IsWithin program.now now.now }
    ensures { IsFound (Acquires program.now (shape_of now.now) a v) result }
{
    if !may_acquire(now.mode) {
        return None;
    }
    if !is_free(now, v) {
        return None;
    }
    reference_held(program, now, a)
}

/// The rule of `acquire`.
pub(crate) fn at_acquire(
    program: &Program,
    now: &mut Standing,
    a: VarId,
    v: VarId,
    next: CodeId,
) -> Result<Step, AllocError>
    requires formed { IsWellFormed program.now }
    requires within { IsWithin program.now now.old }
    requires stands { (at : ℕ) × StandsAtCode program.now (shape_of now.old) (CodeNode.Acquire at a v next) }
    ensures { IfOk result (StepTells program.now now.old now.new) }
{
    match acquired(program, now, a, v) {
        Some(t) => {
            go_to(now, next);
            bind_channel(now, v, Mode::L, t)?;
            Ok(Step::Next)
        }
        None => Ok(Step::Stuck),
    }
}

/// The type with which the released contract is shared again, under the name of the reference.
fn released(program: &Program, now: &Standing, v: VarId, a: VarId) -> Option<TypeId>
    requires formed { IsWellFormed program.now }
    requires within { IsWithin program.now now.now }
    ensures { IsFound (Releases program.now (shape_of now.now) v a) result }
{
    if !is_free(now, a) {
        return None;
    }
    detaches(program, now, Chan::Var(v))
}

/// The rule of `release`.
pub(crate) fn at_release(
    program: &Program,
    now: &mut Standing,
    v: VarId,
    a: VarId,
    next: CodeId,
) -> Result<Step, AllocError>
    requires formed { IsWellFormed program.now }
    requires within { IsWithin program.now now.old }
    requires stands { (at : ℕ) × StandsAtCode program.now (shape_of now.old) (CodeNode.Release at v a next) }
    ensures { IfOk result (StepTells program.now now.old now.new) }
{
    match released(program, now, v, a) {
        Some(t) => {
            give_up(now, v, next);
            bind_channel(now, a, Mode::S, t)?;
            Ok(Step::Next)
        }
        None => Ok(Step::Stuck),
    }
}
