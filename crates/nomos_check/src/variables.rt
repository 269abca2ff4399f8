//! The variables of a process: which are free, of which kinds terms over them are, and what is bound to them.
ghost use Rattle.std.specs.Prelude.{◌≡◌, ◌<◌, ◌↔◌, IsTrue, IfOk, OnOk, length};
ghost use Rattle.nomos_ir.specs.TermKind.{HasKind};
ghost use Rattle.nomos_types.specs.Judgement.{IsFree, at_code, binds_channel, binds_value};
ghost use Rattle.nomos_check.specs.mirror.FoundWrong.{IsFound};
ghost use Rattle.nomos_check.specs.mirror.StepMoves.{KeepsAmounts};
ghost use Rattle.nomos_check.specs.mirror.StandingData.{shape_of};

use crate::standing::Standing;
use nomos_ir::ids::{CodeId, TermId, TypeId, VarId};
use nomos_ir::kind::Kind;
use nomos_ir::mode::Mode;
use nomos_ir::program::Program;
use nomos_terms::kinds::{TermError, term_kind};
use std::alloc::{AllocError, Global};

/// Whether nothing that the process has in hand has the name.
pub(crate) fn is_free(now: &Standing, v: VarId) -> bool
    ensures { IsTrue result ↔ IsFree (shape_of now.now) v }
{
    if now.kinds.get(v).is_some() {
        return false;
    }
    if now.lists.get(v).is_some() {
        return false;
    }
    if now.shared.get(v).is_some() {
        return false;
    }
    now.linear.get(v).is_none()
}

/// The kind of a term over the values of the process, if it has one.
pub(crate) fn kind_of(
    program: &Program,
    alloc: Global,
    now: &Standing,
    e: TermId,
) -> Result<Option<Kind>, AllocError>
    requires { e.0 < length program.now.terms }
    ensures { IfOk result (IsFound (HasKind program.now (shape_of now.now).kinds e)) }
{
    match term_kind(alloc, program, e, now.kinds.pairs()) {
        Ok(kind) => Ok(Some(kind)),
        Err(TermError::TermType(_)) => Ok(None),
        Err(TermError::NoMemory) => Err(AllocError),
    }
}

/// Whether the variables are the same.
pub(crate) fn is_same_variable(v: VarId, w: VarId) -> bool
    ensures { IsTrue result ↔ (v ≡ w) }
{
    v == w
}

/// Whether the kinds are the same.
pub(crate) fn is_same_kind(a: Kind, b: Kind) -> bool
    ensures { IsTrue result ↔ (a ≡ b) }
{
    a == b
}

/// Whether a term over the values of the process has the kind.
pub(crate) fn is_of_kind(
    program: &Program,
    alloc: Global,
    now: &Standing,
    e: TermId,
    kind: Kind,
) -> Result<bool, AllocError>
    requires { e.0 < length program.now.terms }
    ensures { IfOk result (λ yes. IsTrue yes ↔ HasKind program.now (shape_of now.now).kinds e kind) }
{
    match kind_of(program, alloc, now, e)? {
        Some(its) => Ok(is_same_kind(its, kind)),
        None => Ok(false),
    }
}

/// The value is bound.
pub(crate) fn bind_value(now: &mut Standing, v: VarId, kind: Kind) -> Result<(), AllocError>
    ensures shape { OnOk result (shape_of now.new ≡ binds_value (shape_of now.old) v kind) }
    ensures amounts { KeepsAmounts now.old now.new }
{
    now.kinds.bind(v, kind)
}

/// The channel is bound: as a reference at mode S, and otherwise as one that is used exactly once.
pub(crate) fn bind_channel(
    now: &mut Standing,
    v: VarId,
    mode: Mode,
    t: TypeId,
) -> Result<(), AllocError>
    ensures shape { OnOk result (shape_of now.new ≡ binds_channel (shape_of now.old) v mode t) }
    ensures amounts { KeepsAmounts now.old now.new }
{
    match mode {
        Mode::S => now.shared.bind(v, t),
        Mode::R | Mode::L | Mode::T => now.linear.bind(v, t),
    }
}

/// The process goes on at the instruction.
pub(crate) fn go_to(now: &mut Standing, next: CodeId)
    ensures shape { shape_of now.new ≡ at_code (shape_of now.old) next }
    ensures amounts { KeepsAmounts now.old now.new }
{
    now.code = next;
}
