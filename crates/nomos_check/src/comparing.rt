//! Whether types are alike: equal where amounts are ignored, and of one mode.
ghost use Rattle.std.specs.Prelude.{◌<◌, IfOk, length};
ghost use Rattle.nomos_types.specs.Typed.{IsWellFormed};
ghost use Rattle.nomos_check.specs.mirror.Passing.{TellsAlike};
ghost use Rattle.nomos_check.specs.mirror.StandingData.{IsReady, KeepsCompared};

use crate::asked::Asked;
use crate::mode_rules::{is_mode, mode_of};
use nomos_equality::equality::Comparison;
use nomos_ir::ids::TypeId;
use nomos_ir::program::Program;
use std::alloc::AllocError;

/// Whether the types are alike. Where they are, the pairs at their equal paths are asked for.
pub(crate) fn are_alike(
    program: &Program,
    asked: &mut Asked<'_>,
    own: TypeId,
    t: TypeId,
) -> Result<bool, AllocError>
    requires formed { IsWellFormed program.now }
    requires ready { IsReady program.now asked.old }
    requires own { own.0 < length program.now.types }
    requires other { t.0 < length program.now.types }
    ensures ready { IsReady program.now asked.new }
    ensures kept { KeepsCompared asked.old asked.new }
    ensures tells { IfOk result (TellsAlike program.now own t asked.old asked.new) }
{
    let mode = mode_of(program, asked.modes, own);
    if !is_mode(mode, mode_of(program, asked.modes, t)) {
        return Ok(false);
    }
    match asked.equalities.compare(program, own, t)? {
        Comparison::Equal => Ok(true),
        Comparison::Different(_path) => Ok(false),
    }
}
