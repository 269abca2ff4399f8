//! Whether types are alike, and whether names have types, beside what was compared before.
ghost use Rattle.std.specs.Prelude.{IfOk};
ghost use Rattle.nomos_equality.specs.Comparing.{HasCompared};
ghost use Rattle.nomos_typed.specs.Telling.{Tells};
ghost use Rattle.nomos_typed.specs.mirror.ComparedWith.{IsTold, IsTypeIn, AreAlikeIn, NameFits, program_of, amounts_in};

use crate::told::{Told, is_mode};
use nomos_equality::equalities::Equalities;
use nomos_equality::equality::Comparison;
use nomos_ir::ids::TypeId;
use std::alloc::AllocError;

/// Whether two types are alike.
fn are_alike(
    told: &Told<'_>,
    equalities: &mut Equalities,
    own: TypeId,
    t: TypeId,
) -> Result<bool, AllocError>
    requires told { IsTold told.now }
    requires own { IsTypeIn told.now own }
    requires other { IsTypeIn told.now t }
    requires compared { HasCompared (program_of told.now) equalities.old }
    ensures compared { HasCompared (program_of told.now) equalities.new }
    ensures tells { IfOk result (Tells (amounts_in told.now) equalities.old.amounts equalities.new.amounts
        (AreAlikeIn told.now own t)) }
{
    let program = told.accepted.program();
    let mode = told.mode_of(own);
    if !is_mode(mode, told.mode_of(t)) {
        return Ok(false);
    }
    match equalities.compare(program, own, t)? {
        Comparison::Equal => Ok(true),
        Comparison::Different(_path) => Ok(false),
    }
}

/// Whether a name has a type that is alike to this one.
pub(crate) fn has_type(
    told: &Told<'_>,
    equalities: &mut Equalities,
    name: u32,
    t: TypeId,
) -> Result<bool, AllocError>
    requires told { IsTold told.now }
    requires other { IsTypeIn told.now t }
    requires compared { HasCompared (program_of told.now) equalities.old }
    ensures compared { HasCompared (program_of told.now) equalities.new }
    ensures tells { IfOk result (Tells (amounts_in told.now) equalities.old.amounts equalities.new.amounts
        (NameFits told.now name t)) }
{
    told.accepted.know();
    match told.type_of(name) {
        Some(own) => are_alike(told, equalities, own, t),
        None => Ok(false),
    }
}
