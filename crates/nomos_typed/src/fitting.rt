//! Whether values and channels are of the kinds and types that an instruction asks for, variable by variable.
ghost use Rattle.std.specs.Prelude.{◌≡◌, ◌↔◌, IsTrue, IfOk, All};
ghost use Rattle.nomos_equality.specs.Comparing.{HasCompared};
ghost use Rattle.nomos_ir.specs.Bindings.{IsAscending};
ghost use Rattle.nomos_ir.specs.Paired.{ArePaired};
ghost use Rattle.nomos_ir.specs.ValueKind.{ValueHasKind};
ghost use Rattle.nomos_typed.specs.Telling.{Tells};
ghost use Rattle.nomos_typed.specs.mirror.ComparedWith.{IsTold, IsTypeIn, NameFits, program_of, amounts_in};

use crate::likeness::has_type;
use crate::told::Told;
use nomos_deeds::value_kinds::has_kind;
use nomos_equality::equalities::Equalities;
use nomos_ir::ids::{TypeId, VarId};
use nomos_ir::kind::Kind;
use nomos_ir::value::Value;
use std::alloc::AllocError;

/// Whether the variables are the same, and the value is of the kind.
fn entry_fits(value: &(VarId, Value), kind: &(VarId, Kind)) -> bool
    ensures { IsTrue result ↔ ((value.now.0 ≡ kind.now.0) × ValueHasKind value.now.1 kind.now.1) }
{
    value.0 == kind.0 && has_kind(value.1.node(), kind.1)
}

/// Whether values, each with its variable in order of number, are of these kinds: for each variable a value of its
/// kind, and nothing besides. Both lists are walked once.
pub fn values_fit(values: &[(VarId, Value)], kinds: &[(VarId, Kind)]) -> bool
    requires values { IsAscending values.now }
    requires kinds { IsAscending kinds.now }
    ensures { IsTrue result ↔ ArePaired ValueHasKind values.now kinds.now }
{
    if values.len() != kinds.len() {
        return false;
    }
    let mut at = 0;
    while at < values.len() {
        if !entry_fits(&values[at], &kinds[at]) {
            return false;
        }
        at += 1;
    }
    true
}

/// Whether the variables are the same, and the name has a type that is alike.
fn channel_fits(
    told: &Told<'_>,
    equalities: &mut Equalities,
    channel: &(VarId, u32),
    wanted: &(VarId, TypeId),
) -> Result<bool, AllocError>
    requires told { IsTold told.now }
    requires wanted { IsTypeIn told.now wanted.now.1 }
    requires compared { HasCompared (program_of told.now) equalities.old }
    ensures compared { HasCompared (program_of told.now) equalities.new }
    ensures tells { IfOk result (Tells (amounts_in told.now) equalities.old.amounts equalities.new.amounts
        ((channel.now.0 ≡ wanted.now.0) × NameFits told.now channel.now.1 wanted.now.1)) }
{
    if channel.0 != wanted.0 {
        return Ok(false);
    }
    has_type(told, equalities, channel.1, wanted.1)
}

/// Whether the names of channels, each with its variable in order of number, have types that are alike to these: for
/// each variable a channel of its type, and nothing besides. Both lists are walked once.
pub(crate) fn channels_fit(
    told: &Told<'_>,
    equalities: &mut Equalities,
    channels: &[(VarId, u32)],
    wanted: &[(VarId, TypeId)],
) -> Result<bool, AllocError>
    requires told { IsTold told.now }
    requires channels { IsAscending channels.now }
    requires wanted { IsAscending wanted.now }
    requires types { All (λ e. IsTypeIn told.now e.1) wanted.now }
    requires compared { HasCompared (program_of told.now) equalities.old }
    ensures compared { HasCompared (program_of told.now) equalities.new }
    ensures tells { IfOk result (Tells (amounts_in told.now) equalities.old.amounts equalities.new.amounts
        (ArePaired (NameFits told.now) channels.now wanted.now)) }
{
    if channels.len() != wanted.len() {
        return Ok(false);
    }
    let mut at = 0;
    while at < channels.len() {
        if !channel_fits(told, equalities, &channels[at], &wanted[at])? {
            return Ok(false);
        }
        at += 1;
    }
    Ok(true)
}
