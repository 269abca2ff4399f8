//! Acts of a process by itself.
ghost use Rattle.std.specs.Prelude.{◌≡◌, ◌≤◌, ◌+◌, ◌<◌, ◌^◌, List, Some, IsOk, IfOk, IsSome, IfSome, OnOk, OnErr};
ghost use Rattle.std.specs.Option.{option_map};
ghost use Rattle.nomos_ir.specs.Value.{Value as Meaning};
ghost use Rattle.nomos_ir.specs.ValueNode.{value_of};
ghost use Rattle.nomos_types.specs.Acceptance.{Acceptance};
ghost use Rattle.nomos_deeds.specs.Acting.{CanAct, IsFrugalAct};
ghost use Rattle.nomos_deeds.specs.Acts.{act_change};
ghost use Rattle.nomos_deeds.specs.declared.act.Act.TheVariants as act;
ghost use Rattle.nomos_machine.specs.Change.{Change};
ghost use Rattle.nomos_machine.specs.Deeds.{one_of};
ghost use Rattle.nomos_machine.specs.State.{State};
ghost use Rattle.nomos_machine.specs.declared.object.Process.{Process};
ghost use Rattle.nomos_changes.specs.Performing.{made_by_act};
ghost use Rattle.nomos_changes.specs.Revisions.{IsPlainRevision, IsRevisionAct, Revises};

use crate::parts::Parts;
use crate::plain_fields::{go_on, spend};
use crate::revising::revise;
use crate::revision::Revision;
use nomos_deeds::act::Act;
use nomos_eval::evaluation::value_from;
use nomos_ir::ids::CodeId;
use nomos_ir::value::{Value, Values};
use nomos_ir::value_node::ValueNode;
use std::alloc::{AllocError, Global};

/// The value of the one term that an instruction has, as a node.
pub(crate) fn the_node(values: Values) -> Result<Option<ValueNode>, AllocError>
    ensures { IfOk result (λ found. option_map value_of found ≡ one_of values) }
{
    let Some((node, rest)) = values.into_parts()? else {
        return Ok(None);
    };
    match rest.parts() {
        None => Ok(Some(node)),
        Some(_) => Ok(None),
    }
}

/// The value of the one term that an instruction has.
pub(crate) fn the_value(values: Values) -> Result<Option<Value>, AllocError>
    ensures { IfOk result (λ found. found ≡ one_of values) }
{
    match the_node(values)? {
        Some(node) => Ok(Some(value_from(node))),
        None => Ok(None),
    }
}

/// What becomes of a process by an act by which nothing else changes, and where it goes on.
#[inline(always)]
pub(crate) fn revision_of(
    act: Act,
    values: Values,
) -> Result<Option<(Revision, CodeId)>, AllocError>
    ensures revises { (a : Acceptance) (s : State) (p : Process) (c : Change) → act_change a s p values act ≡ Some c
        → IsRevisionAct act
        → IfOk result (λ found. IfSome found (λ r. Revises a s p r.0 r.1 c) × IsSome found) }
    ensures frugal { IsFrugalAct act → IsOk result }
    ensures plain { IsFrugalAct act → IfOk result (λ found. IfSome found (λ r. IsPlainRevision r.0)) }
{
    match act {
        Act::Choose { next } => Ok(Some((Revision::Stands, next))),
        Act::Let { variable, next } => match the_value(values)? {
            Some(value) => Ok(Some((Revision::Binds(variable, value), next))),
            None => Ok(None),
        },
        Act::Empty {
            variable,
            amount,
            next,
        } => Ok(Some((Revision::Empty(variable, amount), next))),
        Act::Add {
            variable,
            list,
            next,
        } => match the_node(values)? {
            Some(node) => Ok(Some((Revision::Longer(variable, list, node), next))),
            None => Ok(None),
        },
        Act::End { list, next } => Ok(Some((Revision::UsedUp(list), next))),
        Act::TakeApart {
            list,
            head,
            tail,
            next,
        } => Ok(Some((Revision::Parted(list, head, tail), next))),
        _ => Ok(None),
    }
}

/// An act of the process by itself, but for a `work` and an `emit`.
#[inline(always)]
pub(crate) fn act_revision<P: Parts>(
    parts: &mut P,
    alloc: Global,
    pid: u32,
    act: Act,
    values: Values,
) -> Result<(), AllocError>
    requires alone { IsRevisionAct act }
    requires room { 8 ≤ P.room parts.old }
    ensures ok { (a : Acceptance) → CanAct a (P.state parts.old) pid values act
        → OnOk result (P.state parts.new ≡ made_by_act a (P.state parts.old) pid values act) }
    ensures err { OnErr result (P.state parts.new ≡ P.state parts.old) }
    ensures room { P.room parts.old ≤ P.room parts.new + 7 }
    ensures frugal { IsFrugalAct act → IsOk result }
    ensures marked { P.marked parts.new ≡ P.marked parts.old }
{
    match revision_of(act, values)? {
        Some((revision, next)) => revise(parts, alloc, pid, revision, next),
        None => Ok(()),
    }
}

/// The process spends so many Dths.
#[inline(always)]
pub(crate) fn act_work<P: Parts>(parts: &mut P, pid: u32, gas: u64, next: CodeId)
    requires fits { (P.state parts.old).spent + gas < 2 ^ 128 }
    requires room { 8 ≤ P.room parts.old }
    ensures state { (a : Acceptance) (vs : List Meaning) → CanAct a (P.state parts.old) pid vs (act.Work gas next)
        → P.state parts.new ≡ made_by_act a (P.state parts.old) pid vs (act.Work gas next) }
    ensures room { P.room parts.old ≤ P.room parts.new + 7 }
    ensures marked { P.marked parts.new ≡ P.marked parts.old }
{
    parts.burn(u128::from(gas));
    spend(parts, pid, u128::from(gas), next);
}

/// The process emits the value of its instruction's term.
pub(crate) fn act_emit<P: Parts>(
    parts: &mut P,
    pid: u32,
    next: CodeId,
    values: Values,
) -> Result<(), AllocError>
    requires room { 8 ≤ P.room parts.old }
    ensures ok { (a : Acceptance) → CanAct a (P.state parts.old) pid values (act.Emit next)
        → OnOk result (P.state parts.new ≡ made_by_act a (P.state parts.old) pid values (act.Emit next)) }
    ensures err { OnErr result (P.state parts.new ≡ P.state parts.old) }
    ensures room { P.room parts.old ≤ P.room parts.new + 7 }
    ensures marked { P.marked parts.new ≡ P.marked parts.old }
{
    let Some(value) = the_value(values)? else {
        return Ok(());
    };
    parts.emit(pid, value)?;
    go_on(parts, pid, next);
    Ok(())
}
