//! How a process changes by itself.
ghost use Rattle.std.specs.Prelude.{◌≡◌, ◌≤◌, ◌+◌, Some, IsOk, OnOk, OnErr};
ghost use Rattle.nomos_machine.specs.Revised.{standing_at};
ghost use Rattle.nomos_machine.specs.State.{process_at};
ghost use Rattle.nomos_machine.specs.declared.object.Process.{Process};
ghost use Rattle.nomos_changes.specs.Revisions.{IsPlainRevision, revised};
ghost use Rattle.nomos_changes.specs.SmallChanges.{Becomes, with_list_change, with_process};

use crate::list_change::ListChange;
use crate::parts::Parts;
use crate::plain_fields::{go_on, spend};
use crate::process_lists::{empty_list, longer, taken_apart};
use crate::revision::Revision;
use nomos_ir::ids::{CodeId, VarId};
use nomos_ir::value_node::ValueNode;
use std::alloc::{AllocError, Global};

// One list of a process changes, and the process goes on.
fn go_on_with<P: Parts>(
    parts: &mut P,
    alloc: Global,
    pid: u32,
    change: ListChange,
    next: CodeId,
) -> Result<(), AllocError>
    requires room { 3 ≤ P.room parts.old }
    ensures ok { OnOk result (Becomes (P.state parts.old) pid (λ p. standing_at next (with_list_change change p))
        (P.state parts.new)) }
    ensures err { OnErr result (P.state parts.new ≡ P.state parts.old) }
    ensures room { P.room parts.old ≤ P.room parts.new + 3 }
    ensures marked { P.marked parts.new ≡ P.marked parts.old }
{
    parts.change_lists(alloc, pid, change)?;
    go_on(parts, pid, next);
    Ok(())
}

// A list is used up, and its head and its rest are bound, if it has a head; and the process goes on.
fn take_apart<P: Parts>(
    parts: &mut P,
    alloc: Global,
    pid: u32,
    list: (VarId, VarId, VarId),
    next: CodeId,
) -> Result<(), AllocError>
    requires room { 3 ≤ P.room parts.old }
    ensures ok { (p q : Process) → process_at (P.state parts.old) pid ≡ Some p
        → revised (Revision.Parted list.0 list.1 list.2) p ≡ Some q
        → OnOk result (P.state parts.new ≡ with_process pid (standing_at next q) (P.state parts.old)) }
    ensures err { OnErr result (P.state parts.new ≡ P.state parts.old) }
    ensures room { P.room parts.old ≤ P.room parts.new + 3 }
    ensures marked { P.marked parts.new ≡ P.marked parts.old }
{
    let Some((first, rest)) = taken_apart(parts.lists(pid), list.0)? else {
        return Ok(());
    };
    let change = ListChange {
        used_up: Some(list.0),
        bound: Some((list.2, rest)),
        value: Some((list.1, first)),
    };
    go_on_with(parts, alloc, pid, change, next)
}

// An element is put before those of a list, which is used up, and the list is bound; and the process goes on.
fn lengthen<P: Parts>(
    parts: &mut P,
    alloc: Global,
    pid: u32,
    added: (VarId, VarId, ValueNode),
    next: CodeId,
) -> Result<(), AllocError>
    requires room { 3 ≤ P.room parts.old }
    ensures ok { (p q : Process) → process_at (P.state parts.old) pid ≡ Some p
        → revised (Revision.Longer added.0 added.1 added.2) p ≡ Some q
        → OnOk result (P.state parts.new ≡ with_process pid (standing_at next q) (P.state parts.old)) }
    ensures err { OnErr result (P.state parts.new ≡ P.state parts.old) }
    ensures room { P.room parts.old ≤ P.room parts.new + 3 }
    ensures marked { P.marked parts.new ≡ P.marked parts.old }
{
    let (v, w, first) = added;
    let Some(list) = longer(alloc, parts.lists(pid), w, first)? else {
        return Ok(());
    };
    let change = ListChange {
        used_up: Some(w),
        bound: Some((v, list)),
        value: None,
    };
    go_on_with(parts, alloc, pid, change, next)
}

/// A process changes by itself, and goes on. Want of memory leaves the state as it was.
#[inline(always)]
pub(crate) fn revise<P: Parts>(
    parts: &mut P,
    alloc: Global,
    pid: u32,
    revision: Revision,
    next: CodeId,
) -> Result<(), AllocError>
    requires room { 3 ≤ P.room parts.old }
    ensures ok { (p q : Process) → process_at (P.state parts.old) pid ≡ Some p → revised revision p ≡ Some q
        → OnOk result (P.state parts.new ≡ with_process pid (standing_at next q) (P.state parts.old)) }
    ensures err { OnErr result (P.state parts.new ≡ P.state parts.old) }
    ensures room { P.room parts.old ≤ P.room parts.new + 3 }
    ensures frugal { IsPlainRevision revision → IsOk result }
    ensures marked { P.marked parts.new ≡ P.marked parts.old }
{
    match revision {
        Revision::Stands => go_on(parts, pid, next),
        Revision::Spends(gas) => spend(parts, pid, u128::from(gas), next),
        Revision::Binds(v, x) => {
            parts.bind_value(alloc, pid, v, x)?;
            go_on(parts, pid, next);
        }
        Revision::Empty(v, amount) => {
            let change = ListChange {
                used_up: None,
                bound: Some((v, empty_list(amount))),
                value: None,
            };
            return go_on_with(parts, alloc, pid, change, next);
        }
        Revision::Longer(v, w, first) => return lengthen(parts, alloc, pid, (v, w, first), next),
        Revision::UsedUp(w) => {
            let change = ListChange {
                used_up: Some(w),
                bound: None,
                value: None,
            };
            return go_on_with(parts, alloc, pid, change, next);
        }
        Revision::Parted(w, head, tail) => return take_apart(
            parts,
            alloc,
            pid,
            (w, head, tail),
            next,
        ),
    }
    Ok(())
}
