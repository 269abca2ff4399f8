//! The act by which a process goes on at the start of a declaration.
ghost use Rattle.std.specs.Prelude.{◌≡◌, ◌≤◌, ◌<◌, ◌+◌, Some, OnOk, OnErr};
ghost use Rattle.nomos_ir.specs.declared.code_node.Args.{Args as Handed};
ghost use Rattle.nomos_ir.specs.declared.declaration.ProcDecl.{ProcDecl as Declared};
ghost use Rattle.nomos_deeds.specs.Acting.{CanAct};
ghost use Rattle.nomos_deeds.specs.declared.act.Act.TheVariants as act;
ghost use Rattle.nomos_machine.specs.Given.{Given as Gives};
ghost use Rattle.nomos_machine.specs.State.{process_at};
ghost use Rattle.nomos_machine.specs.declared.object.Process.{Process};
ghost use Rattle.nomos_changes.specs.Beginnings.{Begins};
ghost use Rattle.nomos_changes.specs.Gives.{called};
ghost use Rattle.nomos_changes.specs.Performing.{made_by_act};
ghost use Rattle.nomos_changes.specs.SmallChanges.{Becomes, with_lists, with_process};

use crate::beginning::values_of;
use crate::begins_with::begins_with;
use crate::given::Given;
use crate::pairs::bindings_of;
use crate::parts::Parts;
use crate::plain_fields::going_on;
use nomos_ir::ids::{ProcId, VarId};
use nomos_ir::value::Values;
use nomos_machine::object::PotentialList;
use nomos_types::accepted::Accepted;
use std::alloc::{AllocError, Global};

/// A call: the process that calls, and the declaration at which it goes on.
#[derive(Clone, Copy, Debug)]
pub(crate) struct Call {
    pub(crate) pid: u32,
    pub(crate) declaration: ProcId,
}

// The process has these lists; where it has none, and is to have none, nothing is done.
fn put_lists_if_any<P: Parts>(parts: &mut P, pid: u32, lists: Vec<(VarId, PotentialList)>)
    requires room { 0 < P.room parts.old }
    ensures state { Becomes (P.state parts.old) pid (with_lists lists.items) (P.state parts.new) }
    ensures room { P.room parts.old ≤ P.room parts.new + 1 }
    ensures marked { P.marked parts.new ≡ P.marked parts.old }
{
    if !lists.is_empty() || !parts.lists(pid).is_empty() {
        parts.put_lists(pid, lists);
    }
}

// The process goes on at the start of a declaration. Want of memory leaves the state as it was.
fn go_on_at<P: Parts>(
    parts: &mut P,
    alloc: Global,
    accepted: &Accepted,
    call: Call,
    values: Values,
) -> Result<(), AllocError>
    requires room { 8 ≤ P.room parts.old }
    ensures ok { (p : Process) (d : Declared) (args : Handed) (g : Gives)
        → process_at (P.state parts.old) call.pid ≡ Some p → Begins accepted.now p call.declaration values d args g
        → OnOk result (P.state parts.new ≡ with_process call.pid (called d g p) (P.state parts.old)) }
    ensures err { OnErr result (P.state parts.new ≡ P.state parts.old) }
    ensures room { P.room parts.old ≤ P.room parts.new + 7 }
    ensures marked { P.marked parts.new ≡ P.marked parts.old }
{
    let begins = (call.pid, call.declaration);
    let Some(begun) = begins_with(&*parts, alloc, accepted, begins, values)? else {
        return Ok(());
    };
    let declaration = begun.declaration;
    let process = begun.process;
    let Given {
        values,
        lists,
        channels,
    } = begun.given;
    let values = values_of(alloc, values, declaration.me, process.payer)?;
    let lists = bindings_of(alloc, lists, 0)?;
    parts.replace_channels(alloc, call.pid, channels)?;
    parts.put_values(call.pid, values);
    put_lists_if_any(parts, call.pid, lists);
    parts.set_fields(going_on(process, declaration.first));
    Ok(())
}

/// The process goes on at the start of a declaration. Want of memory leaves the state as it was.
pub(crate) fn act_call<P: Parts>(
    parts: &mut P,
    alloc: Global,
    accepted: &Accepted,
    call: Call,
    values: Values,
) -> Result<(), AllocError>
    requires can { CanAct accepted.now (P.state parts.old) call.pid values (act.Call call.declaration) }
    requires room { 8 ≤ P.room parts.old }
    ensures ok { OnOk result (P.state parts.new
        ≡ made_by_act accepted.now (P.state parts.old) call.pid values (act.Call call.declaration)) }
    ensures err { OnErr result (P.state parts.new ≡ P.state parts.old) }
    ensures room { P.room parts.old ≤ P.room parts.new + 7 }
    ensures marked { P.marked parts.new ≡ P.marked parts.old }
{
    go_on_at(parts, alloc, accepted, call, values)
}
