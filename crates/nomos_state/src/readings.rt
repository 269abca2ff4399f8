//! What can be read of an indexed state, and walks over it in ascending order.
ghost use Rattle.std.specs.Prelude.{◌≡◌, Some, None, IfOk};
ghost use Rattle.std.specs.Option.{option_map};
ghost use Rattle.nomos_deeds.specs.Acts.{message_at};
ghost use Rattle.nomos_deeds.specs.Readers.{IsLinearName, acquires, view_of, waits};
ghost use Rattle.nomos_deeds.specs.SeenObjects.{seen_message};
ghost use Rattle.nomos_ir.specs.Bindings.{bound_to};
ghost use Rattle.nomos_machine.specs.Sight.{owner};
ghost use Rattle.nomos_machine.specs.State.{process_at, type_of};
ghost use Rattle.nomos_machine.specs.declared.object.Message.{Message as Sent};
ghost use Rattle.nomos_machine.specs.declared.object.Process.{Process};
ghost use Rattle.nomos_changes.specs.SmallChanges.{value_brought};
ghost use Rattle.nomos_state.specs.Indexed.{IsHolding, held_now, state_of};
ghost use Rattle.nomos_state.specs.Objects.{ListRow, ValueRow, channels_of, first_value, process_held};

use crate::inside::Columns;
use crate::kept::KeptProcess;
use crate::list_rows::lists_left;
use crate::looking::{message_at, process_at};
use crate::sought;
use nomos_deeds::machine::View;
use nomos_deeds::sight::{SeenMessage, SeenPayload};
use nomos_deeds::unfolded_types::is_linear;
use nomos_ir::code_node::CodeNode;
use nomos_ir::find::find_code;
use nomos_ir::ids::{TypeId, VarId};
use nomos_ir::value::Value;
use nomos_machine::object::PotentialList;
use nomos_types::accepted::Accepted;
use std::alloc::{AllocError, Global};

/// The lists of a process that carry potential.
pub(crate) fn lists(contents: &Columns, pid: u32) -> &[(VarId, PotentialList)]
    requires { IsHolding (held_now contents.now) }
    ensures { (p : Process) → process_at (state_of (held_now contents.now)) pid ≡ Some p → result.now ≡ p.lists }
{
    match process_at(contents, pid) {
        Some((place, p)) => lists_left(contents.lists.row(place), p.gone),
        None => &[],
    }
}

/// The message of this number, if there is one.
pub(crate) fn message(contents: &Columns, number: u32) -> Option<SeenMessage>
    requires { IsHolding (held_now contents.now) }
    ensures { result ≡ option_map seen_message (message_at (state_of (held_now contents.now)).objects number) }
{
    let (_, m) = message_at(contents, number)?;
    Some(sought::seen_message(number, &m))
}

/// What the message of this number carries, in Dths.
pub(crate) fn message_purse(contents: &Columns, number: u32) -> u128
    requires { IsHolding (held_now contents.now) }
    ensures { (m : Sent) → message_at (state_of (held_now contents.now)).objects number ≡ Some m → result ≡ m.purse }
{
    match message_at(contents, number) {
        Some((_, m)) => m.purse.dths(),
        None => 0,
    }
}

// The first value of a row, once more.
fn copy_first(alloc: Global, row: &[(VarId, Value)]) -> Result<Option<Value>, AllocError>
    ensures { IfOk result (λ found. found ≡ first_value row.now) }
{
    match row.first() {
        Some(pair) => Ok(Some(pair.1.copy()?)),
        None => Ok(None),
    }
}

/// The value that the message of this number brings, if it brings one, once more.
pub(crate) fn message_value(
    alloc: Global,
    contents: &Columns,
    number: u32,
) -> Result<Option<Value>, AllocError>
    requires { IsHolding (held_now contents.now) }
    ensures { IfOk result (λ found. found ≡ value_brought (state_of (held_now contents.now)).objects number) }
{
    match message_at(contents, number) {
        Some((place, m)) => match m.brings {
            SeenPayload::Value => copy_first(alloc, contents.values.row(place)),
            _ => Ok(None),
        },
        None => Ok(None),
    }
}

/// What is shown of the process of this number; nothing, exactly where no process has it.
pub(crate) fn view(contents: &Columns, pid: u32) -> Option<View>
    requires { IsHolding (held_now contents.now) }
    ensures { result ≡ option_map view_of (process_at (state_of (held_now contents.now)) pid) }
{
    let (_, p) = process_at(contents, pid)?;
    Some(View {
        mode: p.mode,
        code: p.code,
        offers: p.offers,
        base: p.base,
        purse: p.purse.dths(),
    })
}

// The present name of a process's channel.
fn channel(contents: &Columns, pid: u32, v: VarId) -> Option<u32>
    ensures { result ≡ bound_to v.0 (channels_of contents.now.channels.now pid) }
{
    contents.channels.get(pid, v.0)
}

/// The shared name for which a process waits, where it stands at `acquire`.
pub(crate) fn acquires(
    accepted: &Accepted,
    contents: &Columns,
    pid: u32,
    p: &KeptProcess,
) -> Option<u32>
    ensures { (values : ValueRow) (its_lists : ListRow)
        → result ≡ acquires accepted.now (process_held contents.now.channels.now pid values its_lists p.now) }
{
    match find_code(accepted.program().lists(), p.code) {
        Some(CodeNode::Acquire(_, r, _, _)) => channel(contents, pid, *r),
        _ => None,
    }
}

/// The shared name for which the process of this number waits, where it stands at `acquire`.
pub(crate) fn waits(accepted: &Accepted, contents: &Columns, pid: u32) -> Option<u32>
    requires { IsHolding (held_now contents.now) }
    ensures { result ≡ waits accepted.now (state_of (held_now contents.now)).objects pid }
{
    let (_, p) = process_at(contents, pid)?;
    acquires(accepted, contents, pid, &p)
}

/// The number of the object that uses a name whose type has mode R or L; nothing at any other name.
pub(crate) fn owner(accepted: &Accepted, contents: &Columns, name: u32) -> Option<u32>
    requires { IsHolding (held_now contents.now) }
    ensures linear { IsLinearName accepted.now.program (state_of (held_now contents.now)).types name
        → result ≡ owner (state_of (held_now contents.now)) name }
    ensures other { ¬ (IsLinearName accepted.now.program (state_of (held_now contents.now)).types name)
        → result ≡ None }
{
    let t = type_of(contents, name)?;
    if is_linear(accepted, t) {
        sought::user(contents, name)
    } else {
        None
    }
}

/// The type of a name, if it has one.
pub(crate) fn type_of(contents: &Columns, name: u32) -> Option<TypeId>
    requires { IsHolding (held_now contents.now) }
    ensures { result ≡ type_of (state_of (held_now contents.now)).types name }
{
    contents.names.get(name)
}
