//! What is seen of a machine in its state, as text.
ghost use Rattle.std.specs.Prelude.{◌<◌, ◌^◌};
ghost use Rattle.nomos_machine.specs.State.{gas_of};
ghost use Rattle.nomos_machine.specs.TypedState.{IsTyped};

use nomos_deeds::machine::Machine;
use nomos_ir::ids::VarId;
use nomos_types::accepted::Accepted;
use std::alloc::AllocError;
use std::fmt::Write;

// Variables have lower numbers than this.
const VARIABLES: u32 = 100;

// Writes which channel and which list a process has in a variable, where it has one.
fn write_variable<M: Machine>(
    machine: &M,
    pid: u32,
    v: u32,
    text: &mut String,
) -> Result<(), AllocError> {
    if let Some(name) = machine.channel(pid, VarId(v)) {
        write!(text, " {v} is {name}")?;
    }
    if let Some(list) = machine.list(pid, VarId(v)) {
        write!(text, " {v} is {list:?}")?;
    }
    Ok(())
}

// Writes what the process of a number is, has and waits for, and whether it is ready, where there is one.
fn write_process<M: Machine>(
    accepted: &Accepted,
    machine: &M,
    pid: u32,
    text: &mut String,
) -> Result<(), AllocError>
    requires { IsTyped accepted.now (M.state machine.now) }
{
    let Some(seen) = machine.process(pid) else {
        return Ok(());
    };
    write!(text, "{seen:?} {:?}", machine.values(pid))?;
    for v in 0..VARIABLES {
        write_variable(machine, pid, v, text)?;
    }
    let ready = machine.ready(accepted, pid);
    writeln!(
        text,
        " ready {ready} waits {:?}",
        machine.waits(accepted, pid)
    )
}

// Writes the type of a name, the messages on it, and who offers it, uses it, stands for it and owns it, where it has a
// type.
fn write_name<M: Machine>(
    accepted: &Accepted,
    machine: &M,
    name: u32,
    text: &mut String,
) -> Result<(), AllocError>
    requires { IsTyped accepted.now (M.state machine.now) }
{
    let Some(its_type) = machine.type_of(name) else {
        return Ok(());
    };
    let sent = (
        machine.message_on(true, name),
        machine.message_on(false, name),
    );
    let offers = machine.offering(name).map(|seen| seen.pid);
    let by = (
        offers,
        machine.user(name),
        machine.keeper(name),
        machine.owner(accepted, name),
    );
    writeln!(text, "{name} {its_type:?} {sent:?} {by:?}")
}

// Writes the next numbers, what two accounts have and all other gas, what was emitted, and who comes next.
fn write_all<M: Machine>(
    accepted: &Accepted,
    machine: &M,
    text: &mut String,
) -> Result<(), AllocError>
    requires typed { IsTyped accepted.now (M.state machine.now) }
    requires gas { gas_of (M.state machine.now) < 2 ^ 96 }
{
    let numbers = (machine.next_object(), machine.next_name());
    let gas = (
        machine.balance(0),
        machine.balance(1),
        machine.stored(),
        machine.spent(),
    );
    let next = (
        machine.next_ready(accepted, 0),
        machine.next_transaction(0),
        machine.next_waiting(accepted, 0),
    );
    writeln!(text, "{numbers:?} {gas:?} {:?} {next:?}", machine.results())
}

/// Writes all that is seen of a machine in its state: numbers, gas, results, processes, names and messages, and which
/// processes are ready.
pub fn write_state<M: Machine>(
    accepted: &Accepted,
    machine: &M,
    text: &mut String,
) -> Result<(), AllocError>
    requires typed { IsTyped accepted.now (M.state machine.now) }
    requires gas { gas_of (M.state machine.now) < 2 ^ 96 }
{
    write_all(accepted, machine, text)?;
    for pid in 0..machine.next_object() {
        write_process(accepted, machine, pid, text)?;
    }
    for name in 0..machine.next_name() {
        write_name(accepted, machine, name, text)?;
    }
    Ok(())
}
