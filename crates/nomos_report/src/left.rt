//! The lines of what is left where a batch is blocked: transactions, and processes that wait.

ghost use Rattle.std.specs.Prelude.{◌≡◌, ◌<◌, ◌++◌, ℕ, codes, decimal, OnOk};
ghost use Rattle.std.specs.List.{flat_map};
ghost use Rattle.nomos_deeds.specs.Readers.{IsTransaction};
ghost use Rattle.nomos_machine.specs.TypedState.{IsTyped, Numbered};
ghost use Rattle.nomos_report.specs.ReportLines.{line};
ghost use Rattle.nomos_report.specs.Reported.{left_lines, waits_lines};
ghost use Rattle.nomos_report.specs.mirror.NamedLines.{waiting_line};

use crate::report_lines::push_counted;
use nomos_deeds::machine::Machine;
use nomos_types::accepted::Accepted;
use std::alloc::AllocError;

// Appends that a transaction is left.
fn push_left_line(text: &mut Vec<u8>, pid: u32) -> Result<(), AllocError>
    ensures { OnOk result (text.new.items ≡ text.old.items ++ line (codes "left " ++ decimal pid)) }
{
    push_counted(text, b"left ", u64::from(pid))?;
    text.push(b'\n')?;
    Ok(())
}

/// Appends the transactions that are left, by number, where each has one over this number.
pub(crate) fn push_left<M: Machine>(
    text: &mut Vec<u8>,
    machine: &M,
    before: u32,
) -> Result<(), AllocError>
    requires numbered { Numbered (M.state machine.now) }
    requires over { (pid : ℕ) → IsTransaction (M.state machine.now).objects pid → before < pid }
    ensures { OnOk result (text.new.items
        ≡ text.old.items ++ flat_map left_lines (M.state machine.now).objects) }
{
    let mut pid = before;
    while let Some(next) = machine.next_transaction(pid) {
        push_left_line(text, next)?;
        pid = next;
    }
    Ok(())
}

// Appends for which contract a process waits, and who stands for it, where it waits for one.
fn push_waits_line<M: Machine>(
    text: &mut Vec<u8>,
    accepted: &Accepted,
    machine: &M,
    pid: u32,
) -> Result<(), AllocError>
    ensures { OnOk result (text.new.items
        ≡ text.old.items ++ waiting_line accepted.now (M.state machine.now).objects pid) }
{
    let Some(shared) = machine.waits(accepted, pid) else {
        return Ok(());
    };
    let Some(other) = machine.keeper(shared) else {
        return Ok(());
    };
    push_counted(text, b"waits ", u64::from(pid))?;
    push_counted(text, b" for ", u64::from(shared))?;
    push_counted(text, b" of ", u64::from(other))?;
    text.push(b'\n')?;
    Ok(())
}

/// Appends the processes that stand at `acquire`, by number.
pub(crate) fn push_waits<M: Machine>(
    text: &mut Vec<u8>,
    accepted: &Accepted,
    machine: &M,
) -> Result<(), AllocError>
    requires { IsTyped accepted.now (M.state machine.now) }
    ensures { OnOk result (text.new.items
        ≡ text.old.items ++ flat_map (waits_lines accepted.now (M.state machine.now).objects)
        (M.state machine.now).objects) }
{
    let mut pid = 0;
    while let Some(next) = machine.next_waiting(accepted, pid) {
        push_waits_line(text, accepted, machine, next)?;
        pid = next;
    }
    Ok(())
}
