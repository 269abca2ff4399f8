//! The lines of deposits and batches.

ghost use Rattle.std.specs.Prelude.{◌≡◌, ◌<◌, ◌++◌, ◌-◌, ℕ, codes, decimal, length, OnOk};
ghost use Rattle.std.specs.List.{flat_map};
ghost use Rattle.nomos_base.specs.Gas.{gas_text};
ghost use Rattle.nomos_deeds.specs.Readers.{IsTransaction};
ghost use Rattle.nomos_machine.specs.State.{State};
ghost use Rattle.nomos_machine.specs.TypedState.{IsTyped};
ghost use Rattle.nomos_legal.specs.StandsFor.{WorldStandsFor};
ghost use Rattle.nomos_legal.specs.World.{ledger_begun};
ghost use Rattle.nomos_printing.specs.End.{end_text};
ghost use Rattle.nomos_report.specs.ReportLines.{line_of};
ghost use Rattle.nomos_report.specs.Reported.{HasNoFirings, end_lines, firings_text, result_line};

use crate::left::{push_left, push_waits};
use crate::report_lines::{push_amount_line, push_counted, push_front};
use nomos_deeds::machine::Machine;
use nomos_deeds::undo::Undo;
use nomos_ir::value::Value;
use nomos_ledger::world::World;
use nomos_legal::journal::End;
use nomos_printing::end::push_end;
use nomos_printing::value_texts::push_value;
use nomos_types::accepted::Accepted;
use std::alloc::AllocError;

/// Where a batch began: its line, and what was spent before it, in Dths.
#[derive(Clone, Copy, Debug)]
pub struct Outset {
    pub line: u32,
    pub spent: u128,
}

// How far a batch came: its line, the number of its firings, what was spent before them, in Dths, and a number below
// that of each transaction that is left.
#[derive(Clone, Copy)]
struct Course {
    line: u32,
    count: u64,
    spent: u128,
    before: u32,
}

// Appends a result.
fn push_result(text: &mut Vec<u8>, pid: u32, value: &Value) -> Result<(), AllocError>
    ensures { OnOk result (text.new.items ≡ text.old.items ++ result_line (pid, value.now)) }
{
    push_counted(text, b"result ", u64::from(pid))?;
    text.push(b' ')?;
    push_value(text, value)?;
    text.push(b'\n')?;
    Ok(())
}

// Appends the results, in order.
fn push_results(text: &mut Vec<u8>, results: &[(u32, Value)]) -> Result<(), AllocError>
    ensures { OnOk result (text.new.items ≡ text.old.items ++ flat_map result_line results.now) }
{
    for (pid, value) in results {
        push_result(text, *pid, value)?;
    }
    Ok(())
}

// Appends the line of an end without a count of firings.
fn push_end_line(text: &mut Vec<u8>, unit: u32, line: u32, end: &End) -> Result<(), AllocError>
    ensures { OnOk result (text.new.items ≡ text.old.items ++ line_of line (end_text unit end.now)) }
{
    push_front(text, line)?;
    push_end(text, unit, end)?;
    text.push(b'\n')?;
    Ok(())
}

// Appends the line of an end with the count of its firings, without what comes behind that.
fn push_course(text: &mut Vec<u8>, unit: u32, course: Course, end: &End) -> Result<(), AllocError>
    ensures { OnOk result (text.new.items
        ≡ text.old.items ++ (codes "line " ++ decimal course.line ++ codes " "
        ++ (end_text unit end.now ++ firings_text course.count))) }
{
    push_front(text, course.line)?;
    push_end(text, unit, end)?;
    push_counted(text, b" firings ", course.count)
}

// Appends the lines of a batch that stays.
fn push_committed<M: Machine>(
    text: &mut Vec<u8>,
    unit: u32,
    machine: &M,
    course: Course,
) -> Result<(), AllocError>
    ensures { OnOk result (text.new.items
        ≡ text.old.items ++ (line_of course.line
        (end_text unit End.Committed ++ firings_text course.count ++ codes " spent "
        ++ gas_text ((M.state machine.now).spent - course.spent) unit)
        ++ flat_map result_line (M.state machine.now).results)) }
{
    push_course(text, unit, course, &End::Committed)?;
    let spent = machine.spent().saturating_sub(course.spent);
    push_amount_line(text, b" spent ", spent, unit)?;
    push_results(text, machine.results())
}

// Appends the lines of a batch that is blocked.
fn push_blocked<M: Machine>(
    text: &mut Vec<u8>,
    accepted: &Accepted,
    machine: &M,
    course: Course,
) -> Result<(), AllocError>
    requires typed { IsTyped accepted.now (M.state machine.now) }
    requires over { (pid : ℕ) → IsTransaction (M.state machine.now).objects pid → course.before < pid }
    ensures { OnOk result (text.new.items
        ≡ text.old.items ++ end_lines accepted.now course.line course.count course.spent
        (M.state machine.now) End.Blocked) }
{
    push_course(text, accepted.unit(), course, &End::Blocked)?;
    text.push(b'\n')?;
    push_left(text, machine, course.before)?;
    push_waits(text, accepted, machine)
}

// Appends the line of a batch of which a process had a fault.
fn push_aborted(text: &mut Vec<u8>, unit: u32, course: Course, end: &End) -> Result<(), AllocError>
    ensures { OnOk result (text.new.items
        ≡ text.old.items ++ line_of course.line (end_text unit end.now ++ firings_text course.count)) }
{
    push_course(text, unit, course, end)?;
    text.push(b'\n')?;
    Ok(())
}

// Appends the lines of an end.
fn push_course_end<M: Machine>(
    text: &mut Vec<u8>,
    accepted: &Accepted,
    machine: &M,
    course: Course,
    end: &End,
) -> Result<(), AllocError>
    requires typed { IsTyped accepted.now (M.state machine.now) }
    requires over { (pid : ℕ) → IsTransaction (M.state machine.now).objects pid → course.before < pid }
    ensures { OnOk result (text.new.items
        ≡ text.old.items ++ end_lines accepted.now course.line course.count course.spent
        (M.state machine.now) end.now) }
{
    match end {
        End::Committed => push_committed(text, accepted.unit(), machine, course),
        End::Blocked => push_blocked(text, accepted, machine, course),
        End::Aborted(_, _) => push_aborted(text, accepted.unit(), course, end),
        End::Deposited | End::Steps(_) | End::Refused(_, _) => {
            push_end_line(text, accepted.unit(), course.line, end)
        }
    }
}

/// Appends the line of a deposit, or of a batch of which a line is refused: `deposited`, or `refused` with its cause.
/// It is what is printed of this end whatever the states are.
pub fn push_still_end(
    text: &mut Vec<u8>,
    accepted: &Accepted,
    line: u32,
    end: &End,
) -> Result<(), AllocError>
    requires { HasNoFirings end.now }
    ensures { (count spent : ℕ) (last : State) → OnOk result
        (text.new.items ≡ text.old.items ++ end_lines accepted.now line count spent last end.now) }
{
    push_end_line(text, accepted.unit(), line, end)
}

/// Appends the lines of a batch that ended so: of one that stays what it spent and its results, of one that is blocked
/// what is left and who waits for whom (docs/TEXTS.md, "The report"). Where the batch began is to be read of the ledger
/// that it began from.
pub fn push_batch_end<M: Undo>(
    text: &mut Vec<u8>,
    accepted: &Accepted,
    world: &World<M>,
    outset: Outset,
    end: &End,
) -> Result<(), AllocError>
    requires stands { WorldStandsFor accepted.now world.now }
    requires spent { outset.spent ≡ world.now.origin.state.spent }
    ensures { OnOk result (text.new.items
        ≡ text.old.items ++ end_lines accepted.now outset.line (length world.now.firings)
        (ledger_begun accepted.now world.now).state.spent world.now.state end.now) }
{
    accepted.know();
    let course = Course {
        line: outset.line,
        count: world.firings().len() as u64,
        spent: outset.spent,
        before: world.before_transactions(accepted),
    };
    push_course_end(text, accepted, world.state(), course, end)
}
