//! The lines of firings, by the instructions at which they were made.

ghost use Rattle.std.specs.Prelude.{◌≡◌, ◌++◌, All, OnOk};
ghost use Rattle.nomos_ir.specs.CodeParts.{code_amounts};
ghost use Rattle.nomos_types.specs.Acceptance.{IsAmountOf};
ghost use Rattle.nomos_legal.specs.World.{pids_of};
ghost use Rattle.std.specs.Option.{option_to_list};
ghost use Rattle.nomos_journal.specs.JournalText.{fired_line, placed_line, placed_lines};
ghost use Rattle.nomos_journal.specs.Text.{lines_text};

use crate::line::{JournalLine, push_line};
use nomos_ir::code_node::CodeNode;
use nomos_ir::find::find_code;
use nomos_ir::ids::CodeId;
use nomos_legal::journal::Firing;
use nomos_types::accepted::Accepted;
use std::alloc::AllocError;

// The line of a firing of this process at an instruction.
fn fired_line(accepted: &Accepted, pid: u32, node: &CodeNode) -> JournalLine
    requires { All (IsAmountOf accepted.now.program) (code_amounts node.now) }
    ensures { result ≡ fired_line accepted.now.annotations pid node.now }
{
    match node {
        CodeNode::Work(_, gas, _) => JournalLine::Worked(pid, accepted.amount(*gas)),
        other => JournalLine::Fired(pid, other.form()),
    }
}

/// The line of version 2 of a firing of the process of this number at the instruction of this number, if the program
/// has it.
pub fn placed_line(accepted: &Accepted, pid: u32, place: CodeId) -> Option<JournalLine>
    ensures { result ≡ placed_line accepted.now pid place }
{
    let node = find_code(accepted.program().lists(), place)?;
    Some(fired_line(accepted, pid, node))
}

// Appends the line of a firing at an instruction, with its line feed.
fn push_placed(
    text: &mut Vec<u8>,
    accepted: &Accepted,
    pid: u32,
    place: CodeId,
) -> Result<(), AllocError>
    ensures { OnOk result (text.new.items ≡ text.old.items
        ++ lines_text accepted.now.annotations.unit (option_to_list (placed_line accepted.now pid place))) }
{
    match placed_line(accepted, pid, place) {
        Some(line) => push_line(text, accepted.unit(), &line),
        None => Ok(()),
    }
}

/// Appends the lines of version 2 of firings at these instructions, one for each firing. Firings past the last
/// instruction have none, and neither has one at an instruction that the program lacks.
pub fn push_firings(
    text: &mut Vec<u8>,
    accepted: &Accepted,
    firings: &[Firing],
    places: &[CodeId],
) -> Result<(), AllocError>
    ensures { OnOk result (text.new.items ≡ text.old.items
        ++ lines_text accepted.now.annotations.unit (placed_lines accepted.now (pids_of firings.now) places.now)) }
{
    let mut left = places;
    for firing in firings {
        let [place, after @ ..] = left else {
            return Ok(());
        };
        push_placed(text, accepted, firing.pid, *place)?;
        left = after;
    }
    Ok(())
}
