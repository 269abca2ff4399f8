//! The text in version 1 of a journal that is there. A line of a firing says its process alone, so no state is needed.

ghost use Rattle.std.specs.Prelude.{◌≡◌, ◌∷◌, ◌++◌, [], map, IfOk, OnOk};
ghost use Rattle.std.specs.List.{flat_map};
ghost use Rattle.nomos_journal.specs.Text.{lines_text};
ghost use Rattle.nomos_journal.specs.declared.line.JournalLine.TheVariants as line;
ghost use Rattle.nomos_replay.specs.mirror.VersionOne.{entry_lines_in_one, lines_in_one};

use nomos_journal::line::{JournalLine, Version, push_line};
use nomos_legal::journal::{End, Entry, Journal};
use nomos_printing::end::push_end;
use std::alloc::{AllocError, Global};

// Appends the lines of firings of these processes.
fn push_pids(text: &mut Vec<u8>, unit: u32, pids: &[u32]) -> Result<(), AllocError>
    ensures { OnOk result (text.new.items ≡ text.old.items ++ lines_text unit (map line.Pid pids.now)) }
{
    for pid in pids {
        push_line(text, unit, &JournalLine::Pid(*pid))?;
    }
    Ok(())
}

// Appends the line of an end.
fn push_end_line(text: &mut Vec<u8>, unit: u32, end: &End) -> Result<(), AllocError>
    ensures { OnOk result (text.new.items ≡ text.old.items ++ lines_text unit (line.End end.now ∷ [])) }
{
    text.extend_from_slice(b"end ")?;
    push_end(text, unit, end)?;
    text.push(b'\n')?;
    Ok(())
}

// Appends the lines of an entry.
fn push_entry(text: &mut Vec<u8>, unit: u32, entry: &Entry) -> Result<(), AllocError>
    ensures { OnOk result (text.new.items ≡ text.old.items ++ lines_text unit (entry_lines_in_one entry.now)) }
{
    push_line(text, unit, &JournalLine::Line(entry.line))?;
    push_pids(text, unit, entry.firings.as_slice())?;
    push_end_line(text, unit, &entry.end)
}

// Appends the lines of entries.
fn push_entries(text: &mut Vec<u8>, unit: u32, entries: &[Entry]) -> Result<(), AllocError>
    ensures { OnOk result (text.new.items
        ≡ text.old.items ++ lines_text unit (flat_map entry_lines_in_one entries.now)) }
{
    for entry in entries {
        push_entry(text, unit, entry)?;
    }
    Ok(())
}

/// The text in version 1 of a journal, where a unit of gas has so many parts.
pub(crate) fn text_in_one(
    alloc: Global,
    unit: u32,
    journal: &Journal,
) -> Result<Vec<u8>, AllocError>
    ensures { IfOk result (λ text. text.items ≡ lines_text unit (lines_in_one journal.now)) }
{
    let mut text = Vec::new(alloc);
    push_line(&mut text, unit, &JournalLine::Head(Version::One))?;
    push_line(&mut text, unit, &JournalLine::Steps(journal.limit))?;
    push_entries(&mut text, unit, journal.entries.as_slice())?;
    Ok(text)
}
