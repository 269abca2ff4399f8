//! The lines of a journal's text, entry by entry.
ghost use Rattle.std.specs.Prelude.{◌≡◌, ◌∷◌, ◌++◌, [], OnOk};
ghost use Rattle.nomos_legal.specs.World.{pids_of};
ghost use Rattle.nomos_journal.specs.JournalText.{placed_lines};
ghost use Rattle.nomos_journal.specs.Text.{lines_text};

use nomos_deeds::undo::Undo;
use nomos_journal::firing_lines::push_firings;
use nomos_journal::line::{JournalLine, Version, push_line};
use nomos_ledger::world::World;
use nomos_legal::journal::End;
use nomos_printing::end::push_end;
use nomos_types::accepted::Accepted;
use std::alloc::AllocError;

/// Appends the first two lines of the text of a journal whose batches may make so many firings.
pub(crate) fn push_front(text: &mut Vec<u8>, unit: u32, limit: u32) -> Result<(), AllocError>
    ensures { OnOk result (text.new.items ≡ text.old.items
        ++ lines_text unit (JournalLine.Head Version.Two ∷ JournalLine.Steps limit ∷ [])) }
{
    push_line(text, unit, &JournalLine::Head(Version::Two))?;
    push_line(text, unit, &JournalLine::Steps(limit))?;
    Ok(())
}

// Appends the line of an end.
fn push_end_line(text: &mut Vec<u8>, unit: u32, end: &End) -> Result<(), AllocError>
    ensures { OnOk result (text.new.items ≡ text.old.items ++ lines_text unit (JournalLine.End end.now ∷ [])) }
{
    text.extend_from_slice(b"end ")?;
    push_end(text, unit, end)?;
    text.push(b'\n')?;
    Ok(())
}

/// Appends the lines of an entry without firings, which stands at a line of the script.
pub(crate) fn push_still_entry(
    text: &mut Vec<u8>,
    unit: u32,
    line: u32,
    end: &End,
) -> Result<(), AllocError>
    ensures { OnOk result (text.new.items ≡ text.old.items
        ++ lines_text unit (JournalLine.Line line ∷ JournalLine.End end.now ∷ [])) }
{
    push_line(text, unit, &JournalLine::Line(line))?;
    push_end_line(text, unit, end)
}

/// Appends the lines of a batch, which stands at a line of the script, has come to this world and ended so.
pub(crate) fn push_batch_entry<M: Undo>(
    text: &mut Vec<u8>,
    accepted: &Accepted,
    world: &World<M>,
    line: u32,
    end: &End,
) -> Result<(), AllocError>
    ensures { OnOk result (text.new.items ≡ text.old.items
        ++ lines_text accepted.now.annotations.unit (JournalLine.Line line
        ∷ (placed_lines accepted.now (pids_of world.now.firings) world.now.places ++ JournalLine.End end.now ∷ []))) }
{
    let unit = accepted.unit();
    push_line(text, unit, &JournalLine::Line(line))?;
    push_firings(text, accepted, world.firings(), world.places())?;
    push_end_line(text, unit, end)
}
