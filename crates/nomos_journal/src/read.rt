//! How a line of a journal's text is read.

ghost use Rattle.std.specs.Prelude.{◌≡◌, ℕ, IfOk};
ghost use Rattle.nomos_printing.specs.ReadAs.{ReadsAs};
ghost use Rattle.nomos_journal.specs.Line.{line_text, IsLine};
ghost use Rattle.nomos_journal.specs.mirror.JournalLineKinds.{IsFiredBy, IsFiring, IsShortLine, fired_text};

use crate::form_names::read_gasless;
use crate::line::{JournalLine, Version};
use nomos_printing::end::read_end;
use nomos_printing::number::{read_u32, read_u64};
use nomos_printing::splitting::{behind, is_word, split_once};
use std::alloc::{AllocError, Global};

// What a process fired, behind its number.
fn read_fired(pid: u32, text: &[u8]) -> Option<JournalLine>
    ensures { ReadsAs (IsFiredBy pid) fired_text text.now result }
{
    if let Some(gas) = behind(text, b"work ") {
        return Some(JournalLine::Worked(pid, read_u64(gas)?));
    }
    Some(JournalLine::Fired(pid, read_gasless(text)?))
}

// A firing of either version.
fn read_firing(text: &[u8]) -> Option<JournalLine>
    ensures { (unit : ℕ) → ReadsAs IsFiring (line_text unit) text.now result }
{
    let Some((pid, fired)) = split_once(text, b' ') else {
        return Some(JournalLine::Pid(read_u32(text)?));
    };
    read_fired(read_u32(pid)?, fired)
}

// A line other than that of an end.
fn read_short(text: &[u8]) -> Option<JournalLine>
    ensures { (unit : ℕ) → ReadsAs IsShortLine (line_text unit) text.now result }
{
    if let Some(at) = behind(text, b"line ") {
        return Some(JournalLine::Line(read_u32(at)?));
    }
    if let Some(steps) = behind(text, b"steps ") {
        return Some(JournalLine::Steps(read_u32(steps)?));
    }
    if is_word(text, b"nomos-journal 2") {
        return Some(JournalLine::Head(Version::Two));
    }
    if is_word(text, b"nomos-journal 1") {
        return Some(JournalLine::Head(Version::One));
    }
    read_firing(text)
}

/// The line that a text is without its line feed, where a unit of gas has so many parts; none where it is no line,
/// numbers over their bits and leading zeros included.
pub fn read_line(alloc: Global, unit: u32, text: &[u8]) -> Result<Option<JournalLine>, AllocError>
    ensures { IfOk result (λ line. ReadsAs IsLine (line_text unit) text.now line) }
{
    let Some(end) = behind(text, b"end ") else {
        return Ok(read_short(text));
    };
    match read_end(alloc, unit, end)? {
        Some(end) => Ok(Some(JournalLine::End(end))),
        None => Ok(None),
    }
}
