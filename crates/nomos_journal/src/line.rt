//! The lines of a journal's text, and how they are written.

ghost use Rattle.std.specs.Prelude.{◌≡◌, ◌++◌, ◌∷◌, [], codes, decimal, OnOk};
ghost use Rattle.nomos_ir.specs.CodeForm.{form_name};
ghost use Rattle.nomos_journal.specs.Line.{head_text, line_text};

use nomos_ir::code_form::CodeForm;
use nomos_legal::journal::End;
use nomos_printing::end::push_end;
use nomos_printing::number::push_number;
use std::alloc::AllocError;

/// The version of a journal's text: what the line of a firing says.
#[derive(Clone, Copy, PartialEq, Eq, Debug)]
pub enum Version {
    /// The number of the process alone.
    One,
    /// The number of the process and the instruction.
    Two,
}

/// A line of a journal's text.
#[derive(Drop, Debug)]
pub enum JournalLine {
    /// The first line, which says the version.
    Head(Version),
    /// The most firings that a batch could make.
    Steps(u32),
    /// The line of the script at which a deposit or a batch stands.
    Line(u32),
    /// A firing of version 1: the number of the process.
    Pid(u32),
    /// A firing of version 2 at a `work`: the number of the process, and the gas in Dths.
    Worked(u32, u64),
    /// A firing of version 2 at another instruction: the number of the process, and the form.
    Fired(u32, CodeForm),
    /// How the deposit or the batch ended.
    End(End),
}

// Appends a word and a number.
fn push_counted(text: &mut Vec<u8>, word: &[u8], n: u64) -> Result<(), AllocError>
    ensures { OnOk result (text.new.items ≡ text.old.items ++ (word.now ++ decimal n)) }
{
    text.extend_from_slice(word)?;
    push_number(text, n)
}

// The first line of a text of this version.
fn head(version: Version) -> &'static [u8]
    ensures { result.now ≡ head_text version }
{
    match version {
        Version::One => b"nomos-journal 1",
        Version::Two => b"nomos-journal 2",
    }
}

// Appends the first line.
fn push_head(text: &mut Vec<u8>, version: Version) -> Result<(), AllocError>
    ensures { OnOk result (text.new.items ≡ text.old.items ++ head_text version) }
{
    text.extend_from_slice(head(version))?;
    Ok(())
}

// Appends a firing at a `work`.
fn push_worked(text: &mut Vec<u8>, pid: u32, gas: u64) -> Result<(), AllocError>
    ensures { OnOk result (text.new.items ≡ text.old.items ++ (decimal pid ++ codes " work " ++ decimal gas)) }
{
    push_number(text, u64::from(pid))?;
    push_counted(text, b" work ", gas)
}

// Appends a firing at another instruction.
fn push_fired(text: &mut Vec<u8>, pid: u32, form: CodeForm) -> Result<(), AllocError>
    ensures { OnOk result (text.new.items ≡ text.old.items ++ (decimal pid ++ codes " " ++ form_name form)) }
{
    push_number(text, u64::from(pid))?;
    text.push(b' ')?;
    text.extend_from_slice(form.name().as_bytes())?;
    Ok(())
}

// Appends how a deposit or a batch ended.
fn push_ended(text: &mut Vec<u8>, unit: u32, end: &End) -> Result<(), AllocError>
    ensures { OnOk result (text.new.items ≡ text.old.items ++ line_text unit (JournalLine.End end.now)) }
{
    text.extend_from_slice(b"end ")?;
    push_end(text, unit, end)
}

// Appends a line without its line feed.
fn push_bare(text: &mut Vec<u8>, unit: u32, line: &JournalLine) -> Result<(), AllocError>
    ensures { OnOk result (text.new.items ≡ text.old.items ++ line_text unit line.now) }
{
    match line {
        JournalLine::Head(version) => push_head(text, *version),
        JournalLine::Steps(steps) => push_counted(text, b"steps ", u64::from(*steps)),
        JournalLine::Line(at) => push_counted(text, b"line ", u64::from(*at)),
        JournalLine::Pid(pid) => push_number(text, u64::from(*pid)),
        JournalLine::Worked(pid, gas) => push_worked(text, *pid, *gas),
        JournalLine::Fired(pid, form) => push_fired(text, *pid, *form),
        JournalLine::End(end) => push_ended(text, unit, end),
    }
}

/// Appends a line with its line feed, where a unit of gas has so many parts.
pub fn push_line(text: &mut Vec<u8>, unit: u32, line: &JournalLine) -> Result<(), AllocError>
    ensures { OnOk result (text.new.items ≡ text.old.items ++ (line_text unit line.now ++ 10 ∷ [])) }
{
    push_bare(text, unit, line)?;
    text.push(b'\n')?;
    Ok(())
}
