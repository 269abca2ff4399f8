//! The line of a journal's refusal.

ghost use Rattle.std.specs.Prelude.{◌≡◌, ◌++◌, ◌∷◌, [], codes, decimal, OnOk};
ghost use Rattle.nomos_printing.specs.End.{end_text};
ghost use Rattle.nomos_replay.specs.Refusal.{cause_of, found_text, refusal_line};

use crate::error::ReplayError;
use nomos_legal::journal::End;
use nomos_printing::end::push_end;
use nomos_printing::number::push_number;
use std::alloc::AllocError;

// Appends a word and the number of a line.
fn push_at(text: &mut Vec<u8>, word: &[u8], at: u32) -> Result<(), AllocError>
    ensures { OnOk result (text.new.items ≡ text.old.items ++ (word.now ++ decimal at)) }
{
    text.extend_from_slice(word)?;
    push_number(text, u64::from(at))
}

// Appends a word, the number of a line, and that of a process.
fn push_process(text: &mut Vec<u8>, word: &[u8], at: u32, pid: u32) -> Result<(), AllocError>
    ensures { OnOk result (text.new.items ≡ text.old.items ++ (word.now ++ decimal at ++ codes " " ++ decimal pid)) }
{
    push_at(text, word, at)?;
    push_at(text, b" ", pid)
}

// Appends the end that is found, or that the batch is running.
fn push_found(text: &mut Vec<u8>, unit: u32, found: &Option<End>) -> Result<(), AllocError>
    ensures { OnOk result (text.new.items ≡ text.old.items ++ found_text unit found.now) }
{
    match found {
        Some(end) => push_end(text, unit, end),
        None => {
            text.extend_from_slice(b"running")?;
            Ok(())
        }
    }
}

// An end that is kept in a line, and the one that is found.
#[derive(Clone, Copy)]
struct Ends<'a> {
    at: u32,
    kept: &'a End,
    found: &'a Option<End>,
}

// Appends that the end in a line is another one than is found.
fn push_wrong_end(text: &mut Vec<u8>, unit: u32, ends: Ends<'_>) -> Result<(), AllocError>
    ensures { OnOk result (text.new.items ≡ text.old.items
        ++ (codes "WrongEnd " ++ decimal ends.entry.at ++ codes " kept " ++ end_text unit ends.entry.kept.now
        ++ codes " found " ++ found_text unit ends.entry.found.now)) }
{
    push_at(text, b"WrongEnd ", ends.at)?;
    text.extend_from_slice(b" kept ")?;
    push_end(text, unit, ends.kept)?;
    text.extend_from_slice(b" found ")?;
    push_found(text, unit, ends.found)
}

// Appends the cause of a refusal.
fn push_cause(text: &mut Vec<u8>, unit: u32, error: &ReplayError) -> Result<(), AllocError>
    ensures { OnOk result (text.new.items ≡ text.old.items ++ cause_of unit error.now) }
{
    match error {
        ReplayError::TooLong => {
            text.extend_from_slice(b"TooLong")?;
            Ok(())
        }
        ReplayError::BadLine(at) => push_at(text, b"BadLine ", *at),
        ReplayError::NotEnabled(at, pid) => push_process(text, b"NotEnabled ", *at, *pid),
        ReplayError::WrongFiring(at, pid) => push_process(text, b"WrongFiring ", *at, *pid),
        ReplayError::WrongEnd { line, kept, found } => {
            let ends = Ends {
                at: *line,
                kept,
                found,
            };
            push_wrong_end(text, unit, ends)
        }
        ReplayError::NoMemory => Ok(()),
    }
}

// Appends the line of a refusal with its cause.
fn push_refused(text: &mut Vec<u8>, unit: u32, error: &ReplayError) -> Result<(), AllocError>
    ensures { OnOk result (text.new.items
        ≡ text.old.items ++ (codes "journal refused " ++ cause_of unit error.now ++ 10 ∷ [])) }
{
    text.extend_from_slice(b"journal refused ")?;
    push_cause(text, unit, error)?;
    text.push(b'\n')?;
    Ok(())
}

/// Appends the line of a refusal, where a unit of gas has so many parts (docs/TEXTS.md, "How a journal is read"). Want
/// of memory has no line.
pub fn push_refusal(text: &mut Vec<u8>, unit: u32, error: &ReplayError) -> Result<(), AllocError>
    ensures { OnOk result (text.new.items ≡ text.old.items ++ refusal_line unit error.now) }
{
    match error {
        ReplayError::NoMemory => Ok(()),
        _ => push_refused(text, unit, error),
    }
}
