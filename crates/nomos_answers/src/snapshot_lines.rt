//! The lines that are due where a ledger is not saved, or a text is not loaded.

ghost use Rattle.std.specs.Prelude.{◌≡◌, ◌++◌, IfOk, IfErr, decimal};
ghost use Rattle.nomos_answers.specs.Finding.{IsBare};
ghost use Rattle.nomos_answers.specs.DueLines.{no_entries};
ghost use Rattle.nomos_answers.specs.SnapshotLines.{snapshot_refusal, unloaded_line, unsaved_line};
ghost use Rattle.nomos_words.specs.Options.{usual_limit};

use crate::due::{Due, bare_due, no_entries};
use nomos_base::push_gas;
use nomos_ir::limits::USUAL_LIMIT;
use nomos_legal::journal::Journal;
use nomos_printing::number::push_number;
use nomos_snapshot::error::{LoadError, SaveError};
use std::alloc::{AllocError, Global};

/// The line of a ledger that is not saved. Want of memory has none.
pub fn unsaved_line(alloc: Global, why: &SaveError) -> Result<Vec<u8>, AllocError>
    ensures { IfOk result (λ text. text.items ≡ unsaved_line why.now) }
{
    match why {
        SaveError::Numbers(object, name) => numbers_line(alloc, *object, *name),
        SaveError::TooLong => Vec::from_slice(alloc, b"snapshot refused TooLong\n"),
        SaveError::NoMemory => Ok(Vec::new(alloc)),
    }
}

// The line of a ledger whose next numbers leave no room.
fn numbers_line(alloc: Global, object: u32, name: u32) -> Result<Vec<u8>, AllocError>
    ensures { IfOk result (λ text. text.items ≡ unsaved_line (SaveError.Numbers object name)) }
{
    let mut text = Vec::from_slice(alloc, b"snapshot refused Numbers ")?;
    push_number(&mut text, u64::from(object))?;
    text.push(b' ')?;
    push_number(&mut text, u64::from(name))?;
    text.push(b'\n')?;
    Ok(text)
}

// The line of a snapshot that is refused for a cause with a number. The cause ends with a blank.
fn numbered_line(alloc: Global, cause: &[u8], number: u32) -> Result<Vec<u8>, AllocError>
    ensures { IfOk result (λ text. text.items ≡ snapshot_refusal (cause.now ++ decimal number)) }
{
    let mut text = Vec::from_slice(alloc, b"snapshot refused ")?;
    text.extend_from_slice(cause)?;
    push_number(&mut text, u64::from(number))?;
    text.push(b'\n')?;
    Ok(text)
}

// The line of a snapshot whose gas, in Dths, no deposits are.
fn gas_line(alloc: Global, dths: u128) -> Result<Vec<u8>, AllocError>
    ensures { IfOk result (λ text. text.items ≡ unloaded_line (LoadError.Gas dths)) }
{
    let mut text = Vec::from_slice(alloc, b"snapshot refused Gas ")?;
    // Where a unit is one Dth, an amount is written as its Dths.
    push_gas(&mut text, dths, 1)?;
    text.push(b'\n')?;
    Ok(text)
}

// The line of a text that is not loaded. Want of memory has none.
fn unloaded_line(alloc: Global, why: &LoadError) -> Result<Vec<u8>, AllocError>
    ensures { IfOk result (λ text. text.items ≡ unloaded_line why.now) }
{
    match why {
        LoadError::TooLong => Vec::from_slice(alloc, b"snapshot refused TooLong\n"),
        LoadError::BadLine(line) => numbered_line(alloc, b"BadLine ", *line),
        LoadError::NotTyped => Vec::from_slice(alloc, b"snapshot refused NotTyped\n"),
        LoadError::Gas(dths) => gas_line(alloc, *dths),
        LoadError::NotQuiet(pid) => numbered_line(alloc, b"NotQuiet ", *pid),
        LoadError::NoMemory => Ok(Vec::new(alloc)),
    }
}

/// What is due of a snapshot that is not loaded.
pub fn unloaded_due(alloc: Global, why: &LoadError) -> Result<Due, Journal>
    ensures ok { IfOk result (λ due. IsBare due 11 (unloaded_line why.now) usual_limit) }
    ensures err { IfErr result (λ journal. journal ≡ no_entries usual_limit) }
{
    match unloaded_line(alloc, why) {
        Ok(out) => Ok(bare_due(alloc, USUAL_LIMIT, 11, out)),
        Err(_) => Err(no_entries(alloc, USUAL_LIMIT)),
    }
}
