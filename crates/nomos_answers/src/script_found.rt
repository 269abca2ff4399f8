//! What is found of a script, and what is due where there is none.

ghost use Rattle.std.specs.Prelude.{◌≡◌, ℕ, List, ◌++◌, IfOk, IfErr, decimal};
ghost use Rattle.nomos_answers.specs.Finding.{Finds, FindsIn, IsBare, IsBareOf, IsMissing};
ghost use Rattle.nomos_answers.specs.DueLines.{no_entries, script_refusal};
ghost use Rattle.nomos_answers.specs.Outside.{FaultCounts, Input, source_state};

use crate::due::{Due, bare_due, line_due, no_entries};
use nomos_base::{ReadError, Source, read_all};
use nomos_ir::limits::TEXT_LIMIT;
use nomos_legal::journal::Journal;
use nomos_printing::number::push_number;
use nomos_script::parsing::{ScriptError, parse_script};
use nomos_script::script::Script;
use std::alloc::{AllocError, Global};

/// Why there is no script.
#[derive(Clone, Copy)]
pub enum NoScript {
    TooLong,
    /// The line that it is refused at.
    Syntax(u32),
    ReadFault,
    NoMemory,
}

/// The script of a text.
pub fn script_of(alloc: Global, text: &[u8]) -> Result<Script, NoScript>
    ensures { (counts : FaultCounts) → FindsIn (record { text = text.now; counts = counts }) result }
{
    match parse_script(alloc, text) {
        Ok(script) => Ok(script),
        Err(ScriptError::TooLong) => Err(NoScript::TooLong),
        Err(ScriptError::Syntax(line)) => Err(NoScript::Syntax(line)),
        Err(ScriptError::NoMemory) => Err(NoScript::NoMemory),
    }
}

/// The script that a source has.
pub fn read_script<S: Source>(alloc: Global, script: &mut S) -> Result<Script, NoScript>
    ensures { Finds (source_state (S.left script.old) (S.faults script.old) (S.faults script.new)) result }
{
    match read_all(alloc, script, TEXT_LIMIT) {
        Ok(text) => script_of(alloc, &text),
        Err(ReadError::TooLong) => Err(NoScript::TooLong),
        Err(ReadError::ReadFault) => Err(NoScript::ReadFault),
        Err(ReadError::NoMemory) => Err(NoScript::NoMemory),
    }
}

// The line of a script that is refused for a cause at a line.
fn refusal_at(alloc: Global, cause: &[u8], line: u32) -> Result<Vec<u8>, AllocError>
    ensures { IfOk result (λ text. text.items ≡ script_refusal (cause.now ++ decimal line)) }
{
    let mut text = Vec::from_slice(alloc, b"script refused ")?;
    text.extend_from_slice(cause)?;
    push_number(&mut text, u64::from(line))?;
    text.push(b'\n')?;
    Ok(text)
}

/// What is due of a script that is refused for a cause at a line. The cause ends with a blank.
pub fn refused_at_due(alloc: Global, limit: u32, cause: &[u8], line: u32) -> Result<Due, Journal>
    ensures ok { IfOk result (λ due. IsBare due 2 (script_refusal (cause.now ++ decimal line)) limit) }
    ensures err { IfErr result (λ journal. journal ≡ no_entries limit) }
{
    match refusal_at(alloc, cause, line) {
        Ok(out) => Ok(bare_due(alloc, limit, 2, out)),
        Err(_) => Err(no_entries(alloc, limit)),
    }
}

/// What is due where there is no script.
pub fn no_script_due(alloc: Global, limit: u32, why: NoScript) -> Result<Due, Journal>
    ensures ok { (script : Input) → IsMissing script why → IfOk result (IsBareOf script limit) }
    ensures err { IfErr result (λ journal. journal ≡ no_entries limit) }
{
    match why {
        NoScript::TooLong => line_due(alloc, limit, 2, b"script refused TooLong\n"),
        NoScript::Syntax(line) => refused_at_due(alloc, limit, b"Syntax ", line),
        NoScript::ReadFault => line_due(alloc, limit, 5, b"read fault script\n"),
        NoScript::NoMemory => Err(no_entries(alloc, limit)),
    }
}
