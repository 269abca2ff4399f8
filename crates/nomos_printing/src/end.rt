//! Ends of deposits and batches, as text.

ghost use Rattle.std.specs.Prelude.{◌≡◌, ◌++◌, ℕ, codes, decimal, OnOk, IfOk};
ghost use Rattle.nomos_printing.specs.Cause.{cause_text, fault_text};
ghost use Rattle.nomos_printing.specs.End.{end_text, IsEnd};
ghost use Rattle.nomos_printing.specs.ReadAs.{ReadsAs};
ghost use Rattle.nomos_printing.specs.mirror.PlainEnds.{IsPlainEnd};

use crate::cause::{push_cause, read_cause};
use crate::fault_texts::{push_fault, read_fault};
use crate::number::{push_number, read_u32};
use crate::splitting::{behind, is_word, split_once};
use nomos_ir::fault::Fault;
use nomos_legal::journal::End;
use nomos_legal::refusal::Refusal;
use std::alloc::{AllocError, Global};

// Appends a word and a number.
fn push_counted(text: &mut Vec<u8>, word: &[u8], count: u32) -> Result<(), AllocError>
    ensures { OnOk result (text.new.items ≡ text.old.items ++ (word.now ++ decimal count)) }
{
    text.extend_from_slice(word)?;
    push_number(text, u64::from(count))
}

// Appends that a process had a fault.
fn push_aborted(text: &mut Vec<u8>, pid: u32, fault: Fault) -> Result<(), AllocError>
    ensures { OnOk result (text.new.items
        ≡ text.old.items ++ (codes "aborted " ++ decimal pid ++ codes " " ++ fault_text fault)) }
{
    push_counted(text, b"aborted ", pid)?;
    text.push(b' ')?;
    push_fault(text, fault)
}

// Appends that a line is refused.
fn push_refused(text: &mut Vec<u8>, unit: u32, line: u32, cause: &Refusal) -> Result<(), AllocError>
    ensures { OnOk result (text.new.items
        ≡ text.old.items ++ (codes "refused at " ++ decimal line ++ codes " " ++ cause_text unit cause.now)) }
{
    push_counted(text, b"refused at ", line)?;
    text.push(b' ')?;
    push_cause(text, unit, cause)
}

// Appends a word.
fn push_word(text: &mut Vec<u8>, word: &[u8]) -> Result<(), AllocError>
    ensures { OnOk result (text.new.items ≡ text.old.items ++ word.now) }
{
    text.extend_from_slice(word)?;
    Ok(())
}

/// Appends how a deposit or a batch ended, where a unit of gas has so many parts.
pub fn push_end(text: &mut Vec<u8>, unit: u32, end: &End) -> Result<(), AllocError>
    ensures { OnOk result (text.new.items ≡ text.old.items ++ end_text unit end.now) }
{
    match end {
        End::Deposited => push_word(text, b"deposited"),
        End::Committed => push_word(text, b"committed"),
        End::Blocked => push_word(text, b"blocked"),
        End::Aborted(pid, fault) => push_aborted(text, *pid, *fault),
        End::Steps(steps) => push_counted(text, b"steps ", *steps),
        End::Refused(line, cause) => push_refused(text, unit, *line, cause),
    }
}

// That a process had a fault, behind the word for it.
fn read_aborted(text: &[u8]) -> Option<End>
    ensures { (unit : ℕ) → ReadsAs IsEnd (end_text unit) (codes "aborted " ++ text.now) result }
{
    let (pid, fault) = split_once(text, b' ')?;
    let pid = read_u32(pid)?;
    let fault = read_fault(fault)?;
    Some(End::Aborted(pid, fault))
}

// That a batch made all its firings, behind the word for it.
fn read_steps(text: &[u8]) -> Option<End>
    ensures { (unit : ℕ) → ReadsAs IsEnd (end_text unit) (codes "steps " ++ text.now) result }
{
    let steps = read_u32(text)?;
    Some(End::Steps(steps))
}

// That a line is refused, behind the words for it.
fn read_refused(alloc: Global, unit: u32, text: &[u8]) -> Result<Option<End>, AllocError>
    ensures { IfOk result (λ end. ReadsAs IsEnd (end_text unit) (codes "refused at " ++ text.now) end) }
{
    let Some((line, cause)) = split_once(text, b' ') else {
        return Ok(None);
    };
    let Some(line) = read_u32(line) else {
        return Ok(None);
    };
    match read_cause(alloc, unit, cause)? {
        Some(cause) => Ok(Some(End::Refused(line, cause))),
        None => Ok(None),
    }
}

// An end without numbers.
fn read_plain(text: &[u8]) -> Option<End>
    ensures { (unit : ℕ) → ReadsAs IsPlainEnd (end_text unit) text.now result }
{
    if is_word(text, b"deposited") {
        Some(End::Deposited)
    } else if is_word(text, b"committed") {
        Some(End::Committed)
    } else if is_word(text, b"blocked") {
        Some(End::Blocked)
    } else {
        None
    }
}

/// The end that a text says, where a unit of gas has so many parts; none where it says none, numbers over their ranges
/// and leading zeros included.
pub fn read_end(alloc: Global, unit: u32, text: &[u8]) -> Result<Option<End>, AllocError>
    ensures { IfOk result (λ end. ReadsAs IsEnd (end_text unit) text.now end) }
{
    if let Some(rest) = behind(text, b"aborted ") {
        return Ok(read_aborted(rest));
    }
    if let Some(steps) = behind(text, b"steps ") {
        return Ok(read_steps(steps));
    }
    if let Some(rest) = behind(text, b"refused at ") {
        return read_refused(alloc, unit, rest);
    }
    Ok(read_plain(text))
}
