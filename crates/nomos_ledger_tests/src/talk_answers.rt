//! What is answered to an outside party, as text.

use nomos_base::push_gas;
use nomos_ir::fault::Fault;
use nomos_ir::ids::Label;
use nomos_machine::object::Heard;
use nomos_machine::rest::Rest;
use nomos_monitor::talk_refusal::{SayError, TalkRefusal};
use nomos_printing::fault_texts::push_fault;
use nomos_printing::number::push_number;
use nomos_printing::value_texts::push_value;
use nomos_types::accepted::Accepted;
use std::alloc::AllocError;

/// Appends a word.
pub(crate) fn push_word(text: &mut Vec<u8>, word: &str) -> Result<(), AllocError> {
    text.extend_from_slice(word.as_bytes())?;
    Ok(())
}

// Appends what an account has and what is needed, in Dths.
fn push_short(text: &mut Vec<u8>, unit: u32, has: u128, needs: u128) -> Result<(), AllocError> {
    push_word(text, "has ")?;
    push_gas(text, has, unit)?;
    push_word(text, " needs ")?;
    push_gas(text, needs, unit)
}

/// Appends why a talk is not opened.
pub(crate) fn push_refusal(
    text: &mut Vec<u8>,
    unit: u32,
    why: TalkRefusal,
) -> Result<(), AllocError> {
    match why {
        TalkRefusal::NoAccount => push_word(text, "refused NoAccount"),
        TalkRefusal::NoProcess => push_word(text, "refused NoProcess"),
        TalkRefusal::Carries => push_word(text, "refused Carries"),
        TalkRefusal::NoGas { has, needs } => {
            push_word(text, "refused NoGas ")?;
            push_short(text, unit, has, needs)
        }
    }
}

/// Appends what was answered to one who spoke.
pub(crate) fn push_said(
    text: &mut Vec<u8>,
    unit: u32,
    answer: Result<(), SayError>,
) -> Result<(), AllocError> {
    match answer {
        Ok(()) => push_word(text, "said"),
        Err(SayError::Protocol) => push_word(text, "protocol"),
        Err(SayError::NoMemory) => push_word(text, "memory"),
        Err(SayError::NoGas { has, needs }) => {
            push_word(text, "gas ")?;
            push_short(text, unit, has, needs)
        }
    }
}

// Appends the text of a label.
fn push_label(text: &mut Vec<u8>, accepted: &Accepted, l: Label) -> Result<(), AllocError> {
    match accepted
        .program()
        .lists()
        .labels
        .as_slice()
        .get(l.0 as usize)
    {
        Some(name) => {
            text.extend_from_slice(name.as_bytes())?;
            Ok(())
        }
        None => push_word(text, "?"),
    }
}

/// Appends what was heard.
pub(crate) fn push_heard(
    text: &mut Vec<u8>,
    accepted: &Accepted,
    heard: &Option<Heard>,
) -> Result<(), AllocError> {
    match heard {
        None => push_word(text, "nothing"),
        Some(Heard::Closed) => push_word(text, "closed"),
        Some(Heard::Label(l)) => {
            push_word(text, "label ")?;
            push_label(text, accepted, *l)
        }
        Some(Heard::Value(value)) => {
            push_word(text, "value ")?;
            push_value(text, value)
        }
        Some(Heard::Paid(dths)) => {
            push_word(text, "paid ")?;
            push_gas(text, u128::from(*dths), accepted.unit())
        }
    }
}

// Appends which process has which fault.
fn push_abort(text: &mut Vec<u8>, pid: u32, fault: Fault) -> Result<(), AllocError> {
    push_word(text, "aborted ")?;
    push_number(text, u64::from(pid))?;
    push_word(text, " ")?;
    push_fault(text, fault)
}

/// Appends how firings came to rest, where a process is ready still.
pub(crate) fn push_rest(text: &mut Vec<u8>, how: Rest) -> Result<(), AllocError> {
    match how {
        Rest::Quiet => Ok(()),
        Rest::Faulted(pid, fault) => push_abort(text, pid, fault),
        Rest::Steps => push_word(text, "steps"),
    }
}
