//! How what is told an outside party is printed.

ghost use Rattle.std.specs.Prelude.{◌≡◌, ◌++◌, OnOk, codes, decimal};
ghost use Rattle.std.specs.Option.{option_map};
ghost use Rattle.nomos_visit.specs.TalkText.{heard_text, label_text, refused_text, shortage_text, stopped_text, talk_line_text, unsaid_text};

use nomos_base::push_gas;
use nomos_ir::fault::Fault;
use nomos_ir::ids::Label;
use nomos_ir::program::Program;
use nomos_machine::object::Heard;
use nomos_machine::rest::Rest;
use nomos_monitor::talk_refusal::{SayError, TalkRefusal};
use nomos_printing::fault_texts::push_fault;
use nomos_printing::number::push_number;
use nomos_printing::value_texts::push_value;
use nomos_types::accepted::Accepted;
use std::alloc::AllocError;

// Appends what an account has and what is needed, in Dths, of which a unit has so many.
fn push_shortage(text: &mut Vec<u8>, unit: u32, has: u128, needs: u128) -> Result<(), AllocError>
    ensures { OnOk result (text.new.items ≡ text.old.items ++ shortage_text unit has needs) }
{
    text.extend_from_slice(b"has ")?;
    push_gas(text, has, unit)?;
    text.extend_from_slice(b" needs ")?;
    push_gas(text, needs, unit)?;
    Ok(())
}

// Appends why a talk is not opened.
fn push_why_refused(text: &mut Vec<u8>, unit: u32, why: TalkRefusal) -> Result<(), AllocError>
    ensures { OnOk result (text.new.items ≡ text.old.items ++ refused_text unit why) }
{
    match why {
        TalkRefusal::NoAccount => text.extend_from_slice(b"NoAccount")?,
        TalkRefusal::NoProcess => text.extend_from_slice(b"NoProcess")?,
        TalkRefusal::Carries => text.extend_from_slice(b"Carries")?,
        TalkRefusal::NoGas { has, needs } => {
            text.extend_from_slice(b"NoGas ")?;
            push_shortage(text, unit, has, needs)?;
        }
    }
    Ok(())
}

/// Appends the line of a talk that is not opened, where a unit of gas has so many Dths.
pub(crate) fn push_refused(
    text: &mut Vec<u8>,
    unit: u32,
    why: TalkRefusal,
) -> Result<(), AllocError>
    ensures { OnOk result (text.new.items
        ≡ text.old.items ++ talk_line_text (codes "refused " ++ refused_text unit why)) }
{
    text.extend_from_slice(b"talk refused ")?;
    push_why_refused(text, unit, why)?;
    text.push(b'\n')?;
    Ok(())
}

/// Appends the line of a talk that is opened.
pub(crate) fn push_opened(text: &mut Vec<u8>) -> Result<(), AllocError>
    ensures { OnOk result (text.new.items ≡ text.old.items ++ talk_line_text (codes "opened")) }
{
    text.extend_from_slice(b"talk opened\n")?;
    Ok(())
}

// Appends the begin of a line that names a line of the talk's text.
fn push_number_of(text: &mut Vec<u8>, number: u32) -> Result<(), AllocError>
    ensures { OnOk result (text.new.items ≡ text.old.items ++ (codes "talk " ++ decimal number ++ codes " ")) }
{
    text.extend_from_slice(b"talk ")?;
    push_number(text, u64::from(number))?;
    text.push(b' ')?;
    Ok(())
}

/// Appends that what the line of this number says is said.
pub(crate) fn push_said(text: &mut Vec<u8>, number: u32) -> Result<(), AllocError>
    ensures { OnOk result (text.new.items
        ≡ text.old.items ++ talk_line_text (decimal number ++ codes " " ++ codes "said")) }
{
    push_number_of(text, number)?;
    text.extend_from_slice(b"said\n")?;
    Ok(())
}

// Appends why something is not said. Want of memory has no text.
fn push_why_unsaid(text: &mut Vec<u8>, unit: u32, why: SayError) -> Result<(), AllocError>
    ensures { OnOk result (text.new.items ≡ text.old.items ++ unsaid_text unit why) }
{
    match why {
        SayError::Protocol => text.extend_from_slice(b"protocol")?,
        SayError::NoGas { has, needs } => {
            text.extend_from_slice(b"gas ")?;
            push_shortage(text, unit, has, needs)?;
        }
        SayError::NoMemory => {}
    }
    Ok(())
}

/// Appends why what the line of this number says is not said, where a unit of gas has so many Dths.
pub(crate) fn push_unsaid(
    text: &mut Vec<u8>,
    unit: u32,
    number: u32,
    why: SayError,
) -> Result<(), AllocError>
    ensures { OnOk result (text.new.items
        ≡ text.old.items ++ talk_line_text (decimal number ++ codes " " ++ unsaid_text unit why)) }
{
    push_number_of(text, number)?;
    push_why_unsaid(text, unit, why)?;
    text.push(b'\n')?;
    Ok(())
}

// Appends the text of a label of a program.
fn push_label(text: &mut Vec<u8>, program: &Program, label: Label) -> Result<(), AllocError>
    ensures { OnOk result (text.new.items ≡ text.old.items ++ label_text program.now label) }
{
    if let Some(name) = program.lists().labels.as_slice().get(label.0 as usize) {
        text.extend_from_slice(name.as_bytes())?;
    }
    Ok(())
}

// Appends what is heard, if something is.
fn push_what(
    text: &mut Vec<u8>,
    accepted: &Accepted,
    heard: Option<&Heard>,
) -> Result<(), AllocError>
    ensures { OnOk result (text.new.items ≡ text.old.items
        ++ heard_text accepted.now.program accepted.now.annotations.unit (option_map (λ what. what.now) heard.entry)) }
{
    match heard {
        None => text.extend_from_slice(b"nothing")?,
        Some(Heard::Label(label)) => {
            text.extend_from_slice(b"label ")?;
            push_label(text, accepted.program(), *label)?;
        }
        Some(Heard::Value(value)) => {
            text.extend_from_slice(b"value ")?;
            push_value(text, value)?;
        }
        Some(Heard::Paid(dths)) => {
            text.extend_from_slice(b"paid ")?;
            push_gas(text, u128::from(*dths), accepted.unit())?;
        }
        Some(Heard::Closed) => text.extend_from_slice(b"closed")?,
    }
    Ok(())
}

/// Appends what is heard in the line of this number, if something is.
pub(crate) fn push_heard(
    text: &mut Vec<u8>,
    accepted: &Accepted,
    number: u32,
    heard: Option<&Heard>,
) -> Result<(), AllocError>
    ensures { OnOk result (text.new.items ≡ text.old.items
        ++ talk_line_text (decimal number ++ codes " " ++ (codes "heard "
        ++ heard_text accepted.now.program accepted.now.annotations.unit
        (option_map (λ what. what.now) heard.entry)))) }
{
    push_number_of(text, number)?;
    text.extend_from_slice(b"heard ")?;
    push_what(text, accepted, heard)?;
    text.push(b'\n')?;
    Ok(())
}

// Appends which process has which fault.
fn push_aborted(text: &mut Vec<u8>, pid: u32, fault: Fault) -> Result<(), AllocError>
    ensures { OnOk result (text.new.items ≡ text.old.items ++ stopped_text (Rest.Faulted pid fault)) }
{
    text.extend_from_slice(b"aborted ")?;
    push_number(text, u64::from(pid))?;
    text.push(b' ')?;
    push_fault(text, fault)
}

// Appends how firings came to rest. Where none is ready there is nothing to be said.
fn push_rest(text: &mut Vec<u8>, how: Rest) -> Result<(), AllocError>
    ensures { OnOk result (text.new.items ≡ text.old.items ++ stopped_text how) }
{
    match how {
        Rest::Quiet => Ok(()),
        Rest::Faulted(pid, fault) => push_aborted(text, pid, fault),
        Rest::Steps => {
            text.extend_from_slice(b"steps")?;
            Ok(())
        }
    }
}

/// Appends the line of firings that came to rest where a process was ready still.
pub(crate) fn push_stopped(text: &mut Vec<u8>, how: Rest) -> Result<(), AllocError>
    ensures { OnOk result (text.new.items ≡ text.old.items ++ talk_line_text (stopped_text how)) }
{
    text.extend_from_slice(b"talk ")?;
    push_rest(text, how)?;
    text.push(b'\n')?;
    Ok(())
}
