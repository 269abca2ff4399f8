//! What is told of the processes that the lines of a batch start.
use crate::tale_words::{push_name, push_pair};
use nomos_base::push_gas;
use nomos_deeds::machine::Machine;
use nomos_script::item::{ScriptItem, Start};
use std::alloc::AllocError;

// Appends that a line of the script has started the process of this number.
fn push_start<M: Machine>(
    text: &mut Vec<u8>,
    state: &M,
    pid: u32,
    start: &Start,
) -> Result<(), AllocError> {
    push_pair(text, b": start ", pid)?;
    push_name(text, b" ", start.proc.as_bytes())?;
    push_pair(text, b" line ", start.line)?;
    if let Some(seen) = state.process(pid) {
        push_pair(text, b" offers ", seen.offers)?;
        push_pair(text, b" payer ", seen.payer)?;
        text.extend_from_slice(b" gas ")?;
        push_gas(text, seen.purse, 1)?;
    }
    if let Some(name) = &start.contract {
        push_name(text, b" as ", name.as_bytes())?;
    }
    text.push(b'\n')?;
    Ok(())
}

/// Appends which processes the lines of an item have started, the first of which has this number.
pub(crate) fn push_starts<M: Machine>(
    text: &mut Vec<u8>,
    state: &M,
    first: u32,
    item: &ScriptItem,
) -> Result<(), AllocError> {
    let ScriptItem::Batch(batch) = item else {
        return Ok(());
    };
    for (pid, start) in (first..=u32::MAX).zip(batch.starts.as_slice()) {
        push_start(text, state, pid, start)?;
    }
    Ok(())
}
