//! The tale that a call asks for, over the texts of its files.
ghost use Rattle.std.specs.Prelude.{IfSome};
ghost use Rattle.nomos_legal.specs.Legal.{IsLimit};

use crate::failure::{Failure, Text, of_reading};
use crate::words::{OrderWord, TellCall};
use nomos_accept::accepting::accept;
use nomos_base::{Source, read_all};
use nomos_ir::limits::TEXT_LIMIT;
use nomos_replay::replay::MAX_BYTES;
use nomos_script::parsing::parse_script;
use nomos_state::indexed::IndexedState;
use nomos_tale::order::Order;
use nomos_tale::tale::tell;
use std::alloc::Global;

/// The texts that a call reads: the contract, the script, and the journal that is kept.
#[derive(Drop)]
pub(crate) struct Texts<S: Source> {
    pub(crate) contract: S,
    pub(crate) script: S,
    pub(crate) journal: S,
}

// All bytes of a text.
fn bytes_of<S: Source>(alloc: Global, source: &mut S, text: Text) -> Result<Vec<u8>, Failure> {
    let limit = match text {
        Text::Contract | Text::Script => TEXT_LIMIT,
        Text::Journal => MAX_BYTES,
    };
    match read_all(alloc, source, limit) {
        Ok(bytes) => Ok(bytes),
        Err(error) => Err(of_reading(text, error)),
    }
}

/// The tale that a call asks for. The journal is read only where it is asked for.
pub(crate) fn tale_of<S: Source>(
    alloc: Global,
    call: &TellCall<'_>,
    texts: &mut Texts<S>,
) -> Result<Vec<u8>, Failure>
    requires { IfSome call.now.steps IsLimit }
{
    let contract = bytes_of(alloc, &mut texts.contract, Text::Contract)?;
    let accepted = accept(alloc, &contract)?;
    let script = bytes_of(alloc, &mut texts.script, Text::Script)?;
    let script = parse_script(alloc, &script)?;
    let kept = match call.order {
        OrderWord::Journal(_) => bytes_of(alloc, &mut texts.journal, Text::Journal)?,
        _ => Vec::new(alloc),
    };
    let order = match call.order {
        OrderWord::First => Order::First,
        OrderWord::Round => Order::Round,
        OrderWord::Seed(seed) => Order::Seed(seed),
        OrderWord::Journal(_) => Order::Kept(&kept),
    };
    let tale = tell::<IndexedState>(alloc, &accepted, &script, order, call.steps)?;
    Ok(tale)
}
