//! What is due of a call: what is to be written, the status, the journal, and what is accepted.

ghost use Rattle.std.specs.Prelude.{◌≡◌, None, IfOk, IfErr};
ghost use Rattle.nomos_answers.specs.Replays.{no_journal};
ghost use Rattle.nomos_top.specs.Outcome.{bare, given};
ghost use Rattle.nomos_top.specs.mirror.Judging.{IsNothing, behind_of, outcome_of, pooled_behind_of};

use nomos_answers::due::{Due, no_entries};
use nomos_answers::pools::{PoolDue, PoolPart};
use nomos_ir::limits::USUAL_LIMIT;
use nomos_legal::journal::Journal;
use nomos_script::script::Script;
use nomos_types::accepted::Accepted;
use std::alloc::Global;

/// What is due of a call, with the program that is given, and with what was taken of the script where threads submit.
#[derive(Drop)]
pub(crate) struct CallDue {
    pub(crate) accepted: Option<Accepted>,
    pub(crate) due: Due,
    pub(crate) taken: Option<Script>,
}

/// What was done before memory ran out.
#[derive(Drop)]
pub(crate) struct DoneSoFar {
    pub(crate) accepted: Option<Accepted>,
    pub(crate) journal: Journal,
    pub(crate) taken: Option<Script>,
}

/// Nothing was done before memory ran out.
pub(crate) fn nothing_done(alloc: Global, limit: u32) -> DoneSoFar
    ensures { IsNothing limit result }
{
    DoneSoFar {
        accepted: None,
        journal: no_entries(alloc, limit),
        taken: None,
    }
}

/// A text with its status, where nothing is accepted.
pub(crate) fn bare_due(alloc: Global, limit: u32, status: u8, out: Vec<u8>) -> CallDue
    ensures { outcome_of result ≡ bare status out.items limit }
{
    let due = Due {
        status,
        out,
        kept: None,
        journal: no_entries(alloc, limit),
    };
    CallDue {
        accepted: None,
        due,
        taken: None,
    }
}

/// A line with its status, where nothing is accepted.
pub(crate) fn line_due(
    alloc: Global,
    limit: u32,
    status: u8,
    line: &[u8],
) -> Result<CallDue, DoneSoFar>
    ensures ok { IfOk result (λ d. outcome_of d ≡ bare status line.now limit) }
    ensures err { IfErr result (IsNothing limit) }
{
    match Vec::from_slice(alloc, line) {
        Ok(out) => Ok(bare_due(alloc, limit, status, out)),
        Err(_) => Err(nothing_done(alloc, limit)),
    }
}

/// A text with status 0 for an accepted program, where nothing is run.
pub(crate) fn alone_due(alloc: Global, out: Vec<u8>, accepted: Accepted) -> CallDue
    ensures { outcome_of result ≡ given 0 out.items None accepted no_journal }
{
    let due = Due {
        status: 0,
        out,
        kept: None,
        journal: no_entries(alloc, USUAL_LIMIT),
    };
    CallDue {
        accepted: Some(accepted),
        due,
        taken: None,
    }
}

/// What is due behind the acceptance of a program, with it.
pub(crate) fn due_behind(
    accepted: Accepted,
    due: Result<Due, Journal>,
) -> Result<CallDue, DoneSoFar>
    ensures { result ≡ behind_of accepted due }
{
    match due {
        Ok(due) => Ok(CallDue {
            accepted: Some(accepted),
            due,
            taken: None,
        }),
        Err(journal) => Err(DoneSoFar {
            accepted: Some(accepted),
            journal,
            taken: None,
        }),
    }
}

/// What is due behind the acceptance of a program where threads submit, with it.
pub(crate) fn pooled_behind(
    accepted: Accepted,
    due: Result<PoolDue, PoolPart>,
) -> Result<CallDue, DoneSoFar>
    ensures { result ≡ pooled_behind_of accepted due }
{
    match due {
        Ok(PoolDue { due, taken }) => Ok(CallDue {
            accepted: Some(accepted),
            due,
            taken,
        }),
        Err(PoolPart { journal, taken }) => Err(DoneSoFar {
            accepted: Some(accepted),
            journal,
            taken,
        }),
    }
}
