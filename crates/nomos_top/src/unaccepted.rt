//! What is due where a contract is not accepted.

ghost use Rattle.std.specs.Prelude.{◌≡◌, IfOk, IfErr};
ghost use Rattle.nomos_top.specs.Outcome.{bare};
ghost use Rattle.nomos_top.specs.Refusal.{refusal, unsolved_line};
ghost use Rattle.nomos_top.specs.mirror.Judging.{IsDueOut, IsNothing, outcome_of};

use crate::call_due::{CallDue, DoneSoFar, bare_due, line_due, nothing_done};
use crate::judging::Unaccepted;
use crate::refusal_lines::{refusal, unsolved_line};
use nomos_accept::why::Why;
use nomos_simplex::solved::Stop;
use std::alloc::Global;

/// What is due where a contract is not accepted.
pub(crate) fn unaccepted_due(
    alloc: Global,
    limit: u32,
    unaccepted: Unaccepted,
) -> Result<CallDue, DoneSoFar>
    ensures ok { IfOk result (IsDueOut limit unaccepted) }
    ensures err { IfErr result (IsNothing limit) }
{
    match unaccepted {
        Unaccepted::NoMemory => Err(nothing_done(alloc, limit)),
        Unaccepted::ReadFault => line_due(alloc, limit, 5, b"read fault contract\n"),
        Unaccepted::Refused(why) => refusal_due(alloc, limit, &why),
        Unaccepted::Unsolved(stop) => unsolved_due(alloc, limit, stop),
    }
}

// The lines of a refusal, with status 1.
fn refusal_due(alloc: Global, limit: u32, why: &Why) -> Result<CallDue, DoneSoFar>
    ensures ok { IfOk result (λ d. outcome_of d ≡ bare 1 (refusal why.now) limit) }
    ensures err { IfErr result (IsNothing limit) }
{
    match refusal(alloc, why) {
        Ok(out) => Ok(bare_due(alloc, limit, 1, out)),
        Err(_) => Err(nothing_done(alloc, limit)),
    }
}

// The line of a run of the solver that stopped, with status 8.
fn unsolved_due(alloc: Global, limit: u32, stop: Stop) -> Result<CallDue, DoneSoFar>
    ensures ok { IfOk result (λ d. outcome_of d ≡ bare 8 (unsolved_line stop) limit) }
    ensures err { IfErr result (IsNothing limit) }
{
    match unsolved_line(alloc, stop) {
        Ok(out) => Ok(bare_due(alloc, limit, 8, out)),
        Err(_) => Err(nothing_done(alloc, limit)),
    }
}
