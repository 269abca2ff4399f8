//! What is due where a contract alone is asked about.

ghost use Rattle.std.specs.Prelude.{◌≡◌, ℕ, List, None, IfOk, IfErr};
ghost use Rattle.nomos_answers.specs.Outside.{SourceState, source_state};
ghost use Rattle.nomos_answers.specs.Replays.{no_journal};
ghost use Rattle.nomos_words.specs.Options.{usual_limit};
ghost use Rattle.nomos_report.specs.Block.{accepted_block};
ghost use Rattle.nomos_top.specs.LeastBlock.{least_block};
ghost use Rattle.nomos_top.specs.Outcome.{given};
ghost use Rattle.nomos_top.specs.mirror.Judging.{IsNothing, IsTaskDueOn, outcome_of};
ghost use Rattle.nomos_words.specs.Words.{check, least};

use crate::call_due::{CallDue, DoneSoFar, alone_due, nothing_done};
use crate::judging::{judge, judge_least};
use crate::least_block::{accepted_block, least_block};
use crate::unaccepted::unaccepted_due;
use nomos_base::Source;
use nomos_ir::limits::USUAL_LIMIT;
use nomos_least::least::LeastBounds;
use nomos_types::accepted::Accepted;
use std::alloc::Global;

/// What is due for a check.
pub(crate) fn check_due<S: Source>(alloc: Global, contract: &mut S) -> Result<CallDue, DoneSoFar>
    ensures ok { (file : List ℕ) (script third : SourceState) → IfOk result (IsTaskDueOn (record {
      contract = source_state (S.left contract.old) (S.faults contract.old) (S.faults contract.new);
      script = script;
      third = third;
    }) (check file)) }
    ensures err { IfErr result (IsNothing usual_limit) }
{
    match judge(alloc, contract) {
        Ok(accepted) => accepted_due(alloc, accepted),
        Err(unaccepted) => unaccepted_due(alloc, USUAL_LIMIT, unaccepted),
    }
}

/// What is due for a search for least bounds.
pub(crate) fn least_due<S: Source>(alloc: Global, contract: &mut S) -> Result<CallDue, DoneSoFar>
    ensures ok { (file : List ℕ) (script third : SourceState) → IfOk result (IsTaskDueOn (record {
      contract = source_state (S.left contract.old) (S.faults contract.old) (S.faults contract.new);
      script = script;
      third = third;
    }) (least file)) }
    ensures err { IfErr result (IsNothing usual_limit) }
{
    match judge_least(alloc, contract) {
        Ok(bounds) => bounds_due(alloc, bounds),
        Err(unaccepted) => unaccepted_due(alloc, USUAL_LIMIT, unaccepted),
    }
}

// The block of an accepted program, with status 0.
fn accepted_due(alloc: Global, accepted: Accepted) -> Result<CallDue, DoneSoFar>
    ensures ok { IfOk result (λ d. outcome_of d ≡ given 0 (accepted_block accepted) None accepted no_journal) }
    ensures err { IfErr result (IsNothing usual_limit) }
{
    match accepted_block(alloc, &accepted) {
        Ok(out) => Ok(alone_due(alloc, out, accepted)),
        Err(_) => Err(nothing_done(alloc, USUAL_LIMIT)),
    }
}

// The lines of least bounds, with status 0.
fn bounds_due(alloc: Global, bounds: LeastBounds) -> Result<CallDue, DoneSoFar>
    ensures ok { IfOk result (λ d. outcome_of d ≡ given 0 (least_block bounds) None bounds.accepted no_journal) }
    ensures err { IfErr result (IsNothing usual_limit) }
{
    match least_block(alloc, &bounds) {
        Ok(out) => Ok(alone_due(alloc, out, bounds.accepted)),
        Err(_) => Err(nothing_done(alloc, USUAL_LIMIT)),
    }
}
