//! What is due where threads submit the single lines of a script.

ghost use Rattle.std.specs.Prelude.{◌≡◌, ◌<◌, ℕ, List, Some, None, IfOk, IfErr};
ghost use Rattle.nomos_answers.specs.Outside.{SourceState, source_state};
ghost use Rattle.nomos_top.specs.mirror.Judging.{IsPooledBehind, IsPooledBehindPart, IsTaskDueOn, IsTaskPartOn, given_of};
ghost use Rattle.nomos_words.specs.Words.{pool};

use crate::call_due::{CallDue, DoneSoFar, pooled_behind};
use crate::judging::judge;
use crate::unaccepted::unaccepted_due;
use nomos_answers::pools;
use nomos_base::Source;
use nomos_boxed::boxed::Boxed;
use nomos_ir::limits::USUAL_LIMIT;
use nomos_state::indexed::IndexedState;
use nomos_types::accepted::Accepted;
use std::alloc::Global;
use std::sync::Wait;
use std::thread::Threads;

/// What is due where so many threads submit.
pub(crate) fn pool_due<S: Source, R: Threads + Wait + Sync>(
    rt: &R,
    alloc: Global,
    threads: u32,
    contract: &mut S,
    script: &mut S,
) -> Result<CallDue, DoneSoFar>
    requires { 0 < threads }
    ensures ok { (file words : List ℕ) (third : SourceState) → IfOk result (IsTaskDueOn (record {
      contract = source_state (S.left contract.old) (S.faults contract.old) (S.faults contract.new);
      script = source_state (S.left script.old) (S.faults script.old) (S.faults script.new);
      third = third;
    }) (pool file words threads)) }
    ensures err { (file words : List ℕ) (third : SourceState) → IfErr result (IsTaskPartOn (record {
      contract = source_state (S.left contract.old) (S.faults contract.old) (S.faults contract.new);
      script = source_state (S.left script.old) (S.faults script.old) (S.faults script.new);
      third = third;
    }) (pool file words threads)) }
    ensures unread { given_of result ≡ None → script.new ≡ script.old }
{
    match judge(alloc, contract) {
        Ok(accepted) => accepted_pool_due(rt, alloc, threads, accepted, script),
        Err(unaccepted) => unaccepted_due(alloc, USUAL_LIMIT, unaccepted),
    }
}

// What is due where threads submit, on an accepted contract.
fn accepted_pool_due<S: Source, R: Threads + Wait + Sync>(
    rt: &R,
    alloc: Global,
    threads: u32,
    accepted: Accepted,
    script: &mut S,
) -> Result<CallDue, DoneSoFar>
    requires { 0 < threads }
    ensures ok { IfOk result (IsPooledBehind accepted threads
        (source_state (S.left script.old) (S.faults script.old) (S.faults script.new))) }
    ensures err { IfErr result (IsPooledBehindPart accepted threads
        (source_state (S.left script.old) (S.faults script.old) (S.faults script.new))) }
    ensures given { given_of result ≡ Some accepted }
{
    let due = pools::pool_due::<Boxed<IndexedState>, S, R>(rt, alloc, &accepted, script, threads);
    pooled_behind(accepted, due)
}
