//! What is due where a ledger is saved, or a script run from one that was. No thread is made.

ghost use Rattle.std.specs.Prelude.{◌≡◌, ℕ, List, Ok, Some, None, IfOk, IfErr};
ghost use Rattle.nomos_answers.specs.Outside.{SourceState, source_state};
ghost use Rattle.nomos_answers.specs.RunsDue.{usual_orders};
ghost use Rattle.nomos_answers.specs.Sources.{IsResumeDueFor, IsResumePartFor, IsRunPartFor, IsSaveDueFor};
ghost use Rattle.nomos_legal.specs.Ledger.{LedgerState};
ghost use Rattle.nomos_snapshot.specs.Loading.{Loads};
ghost use Rattle.nomos_top.specs.mirror.Judging.{IsTaskDueOn, IsTaskPartOn, given_of, taken_of};
ghost use Rattle.nomos_types.specs.Acceptance.{Acceptance};
ghost use Rattle.nomos_words.specs.Words.{resume, save};

use crate::call_due::{CallDue, DoneSoFar, due_behind};
use crate::judging::judge;
use crate::unaccepted::unaccepted_due;
use nomos_answers::{resumes, saves};
use nomos_base::Source;
use nomos_boxed::boxed::Boxed;
use nomos_ir::limits::USUAL_LIMIT;
use nomos_state::indexed::IndexedState;
use nomos_types::accepted::Accepted;
use std::alloc::Global;

/// What is due where the ledger is to be saved.
pub(crate) fn save_due<S: Source>(
    alloc: Global,
    contract: &mut S,
    script: &mut S,
) -> Result<CallDue, DoneSoFar>
    ensures ok { (file words kept : List ℕ) (third : SourceState) → IfOk result (IsTaskDueOn (record {
      contract = source_state (S.left contract.old) (S.faults contract.old) (S.faults contract.new);
      script = source_state (S.left script.old) (S.faults script.old) (S.faults script.new);
      third = third;
    }) (save file words kept)) }
    ensures err { (file words kept : List ℕ) (third : SourceState) → IfErr result (IsTaskPartOn (record {
      contract = source_state (S.left contract.old) (S.faults contract.old) (S.faults contract.new);
      script = source_state (S.left script.old) (S.faults script.old) (S.faults script.new);
      third = third;
    }) (save file words kept)) }
    ensures unread { given_of result ≡ None → script.new ≡ script.old }
{
    match judge(alloc, contract) {
        Ok(accepted) => accepted_save_due(alloc, accepted, script),
        Err(unaccepted) => unaccepted_due(alloc, USUAL_LIMIT, unaccepted),
    }
}

// What is due where the ledger is to be saved, on an accepted contract.
fn accepted_save_due<S: Source>(
    alloc: Global,
    accepted: Accepted,
    script: &mut S,
) -> Result<CallDue, DoneSoFar>
    ensures ok { IfOk result (λ d. IsSaveDueFor accepted
        (source_state (S.left script.old) (S.faults script.old) (S.faults script.new)) d.due) }
    ensures err { IfErr result (λ part. IsRunPartFor accepted usual_orders
        (source_state (S.left script.old) (S.faults script.old) (S.faults script.new)) part.journal) }
    ensures given { given_of result ≡ Some accepted }
    ensures untaken { taken_of result ≡ None }
{
    let due = saves::save_due::<Boxed<IndexedState>, S>(alloc, &accepted, script);
    due_behind(accepted, due)
}

/// What is due where a script is run from a snapshot.
pub(crate) fn resume_due<S: Source>(
    alloc: Global,
    contract: &mut S,
    snapshot: &mut S,
    script: &mut S,
) -> Result<CallDue, DoneSoFar>
    ensures ok { (file kept words : List ℕ) → IfOk result (IsTaskDueOn (record {
      contract = source_state (S.left contract.old) (S.faults contract.old) (S.faults contract.new);
      script = source_state (S.left script.old) (S.faults script.old) (S.faults script.new);
      third = source_state (S.left snapshot.old) (S.faults snapshot.old) (S.faults snapshot.new);
    }) (resume file kept words)) }
    ensures err { (file kept words : List ℕ) → IfErr result (IsTaskPartOn (record {
      contract = source_state (S.left contract.old) (S.faults contract.old) (S.faults contract.new);
      script = source_state (S.left script.old) (S.faults script.old) (S.faults script.new);
      third = source_state (S.left snapshot.old) (S.faults snapshot.old) (S.faults snapshot.new);
    }) (resume file kept words)) }
    ensures unread_snapshot { given_of result ≡ None → snapshot.new ≡ snapshot.old }
    ensures unread_script { given_of result ≡ None → script.new ≡ script.old }
    ensures unread { (text : List ℕ) (a : Acceptance) → S.left snapshot.old ≡ Some text → given_of result ≡ Some a
        → ((first : LedgerState) → ¬ Loads a text (Ok first)) → script.new ≡ script.old }
{
    match judge(alloc, contract) {
        Ok(accepted) => accepted_resume_due(alloc, accepted, snapshot, script),
        Err(unaccepted) => unaccepted_due(alloc, USUAL_LIMIT, unaccepted),
    }
}

// What is due where a script is run from a snapshot, on an accepted contract.
fn accepted_resume_due<S: Source>(
    alloc: Global,
    accepted: Accepted,
    snapshot: &mut S,
    script: &mut S,
) -> Result<CallDue, DoneSoFar>
    ensures ok { IfOk result (λ d. IsResumeDueFor accepted
        (source_state (S.left snapshot.old) (S.faults snapshot.old) (S.faults snapshot.new))
        (source_state (S.left script.old) (S.faults script.old) (S.faults script.new)) d.due) }
    ensures err { IfErr result (λ part. IsResumePartFor accepted
        (source_state (S.left snapshot.old) (S.faults snapshot.old) (S.faults snapshot.new))
        (source_state (S.left script.old) (S.faults script.old) (S.faults script.new)) part.journal) }
    ensures given { given_of result ≡ Some accepted }
    ensures untaken { taken_of result ≡ None }
    ensures unread { (text : List ℕ) → S.left snapshot.old ≡ Some text
        → ((first : LedgerState) → ¬ Loads accepted text (Ok first)) → script.new ≡ script.old }
{
    let due = resumes::resume_due::<Boxed<IndexedState>, S>(alloc, &accepted, snapshot, script);
    due_behind(accepted, due)
}
