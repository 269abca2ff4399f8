//! What is due where a party from outside talks behind a script. No thread is made.

ghost use Rattle.std.specs.Prelude.{◌≡◌, ℕ, List, Some, None, IfOk, IfErr};
ghost use Rattle.nomos_answers.specs.Outside.{source_state};
ghost use Rattle.nomos_answers.specs.RunsDue.{usual_orders};
ghost use Rattle.nomos_answers.specs.Sources.{IsRunPartFor, IsTalkDueFor};
ghost use Rattle.nomos_script.specs.ScriptReading.{ReadsAs};
ghost use Rattle.nomos_script.specs.declared.item.ScriptItem.{ScriptItem};
ghost use Rattle.nomos_top.specs.mirror.Judging.{IsTaskDueOn, IsTaskPartOn, given_of, taken_of};
ghost use Rattle.nomos_words.specs.Words.{talk};

use crate::call_due::{CallDue, DoneSoFar, due_behind};
use crate::judging::judge;
use crate::unaccepted::unaccepted_due;
use nomos_answers::talks;
use nomos_base::Source;
use nomos_boxed::boxed::Boxed;
use nomos_ir::limits::USUAL_LIMIT;
use nomos_state::indexed::IndexedState;
use nomos_types::accepted::Accepted;
use nomos_visit::held::Party;
use std::alloc::Global;

/// What is due where this party talks.
pub(crate) fn talk_due<S: Source>(
    alloc: Global,
    party: Party<'_>,
    contract: &mut S,
    script: &mut S,
    text: &mut S,
) -> Result<CallDue, DoneSoFar>
    ensures ok { (file words text_file : List ℕ) → IfOk result (IsTaskDueOn (record {
      contract = source_state (S.left contract.old) (S.faults contract.old) (S.faults contract.new);
      script = source_state (S.left script.old) (S.faults script.old) (S.faults script.new);
      third = source_state (S.left text.old) (S.faults text.old) (S.faults text.new);
    }) (talk file words party.entry.name.now party.entry.proc.now text_file)) }
    ensures err { (file words text_file : List ℕ) → IfErr result (IsTaskPartOn (record {
      contract = source_state (S.left contract.old) (S.faults contract.old) (S.faults contract.new);
      script = source_state (S.left script.old) (S.faults script.old) (S.faults script.new);
      third = source_state (S.left text.old) (S.faults text.old) (S.faults text.new);
    }) (talk file words party.entry.name.now party.entry.proc.now text_file)) }
    ensures unread_script { given_of result ≡ None → script.new ≡ script.old }
    ensures unread_text { given_of result ≡ None → text.new ≡ text.old }
    ensures unread { (script_text : List ℕ) → S.left script.old ≡ Some script_text
        → ((items : List ScriptItem) → ¬ ReadsAs script_text items) → text.new ≡ text.old }
{
    match judge(alloc, contract) {
        Ok(accepted) => accepted_talk_due(alloc, party, accepted, script, text),
        Err(unaccepted) => unaccepted_due(alloc, USUAL_LIMIT, unaccepted),
    }
}

// What is due where a party talks, on an accepted contract.
fn accepted_talk_due<S: Source>(
    alloc: Global,
    party: Party<'_>,
    accepted: Accepted,
    script: &mut S,
    text: &mut S,
) -> Result<CallDue, DoneSoFar>
    ensures ok { IfOk result (λ d. IsTalkDueFor accepted party.entry.name.now party.entry.proc.now
        (source_state (S.left script.old) (S.faults script.old) (S.faults script.new))
        (source_state (S.left text.old) (S.faults text.old) (S.faults text.new)) d.due) }
    ensures err { IfErr result (λ part. IsRunPartFor accepted usual_orders
        (source_state (S.left script.old) (S.faults script.old) (S.faults script.new)) part.journal) }
    ensures given { given_of result ≡ Some accepted }
    ensures untaken { taken_of result ≡ None }
    ensures unread { (script_text : List ℕ) → S.left script.old ≡ Some script_text
        → ((items : List ScriptItem) → ¬ ReadsAs script_text items) → text.new ≡ text.old }
{
    let due = talks::talk_due::<Boxed<IndexedState>, S>(alloc, &accepted, script, text, party);
    due_behind(accepted, due)
}
