//! What is due where one worker runs a script, or a journal is replayed. No thread is made.

ghost use Rattle.std.specs.Prelude.{◌≡◌, ◌≤◌, ℕ, List, Option, Some, None, IfOk, IfErr, true};
ghost use Rattle.nomos_answers.specs.Benches.{IsBenchDue, IsBenchPart};
ghost use Rattle.nomos_answers.specs.Outside.{SourceState, source_state};
ghost use Rattle.nomos_answers.specs.Replays.{no_journal};
ghost use Rattle.nomos_answers.specs.Sources.{IsReplayDueFor, IsRunDueFor, IsRunPartFor, kept_text};
ghost use Rattle.nomos_legal.specs.Legal.{IsLimit};
ghost use Rattle.nomos_machine.specs.declared.policy.Policy.{Policy};
ghost use Rattle.nomos_script.specs.ScriptReading.{ReadsAs};
ghost use Rattle.nomos_script.specs.declared.item.ScriptItem.{ScriptItem};
ghost use Rattle.nomos_top.specs.TaskRuns.{run_orders, bench_orders};
ghost use Rattle.nomos_top.specs.mirror.Judging.{IsTaskDueOn, IsTaskPartOn, given_of, taken_of};
ghost use Rattle.nomos_words.specs.Words.{run, replay, bench};
ghost use Rattle.nomos_words.specs.declared.workers.Workers.{Workers};

use crate::call_due::{CallDue, DoneSoFar, due_behind};
use crate::judging::{judge, judge_auction};
use crate::unaccepted::unaccepted_due;
use nomos_answers::benches::{self, Load};
use nomos_answers::due::Due;
use nomos_answers::{replays, runs};
use nomos_base::Source;
use nomos_boxed::boxed::Boxed;
use nomos_ir::limits::USUAL_LIMIT;
use nomos_legal::journal::Journal;
use nomos_machine::policy::Policy;
use nomos_run::orders::Orders;
use nomos_state::indexed::IndexedState;
use nomos_types::accepted::Accepted;
use nomos_workers::batch::Crew;
use std::alloc::Global;

/// What is due for a run by these orders, by one worker.
pub(crate) fn script_due<S: Source>(
    alloc: Global,
    orders: Orders,
    contract: &mut S,
    script: &mut S,
) -> Result<CallDue, DoneSoFar>
    requires one { (policy : Policy) × (orders.crew ≡ Crew.One policy) }
    requires limit { IsLimit orders.limit }
    ensures ok { (file words : List ℕ) (by : Workers) (steps : ℕ) (kept : Option (List ℕ)) (third : SourceState)
        → orders ≡ run_orders by steps kept → IfOk result (IsTaskDueOn (record {
          contract = source_state (S.left contract.old) (S.faults contract.old) (S.faults contract.new);
          script = source_state (S.left script.old) (S.faults script.old) (S.faults script.new);
          third = third;
        }) (run file words by steps kept)) }
    ensures err { (file words : List ℕ) (by : Workers) (steps : ℕ) (kept : Option (List ℕ)) (third : SourceState)
        → orders ≡ run_orders by steps kept → IfErr result (IsTaskPartOn (record {
          contract = source_state (S.left contract.old) (S.faults contract.old) (S.faults contract.new);
          script = source_state (S.left script.old) (S.faults script.old) (S.faults script.new);
          third = third;
        }) (run file words by steps kept)) }
    ensures unread { given_of result ≡ None → script.new ≡ script.old }
{
    match judge(alloc, contract) {
        Ok(accepted) => accepted_script_due(alloc, orders, accepted, script),
        Err(unaccepted) => unaccepted_due(alloc, orders.limit, unaccepted),
    }
}

// What is due for a run on an accepted contract.
fn accepted_script_due<S: Source>(
    alloc: Global,
    orders: Orders,
    accepted: Accepted,
    script: &mut S,
) -> Result<CallDue, DoneSoFar>
    requires one { (policy : Policy) × (orders.crew ≡ Crew.One policy) }
    requires limit { IsLimit orders.limit }
    ensures ok { IfOk result (λ d. IsRunDueFor accepted orders
        (source_state (S.left script.old) (S.faults script.old) (S.faults script.new)) d.due) }
    ensures err { IfErr result (λ part. IsRunPartFor accepted orders
        (source_state (S.left script.old) (S.faults script.old) (S.faults script.new)) part.journal) }
    ensures given { given_of result ≡ Some accepted }
    ensures untaken { taken_of result ≡ None }
{
    let due = runs::run_due::<Boxed<IndexedState>, S>(orders, alloc, &accepted, script);
    due_behind(accepted, due)
}

/// What is due for the replay of a journal.
pub(crate) fn replay_due<S: Source>(
    alloc: Global,
    contract: &mut S,
    script: &mut S,
    journal: &mut S,
) -> Result<CallDue, DoneSoFar>
    ensures ok { (file script_file journal_file : List ℕ) → IfOk result (IsTaskDueOn (record {
      contract = source_state (S.left contract.old) (S.faults contract.old) (S.faults contract.new);
      script = source_state (S.left script.old) (S.faults script.old) (S.faults script.new);
      third = source_state (S.left journal.old) (S.faults journal.old) (S.faults journal.new);
    }) (replay file script_file journal_file)) }
    ensures err { (file script_file journal_file : List ℕ) → IfErr result (IsTaskPartOn (record {
      contract = source_state (S.left contract.old) (S.faults contract.old) (S.faults contract.new);
      script = source_state (S.left script.old) (S.faults script.old) (S.faults script.new);
      third = source_state (S.left journal.old) (S.faults journal.old) (S.faults journal.new);
    }) (replay file script_file journal_file)) }
    ensures unread_script { given_of result ≡ None → script.new ≡ script.old }
    ensures unread_journal { given_of result ≡ None → journal.new ≡ journal.old }
    ensures unread { (text : List ℕ) → S.left script.old ≡ Some text
        → ((items : List ScriptItem) → ¬ ReadsAs text items) → journal.new ≡ journal.old }
{
    match judge(alloc, contract) {
        Ok(accepted) => accepted_replay_due(alloc, accepted, script, journal),
        Err(unaccepted) => unaccepted_due(alloc, USUAL_LIMIT, unaccepted),
    }
}

// What is due for the replay of a journal on an accepted contract.
fn accepted_replay_due<S: Source>(
    alloc: Global,
    accepted: Accepted,
    script: &mut S,
    journal: &mut S,
) -> Result<CallDue, DoneSoFar>
    ensures ok { IfOk result (λ d. IsReplayDueFor accepted
        (source_state (S.left script.old) (S.faults script.old) (S.faults script.new))
        (source_state (S.left journal.old) (S.faults journal.old) (S.faults journal.new)) d.due) }
    ensures err { IfErr result (λ part. part.journal ≡ no_journal) }
    ensures given { given_of result ≡ Some accepted }
    ensures untaken { taken_of result ≡ None }
    ensures unread { (text : List ℕ) → S.left script.old ≡ Some text
        → ((items : List ScriptItem) → ¬ ReadsAs text items) → journal.new ≡ journal.old }
{
    let due = replays::replay_due::<Boxed<IndexedState>, S>(alloc, &accepted, script, journal);
    due_behind(accepted, due)
}

/// What is due for the load of `bench`.
pub(crate) fn bench_due(alloc: Global, load: Load) -> Result<CallDue, DoneSoFar>
    requires { load.bidders ≤ 10000 }
    ensures ok { (contract script third : SourceState) → IfOk result (IsTaskDueOn
        (record { contract = contract; script = script; third = third }) (bench load.seed load.bidders)) }
    ensures err { (contract script third : SourceState) → IfErr result (IsTaskPartOn
        (record { contract = contract; script = script; third = third }) (bench load.seed load.bidders)) }
{
    match judge_auction(alloc) {
        Ok(accepted) => accepted_bench_due(alloc, load, accepted),
        Err(unaccepted) => unaccepted_due(alloc, USUAL_LIMIT, unaccepted),
    }
}

// How `bench` runs its script.
fn bench_orders() -> Orders
    ensures { result ≡ bench_orders }
{
    Orders {
        crew: Crew::One(Policy::First),
        limit: USUAL_LIMIT,
        text: false,
        result: true,
    }
}

// What is due for the load of `bench`, over the indexed form of a state.
fn indexed_bench_due(
    orders: Orders,
    alloc: Global,
    accepted: &Accepted,
    load: Load,
) -> Result<Due, Journal>
    requires one { (policy : Policy) × (orders.crew ≡ Crew.One policy) }
    requires limit { IsLimit orders.limit }
    requires result { orders.result ≡ true }
    requires few { load.bidders ≤ 10000 }
    ensures ok { IfOk result (λ due.
        IsBenchDue accepted.now orders load due.status due.out.items due.journal) }
    ensures kept { IfOk result (λ due. kept_text due ≡ None) }
    ensures err { IfErr result (IsBenchPart accepted.now orders load) }
{
    benches::bench_due::<Boxed<IndexedState>>(orders, alloc, accepted, load)
}

// What is due for the load of `bench` on the accepted auction.
fn accepted_bench_due(alloc: Global, load: Load, accepted: Accepted) -> Result<CallDue, DoneSoFar>
    requires { load.bidders ≤ 10000 }
    ensures ok { IfOk result (λ d.
        IsBenchDue accepted bench_orders load d.due.status d.due.out.items d.due.journal) }
    ensures kept { IfOk result (λ d. kept_text d.due ≡ None) }
    ensures err { IfErr result (λ part. IsBenchPart accepted bench_orders load part.journal) }
    ensures given { given_of result ≡ Some accepted }
    ensures untaken { taken_of result ≡ None }
{
    let due = indexed_bench_due(bench_orders(), alloc, &accepted, load);
    due_behind(accepted, due)
}
