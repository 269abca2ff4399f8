//! What is due where several workers run a script, each in a thread of its own.

ghost use Rattle.std.specs.Prelude.{◌≡◌, ℕ, List, Option, Some, None, IfOk, IfErr};
ghost use Rattle.nomos_answers.specs.Outside.{SourceState, source_state};
ghost use Rattle.nomos_answers.specs.Sources.{IsRunDueFor, IsRunPartFor};
ghost use Rattle.nomos_legal.specs.Legal.{IsLimit};
ghost use Rattle.nomos_top.specs.TaskRuns.{run_orders};
ghost use Rattle.nomos_top.specs.mirror.Judging.{IsTaskDueOn, IsTaskPartOn, given_of, taken_of};
ghost use Rattle.nomos_words.specs.Words.{run};
ghost use Rattle.nomos_words.specs.declared.workers.Workers.{Workers};
ghost use Rattle.nomos_workers.specs.Crews.{IsCrew};

use crate::call_due::{CallDue, DoneSoFar, due_behind};
use crate::judging::judge;
use crate::stage::CallStage;
use crate::unaccepted::unaccepted_due;
use nomos_answers::due::Due;
use nomos_answers::runs;
use nomos_base::Source;
use nomos_boxed::boxed::Boxed;
use nomos_legal::journal::Journal;
use nomos_run::orders::{Orders, Runner};
use nomos_state::indexed::IndexedState;
use nomos_types::accepted::Accepted;
use nomos_workers::gate::Gate;
use std::alloc::Global;
use std::sync::Wait;
use std::thread::Threads;

/// What is due for a run by these orders, of which a crew may be several workers.
pub(crate) fn script_due_by_crew<S: Source, G: Gate, R: Threads + Wait + Sync>(
    stage: &CallStage<'_, G, R>,
    orders: Orders,
    contract: &mut S,
    script: &mut S,
) -> Result<CallDue, DoneSoFar>
    requires crew { IsCrew orders.crew }
    requires limit { IsLimit orders.limit }
    ensures ok { (file words : List ℕ) (by : Workers) (steps : ℕ) (kept : Option (List ℕ)) (third : SourceState)
        → orders ≡ run_orders by steps kept → IfOk result (IsTaskDueOn (record {
          contract = source_state (S.left contract.old) (S.faults contract.old) (S.faults contract.new);
          script = source_state (S.left script.old) (S.faults script.old) (S.faults script.new);
          third = third;
        }) (run file words by steps kept)) }
    ensures err { (file words : List ℕ) (by : Workers) (steps : ℕ) (kept : Option (List ℕ)) (third : SourceState)
        → orders ≡ run_orders by steps kept → IfErr result (IsTaskPartOn (record {
          contract = source_state (S.left contract.old) (S.faults contract.old) (S.faults contract.new);
          script = source_state (S.left script.old) (S.faults script.old) (S.faults script.new);
          third = third;
        }) (run file words by steps kept)) }
    ensures unread { given_of result ≡ None → script.new ≡ script.old }
{
    match judge(stage.alloc, contract) {
        Ok(accepted) => accepted_script_due_by_crew(stage, orders, accepted, script),
        Err(unaccepted) => unaccepted_due(stage.alloc, orders.limit, unaccepted),
    }
}

// What is due for a run, over the indexed form of a state.
fn boxed_script_due_by_crew<S: Source, G: Gate, R: Threads + Wait + Sync>(
    runner: &Runner<'_, G, R>,
    alloc: Global,
    accepted: &Accepted,
    script: &mut S,
) -> Result<Due, Journal>
    requires crew { IsCrew runner.now.orders.crew }
    requires limit { IsLimit runner.now.orders.limit }
    ensures ok { IfOk result (IsRunDueFor accepted.now runner.now.orders
        (source_state (S.left script.old) (S.faults script.old) (S.faults script.new))) }
    ensures err { IfErr result (IsRunPartFor accepted.now runner.now.orders
        (source_state (S.left script.old) (S.faults script.old) (S.faults script.new))) }
{
    runs::run_due_by_crew::<Boxed<IndexedState>, S, G, R>(runner, alloc, accepted, script)
}

// What is due for a run on an accepted contract.
fn accepted_script_due_by_crew<S: Source, G: Gate, R: Threads + Wait + Sync>(
    stage: &CallStage<'_, G, R>,
    orders: Orders,
    accepted: Accepted,
    script: &mut S,
) -> Result<CallDue, DoneSoFar>
    requires crew { IsCrew orders.crew }
    requires limit { IsLimit orders.limit }
    ensures ok { IfOk result (λ d. IsRunDueFor accepted orders
        (source_state (S.left script.old) (S.faults script.old) (S.faults script.new)) d.due) }
    ensures err { IfErr result (λ part. IsRunPartFor accepted orders
        (source_state (S.left script.old) (S.faults script.old) (S.faults script.new)) part.journal) }
    ensures given { given_of result ≡ Some accepted }
    ensures untaken { taken_of result ≡ None }
{
    let runner = Runner {
        rt: stage.rt,
        gate: stage.gate,
        orders,
    };
    let due = boxed_script_due_by_crew(&runner, stage.alloc, &accepted, script);
    due_behind(accepted, due)
}
