//! What is due where a script is run, by one worker or by a crew.

ghost use Rattle.std.specs.Prelude.{◌≡◌, IfOk, IfErr};
ghost use Rattle.nomos_legal.specs.Legal.{IsLimit};
ghost use Rattle.nomos_machine.specs.declared.policy.Policy.{Policy};
ghost use Rattle.nomos_report.specs.Reported.{run_status};
ghost use Rattle.nomos_workers.specs.Crews.{IsCrew};
ghost use Rattle.nomos_answers.specs.Finding.{HasRunAs, HasRunPart};
ghost use Rattle.nomos_answers.specs.Outside.{source_state};
ghost use Rattle.nomos_answers.specs.RunsDue.{usual_orders};
ghost use Rattle.nomos_answers.specs.Sources.{IsRunDueFor, IsRunPartFor};

use crate::due::Due;
use crate::script_found::{no_script_due, read_script};
use nomos_base::Source;
use nomos_deeds::undo::Undo;
use nomos_ir::limits::USUAL_LIMIT;
use nomos_legal::journal::Journal;
use nomos_machine::policy::Policy;
use nomos_run::one_worker::run_script;
use nomos_run::orders::{Orders, Runner, ScriptRun, WholeRun};
use nomos_run::script_crew::run_script_by_crew;
use nomos_run::status::run_status;
use nomos_script::script::Script;
use nomos_types::accepted::Accepted;
use nomos_workers::batch::Crew;
use nomos_workers::gate::Gate;
use std::alloc::Global;
use std::sync::Wait;
use std::thread::Threads;

/// How a script is run where the words say nothing of that. It takes no memory.
pub fn usual_orders() -> Orders
    ensures { result ≡ usual_orders }
{
    Orders {
        crew: Crew::One(Policy::First),
        limit: USUAL_LIMIT,
        text: false,
        result: false,
    }
}

/// What is due of a run of which all items have passed.
pub(crate) fn whole_due<M: Undo + Drop>(journal: Journal, whole: WholeRun<M>) -> Due
    ensures status { result.status ≡ run_status journal.entries }
    ensures out { result.out ≡ whole.report }
    ensures kept { result.kept ≡ whole.text }
    ensures journal { result.journal ≡ journal }
{
    let WholeRun { report, text, .. } = whole;
    Due {
        status: run_status(journal.entries.as_slice()),
        out: report,
        kept: text,
        journal,
    }
}

/// What is due of a script that reads, run by one worker.
pub(crate) fn ran_due<M: Undo + Drop>(
    orders: Orders,
    alloc: Global,
    accepted: &Accepted,
    script: &Script,
) -> Result<Due, Journal>
    requires one { (policy : Policy) × (orders.crew ≡ Crew.One policy) }
    requires limit { IsLimit orders.limit }
    ensures ok { IfOk result (HasRunAs accepted.now script.now orders) }
    ensures err { IfErr result (HasRunPart accepted.now script.now orders) }
{
    let ScriptRun { journal, finished } = run_script::<M>(orders, alloc, accepted, script);
    match finished {
        Some(whole) => Ok(whole_due(journal, whole)),
        None => Err(journal),
    }
}

/// What is due where the script that a source has is run on an accepted contract, from the empty ledger, by one worker.
/// Want of memory gives the journal of some first items. See docs/TEXTS.md, "The script" and "Words and statuses".
pub fn run_due<M: Undo + Drop, S: Source>(
    orders: Orders,
    alloc: Global,
    accepted: &Accepted,
    script: &mut S,
) -> Result<Due, Journal>
    requires one { (policy : Policy) × (orders.crew ≡ Crew.One policy) }
    requires limit { IsLimit orders.limit }
    ensures ok { IfOk result (IsRunDueFor accepted.now orders
        (source_state (S.left script.old) (S.faults script.old) (S.faults script.new))) }
    ensures err { IfErr result (IsRunPartFor accepted.now orders
        (source_state (S.left script.old) (S.faults script.old) (S.faults script.new))) }
{
    match read_script(alloc, script) {
        Ok(script) => ran_due::<M>(orders, alloc, accepted, &script),
        Err(why) => no_script_due(alloc, orders.limit, why),
    }
}

// What is due of a script that reads, run by a crew.
fn ran_due_by_crew<M: Undo + Drop + Send, G: Gate, R: Threads + Wait + Sync>(
    runner: &Runner<'_, G, R>,
    alloc: Global,
    accepted: &Accepted,
    script: &Script,
) -> Result<Due, Journal>
    requires crew { IsCrew runner.now.orders.crew }
    requires limit { IsLimit runner.now.orders.limit }
    ensures ok { IfOk result (HasRunAs accepted.now script.now runner.now.orders) }
    ensures err { IfErr result (HasRunPart accepted.now script.now runner.now.orders) }
{
    let ScriptRun { journal, finished } = run_script_by_crew::<M, G, R>(
        runner, alloc, accepted, script,
    );
    match finished {
        Some(whole) => Ok(whole_due(journal, whole)),
        None => Err(journal),
    }
}

/// What is due where the script that a source has is run as `run_due` has it, but by the runner's crew.
pub fn run_due_by_crew<M: Undo + Drop + Send, S: Source, G: Gate, R: Threads + Wait + Sync>(
    runner: &Runner<'_, G, R>,
    alloc: Global,
    accepted: &Accepted,
    script: &mut S,
) -> Result<Due, Journal>
    requires crew { IsCrew runner.now.orders.crew }
    requires limit { IsLimit runner.now.orders.limit }
    ensures ok { IfOk result (IsRunDueFor accepted.now runner.now.orders
        (source_state (S.left script.old) (S.faults script.old) (S.faults script.new))) }
    ensures err { IfErr result (IsRunPartFor accepted.now runner.now.orders
        (source_state (S.left script.old) (S.faults script.old) (S.faults script.new))) }
{
    match read_script(alloc, script) {
        Ok(script) => ran_due_by_crew::<M, G, R>(runner, alloc, accepted, &script),
        Err(why) => no_script_due(alloc, runner.orders.limit, why),
    }
}
