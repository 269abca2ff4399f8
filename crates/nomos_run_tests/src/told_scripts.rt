//! How scripts are run in the tests: on the indexed form of a state, from texts, by a crew.
ghost use Rattle.nomos_legal.specs.Legal.{IsLegal, IsLimit};
ghost use Rattle.nomos_run.specs.Carried.{RunsScript};
ghost use Rattle.nomos_workers.specs.Crews.{IsCrew};

use nomos_accept::accepting::accept;
use nomos_machine::policy::Policy;
use nomos_replay::refused::push_refusal;
use nomos_replay::replay::replay;
use nomos_run::orders::{Orders, Runner, ScriptRun, WholeRun};
use nomos_run::script_crew::run_script_by_crew;
use nomos_script::parsing::parse_script;
use nomos_script::script::Script;
use nomos_state::indexed::IndexedState;
use nomos_types::accepted::Accepted;
use nomos_workers::batch::Crew;
use nomos_workers::gate::{Gate, OpenGate};
use std::alloc::{AllocError, Global};
use std::process::Abort;
use std::sync::Wait;
use std::test::Fail;
use std::thread::Threads;

/// What is printed of a script, and the text of its journal.
#[derive(Drop)]
pub(crate) struct ToldScript {
    pub(crate) report: Vec<u8>,
    pub(crate) journal: Vec<u8>,
}

/// The acceptance of a contract.
pub(crate) fn accepted_of<R: Abort + AllocGlobal>(rt: &R, contract: &str) -> Accepted {
    match accept(rt.alloc(), contract.as_bytes()) {
        Ok(accepted) => accepted,
        Err(_) => panic!(rt; "not accepted"),
    }
}

/// The script of a text.
pub(crate) fn script_of<R: Abort + AllocGlobal>(rt: &R, text: &str) -> Script {
    match parse_script(rt.alloc(), text.as_bytes()) {
        Ok(script) => script,
        Err(_) => panic!(rt; "no script"),
    }
}

/// What was told of a run in which all items have passed.
pub(crate) fn told_of<R: Abort + AllocGlobal>(rt: &R, ran: ScriptRun<IndexedState>) -> ToldScript {
    let ScriptRun {
        journal: _journal,
        finished,
    } = ran;
    let Some(whole) = finished else {
        panic!(rt; "memory was wanting")
    };
    let WholeRun {
        report,
        text,
        last_result: _last_result,
        ledger: _ledger,
    } = whole;
    let Some(journal) = text else {
        panic!(rt; "no text of the journal")
    };
    ToldScript { report, journal }
}

/// The run of a script, over the indexed form of a state.
pub(crate) fn ran<G: Gate, R: Threads + Wait + Sync>(
    runner: &Runner<'_, G, R>,
    alloc: Global,
    accepted: &Accepted,
    script: &Script,
) -> ScriptRun<IndexedState>
    requires crew { IsCrew runner.now.orders.crew }
    requires limit { IsLimit runner.now.orders.limit }
    ensures { RunsScript accepted.now script.now runner.now.orders result }
{
    run_script_by_crew(runner, alloc, accepted, script)
}

/// What is told of a script on a contract, run by a crew, each batch for at most so many firings.
pub(crate) fn tell<R: Abort + AllocGlobal + Threads + Wait + Sync>(
    rt: &R,
    texts: (&str, &str),
    crew: Crew,
    limit: u32,
) -> ToldScript
    requires crew { IsCrew crew }
    requires limit { IsLimit limit }
{
    let accepted = accepted_of(rt, texts.0);
    let script = script_of(rt, texts.1);
    let orders = Orders {
        crew,
        limit,
        text: true,
        result: true,
    };
    let gate = OpenGate;
    let runner = Runner {
        rt,
        gate: &gate,
        orders,
    };
    told_of(rt, ran(&runner, rt.alloc(), &accepted, &script))
}

/// What is told of it, run by one worker, each batch for at most a million firings.
pub(crate) fn tell_by<R: Abort + AllocGlobal + Threads + Wait + Sync>(
    rt: &R,
    texts: (&str, &str),
    policy: Policy,
) -> ToldScript {
    tell(rt, texts, Crew::One(policy), 1_000_000)
}

/// Contract and script, the policy, and what is printed.
pub(crate) type ScriptCase<'a> = (&'a str, &'a str, Policy, &'a str);

/// Fails unless these reports are printed.
pub(crate) fn expect_reports<R: Abort + AllocGlobal + Threads + Wait + Sync>(
    rt: &R,
    table: &[ScriptCase<'_>],
) -> Result<(), Fail> {
    for (contract, script, policy, report) in table {
        let told = tell_by(rt, (contract, script), *policy);
        expect_bytes(rt, &told.report, report)?;
    }
    Ok(())
}

/// What is answered of a journal of a script on an accepted contract: its report, or why it is refused.
pub(crate) fn answer(
    alloc: Global,
    accepted: &Accepted,
    script: &Script,
    journal: &[u8],
) -> Result<Vec<u8>, AllocError> {
    match replay::<IndexedState>(alloc, accepted, script, journal) {
        Ok(replayed) => Ok(replayed.report),
        Err(error) => {
            let mut line = Vec::new(alloc);
            push_refusal(&mut line, accepted.unit(), &error)?;
            Ok(line)
        }
    }
}

/// The same, where the contract is a text.
pub(crate) fn replayed<R: Abort + AllocGlobal>(
    rt: &R,
    texts: (&str, &str),
    journal: &[u8],
) -> Result<Vec<u8>, Fail> {
    let accepted = accepted_of(rt, texts.0);
    let script = script_of(rt, texts.1);
    Ok(answer(rt.alloc(), &accepted, &script, journal)?)
}

/// Fails unless these bytes were wanted.
pub(crate) fn expect_bytes(rt: &impl Abort, found: &[u8], wanted: &str) -> Result<(), Fail> {
    assert_eq!(rt; str::from_utf8(found)?, wanted);
    Ok(())
}
