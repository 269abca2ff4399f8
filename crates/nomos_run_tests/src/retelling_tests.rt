//! Tests: what is made of a journal is what was made while its script ran.
ghost use Rattle.nomos_legal.specs.Legal.{IsLegal};

use crate::auction_script::TWO_BIDS;
use crate::contracts::{CELLS, CROSSED, DIVISION, HALVES, TWO_DIVIDE};
use crate::told_scripts::{ToldScript, accepted_of, expect_bytes, ran, script_of};
use nomos_legal::journal::Journal;
use nomos_machine::policy::Policy;
use nomos_replay::retelling::{journal_text, report};
use nomos_run::orders::{Orders, Runner, ScriptRun, WholeRun};
use nomos_script::script::Script;
use nomos_state::indexed::IndexedState;
use nomos_types::accepted::Accepted;
use nomos_words::load::auction_text;
use nomos_workers::batch::Crew;
use nomos_workers::gate::OpenGate;
use std::process::Abort;
use std::sync::Wait;
use std::test::Fail;
use std::thread::Threads;

// The journal of a script, and what is told of its run.
fn journal_of<R: Abort + AllocGlobal + Threads + Wait + Sync>(
    rt: &R,
    accepted: &Accepted,
    script: &Script,
    policy: Policy,
) -> (Journal, ToldScript)
    ensures { IsLegal accepted.now script.now result.0 }
{
    let orders = Orders {
        crew: Crew::One(policy),
        limit: 1_000_000,
        text: true,
        result: false,
    };
    let gate = OpenGate;
    let runner = Runner {
        rt,
        gate: &gate,
        orders,
    };
    let ScriptRun { journal, finished } = ran(&runner, rt.alloc(), accepted, script);
    let Some(whole) = finished else {
        panic!(rt; "memory was wanting")
    };
    let WholeRun { report, text, .. } = whole;
    let Some(text) = text else {
        panic!(rt; "no text of the journal")
    };
    let told = ToldScript {
        report,
        journal: text,
    };
    (journal, told)
}

// Fails unless the report and the text that are made of the journal of a script are those of its run.
fn expect_retold<R: Abort + AllocGlobal + Threads + Wait + Sync>(
    rt: &R,
    texts: (&str, &str),
    policy: Policy,
) -> Result<(), Fail> {
    let accepted = accepted_of(rt, texts.0);
    let script = script_of(rt, texts.1);
    let (journal, told) = journal_of(rt, &accepted, &script, policy);
    let again = report::<IndexedState>(rt.alloc(), &accepted, &script, &journal)?;
    expect_bytes(rt, &again, str::from_utf8(&told.report)?)?;
    let text = journal_text::<IndexedState>(rt.alloc(), &accepted, &script, &journal)?;
    expect_bytes(rt, &text, str::from_utf8(&told.journal)?)
}

// Batches that stay, that are blocked and that are aborted, and ledgers that are shown.
#[test]
fn journals_are_told_again(rt: HostRuntime) -> Result<(), Fail> {
    let table: [(&str, &str, Policy); 6] = [
        ("", "", Policy::First),
        (str::from_utf8(auction_text())?, TWO_BIDS, Policy::Round),
        (HALVES, "deposit u 1\nexec u t(;)\nshow\n", Policy::First),
        (CELLS, CROSSED, Policy::First),
        (CELLS, CROSSED, Policy::Round),
        (DIVISION, TWO_DIVIDE, Policy::Round),
    ];
    for (contract, script, policy) in table {
        expect_retold(&rt, (contract, script), policy)?;
    }
    Ok(())
}
