//! Tests: scripts whose single lines threads submit, run on a ledger.
ghost use Rattle.std.specs.Prelude.{◌<◌};

use crate::pooled_tests::{SENDERS, keeps_order};
use nomos_accept::accepting::accept;
use nomos_machine::policy::Policy;
use nomos_pool::pooled::pool_script;
use nomos_run::one_worker::run_script;
use nomos_run::orders::{Orders, ScriptRun, WholeRun};
use nomos_script::item::ScriptItem;
use nomos_script::parsing::parse_script;
use nomos_script::script::Script;
use nomos_state::indexed::IndexedState;
use nomos_types::accepted::Accepted;
use nomos_workers::batch::Crew;
use std::alloc::{AllocError, Global};
use std::process::Abort;
use std::sync::Wait;
use std::test::Fail;
use std::thread::Threads;

// A transaction answers with what it is given.
const SAY: &str = "proc T say(n: int;) = emit n; close;
";

// The third line that says something is sent by nobody.
const ONE_REFUSED: &str = "deposit a 0
deposit b 0
exec a say(1;)
exec b say(2;)
exec nobody say(3;)
exec a say(4;)
";

const ONE_REFUSED_REPORT: &str = "accepted
unit 1
bound say = 0
line 1 deposited
line 2 deposited
line 3 committed firings 2 spent 0
result 1 1
line 4 committed firings 2 spent 0
result 2 2
line 5 refused at 5 NoAccount nobody
line 6 committed firings 2 spent 0
result 3 4
";

// The run of a script by one worker, on the indexed form of a state.
fn ran(alloc: Global, accepted: &Accepted, script: &Script) -> ScriptRun<IndexedState> {
    let orders = Orders {
        crew: Crew::One(Policy::First),
        limit: 1000,
        text: false,
        result: false,
    };
    run_script(orders, alloc, accepted, script)
}

// What is reported of a run that carried out all items.
fn report_of<R: Abort + AllocGlobal>(rt: &R, ran: ScriptRun<IndexedState>) -> Vec<u8> {
    let ScriptRun {
        journal: _journal,
        finished,
    } = ran;
    let Some(whole) = finished else {
        panic!(rt; "memory was wanting")
    };
    let WholeRun {
        report,
        text: _text,
        last_result: _last_result,
        ledger: _ledger,
    } = whole;
    report
}

// What is reported of a script on the contract that says what it is given.
fn said<R: Abort + AllocGlobal>(rt: &R, script: &Script) -> Vec<u8> {
    let Ok(accepted) = accept(rt.alloc(), SAY.as_bytes()) else {
        panic!(rt; "not accepted")
    };
    report_of(rt, ran(rt.alloc(), &accepted, script))
}

// What a script comes to where so many threads submit its single lines.
fn pooled_script<R: Abort + AllocGlobal + Threads + Wait + Sync>(
    rt: &R,
    script: Script,
    threads: u32,
) -> Script
    requires { 0 < threads }
{
    match pool_script(rt, rt.alloc(), script, threads) {
        Ok(Ok(script)) => script,
        Ok(Err(_)) => panic!(rt; "a line was refused"),
        Err(_) => panic!(rt; "memory was wanting"),
    }
}

// The script of a text.
fn script_of<R: Abort + AllocGlobal>(rt: &R, text: &str) -> Script {
    match parse_script(rt.alloc(), text.as_bytes()) {
        Ok(script) => script,
        Err(_) => panic!(rt; "no script"),
    }
}

// A line that cannot start is refused among those that threads submit, and the others are carried out.
#[test]
fn a_refused_line_leaves_the_others(rt: HostRuntime) -> Result<(), Fail> {
    let script = script_of(&rt, ONE_REFUSED);
    let report = said(&rt, &pooled_script(&rt, script, 1));
    assert_eq!(rt; str::from_utf8(&report)?, ONE_REFUSED_REPORT);
    Ok(())
}

// The text of a script that makes eleven accounts, each of which then says every eleventh number below 1,000.
fn thousand_lines(alloc: Global) -> Result<String, AllocError> {
    let mut text = String::new(alloc);
    for sender in SENDERS {
        let line = format!(in alloc; "deposit {sender} 0\n")?;
        text.push_str(&line)?;
    }
    for number in 0..1000u32 {
        let sender = SENDERS[number as usize % 11];
        let line = format!(in alloc; "exec {sender} say({number};)\n")?;
        text.push_str(&line)?;
    }
    Ok(text)
}

// The first line of that text behind those that make accounts.
const FIRST_LINE: u32 = 12;

// What is reported where the items of such a script are carried out in this order.
fn wanted_report(alloc: Global, items: &[ScriptItem]) -> Result<String, AllocError> {
    let mut text = String::new(alloc);
    text.push_str("accepted\nunit 1\nbound say = 0\n")?;
    let mut process = 1u32;
    for item in items {
        if let ScriptItem::Deposit { line, .. } = item {
            let told = format!(in alloc; "line {line} deposited\n")?;
            text.push_str(&told)?;
        }
        if let ScriptItem::Batch(batch) = item {
            let line = batch.line;
            let number = line.saturating_sub(FIRST_LINE);
            let told = format!(in alloc;
                "line {line} committed firings 2 spent 0\nresult {process} {number}\n"
            )?;
            text.push_str(&told)?;
            process = process.saturating_add(1);
        }
    }
    Ok(text)
}

// Fails unless of each account its lines come in the order of the script.
fn expect_accounts_in_order<R: Abort>(rt: &R, items: &[ScriptItem]) {
    for place in 0..11 {
        let first = FIRST_LINE + place;
        assert!(rt; keeps_order(items, SENDERS[place as usize], first, FIRST_LINE + 1000));
    }
}

// A thousand lines of eleven accounts, submitted by eight threads: their results come as they were gathered, of each
// account in the order of the script.
#[test]
fn results_come_as_lines_were_gathered(rt: HostRuntime) -> Result<(), Fail> {
    let script = script_of(&rt, &thousand_lines(rt.alloc())?);
    let pooled = pooled_script(&rt, script, 8);
    expect_accounts_in_order(&rt, pooled.items().as_slice());
    let report = said(&rt, &pooled);
    let wanted = wanted_report(rt.alloc(), pooled.items().as_slice())?;
    assert_eq!(rt; str::from_utf8(&report)?, wanted.as_str());
    Ok(())
}
