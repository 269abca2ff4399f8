//! Tests: what is answered to runs, to replays, and to `bench`.
use crate::top_calls::{ACCEPTED, BIT, CUT_SHORT, HALVES, expect, repeated};
use nomos_ir::limits::TEXT_LIMIT;
use std::process::Abort;
use std::sync::Wait;
use std::test::Fail;
use std::thread::Threads;

#[test]
fn runs_scripts(rt: HostRuntime) -> Result<(), Fail> {
    let table = [
        ("", ACCEPTED),
        ("// nothing\n", ACCEPTED),
        (
            "deposit u 0\nexec u t(;)\n",
            "0 true 2 (0, 0, 0; 0, 0)\naccepted\nunit 1\nbound t = 0\n\
            line 1 deposited\nline 2 committed firings 6 spent 0\n--\n",
        ),
        (
            "exec v t(;)\ndeposit u 5\n\nexec u nope(;)\nexec u mk(;)\nexec u t(;)",
            "3 true 5 (0, 0, 0; 0, 0)\naccepted\nunit 1\nbound t = 0\n\
            line 1 refused at 1 NoAccount v\nline 2 deposited\nline 4 refused at 4 NoProcess nope\n\
            line 5 refused at 5 NoProcess mk\nline 6 committed firings 6 spent 0\n--\n",
        ),
        (
            "deposit u 1\nbegin\nexec u t(;)\nend\nshow\n",
            "0 true 2 (0, 0, 0; 0, 0)\naccepted\nunit 1\nbound t = 0\nline 1 deposited\n\
            line 2 committed firings 6 spent 0\nline 5 show\naccount u 1\nstored 0\nspent 0\ndeposits 1\n--\n",
        ),
        (
            "deposit u 1000000000000000001",
            "2 true 0 (0, 0, 0; 0, 0)\nscript refused Syntax 1\n--\n",
        ),
        (
            "deposit u 1\nhello\n",
            "2 true 0 (0, 0, 0; 0, 0)\nscript refused Syntax 2\n--\n",
        ),
    ];
    for (script, wanted) in table {
        expect(&rt, "run a b", (BIT, script, ""), wanted)?;
    }
    Ok(())
}

// Fails unless this is answered to a run of so many times a line.
fn expect_of_lines<R: Abort + AllocGlobal + Threads + Wait + Sync>(
    rt: &R,
    line: &str,
    times: usize,
    wanted: &str,
) -> Result<(), Fail> {
    let script = repeated(rt.alloc(), line, times)?;
    expect(rt, "run a b", (BIT, script.as_str(), ""), wanted)
}

#[test]
fn scripts_have_a_limit(rt: HostRuntime) -> Result<(), Fail> {
    let wanted = "2 true 0 (0, 0, 0; 0, 0)\nscript refused TooLong\n--\n";
    expect_of_lines(&rt, " ", TEXT_LIMIT + 1, wanted)
}

#[test]
fn a_contract_is_refused_before_its_script(rt: HostRuntime) -> Result<(), Fail> {
    expect(&rt, "replay a b c", ("type", "begin", "nothing"), CUT_SHORT)
}

// The gas of a transaction with halves of a unit, by one worker of each policy and by several.
const GAS_REPORT: &str =
    "0 true 2 (0, 0, 0; 0, 0)\naccepted\nunit 1/2\nstar 1 = 1/2\nstar 2 = 1/2\nstar 3 = 1/2\n\
    star 4 = 1/2\nstar 5 = 1/2\nbound t = 2/2\nline 1 deposited\nline 2 committed firings 15 spent 2/2\n--\n";

#[test]
fn runs_by_workers(rt: HostRuntime) -> Result<(), Fail> {
    let lines = [
        "run a b",
        "run a b --policy round",
        "run a b --workers 1 --policy first --steps 15",
        "run a b --workers 2",
        "run a b --steps 15 --workers 16",
    ];
    for line in lines {
        expect(
            &rt,
            line,
            (HALVES, "deposit u 1\nexec u t(;)\n", ""),
            GAS_REPORT,
        )?;
    }
    Ok(())
}

const TWO_LINES: &str = "deposit u 0\nexec u t(;)\n";

const KEPT: &str =
    "nomos-journal 2\nsteps 6\nline 1\nend deposited\nline 2\n1 spawn\n2 label\n1 case\n2 close\n\
    1 wait\n1 close\nend committed\n";

const KEPT_REPORT: &str =
    "0 true 2 (0, 0, 0; 0, 0)\naccepted\nunit 1\nbound t = 0\nline 1 deposited\n\
    line 2 committed firings 6 spent 0\n--\n";

#[test]
fn keeps_a_journal(rt: HostRuntime) -> Result<(), Fail> {
    let wanted = "0 true 2 (0, 0, 0; 0, 0)\naccepted\nunit 1\nbound t = 0\nline 1 deposited\n\
        line 2 committed firings 6 spent 0\n--\nnomos-journal 2\nsteps 6\nline 1\nend deposited\nline 2\n1 spawn\n\
        2 label\n1 case\n2 close\n1 wait\n1 close\nend committed\n";
    expect(
        &rt,
        "run a b --steps 6 --journal c",
        (BIT, TWO_LINES, ""),
        wanted,
    )
}

#[test]
fn replays_journals(rt: HostRuntime) -> Result<(), Fail> {
    let table = [
        (KEPT, KEPT_REPORT),
        (
            "",
            "9 true 0 (0, 0, 0; 0, 0)\njournal refused BadLine 1\n--\n",
        ),
        (
            "nomos-journal 1\nsteps 6\nline 1\nend deposited\nline 2\n1\n2\n1\nend committed\n",
            "9 true 0 (0, 0, 0; 0, 0)\njournal refused WrongEnd 9 kept committed found running\n--\n",
        ),
    ];
    for (journal, wanted) in table {
        expect(&rt, "replay a b c", (BIT, TWO_LINES, journal), wanted)?;
    }
    Ok(())
}

#[test]
fn benches_a_bidder(rt: HostRuntime) -> Result<(), Fail> {
    let wanted =
        "0 true 7 (0, 0, 0; 0, 0)\nbench 0 1\nentries 7\nfirings 52\nspent 5\nbest 808\n--\n";
    expect(&rt, "bench 0 1", ("type", "begin", "nothing"), wanted)
}
