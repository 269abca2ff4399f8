//! Tests: what is answered to words, to contracts that are checked, and to searches for least bounds.
use crate::top_calls::{ACCEPTED, CUT_SHORT, EMPTY_ACCEPTED, FLIP, HALVES, expect, repeated};
use nomos_ir::limits::TEXT_LIMIT;
use std::process::Abort;
use std::sync::Wait;
use std::test::Fail;
use std::thread::Threads;

#[test]
fn answers_what_is_checked(rt: HostRuntime) -> Result<(), Fail> {
    let table = [
        ("", EMPTY_ACCEPTED),
        (FLIP, ACCEPTED),
        (
            HALVES,
            "0 true 0 (0, 0, 0; 0, 0)\naccepted\nunit 1/2\nstar 1 = 1/2\nstar 2 = 1/2\nstar 3 = 1/2\n\
            star 4 = 1/2\nstar 5 = 1/2\nbound t = 2/2\n--\n",
        ),
        (
            "type R coin = 1; proc R bad(; c : coin) : 1 = close;",
            "1 false 0 (0, 0, 0; 0, 0)\nrefused ProcType 46 close\n--\n",
        ),
        (
            "proc R p(;) {*} : 1 = work {2}; close; proc T f(;) {1} = spawn x = p(;); wait x; close;",
            "1 false 0 (0, 0, 0; 0, 0)\nrefused NoPotential\ntimes 1 row -1 >= -1\ntimes 1 row 1 >= 2\n\
            gives 0 >= 1\n--\n",
        ),
    ];
    for (text, wanted) in table {
        expect(&rt, "check it.nomos", (text, "", ""), wanted)?;
    }
    Ok(())
}

// Whoever does a job has star 2 from its start, for each of two, and star 3 where it is done, once.
const TWO_JOBS: &str = "type R job = &{ go : <{*}| 1 | no : 1 };
proc R p(;) {*} : job = case self { go => get self {*}; work {3}; close | no => close };
proc T t(;) {*} = spawn a = p(;); spawn b = p(;); a.go; pay a {*}; wait a; b.no; wait b; close;
";

#[test]
fn finds_least_bounds(rt: HostRuntime) -> Result<(), Fail> {
    let table = [
        (
            "",
            "0 true 0 (0, 0, 0; 0, 0)\naccepted\nunit 1\nleast 0\nscale 1\n--\n",
        ),
        (
            TWO_JOBS,
            "0 true 0 (0, 0, 0; 0, 0)\naccepted\nunit 1\nstar 1 = 3\nstar 2 = 0\nstar 3 = 3\nstar 4 = 3\n\
            star 5 = 3\nbound t = 3\nleast 3\nscale 1\ntimes 1 star 2\ntimes 1 row -1 0 0 0 1 >= 0\n\
            times 1 row 0 -2 0 1 -1 >= 0\ntimes 1 row 0 1 1 0 0 >= 3\ntimes 1 row 1 0 -1 0 0 >= 0\n--\n",
        ),
        (
            "proc R p(;) {*} : 1 = work {2}; close; proc T f(;) {1} = spawn x = p(;); wait x; close;",
            "1 false 0 (0, 0, 0; 0, 0)\nrefused NoPotential\ntimes 1 row -1 >= -1\ntimes 1 row 1 >= 2\n\
            gives 0 >= 1\n--\n",
        ),
    ];
    for (text, wanted) in table {
        expect(&rt, "least it.nomos", (text, "", ""), wanted)?;
    }
    Ok(())
}

// Fails unless this is answered to a contract of so many blanks.
fn expect_of_blanks<R: Abort + AllocGlobal + Threads + Wait + Sync>(
    rt: &R,
    times: usize,
    wanted: &str,
) -> Result<(), Fail> {
    let text = repeated(rt.alloc(), " ", times)?;
    expect(rt, "check it.nomos", (text.as_str(), "", ""), wanted)
}

#[test]
fn contracts_have_a_limit(rt: HostRuntime) -> Result<(), Fail> {
    expect_of_blanks(&rt, TEXT_LIMIT, EMPTY_ACCEPTED)?;
    expect_of_blanks(
        &rt,
        TEXT_LIMIT + 1,
        "1 false 0 (0, 0, 0; 0, 0)\nrefused TooLong\n--\n",
    )
}

const USAGE: &str =
    "4 false 0 (0, 0, 0; 0, 0)\nusage: nomos check FILE | run FILE SCRIPT [--workers N] \
    [--policy first|round] [--steps N] [--journal FILE] | replay FILE SCRIPT JOURNAL | bench SEED BIDDERS \
    | least FILE | pool FILE SCRIPT THREADS | talk FILE SCRIPT NAME PROC TALK | save FILE SCRIPT SNAP \
    | resume FILE SNAP SCRIPT\n--\n";

// Lines whose words ask for a task, which all read a contract that is cut short.
const TASKS: [&str; 10] = [
    "check a-file",
    "least a",
    "run a b",
    "run a b --workers 16 --steps 10000000 --journal c",
    "run a b --journal c --policy round --workers 1",
    "replay a b c",
    "pool a b 8",
    "talk a b - -x c",
    "save a b c",
    "resume a b c",
];

#[test]
fn words_ask_for_a_task(rt: HostRuntime) -> Result<(), Fail> {
    for line in TASKS {
        expect(&rt, line, ("type", "", ""), CUT_SHORT)?;
    }
    Ok(())
}

// Lines whose words ask for nothing.
const NO_TASKS: [&str; 20] = [
    "",
    "least",
    "least -a",
    "least a b",
    "check",
    "check ",
    "check -v",
    "check a b",
    "run a",
    "run a -b",
    "run a b --workers 17",
    "run a b --steps 0",
    "run a b --workers 2 --policy round",
    "replay a b",
    "bench 0 10001",
    "pool a b 0",
    "talk a b c d",
    "save a b",
    "resume a b -c",
    "Check a",
];

#[test]
fn other_words_ask_for_nothing(rt: HostRuntime) -> Result<(), Fail> {
    for line in NO_TASKS {
        expect(&rt, line, ("type", "", ""), USAGE)?;
    }
    Ok(())
}
