//! Tests: calls of which a read or a write fails.
use crate::top_calls::{BIT, Faults, NEVER, NO_FAULTS, answer_in_pieces, expect_in_pieces};
use std::process::Abort;
use std::sync::Wait;
use std::test::Fail;
use std::thread::Threads;

// The script of a run, and the text of its journal.
const SCRIPT: &str = "deposit u 0\nexec u t(;)\n";

const JOURNAL: &str =
    "nomos-journal 1\nsteps 1000000\nline 1\nend deposited\nline 2\n1\n2\n1\n2\n1\n1\nend committed\n";

// Fails unless this is answered to a run, or a replay, of which one call fails, where each moves four bytes at most.
fn expect_faulty<R: Abort + AllocGlobal + Threads + Wait + Sync>(
    rt: &R,
    line: &str,
    faults: Faults,
    wanted: &str,
) -> Result<(), Fail> {
    let texts = (BIT.as_bytes(), SCRIPT.as_bytes(), JOURNAL.as_bytes());
    expect_in_pieces(rt, line, texts, (3, faults), wanted)
}

#[test]
fn each_read_of_a_contract_may_fail(rt: HostRuntime) -> Result<(), Fail> {
    for call in 1..34u64 {
        let wanted = "5 false 0 (1, 0, 0; 0, 0)\nread fault contract\n--\n";
        expect_faulty(
            &rt,
            "run a b",
            ((call, NEVER, NEVER), (NEVER, NEVER)),
            wanted,
        )?;
    }
    Ok(())
}

#[test]
fn each_read_of_a_script_may_fail(rt: HostRuntime) -> Result<(), Fail> {
    for call in 1..8u64 {
        let wanted = "5 true 0 (0, 1, 0; 0, 0)\nread fault script\n--\n";
        expect_faulty(
            &rt,
            "replay a b c",
            ((NEVER, call, NEVER), (NEVER, NEVER)),
            wanted,
        )?;
    }
    Ok(())
}

#[test]
fn each_read_of_a_journal_may_fail(rt: HostRuntime) -> Result<(), Fail> {
    for call in 1..22u64 {
        let wanted = "5 true 0 (0, 0, 1; 0, 0)\nread fault journal\n--\n";
        expect_faulty(
            &rt,
            "replay a b c",
            ((NEVER, NEVER, call), (NEVER, NEVER)),
            wanted,
        )?;
    }
    Ok(())
}

// Fails unless such a run is answered by what begins with this text, and has so many bytes.
fn expect_start<R: Abort + AllocGlobal + Threads + Wait + Sync>(
    rt: &R,
    faults: Faults,
    front: &str,
    length: u64,
) -> Result<(), Fail> {
    let texts = (BIT.as_bytes(), SCRIPT.as_bytes(), JOURNAL.as_bytes());
    let found = answer_in_pieces(rt, "run a b --journal c", texts, (3, faults))?;
    assert!(rt; found.starts_with(front));
    assert_eq!(rt; found.len() as u64, length);
    Ok(())
}

// Where a write to the output fails, the output has what was written before, and the journal is not written.
#[test]
fn each_write_may_fail(rt: HostRuntime) -> Result<(), Fail> {
    for done in 0..20u64 {
        let faults = ((NEVER, NEVER, NEVER), (done + 1, NEVER));
        expect_start(&rt, faults, "6 true 2 (0, 0, 0; 1, 0)\n", 25 + 4 * done + 3)?;
    }
    Ok(())
}

const REPORT: &str =
    "accepted\nunit 1\nbound t = 0\nline 1 deposited\nline 2 committed firings 6 spent 0\n--\n";

// Where a write of the journal fails, the output has all.
#[test]
fn each_write_of_a_journal_may_fail(rt: HostRuntime) -> Result<(), Fail> {
    for done in 0..20u64 {
        let faults = ((NEVER, NEVER, NEVER), (NEVER, done + 1));
        let length = 25 + REPORT.len() as u64 + 4 * done;
        expect_start(&rt, faults, "6 true 2 (0, 0, 0; 0, 1)\naccepted\n", length)?;
    }
    Ok(())
}

#[test]
fn no_call_of_a_run_fails(rt: HostRuntime) -> Result<(), Fail> {
    let wanted = "0 true 2 (0, 0, 0; 0, 0)\naccepted\nunit 1\nbound t = 0\nline 1 deposited\n\
        line 2 committed firings 6 spent 0\n--\n";
    expect_faulty(&rt, "run a b", NO_FAULTS, wanted)?;
    expect_faulty(&rt, "replay a b c", NO_FAULTS, wanted)
}
