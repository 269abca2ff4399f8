//! Tests: what is answered where a ledger is saved, and where a script is run from one.
use crate::top_calls::{Faults, NEVER, NO_FAULTS, answer_in_pieces, expect, expect_in_pieces};
use std::process::Abort;
use std::sync::Wait;
use std::test::Fail;
use std::thread::Threads;

const IDLE: &str = "proc T idle(;) {5} = close;\n";

const DAY: &str = "deposit u 5\nexec u idle(;)\n";

const SNAPSHOT: &str = "nomos-ledger 1\nunit 1\nnext 2 2\nspent 0\naccount u 5\n";

const SAVED: &str =
    "accepted\nunit 1\nbound idle = 5\nline 1 deposited\nline 2 committed firings 1 spent 0\n--\n";

#[test]
fn saves_ledgers(rt: HostRuntime) -> Result<(), Fail> {
    let table = [
        (
            "",
            "0 true 0 (0, 0, 0; 0, 0)\naccepted\nunit 1\nbound idle = 5\n--\n\
            nomos-ledger 1\nunit 1\nnext 1 1\nspent 0\n",
        ),
        (
            DAY,
            "0 true 2 (0, 0, 0; 0, 0)\naccepted\nunit 1\nbound idle = 5\nline 1 deposited\n\
            line 2 committed firings 1 spent 0\n--\nnomos-ledger 1\nunit 1\nnext 2 2\nspent 0\naccount u 5\n",
        ),
        (
            "deposit u 5\nexec u nope(;)\n",
            "3 true 2 (0, 0, 0; 0, 0)\naccepted\nunit 1\nbound idle = 5\nline 1 deposited\n\
            line 2 refused at 2 NoProcess nope\n--\nnomos-ledger 1\nunit 1\nnext 1 1\nspent 0\naccount u 5\n",
        ),
        (
            "hello\n",
            "2 true 0 (0, 0, 0; 0, 0)\nscript refused Syntax 1\n--\n",
        ),
    ];
    for (script, wanted) in table {
        expect(&rt, "save a b c", (IDLE, script, ""), wanted)?;
    }
    Ok(())
}

#[test]
fn resumes_ledgers(rt: HostRuntime) -> Result<(), Fail> {
    let table = [
        (
            SNAPSHOT,
            "show\n",
            "0 true 0 (0, 0, 0; 0, 0)\naccepted\nunit 1\nbound idle = 5\nline 1 show\naccount u 5\n\
            stored 0\nspent 0\ndeposits 5\n--\n",
        ),
        (
            SNAPSHOT,
            "deposit v 2\nexec v idle(;)\nexec u idle(;)\n",
            "3 true 3 (0, 0, 0; 0, 0)\naccepted\nunit 1\nbound idle = 5\nline 1 deposited\n\
            line 2 refused at 2 NoGas v has 2 needs 5\nline 3 committed firings 1 spent 0\n--\n",
        ),
        (
            SNAPSHOT,
            "hello\n",
            "2 true 0 (0, 0, 0; 0, 0)\nscript refused Syntax 1\n--\n",
        ),
        (
            "nomos-ledger 1\nunit 1\nnext 2 2\nspent 0\naccount u 05\n",
            "hello\n",
            "11 true 0 (0, 0, 0; 0, 0)\nsnapshot refused BadLine 5\n--\n",
        ),
        (
            "nomos-ledger 1\nunit 2\nnext 2 2\nspent 0\n",
            "",
            "11 true 0 (0, 0, 0; 0, 0)\nsnapshot refused BadLine 2\n--\n",
        ),
        (
            "nomos-ledger 1\nunit 1\nnext 1 1\nspent 0\nname 1 9\n",
            "",
            "11 true 0 (0, 0, 0; 0, 0)\nsnapshot refused BadLine 5\n--\n",
        ),
        (
            "",
            "",
            "11 true 0 (0, 0, 0; 0, 0)\nsnapshot refused BadLine 1\n--\n",
        ),
    ];
    for (snapshot, script, wanted) in table {
        expect(&rt, "resume a b c", (IDLE, script, snapshot), wanted)?;
    }
    Ok(())
}

// Fails unless this is answered to a run from the snapshot, of which one call fails, where each moves four bytes at
// most.
fn expect_faulty<R: Abort + AllocGlobal + Threads + Wait + Sync>(
    rt: &R,
    faults: Faults,
    wanted: &str,
) -> Result<(), Fail> {
    let texts = (IDLE.as_bytes(), "show\n".as_bytes(), SNAPSHOT.as_bytes());
    expect_in_pieces(rt, "resume a b c", texts, (3, faults), wanted)
}

#[test]
fn each_read_of_a_snapshot_may_fail(rt: HostRuntime) -> Result<(), Fail> {
    for call in 1..13u64 {
        let wanted = "5 true 0 (0, 0, 1; 0, 0)\nread fault snapshot\n--\n";
        expect_faulty(&rt, ((NEVER, NEVER, call), (NEVER, NEVER)), wanted)?;
    }
    for call in 1..3u64 {
        let wanted = "5 true 0 (0, 1, 0; 0, 0)\nread fault script\n--\n";
        expect_faulty(&rt, ((NEVER, call, NEVER), (NEVER, NEVER)), wanted)?;
    }
    let wanted =
        "0 true 0 (0, 0, 0; 0, 0)\naccepted\nunit 1\nbound idle = 5\nline 1 show\naccount u 5\nstored 0\n\
        spent 0\ndeposits 5\n--\n";
    expect_faulty(&rt, NO_FAULTS, wanted)
}

// Where a write of the snapshot fails, the output has all, and a front of the snapshot stands there.
#[test]
fn each_write_of_a_snapshot_may_fail(rt: HostRuntime) -> Result<(), Fail> {
    for done in 0..13u64 {
        let texts = (IDLE.as_bytes(), DAY.as_bytes(), "".as_bytes());
        let faults = ((NEVER, NEVER, NEVER), (NEVER, done + 1));
        let found = answer_in_pieces(&rt, "save a b c", texts, (3, faults))?;
        assert!(rt; found.starts_with("6 true 2 (0, 0, 0; 0, 1)\naccepted\n"));
        assert_eq!(rt; found.len() as u64, 25 + SAVED.len() as u64 + 4 * done);
    }
    Ok(())
}
