//! Tests: what is answered where threads submit, and where a party from outside talks.
use crate::top_calls::{Faults, NEVER, NO_FAULTS, expect, expect_in_pieces, repeated};
use nomos_ir::limits::TEXT_LIMIT;
use std::process::Abort;
use std::sync::Wait;
use std::test::Fail;
use std::thread::Threads;

const SAY: &str = "proc T say(n: int;) = emit n; close;\n";

#[test]
fn pools_scripts(rt: HostRuntime) -> Result<(), Fail> {
    let table = [
        (
            "deposit a 0\nexec a say(1;)\nexec a say(3;)\n",
            "0 true 3 (0, 0, 0; 0, 0)\naccepted\nunit 1\nbound say = 0\nline 1 deposited\n\
            line 2 committed firings 2 spent 0\nresult 1 1\nline 3 committed firings 2 spent 0\nresult 2 3\n--\n",
        ),
        (
            "deposit a 0\nexec a say(1;)\nexec a say(3;)\nshow\n",
            "2 true 0 (0, 0, 0; 0, 0)\nscript refused Pool 4\n--\n",
        ),
        (
            "deposit a 0\nexec a nope(;)\n",
            "3 true 2 (0, 0, 0; 0, 0)\naccepted\nunit 1\nbound say = 0\nline 1 deposited\n\
            line 2 refused at 2 NoProcess nope\n--\n",
        ),
        (
            "hello\n",
            "2 true 0 (0, 0, 0; 0, 0)\nscript refused Syntax 1\n--\n",
        ),
    ];
    for (script, wanted) in table {
        expect(&rt, "pool a b 8", (SAY, script, ""), wanted)?;
    }
    Ok(())
}

const COIN: &str = "type R coin = &{ value : int /\\ coin | melt : 1 };
proc R mint(v: int;) : coin = case self { value => put self v; call mint(v;) | melt => close };
proc R five(;) : coin = call mint(5;);
";

// What the report is before a talk.
const OPENED: &str = "(0, 0, 0; 0, 0)\naccepted\nunit 1\nline 1 deposited\n";

// Fails unless this is answered to a talk with a coin, by status and what stands behind the report.
fn expect_talk<R: Abort + AllocGlobal + Threads + Wait + Sync>(
    rt: &R,
    line: &str,
    text: &str,
    status: u8,
    replies: &str,
) -> Result<(), Fail> {
    let wanted = format!(in rt.alloc(); "{status} true 1 {OPENED}{replies}--\n")?;
    expect(rt, line, (COIN, "deposit u 0\n", text), wanted.as_str())
}

#[test]
fn holds_talks(rt: HostRuntime) -> Result<(), Fail> {
    let table = [
        ("", 0, "talk opened\n"),
        (
            "label value\nhear\nhear\nlabel burn\n",
            3,
            "talk opened\ntalk 1 said\ntalk 2 heard value 5\ntalk 3 heard nothing\ntalk 4 protocol\n",
        ),
        (
            "// to the end\nlabel melt\n\nhear\n",
            0,
            "talk opened\ntalk 2 said\ntalk 4 heard closed\n",
        ),
        ("pay\nhear\n", 3, "talk opened\ntalk 1 protocol\n"),
    ];
    for (text, status, replies) in table {
        expect_talk(&rt, "talk a b u five c", text, status, replies)?;
    }
    Ok(())
}

#[test]
fn refuses_talks(rt: HostRuntime) -> Result<(), Fail> {
    let table = [
        ("talk a b v five c", "talk refused NoAccount\n"),
        ("talk a b u mint c", "talk refused NoProcess\n"),
        ("talk a b u six c", "talk refused NoProcess\n"),
    ];
    for (line, replies) in table {
        expect_talk(&rt, line, "hear\n", 3, replies)?;
    }
    let wanted = "10 true 0 (0, 0, 0; 0, 0)\ntalk refused Syntax 2\n--\n";
    let texts = (COIN, "deposit u 0\n", "hear\nshout\n");
    expect(&rt, "talk a b u five c", texts, wanted)
}

#[test]
fn talks_have_a_limit(rt: HostRuntime) -> Result<(), Fail> {
    let text = repeated(rt.alloc(), " ", TEXT_LIMIT + 1)?;
    let wanted = "10 true 0 (0, 0, 0; 0, 0)\ntalk refused TooLong\n--\n";
    let texts = (COIN, "deposit u 0\n", text.as_str());
    expect(&rt, "talk a b u five c", texts, wanted)
}

// Fails unless this is answered to a talk of which one call fails, where each moves four bytes at most.
fn expect_faulty<R: Abort + AllocGlobal + Threads + Wait + Sync>(
    rt: &R,
    faults: Faults,
    wanted: &str,
) -> Result<(), Fail> {
    let texts = (
        COIN.as_bytes(),
        "deposit u 0\n".as_bytes(),
        "hear\n".as_bytes(),
    );
    expect_in_pieces(rt, "talk a b u five c", texts, (3, faults), wanted)
}

#[test]
fn each_read_of_a_talk_may_fail(rt: HostRuntime) -> Result<(), Fail> {
    for call in 1..3u64 {
        let wanted = "5 true 0 (0, 0, 1; 0, 0)\nread fault talk\n--\n";
        expect_faulty(&rt, ((NEVER, NEVER, call), (NEVER, NEVER)), wanted)?;
    }
    let wanted =
        "0 true 1 (0, 0, 0; 0, 0)\naccepted\nunit 1\nline 1 deposited\ntalk opened\ntalk 1 heard nothing\n--\n";
    expect_faulty(&rt, NO_FAULTS, wanted)
}
