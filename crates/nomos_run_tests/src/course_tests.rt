//! Tests: whole scripts that several workers carry on, item by item.
ghost use Rattle.nomos_workers.specs.Crews.{IsCrew};

use crate::crew_telling::{SAY, expect_again, tell};
use nomos_workers::batch::Crew;
use nomos_workers::gate::OpenGate;
use std::process::Abort;
use std::sync::Wait;
use std::test::Fail;
use std::thread::Threads;

// Fails unless this is told of a script, and the journal gives it again.
fn expect_report<R: Abort + AllocGlobal + Threads + Wait + Sync>(
    rt: &R,
    texts: (&str, &str),
    crew: Crew,
    report: &str,
) -> Result<(), Fail>
    requires { IsCrew crew }
{
    let told = tell(rt, texts, crew, &OpenGate);
    assert_eq!(rt; str::from_utf8(&told.report)?, report);
    expect_again(rt, texts, &told)
}

// Fails unless two, four and sixteen workers tell this of a script.
fn expect_reports<R: Abort + AllocGlobal + Threads + Wait + Sync>(
    rt: &R,
    texts: (&str, &str),
    report: &str,
) -> Result<(), Fail> {
    expect_report(rt, texts, Crew::Many(2), report)?;
    expect_report(rt, texts, Crew::Many(4), report)?;
    expect_report(rt, texts, Crew::Many(16), report)
}

// A transaction divides by what it is given.
const DIVISION: &str = "proc T d(n: int;) = emit 10 / n; close;
";

// A batch that is undone between two that stay, and a show behind them.
const UNDONE_BETWEEN: &str = "deposit u 3
exec u d(5;)
exec u d(0;)
exec u d(2;)
show
";

const BETWEEN: &str = "accepted
unit 1
bound d = 0
line 1 deposited
line 2 committed firings 2 spent 0
result 1 2
line 3 aborted 2 DivideByZero firings 0
line 4 committed firings 2 spent 0
result 2 5
line 5 show
account u 3
stored 0
spent 0
deposits 3
";

#[test]
fn batches_follow_one_another(rt: HostRuntime) -> Result<(), Fail> {
    expect_reports(&rt, (DIVISION, UNDONE_BETWEEN), BETWEEN)
}

const SHOWN_TWICE: &str = "accepted
unit 1
bound say = 0
line 1 show
stored 0
spent 0
deposits 0
line 2 show
stored 0
spent 0
deposits 0
";

const NOTHING: &str = "accepted
unit 1
bound say = 0
";

// Scripts without a batch.
#[test]
fn scripts_may_have_no_batch(rt: HostRuntime) -> Result<(), Fail> {
    expect_reports(&rt, (SAY, "show\nshow\n"), SHOWN_TWICE)?;
    expect_reports(&rt, (SAY, ""), NOTHING)
}

// A script of so many batches, each of which emits once.
fn many_batches<R: Abort + AllocGlobal>(rt: &R, count: u32) -> Result<Vec<u8>, Fail> {
    let mut text = Vec::new(rt.alloc());
    text.extend_from_slice(b"deposit u 0\n")?;
    for _ in 0..count {
        text.extend_from_slice(b"exec u say(1;)\n")?;
    }
    Ok(text)
}

// Fails unless the journal of many batches gives their report again.
fn expect_many<R: Abort + AllocGlobal + Threads + Wait + Sync>(
    rt: &R,
    script: &str,
    crew: Crew,
) -> Result<(), Fail>
    requires { IsCrew crew }
{
    let told = tell(rt, (SAY, script), crew, &OpenGate);
    assert!(rt;
        told.report
            .ends_with(b"line 1001 committed firings 2 spent 0\nresult 1000 1\n")
    );
    expect_again(rt, (SAY, script), &told)
}

#[test]
fn a_thousand_batches_are_replayed(rt: HostRuntime) -> Result<(), Fail> {
    let text = many_batches(&rt, 1000)?;
    let script = str::from_utf8(&text)?;
    expect_many(&rt, script, Crew::Many(2))?;
    expect_many(&rt, script, Crew::Many(4))?;
    expect_many(&rt, script, Crew::Many(16))
}
