//! Shared contracts, which are acquired and released, and processes that wait for one another.
use crate::expecting::{PlainRunner, begun, expect_end, expect_lowest};
use crate::runner::Waiting;
use nomos_deeds::fire::Fire;
use std::process::Abort;
use std::test::Fail;

// Fails unless these processes wait, in order of number, and none is ready.
fn expect_blocked(rt: &impl Abort, runner: &PlainRunner, wanted: &[Waiting]) {
    assert!(rt; runner.lowest().is_none());
    let mut after = 0;
    for waiting in wanted {
        assert_eq!(rt; runner.waiting(after), Some(*waiting));
        after = waiting.0;
    }
    assert!(rt; runner.waiting(after).is_none());
    assert_eq!(rt; runner.transaction(0), Some(1));
    assert!(rt; runner.transaction(1).is_none());
}

// Fails unless this process is ready, and makes its step.
fn expect_step(
    rt: &(impl Abort + AllocGlobal),
    runner: &mut PlainRunner,
    pid: u32,
) -> Result<(), Fail> {
    let answer = runner.fire(rt.alloc(), pid)?;
    assert!(rt; matches!(&answer, Some(Fire::Fired)), "{pid} makes no step");
    Ok(())
}

pub(crate) const ONCE: &str = "type S cell = up down cell;
proc S c(;) : cell = accept; detach; call c(;);
proc T t(;) = spawn s = c(;); acquire s as x; release x as s2; close;
";

const TWICE: &str = "type S cell = up down cell;
proc S c(;) : cell = accept; detach; call c(;);
proc T t(;) = spawn s = c(;); acquire s as x; acquire s as y; release x as s2; release y as s3; close;
";

pub(crate) const OPPOSITE: &str = "type S cell = up down cell;
proc S c(;) : cell = accept; detach; call c(;);
proc S two(; a: cell, b: cell) : cell =
  accept; acquire a as x; acquire b as y; release x as a2; release y as b2; detach; call c(;);
proc T t(;) = spawn p = c(;); spawn q = c(;); spawn u = two(; p, q); spawn v = two(; q, p);
  acquire u as x; acquire v as y; release x as u2; release y as v2; close;
";

// Fails unless these processes fire, each the lowest that is ready, and then none is left.
fn expect_lowest_of(
    rt: &(impl Abort + AllocGlobal),
    runner: &mut PlainRunner,
    pids: &[u32],
) -> Result<(), Fail> {
    for pid in pids {
        expect_lowest(rt, runner, *pid)?;
    }
    expect_end(rt, runner, 0, &[]);
    Ok(())
}

// The same for the run of a text.
fn expect_acquired(rt: &(impl Abort + AllocGlobal), text: &str, pids: &[u32]) -> Result<(), Fail> {
    let mut runner = begun(rt, text, 0, "t")?;
    let went = expect_lowest_of(rt, &mut runner, pids);
    drop(runner);
    went
}

// Fails unless these processes make their steps, and then those wait.
fn expect_steps(
    rt: &(impl Abort + AllocGlobal),
    runner: &mut PlainRunner,
    pids: &[u32],
    wanted: &[Waiting],
) -> Result<(), Fail> {
    for pid in pids {
        expect_step(rt, runner, *pid)?;
    }
    expect_blocked(rt, runner, wanted);
    Ok(())
}

// The same for the run of a text.
fn expect_waiting(
    rt: &(impl Abort + AllocGlobal),
    text: &str,
    pids: &[u32],
    wanted: &[Waiting],
) -> Result<(), Fail> {
    let mut runner = begun(rt, text, 0, "t")?;
    let went = expect_steps(rt, &mut runner, pids, wanted);
    drop(runner);
    went
}

#[test]
fn contracts_that_are_acquired(rt: HostRuntime) -> Result<(), Fail> {
    let table: [(&str, &[u32]); 2] = [
        (ONCE, &[1, 1, 1, 1, 2]),
        (
            OPPOSITE,
            &[
                1, 1, 1, 1, 1, 1, 4, 4, 4, 2, 4, 1, 3, 4, 5, 5, 5, 3, 5, 1, 1, 2, 5,
            ],
        ),
    ];
    for (text, pids) in table {
        expect_acquired(&rt, text, pids)?;
    }
    Ok(())
}

// A contract is acquired a second time by the one who has it; and two contracts acquire two others in opposite order.
#[test]
fn processes_that_wait_for_one_another(rt: HostRuntime) -> Result<(), Fail> {
    let table: [(&str, &[u32], &[Waiting]); 2] = [
        (TWICE, &[1, 1], &[(1, Some(2), Some(2))]),
        (
            OPPOSITE,
            &[1, 1, 1, 1, 1, 4, 1, 5],
            &[(4, Some(3), Some(3)), (5, Some(2), Some(2))],
        ),
    ];
    for (text, pids, wanted) in table {
        expect_waiting(&rt, text, pids, wanted)?;
    }
    Ok(())
}
