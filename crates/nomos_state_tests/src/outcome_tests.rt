//! What no clause says: that calls succeed where memory is found; runs on copies, and with outcomes that were known.
ghost use Rattle.std.specs.Prelude.{◌≡◌};
ghost use Rattle.nomos_ir.specs.TermsEvaluation.{instruction_evaluation};
ghost use Rattle.nomos_eval.specs.Outcomes.{outcome_of};

use crate::expecting::{PlainRunner, begun, expect_end, expect_lowest};
use crate::runner::Outlook;
use nomos_deeds::fire::Fire;
use std::process::Abort;
use std::test::Fail;

const SUM: &str = "
proc R sum(s: int, n: int;) : int /\\ 1 = if n < 1 { put self s; close } else { call sum(s + n, n - 1;) };
proc T go(;) = let n = 2; spawn r = sum(0, n;); take r v; wait r; emit v + 1; close;
";

const SUM_PIDS: [u32; 13] = [1, 1, 2, 2, 2, 2, 2, 2, 1, 2, 1, 1, 1];

#[test]
fn room_is_made_for_firings(rt: HostRuntime) -> Result<(), Fail> {
    let mut runner = begun(&rt, SUM, 0, "go")?;
    let reserved = runner.reserve(100);
    drop(runner);
    Ok(reserved?)
}

// Goes on with a copy of the state.
fn go_on_with_copy(rt: &(impl Abort + AllocGlobal), runner: &mut PlainRunner) -> Result<(), Fail> {
    let copy = runner.machine().copy(rt.alloc())?;
    runner.go_on_with(copy);
    Ok(())
}

// Fails unless the run goes on as it does, with a copy of the state before each firing.
fn expect_copies(rt: &(impl Abort + AllocGlobal), runner: &mut PlainRunner) -> Result<(), Fail> {
    for pid in SUM_PIDS {
        go_on_with_copy(rt, runner)?;
        expect_lowest(rt, runner, pid)?;
    }
    expect_end(rt, runner, 0, &[(1, 4)]);
    Ok(())
}

#[test]
fn copies_go_on_as_the_state_does(rt: HostRuntime) -> Result<(), Fail> {
    let mut runner = begun(&rt, SUM, 0, "go")?;
    let went = expect_copies(&rt, &mut runner);
    drop(runner);
    went
}

// Fails unless this process is ready, and makes its step with what was known.
fn expect_known_step(
    rt: &(impl Abort + AllocGlobal),
    runner: &mut PlainRunner,
    pid: u32,
    known: &Outlook,
) -> Result<(), Fail>
    requires { outcome_of known.now.outcome
        ≡ instruction_evaluation runner.old.accepted.program known.now.wanted.env known.now.wanted.code.0 }
    ensures { runner.new.accepted ≡ runner.old.accepted }
{
    let answer = runner.fire_with(rt.alloc(), pid, known)?;
    assert!(rt; matches!(&answer, Some(Fire::Fired)), "{pid} makes no step");
    Ok(())
}

// The same with what is wanted of it now, if that is something.
fn expect_asked_step(
    rt: &(impl Abort + AllocGlobal),
    runner: &mut PlainRunner,
    pid: u32,
) -> Result<(), Fail> {
    match runner.ask(rt.alloc(), pid)? {
        Some(known) => expect_known_step(rt, runner, pid, &known),
        None => expect_lowest(rt, runner, pid),
    }
}

// Fails unless the run goes on as it does, with what is wanted before each firing.
fn expect_asked(rt: &(impl Abort + AllocGlobal), runner: &mut PlainRunner) -> Result<(), Fail> {
    for pid in SUM_PIDS {
        expect_asked_step(rt, runner, pid)?;
    }
    expect_end(rt, runner, 0, &[(1, 4)]);
    Ok(())
}

#[test]
fn firings_with_outcomes_that_were_asked_for(rt: HostRuntime) -> Result<(), Fail> {
    let mut runner = begun(&rt, SUM, 0, "go")?;
    let went = expect_asked(&rt, &mut runner);
    drop(runner);
    went
}

// Fails unless the rest of the run goes on as it does, with what was known for each firing.
fn expect_known(
    rt: &(impl Abort + AllocGlobal),
    runner: &mut PlainRunner,
    known: &Outlook,
) -> Result<(), Fail>
    requires { outcome_of known.now.outcome
        ≡ instruction_evaluation runner.old.accepted.program known.now.wanted.env known.now.wanted.code.0 }
{
    for pid in [2, 2, 2, 2, 2, 2, 1, 2, 1, 1, 1] {
        expect_known_step(rt, runner, pid, known)?;
    }
    expect_end(rt, runner, 0, &[(1, 4)]);
    Ok(())
}

// What was wanted of process 2 at its first instruction is used for all that fires after.
fn expect_stale(rt: &(impl Abort + AllocGlobal), runner: &mut PlainRunner) -> Result<(), Fail> {
    expect_lowest(rt, runner, 1)?;
    expect_lowest(rt, runner, 1)?;
    let known = runner.ask(rt.alloc(), 2)?.ok_or("it wants nothing")?;
    let went = expect_known(rt, runner, &known);
    drop(known);
    went
}

#[test]
fn firings_with_an_outcome_of_an_earlier_instruction(rt: HostRuntime) -> Result<(), Fail> {
    let mut runner = begun(&rt, SUM, 0, "go")?;
    let went = expect_stale(&rt, &mut runner);
    drop(runner);
    went
}
