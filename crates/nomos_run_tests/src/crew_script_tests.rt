//! Tests: scripts that several workers run.
ghost use Rattle.nomos_workers.specs.Crews.{IsCrew};

use crate::crew_telling::{SAY, TWO_SAY, expect_again, tell};
use crate::gates::{CountingGate, MeetingGate, NotingGate, TwoBatchesGate};
use crate::told_scripts::ToldScript;
use nomos_machine::policy::Policy;
use nomos_workers::batch::Crew;
use nomos_workers::gate::{Gate, OpenGate};
use std::process::Abort;
use std::sync::Wait;
use std::test::Fail;
use std::thread::Threads;

// What is printed where the first transaction emits first.
const FIRST_SAYS_FIRST: &str = "accepted
unit 1
bound say = 0
line 1 deposited
line 2 committed firings 4 spent 0
result 1 1
result 2 2
";

// What is printed where the second one does.
const SECOND_SAYS_FIRST: &str = "accepted
unit 1
bound say = 0
line 1 deposited
line 2 committed firings 4 spent 0
result 2 2
result 1 1
";

// Fails unless one of the two reports was told, and the journal gives it again.
fn expect_said<R: Abort + AllocGlobal>(rt: &R, told: &ToldScript) -> Result<(), Fail> {
    let report = str::from_utf8(&told.report)?;
    assert!(rt; report == FIRST_SAYS_FIRST || report == SECOND_SAYS_FIRST);
    expect_again(rt, (SAY, TWO_SAY), told)
}

// Runs the two transactions by a crew that calls this gate.
fn say<G: Gate, R: Abort + AllocGlobal + Threads + Wait + Sync>(
    rt: &R,
    crew: Crew,
    gate: &G,
) -> Result<(), Fail>
    requires { IsCrew crew }
{
    expect_said(rt, &tell(rt, (SAY, TWO_SAY), crew, gate))
}

// Each firing is made once, whoever makes it, and results come as they were emitted.
#[test]
fn workers_share_a_batch(rt: HostRuntime) -> Result<(), Fail> {
    say(&rt, Crew::Many(2), &OpenGate)?;
    say(&rt, Crew::Many(4), &OpenGate)?;
    say(&rt, Crew::Many(16), &OpenGate)
}

// Terms are evaluated outside the turns: while a worker is held there, another one comes.
#[test]
fn workers_meet_outside_their_turns(rt: HostRuntime) -> Result<(), Fail> {
    let gate = MeetingGate::of(2);
    say(&rt, Crew::Many(2), &gate)?;
    assert!(rt; gate.have_met());
    Ok(())
}

const SIXTEEN_SAY: &str = "deposit u 0
begin
exec u say(1;)
exec u say(1;)
exec u say(1;)
exec u say(1;)
exec u say(1;)
exec u say(1;)
exec u say(1;)
exec u say(1;)
exec u say(1;)
exec u say(1;)
exec u say(1;)
exec u say(1;)
exec u say(1;)
exec u say(1;)
exec u say(1;)
exec u say(1;)
end
";

// Fails unless so many workers meet outside their turns, all at once.
fn expect_meeting<R: Abort + AllocGlobal + Threads + Wait + Sync>(
    rt: &R,
    workers: u32,
) -> Result<(), Fail>
    requires { IsCrew (Crew.Many workers) }
{
    let gate = MeetingGate::of(workers);
    let texts = (SAY, SIXTEEN_SAY);
    let told = tell(rt, texts, Crew::Many(workers), &gate);
    assert!(rt; gate.have_met());
    expect_again(rt, texts, &told)
}

// As many workers fire as were asked for.
#[test]
fn all_workers_meet(rt: HostRuntime) -> Result<(), Fail> {
    expect_meeting(&rt, 4)?;
    expect_meeting(&rt, 16)
}

const TWO_BATCHES: &str = "deposit u 0
begin
exec u say(1;)
exec u say(2;)
end
begin
exec u say(3;)
exec u say(4;)
end
";

// Workers are made once for a script: those that meet in its first batch meet in its second one.
#[test]
fn the_same_workers_go_on(rt: HostRuntime) -> Result<(), Fail> {
    let gate = TwoBatchesGate::of(2, 2);
    let texts = (SAY, TWO_BATCHES);
    let told = tell(&rt, texts, Crew::Many(2), &gate);
    assert!(rt; gate.have_met_twice());
    expect_again(&rt, texts, &told)
}

// One transaction emits what it is given, another one has no terms.
const SAY_OR_NOT: &str = "proc T say(n: int;) = emit n; close;
proc T mute(;) = close;
";

const ONE_OF_THREE_MUTE: &str = "deposit u 0
begin
exec u say(1;)
exec u mute(;)
exec u say(2;)
end
";

// The gate is told of processes that stand at terms, and of no others: the first and the third one.
#[test]
fn gates_are_told_who_has_terms(rt: HostRuntime) -> Result<(), Fail> {
    let gate = NotingGate::new();
    let texts = (SAY_OR_NOT, ONE_OF_THREE_MUTE);
    let told = tell(&rt, texts, Crew::Many(2), &gate);
    assert!(rt; gate.noted_none_but(1, 3));
    expect_again(&rt, texts, &told)
}

// One worker calls no gate; several call theirs.
#[test]
fn one_worker_calls_no_gate(rt: HostRuntime) -> Result<(), Fail> {
    let gate = CountingGate::new();
    say(&rt, Crew::One(Policy::First), &gate)?;
    say(&rt, Crew::One(Policy::Round), &gate)?;
    assert_eq!(rt; gate.calls(), 0);
    say(&rt, Crew::Many(2), &gate)?;
    assert!(rt; gate.calls() > 0);
    Ok(())
}

// A transaction divides by what it is given.
const DIVISION: &str = "proc T d(n: int;) = emit 10 / n; close;
";

// Two of three transactions divide by 0.
const TWO_DIVIDE_BY_ZERO: &str = "deposit u 0
begin
exec u d(5;)
exec u d(0;)
exec u d(0;)
end
";

// The abort names the lowest process that divides by 0, whatever fired before.
const ABORTED: &str = "accepted
unit 1
bound d = 0
line 1 deposited
line 2 aborted 2 DivideByZero firings ";

#[test]
fn the_lowest_fault_aborts(rt: HostRuntime) -> Result<(), Fail> {
    let texts = (DIVISION, TWO_DIVIDE_BY_ZERO);
    let told = tell(&rt, texts, Crew::Many(4), &OpenGate);
    assert!(rt; told.report.starts_with(ABORTED.as_bytes()));
    expect_again(&rt, texts, &told)
}

// A transaction wants a contract that it has.
const TWICE: &str = "type S cell = up down cell;
proc S c(;) : cell = accept; detach; call c(;);
proc T t(;) = spawn s = c(;); acquire s as x; acquire s as y; release x as s2; release y as s3; close;
";

const ONE_TRANSACTION: &str = "deposit u 0
exec u t(;)
";

const BLOCKED: &str = "accepted
unit 1
bound c = 0
bound t = 0
line 1 deposited
line 2 blocked firings 2
left 1
waits 1 for 2 of 2
";

// Where nothing is ready all workers stop.
#[test]
fn a_batch_is_blocked(rt: HostRuntime) -> Result<(), Fail> {
    let texts = (TWICE, ONE_TRANSACTION);
    let told = tell(&rt, texts, Crew::Many(4), &OpenGate);
    assert_eq!(rt; str::from_utf8(&told.report)?, BLOCKED);
    expect_again(&rt, texts, &told)
}
