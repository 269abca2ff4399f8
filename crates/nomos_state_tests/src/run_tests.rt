//! Whole runs, in which the lowest ready process fires each time.
use crate::expecting::{
    PlainRunner, begun, expect_end, expect_fault, expect_lowest, expect_results,
};
use nomos_accept::accepting::accept;
use nomos_accept::why::{AcceptError, Why};
use nomos_ir::code_form::CodeForm;
use nomos_ir::fault::Fault;
use std::process::Abort;
use std::test::Fail;

// What a run comes to: which processes fire, the gas that is spent, in Dths, and what is emitted.
type PlainCourse<'a> = (&'a [u32], u128, &'a [(u32, i64)]);

// Fails unless the run goes on so; before each firing, each name that has to have an owner has one.
fn expect_course(
    rt: &(impl Abort + AllocGlobal),
    runner: &mut PlainRunner,
    course: PlainCourse,
) -> Result<(), Fail> {
    let (pids, spent, results) = course;
    for pid in pids {
        expect_lowest(rt, runner, *pid)?;
        assert!(rt; runner.owned_names().is_some(), "a name has no owner");
    }
    expect_end(rt, runner, spent, results);
    Ok(())
}

// Fails unless a run goes so.
fn expect_run(
    rt: &(impl Abort + AllocGlobal),
    text: &str,
    dths: u64,
    name: &str,
    course: PlainCourse,
) -> Result<(), Fail> {
    let mut runner = begun(rt, text, dths, name)?;
    let went = expect_course(rt, &mut runner, course);
    drop(runner);
    went
}

pub(crate) const FORWARD: &str = "type R one = +{ b : 1 };
type R two = +{ a : one };
proc R n(;) : 1 = close;
proc R m(;) : 1 = spawn u = n(;); wait u; close;
proc R q(;) : one = self.b; close;
proc R p(;) : two = spawn y = q(;); spawn z = n(;); self.a; wait z; fwd y;
proc T t(;) = spawn x = p(;); spawn w = m(;); wait w;
  case x { a => emit 1; case x { b => emit 2; wait x; close } };
";

// When process 2 forwards, `a` waits on the one channel, and `b` and the close on the other.
#[test]
fn a_forward_with_messages_on_both_channels(rt: HostRuntime) -> Result<(), Fail> {
    let pids = [
        1, 1, 2, 2, 2, 3, 4, 4, 5, 2, 2, 7, 3, 3, 1, 1, 1, 1, 1, 1, 1,
    ];
    expect_run(&rt, FORWARD, 0, "t", (&pids, 0, &[(1, 1), (1, 2)]))
}

const HALVES: &str = "type R src = |{*}> 1;
proc R k(; a: src, b: src) : 1 = get a {*}; get b {*}; work {1}; wait a; wait b; close;
proc R g(;) {*} : src = pay self {*}; close;
proc T t(;) {1} = spawn a = g(;); spawn b = g(;); spawn c = k(; a, b); wait c; close;
";

// A unit is two Dths, of which each of two processes brings one.
#[test]
fn halves_that_make_a_unit(rt: HostRuntime) -> Result<(), Fail> {
    let pids = [1, 1, 1, 2, 2, 3, 3, 4, 4, 4, 4, 4, 4, 1, 1];
    expect_run(&rt, HALVES, 2, "t", (&pids, 2, &[]))
}

const WRITTEN_LIST: &str = "
proc R sum(s: int, xs: list {2} int;) : int /\\ 1 =
  match xs { nil => put self s; close | h :: t => work {2}; call sum(s + h, t;) };
proc T go(;) {4} = let a = list {2} int; let b = list 5, a; let c = list 7, b;
  spawn r = sum(0, c;); take r v; wait r; emit v; close;
";

const FOUND_LIST: &str = "
proc R sum(s: int, xs: list {*} int;) : int /\\ 1 =
  match xs { nil => put self s; close | h :: t => work {2}; call sum(s + h, t;) };
proc T go(;) {*} = let a = list {*} int; let b = list 5, a; let c = list 7, b;
  spawn r = sum(0, c;); take r v; wait r; emit v; close;
";

#[test]
fn lists_that_carry_potential(rt: HostRuntime) -> Result<(), Fail> {
    let pids = [1, 1, 1, 1, 2, 2, 2, 2, 2, 2, 2, 2, 1, 2, 1, 1, 1];
    for text in [WRITTEN_LIST, FOUND_LIST] {
        expect_run(&rt, text, 4, "go", (&pids, 4, &[(1, 12)]))?;
    }
    Ok(())
}

const SHORT_LIST: &str =
    "proc T go(;) {3} = let a = list {2} int; let b = list 5, a; let c = list 7, b; close;";

const LIST_TWICE: &str = "proc R one(xs: list {1} int;) : 1 = close;
proc R bad(xs: list {1} int;) : 1 = spawn a = one(xs;); spawn b = one(xs;); wait a; wait b; close;
";

// Why a contract text is refused, if it is.
fn refusal(rt: &impl AllocGlobal, text: &str) -> Option<Why> {
    match accept(rt.alloc(), text.as_bytes()) {
        Err(AcceptError::Refused(why)) => Some(why),
        Err(_) => None,
        Ok(accepted) => {
            drop(accepted);
            None
        }
    }
}

// A list of more potential than there is, and a list that is given away twice.
#[test]
fn lists_that_are_refused(rt: HostRuntime) -> Result<(), Fail> {
    assert!(rt; matches!(refusal(&rt, SHORT_LIST), Some(Why::NoPotential(_))));
    assert!(rt;
        matches!(
            refusal(&rt, LIST_TWICE),
            Some(Why::ProcType(99, CodeForm::Spawn))
        )
    );
    Ok(())
}

const DIVISIONS: &str = "proc T five(;) = emit 10 / 5; close;
proc T nought(;) = emit 10 / 0; close;
";

// The second transaction has a fault, and the first one fires before.
fn expect_division_by_zero(
    rt: &(impl Abort + AllocGlobal),
    runner: &mut PlainRunner,
) -> Result<(), Fail> {
    assert_eq!(rt; runner.exec(rt.alloc(), "nought", 0)?, Some(2));
    expect_lowest(rt, runner, 1)?;
    expect_lowest(rt, runner, 1)?;
    expect_fault(rt, runner, 2, Fault::DivideByZero)?;
    expect_results(rt, runner, &[(1, 2)]);
    assert_eq!(rt; runner.transaction(0), Some(2));
    runner.clear();
    expect_results(rt, runner, &[]);
    Ok(())
}

#[test]
fn a_division_by_zero(rt: HostRuntime) -> Result<(), Fail> {
    let mut runner = begun(&rt, DIVISIONS, 0, "five")?;
    let went = expect_division_by_zero(&rt, &mut runner);
    drop(runner);
    went
}
