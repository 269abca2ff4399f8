//! Tests: what is printed of batches, of those that stay and of those that are undone, and of ledgers.

use crate::auction_script::{TWO_BIDS, TWO_BIDS_REPORT};
use crate::contracts::{CELLS, COUNTDOWN, CROSSED, DIVISION, HALVES, TWO_DIVIDE};
use crate::told_scripts::{ScriptCase, expect_bytes, expect_reports, tell};
use nomos_machine::policy::Policy;
use nomos_words::load::auction_text;
use nomos_workers::batch::Crew;
use std::test::Fail;

// A forward with messages waiting on both of its channels.
const TALKS: &str = "type R one = +{ b : 1 };
type R two = +{ a : one };
proc R n(;) : 1 = close;
proc R m(;) : 1 = spawn u = n(;); wait u; close;
proc R q(;) : one = self.b; close;
proc R p(;) : two = spawn y = q(;); spawn z = n(;); self.a; wait z; fwd y;
proc T t(;) =
  spawn x = p(;); spawn w = m(;); wait w;
  case x { a => emit 1; case x { b => emit 2; wait x; close } };
";

// A transaction without parameters, once.
const ONCE: &str = "deposit u 0
exec u t(;)
";

// Values of all kinds are emitted.
const VALUES: &str = "proc T v(l: list int, b: bool, m: list list int;) =
  emit l; emit b; emit m; emit (0 - 7) / 2; emit (0 - 7) % 2; close;
";

// A list that carries potential is summed, and each of its elements pays.
const SUMMED: &str = "proc R sum(s: int, xs: list {2} int;) : int /\\ 1 =
  match xs { nil => put self s; close | h :: t => work {2}; call sum(s + h, t;) };
proc T go(;) {4} =
  let a = list {2} int; let b = list 5, a; let c = list 7, b;
  spawn r = sum(0, c;); take r v; wait r; emit v; close;
";

// A contract is acquired and released by the process that made it.
const ACQUIRED: &str = "type S cell = up down cell;
proc S c(;) : cell = accept; detach; call c(;);
proc T t(;) = spawn s = c(;); acquire s as x; release x as s2; close;
";

// Batches that stay.
const STAYING: [ScriptCase<'static>; 7] = [
    (
        TALKS,
        ONCE,
        Policy::First,
        "accepted
unit 1
bound t = 0
line 1 deposited
line 2 committed firings 21 spent 0
result 1 1
result 1 2
",
    ),
    (
        HALVES,
        "deposit u 1
exec u t(;)
",
        Policy::First,
        "accepted
unit 1/2
star 1 = 1/2
star 2 = 1/2
star 3 = 1/2
star 4 = 1/2
star 5 = 1/2
bound t = 2/2
line 1 deposited
line 2 committed firings 15 spent 2/2
",
    ),
    (
        VALUES,
        "deposit u 0
exec u v([1,2,3], true, [[1],[]];)
exec u v([], false, [];)
",
        Policy::Round,
        "accepted
unit 1
bound v = 0
line 1 deposited
line 2 committed firings 6 spent 0
result 1 [1,2,3]
result 1 true
result 1 [[1],[]]
result 1 -3
result 1 -1
line 3 committed firings 6 spent 0
result 2 []
result 2 false
result 2 []
result 2 -3
result 2 -1
",
    ),
    (
        SUMMED,
        "deposit u 4
exec u go(;)
",
        Policy::First,
        "accepted
unit 1
bound go = 4
line 1 deposited
line 2 committed firings 17 spent 4
result 1 12
",
    ),
    (
        ACQUIRED,
        ONCE,
        Policy::First,
        "accepted
unit 1
bound c = 0
bound t = 0
line 1 deposited
line 2 committed firings 5 spent 0
",
    ),
    (
        "cost all;
proc T f(;) {1} = close;
",
        "deposit u 1
exec u f(;)
",
        Policy::First,
        "accepted
unit 1
bound f = 1
line 1 deposited
line 2 committed firings 2 spent 1
",
    ),
    (
        "cost sends;
proc T f(;) {1} = emit 1; close;
",
        "deposit u 1
exec u f(;)
",
        Policy::First,
        "accepted
unit 1
bound f = 1
line 1 deposited
line 2 committed firings 3 spent 1
result 1 1
",
    ),
];

// Batches that stay, with results, and with gas in parts of a unit.
#[test]
fn batches_stay(rt: HostRuntime) -> Result<(), Fail> {
    let auction = str::from_utf8(auction_text())?;
    expect_reports(&rt, &[(auction, TWO_BIDS, Policy::First, TWO_BIDS_REPORT)])?;
    expect_reports(&rt, &STAYING)
}

// A contract keeps a source, whose potential waits in a message.
const KEPT_SOURCE: &str = "type S cell = up down cell;
type R src = |{2}> 1;
proc S c(;) : cell = accept; detach; call c(;);
proc R g(;) {2} : src = pay self {2}; close;
proc S w(; y: src) : cell = accept; get y {2}; work {2}; wait y; detach; call c(;);
proc S k(;) {2} : cell = spawn y = g(;); call w(; y);
proc T t(; a: cell) = acquire a as x; release x as b; close;
";

// Ledgers that are shown.
const SHOWN: [ScriptCase<'static>; 4] = [
    (
        "",
        "show
deposit b 2
deposit a 0
deposit b 3
show
",
        Policy::First,
        "accepted
unit 1
line 1 show
stored 0
spent 0
deposits 0
line 2 deposited
line 3 deposited
line 4 deposited
line 5 show
account b 5
account a 0
stored 0
spent 0
deposits 5
",
    ),
    (
        "proc T idle(;) {5} = close;
",
        "deposit u 5
exec u idle(;)
show
",
        Policy::First,
        "accepted
unit 1
bound idle = 5
line 1 deposited
line 2 committed firings 1 spent 0
line 3 show
account u 5
stored 0
spent 0
deposits 5
",
    ),
    (
        CELLS,
        CROSSED,
        Policy::First,
        "accepted
unit 1
bound c = 0
bound two = 0
line 1 deposited
line 2 committed firings 0 spent 0
line 3 committed firings 0 spent 0
line 4 committed firings 14 spent 0
line 8 show
account u 0
contract p process 1 gas 0 free
contract q process 2 gas 0 free
stored 0
spent 0
deposits 0
",
    ),
    (
        KEPT_SOURCE,
        "deposit u 7
let q = new u k(;)
show
exec u t(; q)
show
",
        Policy::First,
        "accepted
unit 1
bound c = 0
bound w = 0
bound k = 2
bound t = 0
line 1 deposited
line 2 committed firings 4 spent 0
line 3 show
account u 5
contract q process 1 gas 0 free
channel 2 owner 1
channel 3 owner 3
stored 2
spent 0
deposits 7
line 4 committed firings 7 spent 2
line 5 show
account u 5
contract q process 1 gas 0 free
stored 0
spent 2
deposits 7
",
    ),
];

// What a `show` prints: accounts, contracts, channels, and gas wherever it is.
#[test]
fn ledgers_are_shown(rt: HostRuntime) -> Result<(), Fail> {
    expect_reports(&rt, &SHOWN)
}

// A transaction wants a contract that it has.
const TWICE: &str = "type S cell = up down cell;
proc S c(;) : cell = accept; detach; call c(;);
proc T t(;) =
  spawn s = c(;); acquire s as x; acquire s as y; release x as s2; release y as s3; close;
";

// Terms that need too much: one calls itself for ever, one calls itself twice, one is too great.
const TOO_MUCH: &str = "fn spin(n: int): int = spin(n);
fn f(n: int): int = if n < 2 then n else f(n - 1) + f(n - 2);
proc T spins(n: int;) = emit spin(n); close;
proc T fib(n: int;) = emit f(n); close;
proc T add(n: int;) = emit n + 1; close;
";

// Batches that are undone.
const UNDONE: [ScriptCase<'static>; 4] = [
    (
        CELLS,
        CROSSED,
        Policy::Round,
        "accepted
unit 1
bound c = 0
bound two = 0
line 1 deposited
line 2 committed firings 0 spent 0
line 3 committed firings 0 spent 0
line 4 blocked firings 2
left 3
left 4
waits 3 for 2 of 2
waits 4 for 1 of 1
line 8 show
account u 0
contract p process 1 gas 0 free
contract q process 2 gas 0 free
stored 0
spent 0
deposits 0
",
    ),
    (
        TWICE,
        ONCE,
        Policy::First,
        "accepted
unit 1
bound c = 0
bound t = 0
line 1 deposited
line 2 blocked firings 2
left 1
waits 1 for 2 of 2
",
    ),
    (
        DIVISION,
        TWO_DIVIDE,
        Policy::First,
        "accepted
unit 1
bound d = 0
line 1 deposited
line 2 aborted 2 DivideByZero firings 2
",
    ),
    (
        TOO_MUCH,
        "deposit u 0
exec u spins(0;)
exec u fib(10;)
exec u fib(30;)
exec u add(9223372036854775807;)
exec u add(9223372036854775806;)
",
        Policy::First,
        "accepted
unit 1
bound spins = 0
bound fib = 0
bound add = 0
line 1 deposited
line 2 aborted 1 Depth firings 0
line 3 committed firings 2 spent 0
result 1 55
line 4 aborted 2 TermSteps firings 0
line 5 aborted 2 Overflow firings 0
line 6 committed firings 2 spent 0
result 2 9223372036854775807
",
    ),
];

// Batches that are undone: blocked, or aborted by each fault but that of a list.
#[test]
fn batches_are_undone(rt: HostRuntime) -> Result<(), Fail> {
    expect_reports(&rt, &UNDONE)
}

// A process calls itself for ever.
const ENDLESS: &str = "proc R p(;) : 1 = spawn x = p(;); wait x; close;
proc T t(;) = spawn x = p(;); wait x; close;
";

// Contract and script, the most firings of a batch, and what is printed.
const LIMITED: [(&str, &str, u32, &str); 4] = [
    (
        COUNTDOWN,
        "deposit u 0
exec u loop(499;)
",
        1_000,
        "accepted
unit 1
bound loop = 0
line 1 deposited
line 2 committed firings 1000 spent 0
",
    ),
    (
        COUNTDOWN,
        "deposit u 0
exec u loop(500;)
",
        1_000,
        "accepted
unit 1
bound loop = 0
line 1 deposited
line 2 steps 1000
",
    ),
    (
        ENDLESS,
        ONCE,
        10,
        "accepted
unit 1
bound t = 0
line 1 deposited
line 2 steps 10
",
    ),
    (
        ENDLESS,
        ONCE,
        1,
        "accepted
unit 1
bound t = 0
line 1 deposited
line 2 steps 1
",
    ),
];

// Batches that may make so many firings.
#[test]
fn batches_have_a_limit(rt: HostRuntime) -> Result<(), Fail> {
    for (contract, script, limit, report) in LIMITED {
        let told = tell(&rt, (contract, script), Crew::One(Policy::First), limit);
        expect_bytes(&rt, &told.report, report)?;
    }
    Ok(())
}
