//! Tests: which lines of a script can start, why others can not, and which deposits are too much.

use crate::contracts::CELLS;
use crate::told_scripts::{ScriptCase, expect_bytes, expect_reports, tell_by};
use nomos_machine::policy::Policy;
use std::test::Fail;

// Arguments are values of the parameters' kinds, and contracts of the parameters' types.
const PARAMETERS: &str = "type S cell = up down cell;
type S poor = up <{1}| down poor;
type S rich = up <{2}| down rich;
proc S c(;) : cell = accept; detach; call c(;);
proc S p(;) : poor = accept; get self {1}; detach; call p(;);
proc S r(;) : rich = accept; get self {2}; detach; call r(;);
proc T n(v: int;) = close;
proc T l(v: list int;) = close;
proc T pays(v: list {1} int;) = match v { nil => close | h :: t => work {1}; call pays(t;) };
proc T takes(; a: 1) = wait a; close;
proc T uses(; a: poor) = close;
proc T both(n: int; a: cell, b: cell) {2} = work {2}; close;
";

// Too few and too many, of another kind, of another type, of a type of the same form with other amounts, of no
// contract; a list that carries potential, and a channel that is not shared. The empty list is one of every kind.
const ARGUMENTS: &str = "deposit u 1
let p = new u p(;)
let q = new u r(;)
let c = new u c(;)
exec u n(;)
exec u n(1, 2;)
exec u n(true;)
exec u n([1];)
exec u n(; p)
exec u l([true];)
exec u l([[]];)
exec u l([1, true];)
exec u l([];)
exec u pays([];)
exec u takes(; p)
exec u uses(;)
exec u uses(; p, p)
exec u uses(; x)
exec u uses(; c)
exec u uses(; q)
exec u uses(; p)
exec u both(1; c, p)
exec u both(1; c, c)
";

const ARGUMENTS_REPORT: &str = "accepted
unit 1
bound c = 0
bound p = 0
bound r = 0
bound n = 0
bound l = 0
bound pays = 0
bound takes = 0
bound uses = 0
bound both = 2
line 1 deposited
line 2 committed firings 0 spent 0
line 3 committed firings 0 spent 0
line 4 committed firings 0 spent 0
line 5 refused at 5 BadArguments n
line 6 refused at 6 BadArguments n
line 7 refused at 7 BadArguments n
line 8 refused at 8 BadArguments n
line 9 refused at 9 BadArguments n
line 10 refused at 10 BadArguments l
line 11 refused at 11 BadArguments l
line 12 refused at 12 BadArguments l
line 13 committed firings 1 spent 0
line 14 refused at 14 BadArguments pays
line 15 refused at 15 BadArguments takes
line 16 refused at 16 BadArguments uses
line 17 refused at 17 BadArguments uses
line 18 refused at 18 BadArguments uses
line 19 refused at 19 BadArguments uses
line 20 refused at 20 BadArguments uses
line 21 committed firings 1 spent 0
line 22 refused at 22 BadArguments both
line 23 refused at 23 NoGas u has 1 needs 2
";

// A contract that costs three units, and a transaction that costs two.
const PRICES: &str = "type S cell = up down cell;
proc S c(n: int;) {3} : cell = work {3}; call d(;);
proc S d(;) : cell = accept; detach; call d(;);
proc T t(n: int;) {2} = work {2}; close;
";

// Several causes stand together, and a batch of which a line can not start leaves nothing.
const REFUSED: &str = "exec u none(true;)
deposit u 2
exec u none(true;)
let a = new u c(true;)
let a = new u t(1;)
let a = new u d(;)
let a = new u none(;)
let a = new u c(true;)
let a = new u c(1;)
let b = new u c(1;)
begin
let b = new u d(;)
let b = new u d(;)
end
begin
exec u t(1;)
exec u t(2;)
end
begin
let b = new u d(;)
exec u t(1;)
end
exec u t(1;)
let b = new u d(;)
deposit u 0
show
";

const REFUSED_REPORT: &str = "accepted
unit 1
bound c = 3
bound d = 0
bound t = 2
line 1 refused at 1 NoAccount u
line 2 deposited
line 3 refused at 3 NoProcess none
line 4 refused at 4 BadArguments c
line 5 refused at 5 NoProcess t
line 6 committed firings 0 spent 0
line 7 refused at 7 NoProcess none
line 8 refused at 8 BadArguments c
line 9 refused at 9 NameTaken a
line 10 refused at 10 NoGas u has 2 needs 3
line 11 refused at 13 NameTaken b
line 15 refused at 17 NoGas u has 0 needs 2
line 19 committed firings 2 spent 2
line 23 refused at 23 NoGas u has 0 needs 2
line 24 refused at 24 NameTaken b
line 25 deposited
line 26 show
account u 0
contract a process 1 gas 0 free
contract b process 2 gas 0 free
stored 0
spent 2
deposits 2
";

// Lines that could not start.
const REFUSALS: [ScriptCase<'static>; 4] = [
    (
        "proc T f(;) {3} = work {3}; close;
",
        "deposit u 2
exec u f(;)
deposit u 1
exec u f(;)
",
        Policy::First,
        "accepted
unit 1
bound f = 3
line 1 deposited
line 2 refused at 2 NoGas u has 2 needs 3
line 3 deposited
line 4 committed firings 2 spent 3
",
    ),
    (
        CELLS,
        "exec v two(; p, q)
deposit u 0
exec u nope(;)
exec u c(;)
let p = new u c(;)
let p = new u c(;)
exec u two(; p)
",
        Policy::First,
        "accepted
unit 1
bound c = 0
bound two = 0
line 1 refused at 1 NoAccount v
line 2 deposited
line 3 refused at 3 NoProcess nope
line 4 refused at 4 NoProcess c
line 5 committed firings 0 spent 0
line 6 refused at 6 NameTaken p
line 7 refused at 7 BadArguments two
",
    ),
    (PARAMETERS, ARGUMENTS, Policy::First, ARGUMENTS_REPORT),
    (PRICES, REFUSED, Policy::First, REFUSED_REPORT),
];

// Lines that could not start, each cause, in their order.
#[test]
fn lines_are_refused(rt: HostRuntime) -> Result<(), Fail> {
    expect_reports(&rt, &REFUSALS)
}

// So many deposits of 10^18 units are in the account.
const DEPOSITS: u32 = 18;

// The sum of all deposits is below 2^64: one more is too much, and leaves all as it was.
#[test]
fn deposits_are_refused(rt: HostRuntime) -> Result<(), Fail> {
    let mut script = String::new(rt.alloc());
    let mut report = String::from_str(rt.alloc(), "accepted\nunit 1\n")?;
    for line in 1..=DEPOSITS {
        script.push_str("deposit u 1000000000000000000\n")?;
        let deposited = format!(in rt.alloc(); "line {line} deposited\n")?;
        report.push_str(&deposited)?;
    }
    script.push_str("deposit v 1000000000000000000\nshow\n")?;
    report.push_str(TOO_MUCH_GAS)?;
    let told = tell_by(&rt, ("", &script), Policy::First);
    expect_bytes(&rt, &told.report, &report)
}

const TOO_MUCH_GAS: &str = "line 19 refused at 19 TooMuchGas
line 20 show
account u 18000000000000000000
stored 0
spent 0
deposits 18000000000000000000
";
