//! Contracts for several tests, and scripts on them.

/// A process needs a unit of two sources that are of one type, so that each gives a half.
pub(crate) const HALVES: &str = "type R src = |{*}> 1;
proc R k(; a: src, b: src) : 1 = get a {*}; get b {*}; work {1}; wait a; wait b; close;
proc R g(;) {*} : src = pay self {*}; close;
proc T t(;) {1} = spawn a = g(;); spawn b = g(;); spawn c = k(; a, b); wait c; close;
";

/// Two transactions each want two contracts, in opposite order.
pub(crate) const CELLS: &str = "type S cell = up down cell;
proc S c(;) : cell = accept; detach; call c(;);
proc T two(; a: cell, b: cell) =
  acquire a as x; acquire b as y; release x as a2; release y as b2; close;
";

/// They are run in one batch, and the ledger is shown.
pub(crate) const CROSSED: &str = "deposit u 0
let p = new u c(;)
let q = new u c(;)
begin
exec u two(; p, q)
exec u two(; q, p)
end
show
";

/// A transaction divides by what it is given.
pub(crate) const DIVISION: &str = "proc T d(n: int;) = emit 10 / n; close;
";

/// Two transactions divide, one of them by 0.
pub(crate) const TWO_DIVIDE: &str = "deposit u 0
begin
exec u d(5;)
exec u d(0;)
end
";

/// A transaction counts down to 0.
pub(crate) const COUNTDOWN: &str =
    "proc T loop(n: int;) = if n < 1 { close } else { call loop(n - 1;) };
";
