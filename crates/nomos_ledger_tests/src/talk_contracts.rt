//! Contracts whose channels an outside party speaks.

/// Coins: one that is there, one that comes by a forward, and processes that are given a coin or give one.
pub(crate) const COINS: &str = "type R coin = &{ value : int /\\ coin | melt : 1 };
proc R mint(v: int;) : coin = case self { value => put self v; call mint(v;) | melt => close };
proc R five(;) : coin = call mint(5;);
proc R by(;) : coin = spawn c = mint(7;); fwd c;
proc R swallow(;) {1} : coin -o 1 = recv self c; c.melt; wait c; work {1}; close;
proc R give(;) {1} : coin * 1 = work {1}; spawn c = mint(7;); send self c; close;
proc T t(;) = close;
";

/// A gate that is paid, takes a value, and gives something back.
pub(crate) const GATE: &str = "type R gate = <{3}| +{ yes : int -> |{2}> 1 | no : 1 };
proc R open(;) {1} : gate = get self {3}; self.yes; take self v; pay self {2}; work {2}; close;
";

/// A process that divides, one that never ends, and one that gives back what it takes.
pub(crate) const VALUES: &str =
    "proc R divide(;) : int -> int /\\ 1 = take self v; put self 10 / v; close;
proc R loop(;) : 1 = call loop(;);
proc R echo(;) : list int -> list int /\\ bool -> bool /\\ 1 =
  take self l; put self l; take self b; put self not b; close;
";

/// A process needs a unit of two sources that are of one type, so that each gives a half.
pub(crate) const HALVES: &str = "type R src = |{*}> 1;
proc R k(; a: src, b: src) : 1 = get a {*}; get b {*}; work {1}; wait a; wait b; close;
proc R g(;) {*} : src = pay self {*}; close;
proc T t(;) {1} = spawn a = g(;); spawn b = g(;); spawn c = k(; a, b); wait c; close;
";
