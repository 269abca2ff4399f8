//! Contracts, and snapshots of ledgers of theirs.

/// A contract with a transaction that does nothing.
pub(crate) const IDLE: &str = "proc T idle(;) {5} = close;\n";

/// A ledger behind a deposit of that contract.
pub(crate) const IDLE_LEDGER: &str = "nomos-ledger 1\nunit 1\nnext 2 2\nspent 0\naccount u 5\n";

/// A contract whose unit of gas comes in two parts.
pub(crate) const HALVES: &str = "type R src = |{*}> 1;
proc R k(; a: src, b: src) : 1 = get a {*}; get b {*}; work {1}; wait a; wait b; close;
proc R g(;) {*} : src = pay self {*}; close;
proc T t(;) {1} = spawn a = g(;); spawn b = g(;); spawn c = k(; a, b); wait c; close;
";

/// A contract that may be acquired, and a transaction that acquires two.
pub(crate) const CELLS: &str = "type S cell = up down cell;
proc S c(;) : cell = accept; detach; call c(;);
proc T two(; a: cell, b: cell) = acquire a as x; acquire b as y; release x as a2; release y as b2; close;
";

/// A ledger with such a contract, which has a name.
pub(crate) const CELLS_LEDGER: &str = "nomos-ledger 1
unit 1
next 2 2
spent 0
account u 0
contract p 1
name 1 3
process 1 S 2 offers 1 base - purse 0 payer 0
";

/// Contracts that acquire others.
pub(crate) const HOLDERS: &str = "type S cell = up down cell;
proc S d(;) : cell = accept; detach; call d(;);
proc S c(; p: cell, q: cell) : cell =
  accept; acquire p as x; acquire q as y; release y as r; release x as s; detach; call c(; s, r);
";

/// A ledger in which two of them hold each other, and wait for each other.
pub(crate) const HELD_LEDGER: &str = "nomos-ledger 1
unit 1
next 9 9
spent 0
account u 0
name 1 3
name 2 3
name 3 1
name 4 1
process 1 L 7 offers 3 base 1 purse 0 payer 0
chan 0 2
chan 1 2
chan 2 4
process 2 L 7 offers 4 base 2 purse 0 payer 0
chan 0 1
chan 1 1
chan 2 3
";

/// A contract with a list whose elements carry potential.
pub(crate) const BOX: &str = "type S box = up <{2}| int -> down box;
proc S hold(l: list {2} int;) : box =
  accept; get self {2}; take self v; let m = list v, l; detach; call hold(m;);
proc S make(;) : box = let l = list {2} int; call hold(l;);
proc T give(v: int; b: box) {2} = acquire b as x; pay x {2}; put x v; release x as c; close;
";

/// A ledger with such a contract, but for its variables.
pub(crate) const BOX_BEGIN: &str = "nomos-ledger 1
unit 1
next 8 10
spent 0
account u 6
contract b 1
name 1 6
process 1 S 5 offers 1 base - purse 4 payer 0
";

/// That ledger, with its list.
pub(crate) const BOX_LEDGER: &str = "nomos-ledger 1
unit 1
next 8 10
spent 0
account u 6
contract b 1
name 1 6
process 1 S 5 offers 1 base - purse 4 payer 0
list 0 2 [7,5]
";

/// An auction of coins, which are kept in wallets.
pub(crate) const AUCTION: &str = "type R coin = &{ value : int /\\ coin | melt : 1 };
type S wallet = up &{ store : coin -o down wallet | total : int /\\ down wallet };
type S auction = up <{2}| &{ bid : coin -o wallet -o down auction | high : int /\\ down auction };
proc R mint(v: int;) : coin = case self { value => put self v; call mint(v;) | melt => close };
proc S keep(sum: int;) : wallet =
  accept;
  case self {
    store => recv self c; c.value; take c v; c.melt; wait c; detach; call keep(sum + v;)
  | total => put self sum; detach; call keep(sum;) };
proc S open(best: int; top: coin, who: wallet) : auction =
  accept; get self {2};
  case self {
    bid => recv self c; recv self w; c.value; take c v; work {2};
      if best < v {
        acquire who as x; x.store; send x top; release x as who2;
        detach; call open(v; c, w)
      } else {
        acquire w as y; y.store; send y c; release y as w2;
        detach; call open(best; top, who)
      }
  | high => work {2}; put self best; detach; call open(best; top, who) };
proc S start(reserve: int; seller: wallet) : auction =
  spawn c = mint(0;); call open(reserve; c, seller);
proc T place(v: int; a: auction, w: wallet) {3} =
  work {1}; spawn c = mint(v;); acquire a as x; pay x {2}; x.bid;
  send x c; send x w; release x as a2; emit v; close;
proc T ask(; a: auction) {2} =
  acquire a as x; pay x {2}; x.high; take x v; release x as a2; emit v; close;
";

/// A ledger in which an auction was started.
pub(crate) const AUCTION_STARTED: &str = "nomos-ledger 1
unit 1
next 5 5
spent 0
account alice 10
account bob 10
contract wa 1
contract wb 2
contract auc 3
name 1 26
name 2 26
name 3 31
name 4 25
process 1 S 15 offers 1 base - purse 0 payer 0
value 1 0
process 2 S 15 offers 2 base - purse 0 payer 1
value 1 0
process 3 S 40 offers 3 base - purse 0 payer 0
value 3 0
chan 4 4
chan 5 1
process 4 R 3 offers 4 base - purse 0 payer 0
value 0 0
";

/// The ledger behind two bids.
pub(crate) const AUCTION_BIDDEN: &str = "nomos-ledger 1
unit 1
next 33 35
spent 6
account alice 7
account bob 7
contract wa 1
contract wb 2
contract auc 3
name 1 26
name 2 26
name 3 31
name 28 0
process 1 S 15 offers 1 base - purse 0 payer 0
value 1 5
process 2 S 15 offers 2 base - purse 0 payer 1
value 1 0
process 3 S 40 offers 3 base - purse 0 payer 0
value 3 7
chan 4 28
chan 5 2
process 13 R 3 offers 28 base - purse 0 payer 1
value 0 7
";

/// A contract that keeps a gift, which comes as messages of each kind that goes to a client.
pub(crate) const GIFT: &str = "type R coin = &{ melt : 1 };
type R gift = int /\\ list bool /\\ |{2}> +{ last : coin * 1 | more : gift };
type S box = up int -> down box;
proc R mint(;) : coin = case self { melt => close };
proc R given(n: int;) {2} : gift =
  put self n; put self (n < 3) :: nil bool; pay self {2}; self.last; spawn c = mint(;); send self c; close;
proc S hold(n: int; g: gift) : box = accept; take self m; detach; call hold(n + m; g);
proc S make(n: int;) {2} : box = spawn g = given(n;); call hold(n; g);
";

/// A ledger with two of these, each with its gift.
pub(crate) const GIFT_LEDGER: &str = "nomos-ledger 1
unit 1
next 19 17
spent 0
account ann 7
account bob 1
contract one 1
contract two 9
name 1 18
name 2 15
name 3 8
name 4 7
name 5 6
name 6 4
name 7 14
name 8 3
name 9 18
name 10 15
name 11 8
name 12 7
name 13 6
name 14 4
name 15 14
name 16 3
process 1 S 12 offers 1 base - purse 0 payer 0
value 0 7
chan 2 2
message 3 client 2 3 value 7 purse 0
message 4 client 3 4 value [false] purse 0
message 5 client 4 5 pay purse 2
message 6 client 5 6 label last purse 0
process 7 R 1 offers 7 base - purse 0 payer 0
message 8 client 6 8 channel 7 purse 0
message 9 client 8 - close purse 0
process 10 S 12 offers 9 base - purse 0 payer 1
value 0 2
chan 2 10
message 12 client 10 11 value 2 purse 0
message 13 client 11 12 value [true] purse 0
message 14 client 12 13 pay purse 2
message 15 client 13 14 label last purse 0
process 16 R 1 offers 15 base - purse 0 payer 1
message 17 client 14 16 channel 15 purse 0
message 18 client 16 - close purse 0
";

/// A contract that acquires two others, while its own talk goes on.
pub(crate) const CROSSING: &str =
    "type S cell = up &{ go : int -> int -> down cell | stop : down cell };
proc S c(; p: cell, q: cell) : cell =
  accept; case self { go => take self n; acquire p as x; x.go; put x n; put x n + 1;
    acquire q as y; y.stop; release y as r; take self m; release x as s; detach; call c(; s, r)
  | stop => detach; call c(; p, q) };
proc S d(;) : cell =
  accept; case self { go => take self n; take self m; detach; call d(;) | stop => detach; call d(;) };
";

/// A ledger in which two of them hold each other, each with a value that waits for it.
pub(crate) const CROSSED_LEDGER: &str = "nomos-ledger 1
unit 1
next 17 22
spent 0
account ann 10
contract d1 1
contract d2 2
contract c1 3
contract c2 4
name 1 11
name 2 11
name 3 10
name 4 10
name 8 2
name 9 2
name 12 1
name 13 1
process 1 S 23 offers 1 base - purse 0 payer 0
process 2 S 23 offers 2 base - purse 0 payer 0
process 3 L 6 offers 9 base 3 purse 0 payer 0
chan 0 1
chan 1 4
value 2 1
chan 3 12
process 4 L 6 offers 8 base 4 purse 0 payer 0
chan 0 3
chan 1 3
value 2 1
chan 3 13
message 8 provider 9 13 value 6 purse 0
message 9 provider 8 12 value 7 purse 0
";
