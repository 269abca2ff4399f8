//! The contract of the generated load: an auction of coins, whose bids hold wallets.

/// The text of the auction, which `bench` runs: wallets that coins are stored in, an auction that keeps the best coin
/// and gives each other one back to a wallet, and those who place bids and ask for the best.
pub const AUCTION: &[u8] = br"type R coin = &{ value : int /\ coin | melt : 1 };
type S wallet = up &{ store : coin -o down wallet | total : int /\ down wallet };
type S auction = up <{2}| &{ bid : coin -o wallet -o down auction | high : int /\ down auction };
proc R mint(v: int;) : coin = case self { value => put self v; call mint(v;) | melt => close };
proc S keep(sum: int;) : wallet =
  accept;
  case self {
    store => recv self c; c.value; take c v; c.melt; wait c; detach; call keep(sum + v;)
  | total => put self sum; detach; call keep(sum;) };
proc S open(best: int; top: coin, who: wallet) : auction =
  accept; get self {2};
  case self {
    bid => recv self c; recv self w; c.value; take c v; work {2};
      if best < v {
        acquire who as x; x.store; send x top; release x as who2;
        detach; call open(v; c, w)
      } else {
        acquire w as y; y.store; send y c; release y as w2;
        detach; call open(best; top, who)
      }
  | high => work {2}; put self best; detach; call open(best; top, who) };
proc S start(reserve: int; seller: wallet) : auction =
  spawn c = mint(0;); call open(reserve; c, seller);
proc T place(v: int; a: auction, w: wallet) {3} =
  work {1}; spawn c = mint(v;); acquire a as x; pay x {2}; x.bid;
  send x c; send x w; release x as a2; emit v; close;
proc T ask(; a: auction) {2} =
  acquire a as x; pay x {2}; x.high; take x v; release x as a2; emit v; close;
";
