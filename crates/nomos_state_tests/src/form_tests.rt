//! Both forms of a state side by side: behind each firing of a run the same is seen of both.
ghost use Rattle.std.specs.Prelude.{◌≡◌, None};
ghost use Rattle.nomos_machine.specs.State.{empty};

use crate::expecting::begun_on;
use crate::runner::FormRunner;
use crate::seen::write_state;
use crate::sharing_tests::OPPOSITE;
use nomos_deeds::machine::Machine;
use nomos_deeds::undo::Undo;
use nomos_plain::plain::PlainState;
use nomos_state::indexed::IndexedState;
use std::fmt::Write;
use std::process::Abort;
use std::test::Fail;

// A contract text, with how many Dths the account has that starts the transaction of a name.
type Contract<'a> = (&'a str, u64, &'a str);

// The auction of `examples`, with a transaction that opens it, bids twice and asks for the best bid.
const AUCTION: &str = "
type R coin = &{ value : int /\\ coin | melt : 1 };
type S wallet = up &{ store : coin -o down wallet | total : int /\\ down wallet };
type S auction = up <{2}| &{ bid : coin -o wallet -o down auction | high : int /\\ down auction };
proc R mint(v: int;) : coin = case self { value => put self v; call mint(v;) | melt => close };
proc S keep(sum: int;) : wallet =
  accept;
  case self {
    store => recv self c; c.value; take c v; c.melt; wait c; detach; call keep(sum + v;)
  | total => put self sum; detach; call keep(sum;)
  };
proc S open(best: int; top: coin, who: wallet) : auction =
  accept; get self {2};
  case self {
    bid =>
      recv self c; recv self w; c.value; take c v; work {2};
      if best < v {
        acquire who as x; x.store; send x top; release x as who2; detach; call open(v; c, w)
      } else {
        acquire w as y; y.store; send y c; release y as w2; detach; call open(best; top, who)
      }
  | high => work {2}; put self best; detach; call open(best; top, who)
  };
proc S start(reserve: int; seller: wallet) : auction = spawn c = mint(0;); call open(reserve; c, seller);
proc T day(;) {8} =
  spawn sold = keep(0;); spawn house = start(0; sold); spawn wa = keep(0;); spawn wb = keep(0;);
  work {1}; spawn c = mint(7;);
  acquire house as x; pay x {2}; x.bid; send x c; send x wa; release x as house2;
  work {1}; spawn d = mint(5;);
  acquire house2 as y; pay y {2}; y.bid; send y d; send y wb; release y as house3;
  acquire house3 as z; pay z {2}; z.high; take z v; release z as house4;
  emit v; close;
";

// So many firings are enough for each of the runs.
const MOST_FIRINGS: u32 = 200;

// Writes what is seen of the state before and behind each firing of the lowest process that is ready, until none is;
// and gives how many firings there were.
fn write_course<M: Machine>(
    rt: &(impl Abort + AllocGlobal),
    runner: &mut FormRunner<M>,
    text: &mut String,
) -> Result<u32, Fail> {
    for firings in 0..MOST_FIRINGS {
        write_state(runner.accepted(), runner.machine(), text)?;
        match runner.fire_lowest(rt.alloc())? {
            Some((pid, answer)) => writeln!(text, "{pid} {answer:?}")?,
            None => return Ok(firings),
        }
    }
    Err(Fail::new("the run does not end"))
}

// The text of a run on a machine with nothing in it, with the number of its firings in front.
fn course<M: Machine + Drop>(
    rt: &(impl Abort + AllocGlobal),
    machine: M,
    contract: Contract,
) -> Result<(u32, String), Fail>
    requires state { M.state machine ≡ empty }
    requires marked { M.marked machine ≡ None }
{
    let (text, dths, name) = contract;
    let mut runner = begun_on(rt, machine, text, dths, name)?;
    let mut seen = String::new(rt.alloc());
    let went = write_course(rt, &mut runner, &mut seen);
    drop(runner);
    Ok((went?, seen))
}

fn plain_course(
    rt: &(impl Abort + AllocGlobal),
    contract: Contract,
) -> Result<(u32, String), Fail> {
    course(rt, PlainState::empty(rt.alloc()), contract)
}

fn indexed_course(
    rt: &(impl Abort + AllocGlobal),
    contract: Contract,
) -> Result<(u32, String), Fail> {
    course(rt, IndexedState::empty(rt.alloc()), contract)
}

// Fails unless both forms have so many firings, and at each of them the same is seen of both.
fn expect_alike(
    rt: &(impl Abort + AllocGlobal),
    contract: Contract,
    firings: u32,
) -> Result<(), Fail> {
    let (made, plain) = plain_course(rt, contract)?;
    let (also, indexed) = indexed_course(rt, contract)?;
    assert_eq!(rt; (made, also), (firings, firings));
    assert!(rt; plain.as_str() == indexed.as_str(), "the forms differ");
    Ok(())
}

#[test]
fn both_forms_are_seen_alike_at_every_firing(rt: HostRuntime) -> Result<(), Fail> {
    let table: [(Contract, u32); 2] = [((AUCTION, 8, "day"), 90), ((OPPOSITE, 0, "t"), 23)];
    for (contract, firings) in table {
        expect_alike(&rt, contract, firings)?;
    }
    Ok(())
}
