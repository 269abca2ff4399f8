//! Tests: the forms and the pairs of amounts for which the processes of texts ask.
ghost use Rattle.std.specs.Prelude.{◌<◌, length};
ghost use Rattle.nomos_types.specs.Typed.{IsWellFormed};

use nomos_check::checking::{Checked, check_process};
use nomos_elaborate::elaborate::elaborate;
use nomos_ir::ids::ProcId;
use nomos_ir::program::Program;
use nomos_reader::parse::parse;
use nomos_types::forming::well_formed;
use std::alloc::{AllocError, Global};
use std::fmt::Write;
use std::process::Abort;
use std::test::Fail;

// The program of a text, if it has one.
pub(crate) fn program_of(alloc: Global, text: &str) -> Option<Program> {
    match parse(alloc, text.as_bytes()) {
        Ok(surface) => {
            let program = elaborate(alloc, &surface).ok();
            drop(surface);
            program
        }
        Err(_) => None,
    }
}

// Writes what a process asks for: each form, as the coefficients of the stars with the whole units behind them, and
// then the pairs of amounts.
fn write_checked(checked: &Checked, written: &mut String) -> Result<(), AllocError> {
    for form in checked.forms.as_slice() {
        write!(written, "{:?}{:+} ", form.coefs.as_slice(), form.plus)?;
    }
    writeln!(written, "{:?}", checked.pairs.as_slice())
}

// Writes what the process asks for, or why it is refused.
fn write_process(
    alloc: Global,
    program: &Program,
    p: ProcId,
    written: &mut String,
) -> Result<(), AllocError>
    requires formed { IsWellFormed program.now }
    requires p { p.0 < length program.now.procs }
{
    match check_process(alloc, program, p) {
        Ok(checked) => {
            let done = write_checked(&checked, written);
            drop(checked);
            done
        }
        Err(error) => writeln!(written, "{error}"),
    }
}

// Writes what each process asks for, on a line for each.
fn write_processes(alloc: Global, program: &Program, written: &mut String) -> Result<(), AllocError>
    requires formed { IsWellFormed program.now }
{
    let count = program.lists().procs.len() as u32;
    for p in 0..count {
        write_process(alloc, program, ProcId(p), written)?;
    }
    Ok(())
}

// What each process asks for.
fn processes(alloc: Global, program: &Program) -> Result<String, AllocError>
    requires formed { IsWellFormed program.now }
{
    let mut written = String::new(alloc);
    write_processes(alloc, program, &mut written)?;
    Ok(written)
}

// The same of a program that is well formed.
fn asked(alloc: Global, program: &Program) -> Result<String, AllocError> {
    program.know();
    match well_formed(alloc, program) {
        Ok(()) => processes(alloc, program),
        Err(_) => Ok(String::new(alloc)),
    }
}

// The same of the program of a text.
fn shown(alloc: Global, text: &str) -> Result<String, AllocError> {
    match program_of(alloc, text) {
        Some(program) => {
            let asked = asked(alloc, &program);
            drop(program);
            asked
        }
        None => Ok(String::new(alloc)),
    }
}

// `examples/auction.nomos` without its comments.
pub(crate) const AUCTION: &str = "
type R coin = &{ value : int /\\ coin | melt : 1 };
type S wallet = up &{ store : coin -o down wallet | total : int /\\ down wallet };
type S auction = up <{2}| &{ bid : coin -o wallet -o down auction | high : int /\\ down auction };

proc R mint(v: int;) : coin =
  case self {
    value => put self v; call mint(v;)
  | melt => close
  };

proc S keep(sum: int;) : wallet =
  accept;
  case self {
    store =>
      recv self c;
      c.value; take c v;
      c.melt; wait c;
      detach; call keep(sum + v;)
  | total =>
      put self sum;
      detach; call keep(sum;)
  };

proc S open(best: int; top: coin, who: wallet) : auction =
  accept;
  get self {2};
  case self {
    bid =>
      recv self c; recv self w;
      c.value; take c v;
      work {2};
      if best < v {
        acquire who as x; x.store; send x top; release x as who2;
        detach; call open(v; c, w)
      } else {
        acquire w as y; y.store; send y c; release y as w2;
        detach; call open(best; top, who)
      }
  | high =>
      work {2};
      put self best;
      detach; call open(best; top, who)
  };

proc S start(reserve: int; seller: wallet) : auction =
  spawn c = mint(0;);
  call open(reserve; c, seller);

proc T place(v: int; a: auction, w: wallet) {3} =
  work {1};
  spawn c = mint(v;);
  acquire a as x; pay x {2}; x.bid; send x c; send x w; release x as a2;
  emit v; close;

proc T ask(; a: auction) {2} =
  acquire a as x; pay x {2}; x.high; take x v; release x as a2;
  emit v; close;
";

// No star occurs: a form is a number of whole units. At a `call` there are two forms, and of two branches the second
// one comes first.
const AUCTION_ASKS: &str = "\
[]+0 []+0 []+0 []+0 []+0 []
[]+0 []+0 []+0 []+0 []+0 []+0 []+0 []+0 []+0 []+0 []+0 []+0 []+0 []+0 []
[]+0 []+0 []+2 []+2 []+0 []+0 []+0 []+0 []+2 []+2 []+2 []+2 []+2 []+0 \
[]+0 []+0 []+0 []+0 []+0 []+0 []+0 []+0 []+0 []+0 []+0 []+0 []+0 []+0 \
[(Written(2), Written(2)), (Written(2), Written(2))]
[]+0 []+0 []+0 [(Written(2), Written(2))]
[]+3 []+2 []+2 []+2 []+0 []+0 []+0 []+0 []+0 []+0 [(Written(2), Written(2))]
[]+2 []+2 []+0 []+0 []+0 []+0 []+0 [(Written(2), Written(2))]
";

// `examples/halves.nomos` without its comments.
const HALVES: &str = "
type R share = |{*}> 1;

proc R friend(;) {*} : share =
  pay self {*}; close;

proc R dinner(; a: share, b: share) : 1 =
  get a {*}; get b {*};
  work {3};
  wait a; wait b; close;

proc T evening(;) {3} =
  spawn a = friend(;);
  spawn b = friend(;);
  spawn d = dinner(; a, b);
  wait d; close;
";

// A friend starts with the second star and pays the third; two shares reach 3 units; 3 units are enough for two of the
// second star. What is paid and got is worth the first star, and so is what each of the two hands over.
const HALVES_ASKS: &str = "\
[0, 1, 0, 0, 0]+0 [0, 1, -1, 0, 0]+0 [(Star(3), Star(1))]
[0, 0, 0, 0, 0]+0 [0, 0, 0, 1, 0]+0 [0, 0, 0, 1, 1]+0 [0, 0, 0, 1, 1]-3 [0, 0, 0, 1, 1]-3 [0, 0, 0, 1, 1]-3 \
[(Star(4), Star(1)), (Star(5), Star(1))]
[0, 0, 0, 0, 0]+3 [0, -1, 0, 0, 0]+3 [0, -2, 0, 0, 0]+3 [0, -2, 0, 0, 0]+3 [0, -2, 0, 0, 0]+3 [(Star(1), Star(1))]
";

// Fails unless this text was wanted.
pub(crate) fn expect(rt: &impl Abort, found: String, wanted: &str) {
    assert_eq!(rt; found.as_str(), wanted);
}

#[test]
fn gives_the_forms_and_pairs_of_processes(rt: HostRuntime) -> Result<(), Fail> {
    expect(&rt, shown(rt.alloc(), AUCTION)?, AUCTION_ASKS);
    expect(&rt, shown(rt.alloc(), HALVES)?, HALVES_ASKS);
    Ok(())
}
