//! Tests: a script that is cut in two, with the ledger between its parts saved and loaded, tells what the whole tells.
ghost use Rattle.std.specs.Prelude.{◌<◌, ◌^◌, IfSome, IsTrue, length};
ghost use Rattle.nomos_legal.specs.NextNumbers.{HasNumbered};
ghost use Rattle.nomos_legal.specs.StandsFor.{StandsFor};

use crate::accepted_texts::accepted_of;
use crate::saved_contracts::{AUCTION, BOX, CELLS, GIFT};
use nomos_deeds::machine::Machine;
use nomos_ledger::ledger::Ledger;
use nomos_machine::policy::Policy;
use nomos_run::one_worker::run_from;
use nomos_run::orders::{Orders, ScriptRun, WholeRun};
use nomos_script::parsing::parse_script;
use nomos_script::script::Script;
use nomos_snapshot::ledger_loading::load;
use nomos_snapshot::saving::save;
use nomos_state::indexed::IndexedState;
use nomos_types::accepted::Accepted;
use nomos_workers::batch::Crew;
use std::alloc::{AllocError, Global};
use std::process::Abort;
use std::test::Fail;

// The numbers of a ledger that a script may begin at, and its accounts, are fewer than these.
const MOST: u32 = 2_147_483_648;

/// How a script is run.
const ORDERS: Orders = Orders {
    crew: Crew::One(Policy::Round),
    limit: 1000,
    text: true,
    result: false,
};

/// What is told of a run: the report, the journal, and the snapshot of the last ledger.
#[derive(Drop)]
struct ToldRun {
    report: Vec<u8>,
    journal: Vec<u8>,
    snapshot: Vec<u8>,
}

// Whether a ledger has room for a script more.
fn has_room(ledger: &Ledger<IndexedState>) -> bool
    ensures numbers { IsTrue result → HasNumbered (2 ^ 31) ledger.now.state }
    ensures accounts { IsTrue result → length ledger.now.accounts < 2 ^ 31 }
{
    if ledger.state().next_object() > MOST {
        return false;
    }
    if ledger.state().next_name() > MOST {
        return false;
    }
    match ledger.account(MOST - 1) {
        Some(_) => false,
        None => true,
    }
}

// The snapshot of a ledger.
fn snapshot_of(alloc: Global, accepted: &Accepted, ledger: &Ledger<IndexedState>) -> Option<Vec<u8>>
    requires { StandsFor accepted.now ledger.now }
{
    save(alloc, accepted, ledger).ok()
}

// What is told of a run that carried out all items.
fn told_of(alloc: Global, accepted: &Accepted, whole: WholeRun<IndexedState>) -> Option<ToldRun>
    requires { StandsFor accepted.now whole.ledger }
{
    let WholeRun {
        report,
        text,
        last_result: _last_result,
        ledger,
    } = whole;
    let snapshot = snapshot_of(alloc, accepted, &ledger);
    drop(ledger);
    match (text, snapshot) {
        (Some(journal), Some(snapshot)) => Some(ToldRun {
            report,
            journal,
            snapshot,
        }),
        _ => None,
    }
}

// What is told of a run.
fn told_by(alloc: Global, accepted: &Accepted, ran: ScriptRun<IndexedState>) -> Option<ToldRun>
    requires { IfSome ran.finished (λ whole. StandsFor accepted.now whole.ledger) }
{
    let ScriptRun { journal, finished } = ran;
    drop(journal);
    match finished {
        Some(whole) => told_of(alloc, accepted, whole),
        None => None,
    }
}

// The run of a script from a ledger, where there is room.
fn run_behind(
    alloc: Global,
    accepted: &Accepted,
    from: Ledger<IndexedState>,
    script: &Script,
) -> Option<ScriptRun<IndexedState>>
    requires { StandsFor accepted.now from }
    ensures { IfSome result (λ ran. IfSome ran.finished (λ whole. StandsFor accepted.now whole.ledger)) }
{
    if !has_room(&from) {
        drop(from);
        return None;
    }
    Some(run_from(ORDERS, alloc, accepted, from, script))
}

// What is told of a script that is run from a ledger.
fn told_from(
    alloc: Global,
    accepted: &Accepted,
    from: Ledger<IndexedState>,
    script: &Script,
) -> Option<ToldRun>
    requires { StandsFor accepted.now from }
{
    match run_behind(alloc, accepted, from, script) {
        Some(ran) => told_by(alloc, accepted, ran),
        None => None,
    }
}

// What is told of the text of a script.
fn told_first(alloc: Global, accepted: &Accepted, script: &[u8]) -> Option<ToldRun> {
    match parse_script(alloc, script) {
        Ok(script) => told_from(alloc, accepted, Ledger::empty(alloc), &script),
        Err(_) => None,
    }
}

// What is told of a script that is run from the ledger of a snapshot.
fn told_loaded(
    alloc: Global,
    accepted: &Accepted,
    snapshot: &[u8],
    script: &Script,
) -> Option<ToldRun> {
    match load(alloc, accepted, snapshot) {
        Ok(ledger) => told_from(alloc, accepted, ledger, script),
        Err(_) => None,
    }
}

// The same, of the text of a script.
fn told_behind(
    alloc: Global,
    accepted: &Accepted,
    snapshot: &[u8],
    script: &[u8],
) -> Option<ToldRun> {
    match parse_script(alloc, script) {
        Ok(script) => told_loaded(alloc, accepted, snapshot, &script),
        Err(_) => None,
    }
}

// A script with blanks in the place of so many first bytes, but for the ends of lines.
fn rest_of(alloc: Global, script: &[u8], front: usize) -> Result<Vec<u8>, AllocError> {
    let mut rest = script.to_vec(alloc)?;
    for byte in rest.iter_mut().take(front) {
        if *byte != b'\n' {
            *byte = b' ';
        }
    }
    Ok(rest)
}

// Whether a text is another one, and behind it what stands in a third one behind so many bytes.
fn is_joined(whole: &[u8], first: &[u8], second: &[u8], front: usize) -> bool {
    match (whole.get(first.len()..), second.get(front..)) {
        (Some(rest), Some(behind)) => whole.starts_with(first) && rest == behind,
        _ => false,
    }
}

/// A script, what is told of it, and what is told where there are no items.
#[derive(Drop)]
struct Whole<'a> {
    script: &'a [u8],
    told: ToldRun,
    front: ToldRun,
}

impl Whole<'_> {
    // Whether two parts tell what the whole does.
    fn is_told_by(&self, first: &ToldRun, second: &ToldRun) -> bool {
        let fronts = (self.front.report.len(), self.front.journal.len());
        is_joined(&self.told.report, &first.report, &second.report, fronts.0)
            && is_joined(
                &self.told.journal,
                &first.journal,
                &second.journal,
                fronts.1,
            )
            && self.told.snapshot == second.snapshot
    }
}

// Whether the two parts tell what the whole does, where the first one is this front of the script.
fn is_carried(alloc: Global, accepted: &Accepted, whole: &Whole<'_>, front: &[u8]) -> bool {
    let Ok(rest) = rest_of(alloc, whole.script, front.len()) else {
        return false;
    };
    let Some(first) = told_first(alloc, accepted, front) else {
        return false;
    };
    match told_behind(alloc, accepted, &first.snapshot, &rest) {
        Some(second) => whole.is_told_by(&first, &second),
        None => false,
    }
}

// How many fronts of a script end with a line, have no batch open, and tell with the rest what the whole does.
fn carried_cuts(alloc: Global, accepted: &Accepted, whole: &Whole<'_>) -> u32 {
    let mut cuts: u32 = 0;
    let mut length: usize = 0;
    for line in whole.script.split_inclusive(|byte| *byte == b'\n') {
        length = length.saturating_add(line.len());
        if let Some(front) = whole.script.get(..length) {
            if is_carried(alloc, accepted, whole, front) {
                cuts = cuts.saturating_add(1);
            }
        }
    }
    cuts
}

// The same, where the script is a text.
fn cuts_on(alloc: Global, accepted: &Accepted, script: &str) -> u32 {
    let Some(told) = told_first(alloc, accepted, script.as_bytes()) else {
        return 0;
    };
    let Some(front) = told_first(alloc, accepted, b"") else {
        return 0;
    };
    let whole = Whole {
        script: script.as_bytes(),
        told,
        front,
    };
    carried_cuts(alloc, accepted, &whole)
}

// The same, where the contract is a text too.
fn cuts_of<R: Abort + AllocGlobal>(rt: &R, contract: &str, script: &str) -> u32 {
    let accepted = accepted_of(rt, contract);
    cuts_on(rt.alloc(), &accepted, script)
}

/// Contracts, scripts, and behind how many of their lines no batch is open: bids that are paid and one that is not, a
/// batch that blocks, lists that carry potential, and messages that wait.
const SCRIPTS: [(&str, &str, u32); 4] = [
    (
        AUCTION,
        "deposit seller 2
let sold = new seller keep(0;)
let auction = new seller start(0; sold)
deposit ann 3
let wa = new ann keep(0;)
exec ann place(7; auction, wa)
exec ann place(8; auction, wa)
deposit ann 3
exec ann place(9; auction, wa)
exec seller ask(; auction)
show
",
        11,
    ),
    (
        CELLS,
        "deposit u 1
let p = new u c(;)
let q = new u c(;)
begin
exec u two(; p, q)
exec u two(; q, p)
end
exec u two(; p, q)
show
",
        6,
    ),
    (
        BOX,
        "deposit u 9
let b = new u make(;)
exec u give(7; b)
show
exec u give(5; b)
show
",
        6,
    ),
    (
        GIFT,
        "deposit ann 9
let one = new ann make(7;)
let two = new ann make(2;)
show
",
        4,
    ),
];

#[test]
fn scripts_are_carried_on(rt: HostRuntime) -> Result<(), Fail> {
    for (contract, script, cuts) in SCRIPTS {
        assert!(rt; cuts_of(&rt, contract, script) == cuts, "{script}");
    }
    Ok(())
}
