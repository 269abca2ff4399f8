//! A script under way, which several workers carry on in turns: who has the turn does what is next.
ghost use Rattle.std.specs.Prelude.{◌≡◌, ℕ, ◌+◌, ◌≤◌, ◌++◌, [], IfOk, IfSome, MatchOption, OnErr, Some, slice_get};
ghost use Rattle.nomos_types.specs.Acceptance.{Acceptance, IsAccepted};
ghost use Rattle.nomos_script.specs.Size.{IsScriptSize};
ghost use Rattle.nomos_legal.specs.Ledger.{empty_ledger};
ghost use Rattle.nomos_legal.specs.Legal.{batch_limit, max_firings};
ghost use Rattle.nomos_legal.specs.StandsFor.{StandsNamed};
ghost use Rattle.nomos_floor.specs.FloorPass.{AddsAtMostOne};
ghost use Rattle.nomos_ledger.specs.Watching.{IsWatched};
ghost use Rattle.nomos_workers.specs.Looks.{IsKnown, TurnsOut};
ghost use Rattle.nomos_workers.specs.declared.batch.Crew.TheVariants as crews;
ghost use Rattle.nomos_run.specs.mirror.Runs.{HasGone, RunsSoFar};
ghost use Rattle.nomos_run.specs.mirror.Courses.{CourseState, HasComeTo, HasMoved, HasPassed, IsEndOf, IsNotUnder, IsPhase, IsTrail, IsUnder, KeepsTrail, firings_told, phase_firings};

use crate::orders::Orders;
use crate::script_shop::CarriedCourse;
use crate::way::RunWay;
use nomos_deeds::undo::Undo;
use nomos_eval::wanted::{Wanted, evaluate};
use nomos_ledger::ledger::Ledger;
use nomos_ledger::watched::Watched;
use nomos_legal::journal::{End, Firing};
use nomos_report::course::Outset;
use nomos_script::item::ScriptItem;
use nomos_types::accepted::Accepted;
use nomos_walk::entries::keep;
use nomos_walk::started::{BatchUnderWay, PassedItem, StartedItem};
use nomos_walk::walk::Walk;
use nomos_workers::elsewhere::Elsewhere;
use nomos_workers::look::{Looker, look, told_end};
use nomos_workers::trade::{KnownOutcome, Seeks, Turned};
use std::alloc::{AllocError, Global};
use std::marker::Model;
use std::mem;

/// How a worker stops that carries a script on: all items have passed, or memory was wanting.
#[derive(Drop)]
pub(crate) enum CourseStop {
    Done,
    NoMemory,
}

/// A batch under way: its world, beside which is known who may be ready, where it began, and the most firings that it
/// may make.
#[derive(Drop)]
pub(crate) struct UnderWay<M: Undo> {
    watched: Watched<M>,
    outset: Outset,
    limit: u32,
}

/// What comes next of a script: an item on this ledger, or firings of this batch; or nothing, since memory was wanting.
#[derive(Drop)]
pub(crate) enum Phase<M: Undo> {
    Between(Ledger<M>),
    Under(UnderWay<M>),
    Stopped,
}

/// What a script has come to: how many items have passed, the way along them, and the firings of the batches that have
/// ended, each with its pass.
#[derive(Drop)]
pub(crate) struct Trail<'a> {
    accepted: &'a Accepted,
    orders: Orders,
    items: &'a [ScriptItem],
    next: usize,
    way: RunWay<'a>,
    fired: Vec<Firing>,
}

// A phase, and whether what led to it went well: otherwise memory was wanting.
#[derive(Drop)]
struct LedCourse<M: Undo> {
    phase: Phase<M>,
    answer: Result<(), AllocError>,
}

/// What is to be evaluated, for a program.
#[derive(Drop)]
pub(crate) struct AskedOf<'a> {
    accepted: &'a Accepted,
    wanted: Wanted,
}

// An item has passed: its entry is kept.
fn pass<M: Undo + Drop>(
    trail: &mut Trail<'_>,
    passed: PassedItem<M>,
) -> Result<Phase<M>, AllocError>
    requires { HasPassed trail.old passed }
    ensures { HasMoved trail.old trail.new result }
{
    let PassedItem { ledger, entry } = passed;
    keep(&mut trail.way.entries, entry)?;
    trail.next += 1;
    Ok(Phase::Between(ledger))
}

// A batch whose lines have started, beside which is known who may be ready.
fn watch<M: Undo + Drop>(walk: &Walk<'_>, under: BatchUnderWay<M>) -> UnderWay<M>
    requires { walk.now.made ≤ max_firings }
    ensures limit { result.limit ≡ batch_limit walk.now.limit walk.now.made }
    ensures sum { walk.now.made + result.limit ≤ max_firings }
    ensures same { (result.watched.world ≡ under.world) × (result.outset ≡ under.outset) }
    ensures watched { (a : Acceptance) → IsWatched a result.watched.world.state result.watched.awake }
{
    let limit = walk.next_limit();
    let BatchUnderWay { outset, world } = under;
    UnderWay {
        watched: Watched::of(world),
        outset,
        limit,
    }
}

// Starts the next item.
fn start<M: Undo + Drop>(
    alloc: Global,
    trail: &mut Trail<'_>,
    ledger: Ledger<M>,
    item: &ScriptItem,
) -> Result<Phase<M>, AllocError>
    requires trail { IsTrail trail.old }
    requires between { HasComeTo trail.old ledger trail.old.way.walk }
    requires item { slice_get trail.old.items.now trail.old.next ≡ Some item.now }
    ensures { HasMoved trail.old trail.new result }
{
    match trail.way.walk.start(alloc, ledger, item)? {
        StartedItem::Passed(passed) => pass(trail, passed),
        StartedItem::UnderWay(under) => Ok(Phase::Under(watch(&trail.way.walk, under))),
    }
}

// Finishes a batch that has come to this end.
fn finish<M: Undo + Drop>(
    alloc: Global,
    trail: &mut Trail<'_>,
    under: UnderWay<M>,
    end: End,
) -> Result<Phase<M>, AllocError>
    requires trail { IsTrail trail.old }
    requires under { IsUnder trail.old under }
    requires allowed { IsEndOf trail.old (Phase.Under under) end }
    ensures { HasMoved trail.old trail.new result }
{
    let UnderWay {
        watched,
        outset,
        limit: _limit,
    } = under;
    let world = watched.into_world();
    let under = BatchUnderWay { outset, world };
    let passed = trail.way.walk.finish(alloc, under, end)?;
    pass(trail, passed)
}

// Ends a batch at which this end was found. Where memory is wanting before anything is written, it stays under way.
fn end<M: Undo + Drop>(
    alloc: Global,
    trail: &mut Trail<'_>,
    under: UnderWay<M>,
    found: End,
) -> LedCourse<M>
    requires trail { IsTrail trail.old }
    requires under { IsUnder trail.old under }
    requires allowed { IsEndOf trail.old (Phase.Under under) found }
    ensures kept { KeepsTrail trail.old trail.new }
    ensures phase { IsPhase trail.new result.phase }
    ensures fired { trail.new.fired.items ++ phase_firings result.phase
        ≡ trail.old.fired.items ++ under.watched.world.firings }
{
    let Ok(end) = told_end(alloc, trail.accepted, &under.watched.world, found) else {
        return LedCourse {
            phase: Phase::Under(under),
            answer: Err(AllocError),
        };
    };
    if trail
        .fired
        .extend_from_slice(under.watched.world.firings())
        .is_err()
    {
        return LedCourse {
            phase: Phase::Under(under),
            answer: Err(AllocError),
        };
    }
    match finish(alloc, trail, under, end) {
        Ok(phase) => LedCourse {
            phase,
            answer: Ok(()),
        },
        Err(error) => LedCourse {
            phase: Phase::Stopped,
            answer: Err(error),
        },
    }
}

// What a look at the batch under way comes to, or none where none is.
fn look_under<M: Undo + Drop>(
    alloc: Global,
    trail: &Trail<'_>,
    phase: &mut Phase<M>,
    looker: Looker<'_>,
) -> Option<Result<Turned<Wanted, End>, AllocError>>
    requires phase { IsPhase trail.now phase.old }
    requires known { IfSome looker.seeks.now.known (IsKnown trail.now.accepted.now) }
    ensures phase { IsPhase trail.now phase.new }
    ensures history { AddsAtMostOne looker.entry.pass (firings_told (phase_firings phase.old))
        (firings_told (phase_firings phase.new)) }
    ensures turns { MatchOption result (IsNotUnder phase.old × (phase.new ≡ phase.old))
        (λ turned. IfOk turned (TurnsOut (λ _. Unit {0}) (IsEndOf trail.now phase.new))) }
{
    let Phase::Under(under) = phase else {
        return None;
    };
    Some(look(
        alloc,
        trail.accepted,
        &mut under.watched,
        under.limit,
        looker,
    ))
}

// Starts the next item, if there is one and memory was never wanting. Says whether there was one.
fn start_next<M: Undo + Drop>(
    alloc: Global,
    trail: &mut Trail<'_>,
    phase: &mut Phase<M>,
) -> Result<bool, AllocError>
    requires trail { IsTrail trail.old }
    requires phase { IsPhase trail.old phase.old }
    requires between { IsNotUnder phase.old }
    ensures kept { KeepsTrail trail.old trail.new }
    ensures phase { IsPhase trail.new phase.new }
    ensures fired { trail.new.fired.items ++ phase_firings phase.new
        ≡ trail.old.fired.items ++ phase_firings phase.old }
{
    let Phase::Between(ledger) = mem::replace(phase, Phase::Stopped) else {
        return Err(AllocError);
    };
    let Some(item) = trail.items.get(trail.next) else {
        *phase = Phase::Between(ledger);
        return Ok(false);
    };
    *phase = start(alloc, trail, ledger, item)?;
    Ok(true)
}

// Ends the batch under way, at which this end was found.
fn end_under<M: Undo + Drop>(
    alloc: Global,
    trail: &mut Trail<'_>,
    phase: &mut Phase<M>,
    found: End,
) -> Result<(), AllocError>
    requires trail { IsTrail trail.old }
    requires phase { IsPhase trail.old phase.old }
    requires allowed { IsEndOf trail.old phase.old found }
    ensures kept { KeepsTrail trail.old trail.new }
    ensures phase { IsPhase trail.new phase.new }
    ensures fired { trail.new.fired.items ++ phase_firings phase.new
        ≡ trail.old.fired.items ++ phase_firings phase.old }
{
    let Phase::Under(under) = mem::replace(phase, Phase::Stopped) else {
        unreachable!()
    };
    let LedCourse {
        phase: next,
        answer,
    } = end(alloc, trail, under, found);
    *phase = next;
    answer
}

/// A script under way: what it has come to, and what comes next. Contracts see what it began with and its firings so
/// far.
#[derive(Drop)]
pub(crate) struct ScriptCourse<'a, M: Undo> {
    trail: Trail<'a>,
    phase: Phase<M>,
    elsewhere: Elsewhere,
}

impl<'a, M: Undo> Model for ScriptCourse<'a, M> {
    ghost use Rattle.std.specs.Prelude.{◌++◌};
    ghost use Rattle.std.specs.Coded.{codes};
    ghost use Rattle.nomos_ir.specs.ValueCode.{value_code};
    ghost use Rattle.nomos_run.specs.mirror.Runs.{HasGone, RunsSoFar};
    ghost use Rattle.nomos_run.specs.mirror.Courses.{CourseState, IsCourse, phase_firings};

    ghost Value = { CourseState };

    ghost coded = { Prim.hlevel (codes, value_code) };

    ghost view = { λ s. record {
      accepted = s.trail.accepted.now;
      orders = s.trail.orders;
      items = s.trail.items.now;
      firings = s.trail.fired.items ++ phase_firings s.phase;
    } };

    ghost invariant = { λ s. IsCourse s.trail s.phase };
}

impl<'a, M: Undo + Drop> ScriptCourse<'a, M> {
    /// A script before any item, which several workers are to carry on.
    pub(crate) fn new(
        accepted: &'a Accepted,
        orders: Orders,
        items: &'a [ScriptItem],
        way: RunWay<'a>,
        from: Ledger<M>,
    ) -> ScriptCourse<'a, M>
        requires accepted { IsAccepted accepted.now }
        requires standing { StandsNamed accepted.now empty_ledger }
        requires size { IsScriptSize items.now }
        requires several { (workers : ℕ) × (orders.crew ≡ crews.Many workers) }
        requires begins { HasGone accepted.now empty_ledger orders [] way.entries.items from way.walk }
        ensures { result ≡ record { accepted = accepted.now; orders = orders; items = items.now; firings = [] } }
    {
        let alloc = *way.entries.allocator();
        ScriptCourse {
            trail: Trail {
                accepted,
                orders,
                items,
                next: 0,
                way,
                fired: Vec::new(alloc),
            },
            phase: Phase::Between(from),
            elsewhere: Elsewhere::none(),
        }
    }

    /// What became of the script: the way along the items that have passed, and the last ledger where all have.
    pub(crate) fn into_last(self) -> (RunWay<'a>, Result<Ledger<M>, AllocError>)
        ensures ok { IfOk result.1 (λ last. HasGone self.entry.accepted empty_ledger self.entry.orders self.entry.items
            result.0.entries.items last result.0.walk) }
        ensures err { OnErr result.1 (RunsSoFar self.entry.accepted empty_ledger self.entry.items self.entry.orders
            result.0.entries.items) }
    {
        let ScriptCourse {
            trail,
            phase,
            elsewhere: _elsewhere,
        } = self;
        let whole = trail.next == trail.items.len();
        match phase {
            Phase::Between(ledger) if whole => (trail.way, Ok(ledger)),
            _ => (trail.way, Err(AllocError)),
        }
    }
}

impl<'a, M: Undo + Drop> CarriedCourse for ScriptCourse<'a, M> {
    type Asked = AskedOf<'a>;

    ghost state = { λ course. course };

    ghost asked_of = { λ asked. asked.accepted.now };

    fn firings(&self) -> u64 {
        let under = match &self.phase {
            Phase::Under(under) => under.watched.world.firings().len(),
            _ => 0,
        };
        (self.trail.fired.len() as u64).wrapping_add(under as u64)
    }

    fn look(
        &mut self,
        alloc: Global,
        pass: u32,
        seeks: &Seeks,
    ) -> Result<Turned<AskedOf<'a>, CourseStop>, AllocError> {
        let accepted = self.trail.accepted;
        self.elsewhere.put_down(pass);
        let looker = Looker {
            pass,
            seeks,
            elsewhere: &self.elsewhere,
        };
        let Some(turned) = look_under(alloc, &self.trail, &mut self.phase, looker) else {
            if start_next(alloc, &mut self.trail, &mut self.phase)? {
                return Ok(Turned::Goes(seeks.after));
            }
            return Ok(Turned::Ends(CourseStop::Done));
        };
        match turned? {
            Turned::Goes(pid) => Ok(Turned::Goes(pid)),
            Turned::Rests => Ok(Turned::Rests),
            Turned::Wants(pid, wanted) => {
                self.elsewhere.take(pass, pid);
                Ok(Turned::Wants(pid, AskedOf { accepted, wanted }))
            }
            Turned::Ends(found) => {
                end_under(alloc, &mut self.trail, &mut self.phase, found)?;
                Ok(Turned::Goes(seeks.after))
            }
        }
    }

    fn evaluate(alloc: Global, asked: AskedOf<'a>) -> Result<KnownOutcome, AllocError> {
        let AskedOf { accepted, wanted } = asked;
        let outcome = evaluate(alloc, accepted.program(), &wanted)?;
        Ok(KnownOutcome { wanted, outcome })
    }
}
