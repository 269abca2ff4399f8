//! One worker of several: it takes turns with its pass until it stops.
ghost use Rattle.std.specs.Prelude.{◌≡◌, ℕ, List, IfOk, IfSome};
ghost use mathlib.Core.List.{IsPrefix};
ghost use Rattle.nomos_floor.specs.FloorPass.{AddsAtMostOne, IsPassOf, IsTurnOf, KeepsNumbers, opened_work, own_of, pass_number, pass_of, seen_by, taken_history};
ghost use Rattle.nomos_floor.specs.OwnEntries.{mine};
ghost use Rattle.nomos_workers.specs.Looks.{IsKnown, TurnsOut};
ghost use Rattle.nomos_workers.specs.mirror.WorkerTurns.{LeadsTo};

use crate::gate::Gate;
use crate::trade::{Seeks, Trade, Turned};
use nomos_floor::floor::{Floor, Pass, Turn};
use std::alloc::{AllocError, Global};
use std::sync::Wait;
use std::thread::Parker;
use std::time::Duration;

// The most looks of one turn, each of which makes a firing at most.
const LOOKS_IN_A_TURN: u32 = 256;

// The shortest rest, in microseconds, and how often it is doubled at most.
const SHORTEST_REST: u64 = 16;

const DOUBLINGS: u32 = 7;

/// What a worker comes to: its pass, and how it stopped.
#[derive(Drop)]
pub struct Worked<W: Trade> {
    pub pass: Pass<W>,
    pub end: W::Stop,
}

// A turn, and what its last look came to. That may have made a firing which is not counted yet.
struct Looked<W: Trade> {
    turn: Turn<W>,
    turned: Result<Turned<W::Asked, W::Stop>, AllocError>,
}

// A pass after a turn, and what the last look of the turn came to.
#[derive(Drop)]
struct Took<W: Trade> {
    pass: Pass<W>,
    turned: Result<Turned<W::Asked, W::Stop>, AllocError>,
}

// What a worker does after a turn.
#[derive(Drop)]
pub(crate) enum GoesOn<S> {
    Seeks(Seeks),
    Rests,
    Ends(S),
}

// Fires in a turn until a look tells to stop, a process is to be evaluated first, memory is wanting, or enough looks
// were made. Each firing is counted before the next look, but for that of the last look.
fn carry_on<W: Trade>(
    alloc: Global,
    floor: &Floor<W>,
    mut turn: Turn<W>,
    mut seeks: Seeks,
) -> Looked<W>
    requires of_floor { IsTurnOf floor.now turn }
    requires start { W.start turn.work ≡ W.start (opened_work floor.now) }
    requires fresh { W.history turn.work ≡ taken_history turn }
    requires known { IfSome seeks.known (IsKnown (W.program (W.start (opened_work floor.now)))) }
    ensures of_floor { IsTurnOf floor.now result.turn }
    ensures start { W.start result.turn.work ≡ W.start (opened_work floor.now) }
    ensures history { AddsAtMostOne (pass_number (pass_of result.turn)) (taken_history result.turn)
        (W.history result.turn.work) }
    ensures seen { IsPrefix (taken_history turn) (W.history result.turn.work) }
    ensures kept { KeepsNumbers (pass_of turn) (pass_of result.turn) }
    ensures turns { IfOk result.turned
        (TurnsOut (λ asked. W.asked_of asked ≡ W.program (W.start (opened_work floor.now)))
        (W.stops (opened_work floor.now) (W.history result.turn.work))) }
    ensures free { W.stops (opened_work floor.now) (W.history result.turn.work) W.wanting }
{
    let number = turn.number();
    'looks: for _ in 1..LOOKS_IN_A_TURN {
        let turned = turn.work.step(alloc, number, &seeks);
        let Ok(Turned::Goes(pid)) = turned else {
            return Looked { turn, turned };
        };
        turn = floor.go_on(turn);
        seeks = Seeks {
            after: pid,
            known: None,
            rests: 0,
        };
    }
    let turned = turn.work.step(alloc, number, &seeks);
    Looked { turn, turned }
}

// Takes one turn, with what was evaluated before it, if anything.
fn take_one<W: Trade, R: Wait>(
    rt: &R,
    alloc: Global,
    floor: &Floor<W>,
    pass: Pass<W>,
    seeks: Seeks,
) -> Took<W>
    requires of_floor { IsPassOf floor.now pass }
    requires known { IfSome seeks.known (IsKnown (W.program (W.start (opened_work floor.now)))) }
    ensures of_floor { IsPassOf floor.now result.pass }
    ensures kept { KeepsNumbers pass result.pass }
    ensures seen { IsPrefix (seen_by pass) (seen_by result.pass) }
    ensures own { own_of result.pass ≡ mine (pass_number result.pass) (seen_by result.pass) }
    ensures turns { IfOk result.turned
        (TurnsOut (λ asked. W.asked_of asked ≡ W.program (W.start (opened_work floor.now)))
        (W.stops (opened_work floor.now) (seen_by result.pass))) }
    ensures free { W.stops (opened_work floor.now) (seen_by result.pass) W.wanting }
{
    let turn = floor.take_turn(rt, pass);
    let Looked { turn, turned } = carry_on(alloc, floor, turn, seeks);
    let pass = floor.give_back(turn);
    Took { pass, turned }
}

// Evaluates what was asked of a process, outside the turn. The worker then looks from that process on.
fn evaluate_asked<W: Trade, G: Gate>(
    alloc: Global,
    gate: &G,
    worker: u32,
    pid: u32,
    asked: W::Asked,
) -> GoesOn<W::Stop>
    ensures { (opened : W) (history : List (ℕ × W.Entry)) → W.stops opened history W.wanting
        → W.asked_of asked ≡ W.program (W.start opened)
        → LeadsTo (W.program (W.start opened)) (W.stops opened history) result }
{
    gate.before_eval(worker, pid);
    match W::evaluate(alloc, asked) {
        Ok(known) => GoesOn::Seeks(Seeks {
            after: pid.saturating_sub(1),
            known: Some(known),
            rests: 0,
        }),
        Err(_) => GoesOn::Ends(W::no_memory()),
    }
}

// What the worker of a number does after a turn that came to this.
fn after_turn<W: Trade, G: Gate>(
    alloc: Global,
    gate: &G,
    worker: u32,
    turned: Result<Turned<W::Asked, W::Stop>, AllocError>,
) -> GoesOn<W::Stop>
    ensures { (opened : W) (history : List (ℕ × W.Entry)) → W.stops opened history W.wanting
        → IfOk turned (TurnsOut (λ asked. W.asked_of asked ≡ W.program (W.start opened)) (W.stops opened history))
        → LeadsTo (W.program (W.start opened)) (W.stops opened history) result }
{
    match turned {
        Ok(Turned::Goes(pid)) => GoesOn::Seeks(Seeks {
            after: pid,
            known: None,
            rests: 0,
        }),
        Ok(Turned::Rests) => GoesOn::Rests,
        Ok(Turned::Wants(pid, asked)) => evaluate_asked::<W, G>(alloc, gate, worker, pid, asked),
        Ok(Turned::Ends(stop)) => GoesOn::Ends(stop),
        Err(_) => GoesOn::Ends(W::no_memory()),
    }
}

// Rests, the longer the more often the worker has rested: from 16 microseconds up to some two milliseconds.
fn rest<R: Wait>(rt: &R, rests: u32) {
    let doublings = rests.min(DOUBLINGS);
    Parker::new().park_timeout(rt, Duration::from_micros(SHORTEST_REST << doublings));
}

/// One worker's part (docs/MACHINE.md, "Workers"): it takes turns with its pass, and fires ready processes, 256 in a
/// turn at most, until it finds an end or memory is wanting. It starts to look for its next process where it fired
/// last, and at its own number before that. It passes by a process whose terms another worker evaluates just now, and
/// rests for a while where it finds no other one. Terms are evaluated after the turn was given back and the gate was
/// called; in its next turn the worker first fires the first process that is ready from there on, and uses the outcome
/// only where that process stands at this instruction with these values. Nothing says when the turns come.
pub fn work<W: Trade, G: Gate, R: Wait>(
    rt: &R,
    alloc: Global,
    floor: &Floor<W>,
    mut pass: Pass<W>,
    gate: &G,
) -> Worked<W>
    requires { IsPassOf floor.now pass }
    ensures of_floor { IsPassOf floor.now result.pass }
    ensures kept { KeepsNumbers pass result.pass }
    ensures seen { IsPrefix (seen_by pass) (seen_by result.pass) }
    ensures own { own_of result.pass ≡ mine (pass_number result.pass) (seen_by result.pass) }
    ensures run { W.stops (opened_work floor.now) (seen_by result.pass) result.end }
{
    let number = pass.number();
    let mut seeks = Seeks {
        after: number,
        known: None,
        rests: 0,
    };
    'turns: for _ in rt.forever() {
        let rests = seeks.rests;
        let Took { pass: same, turned } = take_one(rt, alloc, floor, pass, seeks);
        pass = same;
        match after_turn::<W, G>(alloc, gate, number, turned) {
            GoesOn::Seeks(next) => {
                seeks = next;
                seeks.rests = rests.min(DOUBLINGS).saturating_sub(1);
            }
            GoesOn::Rests => {
                rest(rt, rests);
                seeks = Seeks {
                    after: number,
                    known: None,
                    rests: rests.saturating_add(1),
                };
            }
            GoesOn::Ends(end) => return Worked { pass, end },
        }
    }
    unreachable!()
}
