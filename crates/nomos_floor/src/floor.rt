//! Floors, passes and turns: a work under a ticket lock, whose history has of each pass just its own entries.
ghost use Rattle.std.specs.Prelude.{◌≡◌, ℕ, ◌+◌, ◌-◌, ◌%◌, ◌^◌, ◌<◌, List, [], ◌∷◌, ◌++◌, Some, None, length, IfOk, IfErr};
ghost use mathlib.Core.List.{IsPrefix};

use crate::rule::{Count, Draw, FloorRule, Learn, Look, Serve, SplitOff, TakeIn};
use crate::shared_work::Shared;
use crate::view::PassView;
use atomic_table::{Refused, Seat, Table};
use std::alloc::Global;
use std::snapshot::Snapshot;
use std::sync::Wait;
use std::thread::Parker;
use std::time::Duration;
use std::{hint, thread};

// The words: tickets drawn, turns served, entries of the history, each modulo 2^64.
const TICKET: usize = 0;

const SERVING: usize = 1;

const COUNT: usize = 2;

// The slot of the work.
const WORK: usize = 0;

// So often a pass looks for its turn before it lets other threads go on between two looks, and before it sleeps.
const QUICK_LOOKS: u32 = 200;

const LOOKS_AWAKE: u32 = 400;

// How long it sleeps between two looks, in microseconds.
const SLEEP: u64 = 50;

// What a pass does behind so many looks in vain: it waits a moment, lets other threads go on, or sleeps.
fn pause<R: Wait>(rt: &R, looks: u32) {
    if looks < QUICK_LOOKS {
        hint::spin_loop();
    } else if looks < LOOKS_AWAKE {
        thread::yield_now();
    } else {
        Parker::new().park_timeout(rt, Duration::from_micros(SLEEP));
    }
}

/// A work that passes take in turns. `docs/FLOOR.md` has its steps, and what holds between any two.
#[derive(Drop)]
pub struct Floor<W: Shared> {
    table: Table<Option<W>, PassView<W, W::Entry>, Snapshot<W>, FloorRule<W>, Global>,
    ghost sized: { (table.shared.table_id.words ≡ 3) × (table.shared.table_id.slots ≡ 1) },
}

/// The right to take turns, under a number of its own, which never changes. It can go to another thread. One that is
/// dropped stays out: the floor can then be dropped, and not closed.
#[derive(Drop)]
pub struct Pass<W: Shared> {
    number: u32,
    next: u32,
    seat: Seat<Option<W>, PassView<W, W::Entry>>,
}

/// A turn: the work, out of its place until it goes back by `give_back`. It has no `Drop`, so that it can't be lost.
pub struct Turn<W: Shared> {
    /// The work, to which the turn may add one entry.
    pub work: W,
    entries: u64,
    pass: Pass<W>,
}

/// Why a floor was not opened.
#[derive(Drop)]
pub enum OpenError<W> {
    /// There was no memory. The work comes back.
    NoMemory(W),
}

impl<W: Shared> Floor<W> {
    ghost use Rattle.nomos_floor.specs.FloorPass.{IsPassOf, IsTurnOf, IsOpening, KeepsNumbers, AddsAtMostOne, opened_work, pass_number, seen_by, own_of, next_of, out_of, ended_of, entries_of, pass_of, taken_history};
    ghost use Rattle.nomos_floor.specs.OwnEntries.{mine, longer, without_number};
    ghost use Rattle.nomos_floor.specs.mirror.TurnSeats.{HasDrawn, GetsTurn, HoldsWork, IsNew, HasCounted, HasPut};

    /// Opens a floor over a work with no entry, and gives the opening pass, whose number is 0.
    pub fn open(alloc: Global, work: W) -> Result<(Floor<W>, Pass<W>), OpenError<W>>
        requires { W.history work ≡ [] }
        ensures opened { IfOk result (λ r. IsPassOf r.0 r.1 × (opened_work r.0 ≡ work)) }
        ensures opening { IfOk result (λ r. IsOpening r.1 × (next_of r.1 ≡ 1) × (out_of r.1 ≡ [])
            × (ended_of r.1 ≡ [])) }
        ensures nothing_seen { IfOk result (λ r. (seen_by r.1 ≡ []) × (own_of r.1 ≡ [])) }
        ensures no_memory { IfErr result (λ e. e ≡ OpenError.NoMemory work) }
    {
        let opened = Snapshot::of(&work);
        let Ok(mut slots) = Vec::with_capacity(alloc, 1) else {
            return Err(OpenError::NoMemory(work));
        };
        slots.push_reserved(Some(work));
        match Table::new(alloc, &[0, 0, 0], slots, &opened) {
            Ok((table, seat)) => Ok((
                Floor { table },
                Pass {
                    number: 0,
                    next: 1,
                    seat,
                },
            )),
            Err(Refused { mut slots }) => match slots.pop() {
                Some(Some(work)) => Err(OpenError::NoMemory(work)),
                _ => unreachable!(),
            },
        }
    }

    /// Splits a pass off the opening one. The new pass has the next number and no entry, and has seen the same history.
    pub fn split(&self, pass: &mut Pass<W>) -> Pass<W>
        requires of_floor { IsPassOf self.now pass.old }
        requires opening { IsOpening pass.old }
        requires room { next_of pass.old < 2 ^ 32 - 1 }
        ensures of_floor { IsPassOf self.now pass.new × IsPassOf self.now result }
        ensures new { (pass_number result ≡ next_of pass.old) × (seen_by result ≡ seen_by pass.old)
            × (own_of result ≡ []) }
        ensures next { next_of pass.new ≡ next_of pass.old + 1 }
        ensures out { out_of pass.new ≡ out_of pass.old ++ next_of pass.old ∷ [] }
        ensures ended { ended_of pass.new ≡ ended_of pass.old }
        ensures kept { (pass_number pass.new ≡ pass_number pass.old) × (seen_by pass.new ≡ seen_by pass.old)
            × (own_of pass.new ≡ own_of pass.old) }
    {
        let number = pass.next;
        let seat = self.table.shared.split_seat::<SplitOff>(&mut pass.seat);
        pass.next = number + 1;
        Pass {
            number,
            next: 0,
            seat,
        }
    }

    // Waits until the ticket is served. The work is then out with the seat.
    fn wait_for<R: Wait>(
        &self,
        rt: &R,
        seat: &mut Seat<Option<W>, PassView<W, W::Entry>>,
        ticket: u64,
    )
        requires table { seat.old.table_id ≡ self.now.table.shared.table_id }
        requires drawn { HasDrawn ticket seat.old.me }
        ensures table { seat.new.table_id ≡ seat.old.table_id }
        ensures turn { GetsTurn W.start W.history seat.old.me seat.new.me }
    {
        let mut looks = 0;
        for _ in rt.forever() {
            if self.table.shared.load::<Look<W>>(seat, SERVING) == ticket {
                return;
            }
            pause(rt, looks);
            looks = looks.saturating_add(1);
        }
        unreachable!()
    }

    /// Waits until the pass has its turn, and takes the work. Nothing says when the turn comes.
    pub fn take_turn<R: Wait>(&self, rt: &R, pass: Pass<W>) -> Turn<W>
        requires { IsPassOf self.now pass }
        ensures of_floor { IsTurnOf self.now result }
        ensures start { W.start result.work ≡ W.start (opened_work self.now) }
        ensures seen { IsPrefix (seen_by pass) (W.history result.work) }
        ensures own { mine (pass_number pass) (W.history result.work) ≡ own_of pass }
        ensures taken { taken_history result ≡ W.history result.work }
        ensures kept { KeepsNumbers pass (pass_of result) × (own_of (pass_of result) ≡ own_of pass) }
    {
        let Pass {
            number,
            next,
            mut seat,
        } = pass;
        let ticket = self.table.shared.fetch_add::<Draw>(&mut seat, TICKET, 1);
        self.wait_for(rt, &mut seat, ticket);
        let work = self.table.shared.exchange(&mut seat, WORK, None).unwrap();
        let entries = work.entries();
        Turn {
            work,
            entries,
            pass: Pass { number, next, seat },
        }
    }

    // Counts the last entry of the work that the seat holds, if it is new.
    fn count_new(&self, seat: &mut Seat<Option<W>, PassView<W, W::Entry>>, is_new: bool)
        requires table { seat.old.table_id ≡ self.now.table.shared.table_id }
        requires turn { HoldsWork seat.old.me }
        requires new { IsNew W.history is_new seat.old.me }
        ensures table { seat.new.table_id ≡ seat.old.table_id }
        ensures counted { HasCounted W.history seat.old.me seat.new.me }
    {
        if is_new {
            self.table.shared.fetch_add::<Count<W>>(seat, COUNT, 1);
        }
    }

    // Puts the work of a turn into the slot, and counts its last entry, if it is new. The pass has its turn still.
    fn put_and_count(&self, turn: Turn<W>) -> Pass<W>
        requires of_floor { IsTurnOf self.now turn }
        requires history { AddsAtMostOne (pass_number (pass_of turn)) (taken_history turn) (W.history turn.work) }
        ensures { HasPut W.history self.now turn result }
    {
        let Turn {
            work,
            entries,
            pass,
        } = turn;
        let Pass {
            number,
            next,
            mut seat,
        } = pass;
        let is_new = work.entries() != entries;
        drop(self.table.shared.exchange(&mut seat, WORK, Some(work)));
        self.count_new(&mut seat, is_new);
        Pass { number, next, seat }
    }

    /// Counts the entry that a turn has added, if it has added one, and goes on with the turn: the pass may add one
    /// entry more, and no other pass has had a turn in between.
    pub fn go_on(&self, turn: Turn<W>) -> Turn<W>
        requires of_floor { IsTurnOf self.now turn }
        requires start { W.start turn.work ≡ W.start (opened_work self.now) }
        requires history { AddsAtMostOne (pass_number (pass_of turn)) (taken_history turn) (W.history turn.work) }
        ensures of_floor { IsTurnOf self.now result }
        ensures work { result.work ≡ turn.work }
        ensures taken { taken_history result ≡ W.history turn.work }
        ensures own { own_of (pass_of result) ≡ mine (pass_number (pass_of result)) (W.history turn.work) }
        ensures kept { KeepsNumbers (pass_of turn) (pass_of result) }
    {
        let mut pass = self.put_and_count(turn);
        let work = self
            .table
            .shared
            .exchange(&mut pass.seat, WORK, None)
            .unwrap();
        let entries = work.entries();
        Turn {
            work,
            entries,
            pass,
        }
    }

    /// Ends a turn, and gives the pass back. The work has the entries that it had when it was taken, or one more, which
    /// is of this pass.
    pub fn give_back(&self, turn: Turn<W>) -> Pass<W>
        requires of_floor { IsTurnOf self.now turn }
        requires start { W.start turn.work ≡ W.start (opened_work self.now) }
        requires history { AddsAtMostOne (pass_number (pass_of turn)) (taken_history turn) (W.history turn.work) }
        ensures of_floor { IsPassOf self.now result }
        ensures seen { seen_by result ≡ W.history turn.work }
        ensures own { own_of result ≡ mine (pass_number result) (W.history turn.work) }
        ensures unfired { W.history turn.work ≡ taken_history turn → own_of result ≡ own_of (pass_of turn) }
        ensures fired { (entry : W.Entry) → W.history turn.work
            ≡ taken_history turn ++ (pass_number (pass_of turn), entry) ∷ []
            → own_of result ≡ own_of (pass_of turn) ++ entry ∷ [] }
        ensures kept { KeepsNumbers (pass_of turn) result }
    {
        let Pass {
            number,
            next,
            mut seat,
        } = self.put_and_count(turn);
        self.table.shared.fetch_add::<Serve>(&mut seat, SERVING, 1);
        Pass { number, next, seat }
    }

    /// Ends another pass. The opening one keeps its number with its entries, and has seen the longer of their
    /// histories.
    pub fn join(&self, pass: &mut Pass<W>, other: Pass<W>)
        requires of_floor { IsPassOf self.now pass.old × IsPassOf self.now other }
        requires opening { IsOpening pass.old }
        ensures of_floor { IsPassOf self.now pass.new }
        ensures seen { seen_by pass.new ≡ longer (seen_by pass.old) (seen_by other) }
        ensures begins { IsPrefix (seen_by pass.old) (seen_by pass.new) × IsPrefix (seen_by other) (seen_by pass.new) }
        ensures out { out_of pass.new ≡ without_number (pass_number other) (out_of pass.old) }
        ensures ended { ended_of pass.new ≡ ended_of pass.old ++ (pass_number other, own_of other) ∷ [] }
        ensures kept { (pass_number pass.new ≡ pass_number pass.old) × (next_of pass.new ≡ next_of pass.old)
            × (own_of pass.new ≡ own_of pass.old) }
    {
        let Pass {
            number: _,
            next: _,
            seat,
        } = other;
        let shared = &self.table.shared;
        shared.join_seat::<TakeIn>(&mut pass.seat, seat);
        shared.load::<Learn>(&mut pass.seat, TICKET);
    }

    /// Ends the floor, once no number is out, and gives the work. Its history has of each number just the entries that
    /// the opening pass has for it.
    pub fn close(self, pass: Pass<W>) -> W
        requires of_floor { IsPassOf self pass }
        requires opening { IsOpening pass }
        requires alone { out_of pass ≡ [] }
        ensures start { W.start result ≡ W.start (opened_work self) }
        ensures seen { IsPrefix (seen_by pass) (W.history result) }
        ensures entries { (number : ℕ) → mine number (W.history result) ≡ entries_of pass number }
    {
        let Floor { table } = self;
        let Pass {
            number: _,
            next: _,
            seat,
        } = pass;
        let mut closed = table.close_with(seat);
        let work = closed.take(WORK).unwrap();
        closed.free();
        work
    }
}

impl<W: Shared> Pass<W> {
    ghost use Rattle.nomos_floor.specs.FloorPass.{pass_number};

    /// The pass's number: 0 for the opening one.
    pub fn number(&self) -> u32
        ensures { result ≡ pass_number self.now }
    {
        self.number
    }
}

impl<W: Shared> Turn<W> {
    ghost use Rattle.nomos_floor.specs.FloorPass.{pass_number, pass_of};

    /// The number of the pass whose turn it is.
    pub fn number(&self) -> u32
        ensures { result ≡ pass_number (pass_of self.now) }
    {
        self.pass.number
    }
}
