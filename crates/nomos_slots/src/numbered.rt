//! Records under numbers, which are drawn in ascending order.
ghost use Rattle.std.specs.Prelude.{◌≡◌, ◌≤◌, ◌<◌, ◌+◌, ◌-◌, ℕ, [], ◌∷◌, ◌++◌, IsOk, IsSome, IfSome, IfOk, OnOk, All, length, min, slice_get};
ghost use Rattle.nomos_slots.specs.Numbers.{close_gaps, found, numbers, put_at, IsAscending, IsPlaceOf};

use crate::column::Column;
use std::alloc::{AllocError, Global};
use std::marker::Model;

// Of how many numbers at most it is remembered where they stood.
const MOST_SEEN: usize = 65536;

/// What stands under a number: or nothing any more.
#[derive(Clone, Copy, Debug)]
pub struct Slot<T> {
    pub number: u32,
    pub item: Option<T>,
}

/// Records under numbers, in ascending order of their numbers.
///
/// A number that is left stays as a gap until gaps are closed. What stands here can be marked, and put back to what it
/// was there. Room is counted in slots that come. Who adds one makes room first, by [`Numbered::reserve`]; nothing else
/// takes any.
#[derive(Drop, Debug)]
pub struct Numbered<T: Copy> {
    slots: Column<Slot<T>>,
    /// About how many slots are gaps; no clause rests on it.
    gaps: usize,
    /// About how many of those are that came since the mark.
    late_gaps: usize,
    /// Where numbers stood when they were last put there, each under its low bits; no clause rests on it.
    seen: Vec<u32>,
}

impl<T: Copy> Model for Numbered<T> {
    ghost use Rattle.nomos_slots.specs.Marking.{Marking, marking_code};
    ghost use Rattle.nomos_slots.specs.declared.numbered.Slot.{Slot};
    ghost use Rattle.nomos_slots.specs.Numbers.{numbered_of, slot_code, IsInOrder};

    ghost Value = { Marking (Slot T) };

    ghost coded = { marking_code (slot_code T.code) };

    ghost view = { λ n. numbered_of n.slots };

    ghost invariant = { λ n. IsInOrder n.slots };
}

// The place with the slot of this number, if it is this one.
#[inline(always)]
fn place_if<T: Copy>(slots: &Column<Slot<T>>, number: u32, place: usize) -> Option<usize>
    ensures { IfSome result (λ place. slice_get (numbers slots.now.now) place ≡ Some number) }
{
    let slot = slots.get(place)?;
    if slot.number == number {
        Some(place)
    } else {
        None
    }
}

// The place of the slot of this number, where it stands as many places before the last as the number is below the last
// number: so it is where no gap behind it was closed.
#[inline(always)]
fn guessed_from_last<T: Copy>(slots: &Column<Slot<T>>, number: u32) -> Option<usize>
    ensures { IfSome result (λ place. slice_get (numbers slots.now.now) place ≡ Some number) }
{
    let end = slots.len().checked_sub(1)?;
    let last = slots.get(end)?;
    let below = last.number.checked_sub(number)? as usize;
    place_if(slots, number, end.checked_sub(below)?)
}

// The place of the slot of this number, where it stands as many places behind the first as the number is over the first
// number: so it is where no gap before it was closed.
#[inline(always)]
fn guessed_from_first<T: Copy>(slots: &Column<Slot<T>>, number: u32) -> Option<usize>
    ensures { IfSome result (λ place. slice_get (numbers slots.now.now) place ≡ Some number) }
{
    let first = slots.get(0)?;
    let over = number.checked_sub(first.number)? as usize;
    place_if(slots, number, over)
}

// The place of the slot of this number, where it stands as it is remembered.
#[inline(always)]
fn remembered<T: Copy>(slots: &Column<Slot<T>>, seen: &[u32], number: u32) -> Option<usize>
    ensures { IfSome result (λ place. slice_get (numbers slots.now.now) place ≡ Some number) }
{
    let at = number as usize & seen.len().saturating_sub(1);
    let place = *seen.get(at)?;
    place_if(slots, number, place as usize)
}

// The place of the slot of this number, by halving.
#[inline(never)]
fn halved_place<T: Copy>(slots: &Column<Slot<T>>, number: u32) -> Option<usize>
    requires { IsAscending slots.now.now }
    ensures { IsPlaceOf number slots.now.now result }
{
    let mut from = 0;
    let mut to = slots.len();
    while from < to {
        let middle = from + (to - from) / 2;
        let slot = slots.get(middle)?;
        if slot.number == number {
            return Some(middle);
        }
        if slot.number < number {
            from = middle + 1;
        } else {
            to = middle;
        }
    }
    None
}

// The place of the slot of this number. Where the number is above all that have slots, that is seen at the last one.
#[inline(always)]
fn place_in<T: Copy>(slots: &Column<Slot<T>>, seen: &[u32], number: u32) -> Option<usize>
    requires { IsAscending slots.now.now }
    ensures { IsPlaceOf number slots.now.now result }
{
    if let Some(place) = remembered(slots, seen, number) {
        return Some(place);
    }
    let end = slots.len().checked_sub(1)?;
    let last = slots.get(end)?;
    if last.number < number {
        return None;
    }
    if let Some(place) = guessed_from_last(slots, number) {
        return Some(place);
    }
    if let Some(place) = guessed_from_first(slots, number) {
        return Some(place);
    }
    halved_place(slots, number)
}

// Of the slots from this place on, those with an item move up into the gaps, and no others stay.
fn move_up<T: Copy>(slots: &mut Column<Slot<T>>, from: usize)
    requires seats { length slots.old.now ≤ slots.old.seats }
    requires marked { IfSome slots.old.marked (λ list. length list ≤ from) }
    ensures now { slots.new.now ≡ close_gaps from slots.old.now }
    ensures fewer { length slots.new.now ≤ length slots.old.now }
    ensures marked { slots.new.marked ≡ slots.old.marked }
    ensures room { min slots.old.room (slots.old.seats - length slots.old.now) ≤ slots.new.room }
    ensures seats { slots.new.seats ≡ slots.old.seats }
{
    let mut to = from;
    for place in from..slots.len() {
        if let Some(slot) = slots.get(place) {
            if slot.item.is_some() {
                slots.put(to, slot);
                to += 1;
            }
        }
    }
    slots.truncate(to);
}

impl<T: Copy> Numbered<T> {
    /// No slots, and nothing is marked. It takes no memory.
    pub fn new(alloc: Global) -> Self
        ensures now { result.now ≡ [] }
        ensures marked { result.marked ≡ None }
    {
        Numbered {
            slots: Column::new(alloc),
            gaps: 0,
            late_gaps: 0,
            seen: Vec::new(alloc),
        }
    }

    /// Makes room for so many slots more. Want of memory leaves the slots and the mark as they were; where there is
    /// room already, it cannot fail.
    pub fn reserve(&mut self, n: usize) -> Result<(), AllocError>
        ensures now { self.new.now ≡ self.old.now }
        ensures marked { self.new.marked ≡ self.old.marked }
        ensures ok { OnOk result (n ≤ self.new.room) }
        ensures room { self.old.room ≤ self.new.room }
        ensures frugal { n ≤ self.old.room → IsOk result }
    {
        self.slots.reserve_all(n)?;
        self.widen();
        Ok(())
    }

    // Remembers where the slot of a number stands.
    fn remember(&mut self, number: u32, place: usize)
        ensures { self.new ≡ self.old }
    {
        let at = number as usize & self.seen.len().saturating_sub(1);
        let Ok(place) = u32::try_from(place) else {
            return;
        };
        if let Some(seen) = self.seen.get_mut(at) {
            *seen = place;
        }
    }

    // Remembers more numbers, where there are more slots than that. Want of memory changes nothing.
    fn widen(&mut self)
        ensures { self.new ≡ self.old }
    {
        let size = self.seen.len();
        if size >= MOST_SEEN || size >= self.slots.len() {
            return;
        }
        let _widened = self.seen.resize(size + size.max(64), 0);
    }

    /// The number of slots, gaps among them.
    pub fn len(&self) -> usize
        ensures { result ≡ length self.now.now }
    {
        self.slots.len()
    }

    /// The slot at a place, if there are so many.
    #[inline(always)]
    pub fn slot(&self, place: usize) -> Option<Slot<T>>
        ensures { result ≡ slice_get self.now.now place }
    {
        self.slots.get(place)
    }

    /// The place of the slot of this number, if there is one: found at once where no gap behind it was closed, or none
    /// before it, and by halves elsewhere.
    #[inline(always)]
    pub fn place_of(&self, number: u32) -> Option<usize>
        ensures { IsPlaceOf number self.now.now result }
    {
        place_in(&self.slots, self.seen.as_slice(), number)
    }

    /// What stands under a number.
    #[inline(always)]
    pub fn get(&self, number: u32) -> Option<T>
        ensures { result ≡ found self.now.now number }
    {
        let place = place_in(&self.slots, self.seen.as_slice(), number)?;
        let slot = self.slots.get(place)?;
        slot.item
    }

    /// Adds a slot at the end, under a number above all others. Who calls it has made room, so it takes no memory.
    pub fn push(&mut self, number: u32, item: T)
        requires room { 0 < self.old.room }
        requires above { All (λ n. n < number) (numbers self.old.now) }
        ensures now { self.new.now ≡ self.old.now ++ (record { number = number; item = Some item }) ∷ [] }
        ensures marked { self.new.marked ≡ self.old.marked }
        ensures room { self.old.room ≤ self.new.room + 1 }
    {
        let place = self.slots.len();
        self.slots.push(Slot {
            number,
            item: Some(item),
        });
        self.remember(number, place);
    }

    /// The slot at this place keeps its number and has this item, or is a gap. It takes no room and no memory.
    #[inline(always)]
    pub fn put(&mut self, place: usize, item: Option<T>)
        requires { place < length self.old.now }
        ensures now { self.new.now ≡ put_at self.old.now place item }
        ensures marked { self.new.marked ≡ self.old.marked }
        ensures room { self.old.room ≤ self.new.room }
    {
        if let Some(slot) = self.slots.get(place) {
            self.slots.put(
                place,
                Slot {
                    number: slot.number,
                    item,
                },
            );
            self.count_gap(place, item.is_none());
            self.remember(slot.number, place);
        }
    }

    // Counts the gap that may have come at a place.
    #[inline(always)]
    fn count_gap(&mut self, place: usize, is_gap: bool)
        ensures { self.new ≡ self.old }
    {
        let gap = is_gap as usize;
        let late_gap = (is_gap && self.slots.marked_len() <= place) as usize;
        self.gaps = self.gaps.saturating_add(gap);
        self.late_gaps = self.late_gaps.saturating_add(late_gap);
    }

    /// The first place at which no slot is marked.
    pub fn late_from(&self) -> usize
        ensures { IfSome self.now.marked (λ list. length list ≤ result) }
    {
        self.slots.marked_len()
    }

    /// Whether more than half of the slots that came since the mark are gaps, about so. No clause rests on it.
    pub fn is_sparse(&self) -> bool {
        let late = self.slots.len().saturating_sub(self.slots.marked_len());
        self.late_gaps > late / 2
    }

    /// The slots before this place stay, and of the others, none of which is marked, those with an item, in their
    /// order. It takes no room and no memory.
    pub fn close_gaps(&mut self, from: usize)
        requires { IfSome self.old.marked (λ list. length list ≤ from) }
        ensures now { self.new.now ≡ close_gaps from self.old.now }
        ensures found { (number : ℕ) → found self.new.now number ≡ found self.old.now number }
        ensures marked { self.new.marked ≡ self.old.marked }
        ensures room { self.old.room ≤ self.new.room }
    {
        let before = self.slots.len();
        move_up(&mut self.slots, from);
        let closed = before.saturating_sub(self.slots.len());
        self.gaps = if from == 0 {
            0
        } else {
            self.gaps.saturating_sub(closed)
        };
        self.late_gaps = 0;
    }

    /// Marks what it holds now. It takes no memory, and nothing may be marked yet.
    pub fn mark(&mut self)
        requires { self.old.marked ≡ None }
        ensures now { self.new.now ≡ self.old.now }
        ensures marked { self.new.marked ≡ Some self.old.now }
        ensures room { self.old.room ≤ self.new.room }
    {
        self.slots.mark();
        self.late_gaps = 0;
    }

    /// Puts back what was marked, and nothing is marked any longer. It takes no memory, and goes over no more than the
    /// marked slots that were changed since and those that came since.
    pub fn back(&mut self)
        requires { IsSome self.old.marked }
        ensures now { self.old.marked ≡ Some self.new.now }
        ensures marked { self.new.marked ≡ None }
        ensures room { self.old.room ≤ self.new.room }
    {
        self.slots.back();
        self.late_gaps = self.gaps;
    }

    /// Nothing is marked any longer; the slots stay. It takes no memory, and goes over no more than the marked slots
    /// that were changed since.
    pub fn forget(&mut self)
        ensures now { self.new.now ≡ self.old.now }
        ensures marked { self.new.marked ≡ None }
        ensures room { self.old.room ≤ self.new.room }
    {
        self.slots.forget();
        self.late_gaps = self.gaps;
    }

    /// The same slots once more, none of them marked. It takes memory for all of them.
    pub fn copy(&self, alloc: Global) -> Result<Self, AllocError>
        ensures now { IfOk result (λ n. n.now ≡ self.now.now) }
        ensures marked { IfOk result (λ n. n.marked ≡ None) }
    {
        let mut slots = self.slots.copy(alloc)?;
        slots.reserve_all(0)?;
        Ok(Numbered {
            slots,
            gaps: self.gaps,
            late_gaps: self.gaps,
            seen: Vec::new(alloc),
        })
    }
}
