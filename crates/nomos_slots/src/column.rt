//! A column of plain records that can be marked and put back.
ghost use Rattle.std.specs.Prelude.{◌≡◌, ◌≤◌, ◌<◌, ◌+◌, ◌-◌, ℕ, [], ◌∷◌, ◌++◌, ◌↔◌, IsTrue, IsOk, IsSome, IfSome, IfOk, OnOk, false, length, map, min, take, slice_get, slice_set};
ghost use Rattle.std.specs.Vec.{vec_len, vec_capacity};
ghost use Rattle.nomos_slots.specs.Log.{HasSeat, is_kept, mark_len, put_back, records, unkept, IsBelow, IsKeptAsLogged};

use std::alloc::{AllocError, Global};
use std::marker::Model;

/// A record, and whether the log has what stood at its place.
#[derive(Clone, Copy, Debug)]
struct Logged<T> {
    item: T,
    kept: bool,
}

/// A column of plain records, seen as a list, which can be marked and put back to what it was there.
///
/// Room is counted in changes. Who changes it makes room first, by [`Column::reserve`]: a push or a set takes one of it
/// at most, and nothing else takes any. Where the log has a seat for each record, a put takes none.
#[derive(Drop, Debug)]
pub struct Column<T: Copy> {
    items: Vec<Logged<T>>,
    /// The place and the record of each marked one that was changed since.
    log: Vec<(usize, T)>,
    /// How many records there were at the mark.
    marked: Option<usize>,
}

impl<T: Copy> Model for Column<T> {
    ghost use Rattle.nomos_slots.specs.Marking.{Marking, marking_code};

    ghost Value = { Marking T };

    ghost coded = { marking_code T.code };

    ghost use Rattle.nomos_slots.specs.Log.{marking_of, IsSound};

    ghost view = { λ c. marking_of c.items c.log c.marked };

    ghost invariant = { λ c. IsSound c.items.items c.log.items c.marked };
}

// Puts each record of the log back to its place.
fn put_back<T: Copy>(items: &mut Vec<Logged<T>>, log: &[(usize, T)])
    requires places { IsBelow (vec_len items.old) log.now }
    requires kept { IsKeptAsLogged items.old.items log.now }
    ensures records { records items.new.items ≡ put_back (records items.old.items) log.now }
    ensures kept { (place : ℕ) → is_kept items.new.items place ≡ false }
    ensures len { vec_len items.new ≡ vec_len items.old }
    ensures capacity { vec_capacity items.new ≡ vec_capacity items.old }
{
    for saved in log {
        items[saved.0] = Logged {
            item: saved.1,
            kept: false,
        };
    }
}

// The entries at the places of the log are kept in it no longer.
fn release<T: Copy>(items: &mut Vec<Logged<T>>, log: &[(usize, T)])
    requires places { IsBelow (vec_len items.old) log.now }
    requires kept { IsKeptAsLogged items.old.items log.now }
    ensures records { records items.new.items ≡ records items.old.items }
    ensures kept { (place : ℕ) → is_kept items.new.items place ≡ false }
    ensures len { vec_len items.new ≡ vec_len items.old }
    ensures capacity { vec_capacity items.new ≡ vec_capacity items.old }
{
    for saved in log {
        items[saved.0].kept = false;
    }
}

// The same records in entries of which the log has nothing.
fn unkept<T: Copy>(alloc: Global, entries: &[Logged<T>]) -> Result<Vec<Logged<T>>, AllocError>
    ensures { IfOk result (λ v. v.items ≡ map unkept entries.now) }
{
    entries
        .iter()
        .map(|e| Logged {
            item: e.item,
            kept: false,
        })
        .collect(alloc)
}

// How many records are marked.
fn mark_len(marked: Option<usize>) -> usize
    ensures { result ≡ mark_len marked }
{
    marked.unwrap_or(0)
}

// Whether the log has to have what stands at this place before it is changed.
fn is_due(kept: bool, place: usize, marked: Option<usize>) -> bool
    ensures { IsTrue result ↔ ((place < mark_len marked) × (kept ≡ false)) }
{
    !kept && place < mark_len(marked)
}

impl<T: Copy> Column<T> {
    /// A column without records, which is not marked. It takes no memory.
    pub fn new(alloc: Global) -> Self
        ensures now { result.now ≡ [] }
        ensures marked { result.marked ≡ None }
    {
        Column {
            items: Vec::new(alloc),
            log: Vec::new(alloc),
            marked: None,
        }
    }

    /// Makes room for so many changes, that is pushes and sets. Want of memory leaves the records and the mark as they
    /// were; where there is room already, it cannot fail.
    pub fn reserve(&mut self, n: usize) -> Result<(), AllocError>
        ensures now { self.new.now ≡ self.old.now }
        ensures marked { self.new.marked ≡ self.old.marked }
        ensures ok { OnOk result (n ≤ self.new.room) }
        ensures room { self.old.room ≤ self.new.room }
        ensures seats { self.old.seats ≤ self.new.seats }
        ensures frugal { n ≤ self.old.room → IsOk result }
    {
        self.items.reserve(n)?;
        self.log.reserve(n)
    }

    /// Makes room for so many pushes, and a seat in the log for each record that there is then. Want of memory leaves
    /// the records and the mark as they were; where there is all this already, it cannot fail.
    pub fn reserve_all(&mut self, more: usize) -> Result<(), AllocError>
        ensures now { self.new.now ≡ self.old.now }
        ensures marked { self.new.marked ≡ self.old.marked }
        ensures ok { OnOk result ((more ≤ self.new.room) × (length self.new.now + more ≤ self.new.seats)) }
        ensures room { self.old.room ≤ self.new.room }
        ensures seats { self.old.seats ≤ self.new.seats }
        ensures frugal { more ≤ self.old.room → length self.old.now + more ≤ self.old.seats → IsOk result }
    {
        self.items.reserve(more)?;
        let all = self.items.len() + more;
        self.log.reserve(all.saturating_sub(self.log.len()))
    }

    /// The number of records.
    #[inline(always)]
    pub fn len(&self) -> usize
        ensures { result ≡ length self.now.now }
    {
        self.items.len()
    }

    /// Whether something is marked.
    pub fn is_marked(&self) -> bool
        ensures { IsTrue result ↔ IsSome self.now.marked }
    {
        self.marked.is_some()
    }

    /// How many records are marked; 0 where nothing is.
    #[inline(always)]
    pub fn marked_len(&self) -> usize
        ensures marked { IfSome self.now.marked (λ list. length list ≡ result) }
        ensures within { result ≤ length self.now.now }
    {
        mark_len(self.marked)
    }

    /// The record at a place, if there are so many.
    #[inline(always)]
    pub fn get(&self, place: usize) -> Option<T>
        ensures { result ≡ slice_get self.now.now place }
    {
        let entry = self.items.get(place)?;
        Some(entry.item)
    }

    /// Adds a record at the end. Who calls it has made room, so it takes no memory.
    pub fn push(&mut self, item: T)
        requires { 0 < self.old.room }
        ensures now { self.new.now ≡ self.old.now ++ item ∷ [] }
        ensures marked { self.new.marked ≡ self.old.marked }
        ensures room { self.old.room ≤ self.new.room + 1 }
        ensures seats { self.new.seats ≡ self.old.seats }
    {
        self.items.push_reserved(Logged { item, kept: false });
    }

    // Puts a record in the place of another, where the log can have what stood there.
    #[inline(always)]
    fn change(&mut self, place: usize, item: T)
        requires room { HasSeat self.old }
        requires within { place < length self.old.now }
        ensures now { self.new.now ≡ slice_set self.old.now place item }
        ensures marked { self.new.marked ≡ self.old.marked }
        ensures room { self.old.room ≤ self.new.room + 1 }
        ensures free { min self.old.room (self.old.seats - length self.old.now) ≤ self.new.room }
        ensures seats { self.new.seats ≡ self.old.seats }
    {
        let Logged { item: before, kept } = self.items[place];
        if is_due(kept, place, self.marked) {
            self.log.push_reserved((place, before));
            self.items[place] = Logged { item, kept: true };
        } else {
            self.items[place] = Logged { item, kept };
        }
    }

    /// Puts a record in the place of another. Who calls it has made room, so it takes no memory.
    pub fn set(&mut self, place: usize, item: T)
        requires room { 0 < self.old.room }
        requires within { place < length self.old.now }
        ensures now { self.new.now ≡ slice_set self.old.now place item }
        ensures marked { self.new.marked ≡ self.old.marked }
        ensures room { self.old.room ≤ self.new.room + 1 }
        ensures seats { self.new.seats ≡ self.old.seats }
    {
        self.change(place, item);
    }

    /// Puts a record in the place of another, where the log has a seat for each record. It takes no memory, and no room
    /// where there are as many seats beside those.
    #[inline(always)]
    pub fn put(&mut self, place: usize, item: T)
        requires seats { length self.old.now ≤ self.old.seats }
        requires within { place < length self.old.now }
        ensures now { self.new.now ≡ slice_set self.old.now place item }
        ensures marked { self.new.marked ≡ self.old.marked }
        ensures room { min self.old.room (self.old.seats - length self.old.now) ≤ self.new.room }
        ensures seats { self.new.seats ≡ self.old.seats }
    {
        self.change(place, item);
    }

    /// Puts a record in the place of another one that came since the mark. It takes no room and no memory.
    pub fn put_late(&mut self, place: usize, item: T)
        requires late { IfSome self.old.marked (λ list. length list ≤ place) }
        requires within { place < length self.old.now }
        ensures now { self.new.now ≡ slice_set self.old.now place item }
        ensures marked { self.new.marked ≡ self.old.marked }
        ensures room { self.new.room ≡ self.old.room }
        ensures seats { self.new.seats ≡ self.old.seats }
    {
        self.items[place] = Logged { item, kept: false };
    }

    /// Only so many records stay, the first ones. Those that are marked have to be among them.
    pub fn truncate(&mut self, len: usize)
        requires { IfSome self.old.marked (λ list. length list ≤ len) }
        ensures now { self.new.now ≡ take len self.old.now }
        ensures marked { self.new.marked ≡ self.old.marked }
        ensures room { self.old.room ≤ self.new.room }
        ensures seats { self.new.seats ≡ self.old.seats }
    {
        self.items.truncate(len);
    }

    /// Marks what it holds now. It takes no memory, and nothing may be marked yet.
    pub fn mark(&mut self)
        requires { self.old.marked ≡ None }
        ensures now { self.new.now ≡ self.old.now }
        ensures marked { self.new.marked ≡ Some self.old.now }
        ensures room { self.old.room ≤ self.new.room }
        ensures seats { self.new.seats ≡ self.old.seats }
    {
        self.marked = Some(self.items.len());
    }

    /// Puts back what was marked, and nothing is marked any longer. It takes no memory, and goes over no more than the
    /// marked records that were changed since and those that came since.
    pub fn back(&mut self)
        requires { IsSome self.old.marked }
        ensures now { self.old.marked ≡ Some self.new.now }
        ensures fewer { length self.new.now ≤ length self.old.now }
        ensures marked { self.new.marked ≡ None }
        ensures room { self.old.room ≤ self.new.room }
        ensures seats { self.new.seats ≡ self.old.seats }
    {
        if let Some(len) = self.marked {
            self.items.truncate(len);
            put_back(&mut self.items, self.log.as_slice());
            self.log.clear();
            self.marked = None;
        }
    }

    /// Nothing is marked any longer; the records stay. It takes no memory, and goes over no more than the marked
    /// records that were changed since.
    pub fn forget(&mut self)
        ensures now { self.new.now ≡ self.old.now }
        ensures marked { self.new.marked ≡ None }
        ensures room { self.old.room ≤ self.new.room }
        ensures seats { self.new.seats ≡ self.old.seats }
    {
        release(&mut self.items, self.log.as_slice());
        self.log.clear();
        self.marked = None;
    }

    /// The same records once more, none of them marked. It takes memory for all of them.
    pub fn copy(&self, alloc: Global) -> Result<Self, AllocError>
        ensures now { IfOk result (λ c. c.now ≡ self.now.now) }
        ensures marked { IfOk result (λ c. c.marked ≡ None) }
    {
        Ok(Column {
            items: unkept(alloc, self.items.as_slice())?,
            log: Vec::new(alloc),
            marked: None,
        })
    }
}
