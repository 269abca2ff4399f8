//! Rows of owned things under places, which can be marked and put back.
ghost use Rattle.std.specs.Prelude.{◌≡◌, ◌≢◌, ◌≤◌, ◌<◌, ◌+◌, ◌-◌, ◌↔◌, IsTrue, All, ℕ, [], ◌∷◌, ◌++◌, IsOk, IsSome, IfSome, OnOk, Some, None, false, true, length, map, take, slice_get, slice_index, slice_index_or, slice_set};
ghost use Rattle.std.specs.List.{insert, remove};
ghost use Rattle.std.specs.Vec.{vec_len, vec_capacity};
ghost use Rattle.nomos_slots.specs.Log.{spare_of};
ghost use Rattle.nomos_slots.specs.Rows.{IsCovered, IsFree, IsLate, has_all, is_freed, place_of, rows_of, spares_of, undo, undone};

use std::alloc::{AllocError, Global};
use std::marker::Model;
use std::mem;

/// A row, and whether the log has all that stood there when it was marked.
#[derive(Drop, Debug)]
struct ShelfRow<T> {
    items: Vec<T>,
    freed: bool,
}

/// What was done to a marked row.
#[derive(Drop, Debug)]
enum ShelfStep<T> {
    /// An item came to the row of this place, at this index.
    Added { place: usize, at: usize },
    /// What stood at this place was another row.
    Replaced { place: usize, row: Vec<T> },
}

/// Rows of owned things, seen as lists, which can be marked and put back to what they were there.
///
/// A row is free where nothing of it has to be put back: it came since the mark, or the log has all that stood there.
/// A change of another row is logged: a row that is replaced is moved into the log, and nothing is ever copied. Room is
/// counted in changes; who makes one makes room first.
#[derive(Drop, Debug)]
pub struct Shelf<T> {
    rows: Vec<ShelfRow<T>>,
    /// What was done to marked rows, in order.
    log: Vec<ShelfStep<T>>,
    /// How many rows there were at the mark.
    marked: Option<usize>,
}

impl<T> Model for Shelf<T> {
    ghost use Rattle.nomos_slots.specs.Rows.{shelving_of, IsShelf};
    ghost use Rattle.nomos_slots.specs.Shelving.{Shelving, shelving_code};

    ghost Value = { Shelving T };

    ghost coded = { shelving_code T.code };

    ghost view = { λ s. shelving_of s.rows s.log s.marked };

    ghost invariant = { λ s. IsShelf s.rows.items s.log.items s.marked };
}

// The place that a step is of.
fn place_of<T>(step: &ShelfStep<T>) -> usize
    ensures { result ≡ place_of step.now }
{
    match step {
        ShelfStep::Added { place, .. } | ShelfStep::Replaced { place, .. } => *place,
    }
}

// Of no row does the log have all any longer.
fn release<T>(rows: &mut Vec<ShelfRow<T>>, log: &[ShelfStep<T>])
    requires below { All (λ step. place_of step < vec_len rows.old) log.now }
    requires covered { IsCovered rows.old.items log.now }
    ensures rows { rows_of rows.new.items ≡ rows_of rows.old.items }
    ensures spares { spares_of rows.new.items ≡ spares_of rows.old.items }
    ensures freed { (place : ℕ) → is_freed rows.new.items place ≡ false }
    ensures len { vec_len rows.new ≡ vec_len rows.old }
    ensures capacity { vec_capacity rows.new ≡ vec_capacity rows.old }
{
    for step in log {
        rows[place_of(step)].freed = false;
    }
}

// Undoes a step.
fn undo_step<T: Drop>(rows: &mut Vec<ShelfRow<T>>, step: ShelfStep<T>)
    requires { place_of step < vec_len rows.old }
    ensures rows { rows_of rows.new.items ≡ undone step (rows_of rows.old.items) }
    ensures freed { (place : ℕ) → is_freed rows.new.items place ≡ true
        → (is_freed rows.old.items place ≡ true) × (has_all place step ≡ false) }
    ensures len { vec_len rows.new ≡ vec_len rows.old }
    ensures capacity { vec_capacity rows.new ≡ vec_capacity rows.old }
{
    match step {
        ShelfStep::Added { place, at } => {
            if at < rows[place].items.len() {
                let _item = rows[place].items.remove(at);
            }
        }
        ShelfStep::Replaced { place, row } => {
            rows[place] = ShelfRow {
                items: row,
                freed: false,
            };
        }
    }
}

// Undoes all steps, the last one first.
fn undo_all<T: Drop>(rows: &mut Vec<ShelfRow<T>>, log: &mut Vec<ShelfStep<T>>)
    requires below { All (λ step. place_of step < vec_len rows.old) log.old.items }
    requires covered { IsCovered rows.old.items log.old.items }
    ensures rows { rows_of rows.new.items ≡ undo log.old.items (rows_of rows.old.items) }
    ensures freed { (place : ℕ) → is_freed rows.new.items place ≡ false }
    ensures log { log.new.items ≡ [] }
    ensures len { vec_len rows.new ≡ vec_len rows.old }
    ensures capacity { vec_capacity rows.new ≡ vec_capacity rows.old }
    ensures log_capacity { vec_capacity log.new ≡ vec_capacity log.old }
{
    while let Some(step) = log.pop() {
        undo_step(rows, step);
    }
}

// Puts an item before the one at this index, in a vector that has room.
fn put_in<T: Drop>(items: &mut Vec<T>, at: usize, item: T)
    requires within { at ≤ vec_len items.old }
    requires room { vec_len items.old < vec_capacity items.old }
    ensures items { items.new.items ≡ insert items.old.items at item }
    ensures len { vec_len items.new ≡ vec_len items.old + 1 }
    ensures capacity { vec_capacity items.new ≡ vec_capacity items.old }
{
    let _ = items.insert(at, item);
}

impl<T> Shelf<T> {
    /// No rows, and nothing is marked. It takes no memory.
    pub fn new(alloc: Global) -> Self
        ensures now { result.now ≡ [] }
        ensures marked { result.marked ≡ None }
    {
        Shelf {
            rows: Vec::new(alloc),
            log: Vec::new(alloc),
            marked: None,
        }
    }

    /// Makes room for so many changes. Want of memory leaves the rows and the mark as they were; where there is room
    /// already, it cannot fail.
    pub fn reserve(&mut self, n: usize) -> Result<(), AllocError>
        ensures now { self.new.now ≡ self.old.now }
        ensures marked { self.new.marked ≡ self.old.marked }
        ensures freed { self.new.freed ≡ self.old.freed }
        ensures spares { self.new.spares ≡ self.old.spares }
        ensures ok { OnOk result (n ≤ self.new.room) }
        ensures room { self.old.room ≤ self.new.room }
        ensures frugal { n ≤ self.old.room → IsOk result }
    {
        self.rows.reserve(n)?;
        self.log.reserve(n)
    }

    /// The number of rows.
    pub fn len(&self) -> usize
        ensures { result ≡ length self.now.now }
    {
        self.rows.len()
    }

    /// Adds a row at the end. Who calls it has made room, so it takes no memory.
    pub fn push(&mut self, row: Vec<T>)
        requires { 0 < self.old.room }
        ensures now { self.new.now ≡ self.old.now ++ row.items ∷ [] }
        ensures marked { self.new.marked ≡ self.old.marked }
        ensures freed { self.new.freed ≡ self.old.freed ++ false ∷ [] }
        ensures spares { self.new.spares ≡ self.old.spares ++ spare_of row ∷ [] }
        ensures room { self.old.room ≤ self.new.room + 1 }
    {
        self.rows.push_reserved(ShelfRow {
            items: row,
            freed: false,
        });
    }

    /// The items of the row at a place; there are none past the last row.
    pub fn row(&self, place: usize) -> &[T]
        ensures { result.now ≡ slice_index_or self.now.now place [] }
    {
        match self.rows.get(place) {
            Some(row) => row.items.as_slice(),
            None => &[],
        }
    }

    /// Whether a row is free: a change of it is not logged.
    pub fn is_free(&self, place: usize) -> bool
        requires { place < length self.now.now }
        ensures { IsTrue result ↔ IsFree self.now place }
    {
        self.rows[place].freed || self.marked.unwrap_or(0) <= place
    }

    /// Puts a row in the place of another. A free one is given back, and any other is moved into the log; then the row
    /// of this place is free. Who calls it has made room, so it takes no memory.
    pub fn replace(&mut self, place: usize, row: Vec<T>) -> Option<Vec<T>>
        requires room { 0 < self.old.room }
        requires within { place < length self.old.now }
        ensures now { self.new.now ≡ slice_set self.old.now place row.items }
        ensures marked { self.new.marked ≡ self.old.marked }
        ensures given { IfSome result (λ old. old.items ≡ slice_index_or self.old.now place []) }
        ensures some { IsFree self.old place → IsSome result }
        ensures free { IsFree self.new place }
        ensures others { (other : ℕ) → IsFree self.old other → IsFree self.new other }
        ensures spares { self.new.spares ≡ slice_set self.old.spares place (spare_of row) }
        ensures room { self.old.room ≤ self.new.room + 1 }
        ensures logless { IsFree self.old place → self.new.room ≡ self.old.room }
    {
        if self.is_free(place) {
            return Some(mem::replace(&mut self.rows[place].items, row));
        }
        let next = ShelfRow {
            items: row,
            freed: true,
        };
        let ShelfRow { items, .. } = mem::replace(&mut self.rows[place], next);
        self.log
            .push_reserved(ShelfStep::Replaced { place, row: items });
        None
    }

    /// Puts a row in the place of another one that came since the mark, and gives that back. It takes no room and no
    /// memory.
    pub fn replace_late(&mut self, place: usize, row: Vec<T>) -> Vec<T>
        requires late { IfSome self.old.marked (λ rows. length rows ≤ place) }
        requires within { place < length self.old.now }
        ensures now { self.new.now ≡ slice_set self.old.now place row.items }
        ensures marked { self.new.marked ≡ self.old.marked }
        ensures given { result.items ≡ slice_index_or self.old.now place [] }
        ensures room { self.new.room ≡ self.old.room }
    {
        mem::replace(&mut self.rows[place].items, row)
    }

    /// Makes room for so many items more in a row. Want of memory leaves all as it was.
    pub fn reserve_in(&mut self, place: usize, n: usize) -> Result<(), AllocError>
        requires { place < length self.old.now }
        ensures now { self.new.now ≡ self.old.now }
        ensures marked { self.new.marked ≡ self.old.marked }
        ensures freed { self.new.freed ≡ self.old.freed }
        ensures ok { OnOk result (n ≤ slice_index self.new.spares place) }
        ensures spares { (other : ℕ) → slice_index self.old.spares other ≤ slice_index self.new.spares other }
        ensures room { self.new.room ≡ self.old.room }
    {
        self.rows[place].items.reserve(n)
    }

    /// Takes an item out of a free row.
    pub fn remove(&mut self, place: usize, at: usize) -> T
        requires within { place < length self.old.now }
        requires at { at < length (slice_index_or self.old.now place []) }
        requires free { IsFree self.old place }
        ensures item { slice_get (slice_index_or self.old.now place []) at ≡ Some result }
        ensures now { self.new.now
            ≡ slice_set self.old.now place (remove (slice_index_or self.old.now place []) at) }
        ensures marked { self.new.marked ≡ self.old.marked }
        ensures freed { self.new.freed ≡ self.old.freed }
        ensures spares { (other : ℕ) → slice_index self.old.spares other ≤ slice_index self.new.spares other }
        ensures room { self.new.room ≡ self.old.room }
    {
        self.rows[place].items.remove(at)
    }

    /// Marks what it holds now. It takes no memory, and nothing may be marked yet.
    pub fn mark(&mut self)
        requires { self.old.marked ≡ None }
        ensures now { self.new.now ≡ self.old.now }
        ensures marked { self.new.marked ≡ Some self.old.now }
        ensures spares { self.new.spares ≡ self.old.spares }
        ensures room { self.old.room ≤ self.new.room }
    {
        self.marked = Some(self.rows.len());
    }
}

impl<T: Drop> Shelf<T> {
    /// Puts an item into a row, before the one at this index. Who calls it has made room, so it takes no memory.
    pub fn insert(&mut self, place: usize, at: usize, item: T)
        requires room { 0 < self.old.room }
        requires within { place < length self.old.now }
        requires at { at ≤ length (slice_index_or self.old.now place []) }
        requires spare { 0 < slice_index self.old.spares place }
        ensures now { self.new.now
            ≡ slice_set self.old.now place (insert (slice_index_or self.old.now place []) at item) }
        ensures marked { self.new.marked ≡ self.old.marked }
        ensures freed { self.new.freed ≡ self.old.freed }
        ensures spares { (other : ℕ) → slice_index self.old.spares other ≤ slice_index self.new.spares other + 1 }
        ensures room { self.old.room ≤ self.new.room + 1 }
    {
        let free = self.is_free(place);
        put_in(&mut self.rows[place].items, at, item);
        if !free {
            self.log.push_reserved(ShelfStep::Added { place, at });
        }
    }

    /// Only so many rows stay, the first ones. Those that are marked have to be among them.
    pub fn truncate(&mut self, len: usize)
        requires { IfSome self.old.marked (λ rows. length rows ≤ len) }
        ensures now { self.new.now ≡ take len self.old.now }
        ensures marked { self.new.marked ≡ self.old.marked }
        ensures room { self.old.room ≤ self.new.room }
    {
        self.rows.truncate(len);
    }

    /// Puts back what was marked, and nothing is marked any longer. It takes no memory, and goes over no more than the
    /// steps of marked rows and the rows that came since.
    pub fn back(&mut self)
        requires { IsSome self.old.marked }
        ensures now { self.old.marked ≡ Some self.new.now }
        ensures marked { self.new.marked ≡ None }
        ensures room { self.old.room ≤ self.new.room }
    {
        let Some(len) = self.marked else {
            return;
        };
        self.rows.truncate(len);
        undo_all(&mut self.rows, &mut self.log);
        self.marked = None;
    }

    /// Nothing is marked any longer; the rows stay. It takes no memory, and goes over no more than the steps of marked
    /// rows.
    pub fn forget(&mut self)
        ensures now { self.new.now ≡ self.old.now }
        ensures marked { self.new.marked ≡ None }
        ensures spares { self.new.spares ≡ self.old.spares }
        ensures room { self.old.room ≤ self.new.room }
    {
        release(&mut self.rows, self.log.as_slice());
        self.log.clear();
        self.marked = None;
    }
}
