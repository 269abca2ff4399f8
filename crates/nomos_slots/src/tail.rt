//! A list to which owned things are added, and which can be cut back to what was marked.
ghost use Rattle.std.specs.Prelude.{◌≡◌, ◌≤◌, ◌<◌, ◌+◌, [], ◌∷◌, ◌++◌, IsOk, IsSome, OnOk, Some, None};

use std::alloc::{AllocError, Global};
use std::marker::Model;

/// A list to which things are added, and which can be marked and cut back to what it was there. It can be cleared while
/// nothing is marked.
#[derive(Drop, Debug)]
pub struct Tail<T> {
    items: Vec<T>,
    /// How many there were at the mark.
    marked: Option<usize>,
}

impl<T> Model for Tail<T> {
    ghost use Rattle.nomos_slots.specs.Marking.{Marking, marking_code};
    ghost use Rattle.nomos_slots.specs.Tails.{marking_of, HasMarked};

    ghost Value = { Marking T };

    ghost coded = { marking_code T.code };

    ghost view = { λ t. marking_of t.items t.marked };

    ghost invariant = { λ t. HasMarked t.items.items t.marked };
}

impl<T> Tail<T> {
    /// A list with nothing in it, which is not marked. It takes no memory.
    pub fn new(alloc: Global) -> Self
        ensures now { result.now ≡ [] }
        ensures marked { result.marked ≡ None }
    {
        Tail {
            items: Vec::new(alloc),
            marked: None,
        }
    }

    /// Makes room for so many things more. Want of memory leaves all as it was; where there is room already, it cannot
    /// fail.
    pub fn reserve(&mut self, n: usize) -> Result<(), AllocError>
        ensures now { self.new.now ≡ self.old.now }
        ensures marked { self.new.marked ≡ self.old.marked }
        ensures ok { OnOk result (n ≤ self.new.room) }
        ensures room { self.old.room ≤ self.new.room }
        ensures frugal { n ≤ self.old.room → IsOk result }
    {
        self.items.reserve(n)
    }

    /// All that there is.
    pub fn as_slice(&self) -> &[T]
        ensures { result.now ≡ self.now.now }
    {
        self.items.as_slice()
    }

    /// Adds a thing at the end. Who calls it has made room, so it takes no memory.
    pub fn push(&mut self, item: T)
        requires { 0 < self.old.room }
        ensures now { self.new.now ≡ self.old.now ++ item ∷ [] }
        ensures marked { self.new.marked ≡ self.old.marked }
        ensures room { self.old.room ≤ self.new.room + 1 }
    {
        self.items.push_reserved(item);
    }

    /// Marks what it holds now. It takes no memory, and nothing may be marked yet.
    pub fn mark(&mut self)
        requires { self.old.marked ≡ None }
        ensures now { self.new.now ≡ self.old.now }
        ensures marked { self.new.marked ≡ Some self.old.now }
        ensures room { self.new.room ≡ self.old.room }
    {
        self.marked = Some(self.items.len());
    }

    /// Nothing is marked any longer; all that there is stays. It takes no memory.
    pub fn forget(&mut self)
        ensures now { self.new.now ≡ self.old.now }
        ensures marked { self.new.marked ≡ None }
        ensures room { self.new.room ≡ self.old.room }
    {
        self.marked = None;
    }
}

impl<T: Drop> Tail<T> {
    /// Forgets all that there is. It takes no memory, and nothing may be marked.
    pub fn clear(&mut self)
        requires { self.old.marked ≡ None }
        ensures now { self.new.now ≡ [] }
        ensures marked { self.new.marked ≡ None }
        ensures room { self.old.room ≤ self.new.room }
    {
        self.items.clear();
    }

    /// Puts back what was marked, and nothing is marked any longer. It takes no memory, and goes over no more than what
    /// came since.
    pub fn back(&mut self)
        requires { IsSome self.old.marked }
        ensures now { self.old.marked ≡ Some self.new.now }
        ensures marked { self.new.marked ≡ None }
        ensures room { self.old.room ≤ self.new.room }
    {
        if let Some(len) = self.marked {
            self.items.truncate(len);
            self.marked = None;
        }
    }
}
