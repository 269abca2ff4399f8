//! All parts of the contents are marked, put back and given room together.
ghost use Rattle.std.specs.Prelude.{◌≡◌, ◌≤◌, ◌↔◌, IsOk, IsSome, IsTrue, None, OnOk, Some};
ghost use Rattle.nomos_state.specs.Indexed.{HasRoom, held_now};
ghost use Rattle.nomos_state.specs.Together.{EachIsMarked, HoldsTheSame, KeepsRoom, MarksTheSame, MarksWhatIsHeld, NothingIsMarked};

use crate::inside::{Columns, Inside, Numbers};
use std::alloc::{AllocError, Global};

/// Makes room for so many small changes in each part. Want of memory leaves what is held and what is marked as it was.
pub(crate) fn reserve_all(
    contents: &mut Columns,
    alloc: Global,
    changes: usize,
) -> Result<(), AllocError>
    ensures now { HoldsTheSame (held_now contents.old) (held_now contents.new) }
    ensures marked { MarksTheSame contents.old contents.new }
    ensures ok { OnOk result (HasRoom contents.new changes) }
    ensures room { KeepsRoom contents.old contents.new }
{
    contents.objects.reserve(changes)?;
    contents.values.reserve(changes)?;
    contents.lists.reserve(changes)?;
    contents.channels.reserve(alloc, changes)?;
    contents.names.reserve(changes)
}

/// Marks all that is held. It takes no memory.
pub(crate) fn mark_all(contents: &mut Columns)
    requires { NothingIsMarked contents.old }
    ensures now { held_now contents.new ≡ held_now contents.old }
    ensures marked { MarksWhatIsHeld contents.old contents.new }
    ensures room { KeepsRoom contents.old contents.new }
{
    contents.objects.mark();
    contents.values.mark();
    contents.lists.mark();
    contents.channels.mark();
    contents.names.mark();
    contents.balances.mark();
    contents.outside.mark();
    contents.results.mark();
}

/// Puts back all that is marked, and these numbers; nothing is marked any longer. It takes no memory.
pub(crate) fn back_all(contents: &mut Columns, numbers: Numbers)
    requires { EachIsMarked contents.old }
    ensures now { MarksWhatIsHeld contents.new contents.old }
    ensures numbers { contents.new.numbers ≡ numbers }
    ensures marked { NothingIsMarked contents.new }
    ensures room { KeepsRoom contents.old contents.new }
{
    contents.objects.back();
    contents.values.back();
    contents.lists.back();
    contents.channels.back();
    contents.names.back();
    contents.balances.back();
    contents.outside.back();
    contents.results.back();
    contents.numbers = numbers;
}

/// Nothing is marked any longer, and what is held stays. It takes no memory.
pub(crate) fn forget_all(contents: &mut Columns)
    ensures now { held_now contents.new ≡ held_now contents.old }
    ensures marked { NothingIsMarked contents.new }
    ensures room { KeepsRoom contents.old contents.new }
{
    contents.objects.forget();
    contents.values.forget();
    contents.lists.forget();
    contents.channels.forget();
    contents.names.forget();
    contents.balances.forget();
    contents.outside.forget();
    contents.results.forget();
}

impl Inside {
    /// Whether there is room for so many small changes.
    #[inline(always)]
    pub fn has_room(&self, changes: usize) -> bool
        ensures { IsTrue result ↔ (changes ≤ self.now.room) }
    {
        changes <= self.room
    }

    /// Makes room for so many small changes. Where there is room already, it cannot fail.
    #[inline(always)]
    pub fn make_room(&mut self, changes: usize) -> Result<(), AllocError>
        ensures state { self.new.state ≡ self.old.state }
        ensures ok { OnOk result (changes ≤ self.new.room) }
        ensures room { self.old.room ≤ self.new.room }
        ensures frugal { changes ≤ self.old.room → IsOk result }
        ensures marked { self.new.marked ≡ self.old.marked }
    {
        if changes <= self.room {
            return Ok(());
        }
        reserve_all(&mut self.contents, self.alloc, changes)?;
        self.room = changes;
        Ok(())
    }

    /// Marks the state. It takes no memory.
    pub fn mark(&mut self)
        requires { self.old.marked ≡ None }
        ensures state { self.new.state ≡ self.old.state }
        ensures marked { self.new.marked ≡ Some self.old.state }
        ensures room { self.old.room ≤ self.new.room }
    {
        mark_all(&mut self.contents);
        self.marked = Some(self.contents.numbers);
    }

    /// Goes back to the state that is marked. It takes no memory.
    pub fn back(&mut self)
        requires { IsSome self.old.marked }
        ensures state { self.old.marked ≡ Some self.new.state }
        ensures marked { self.new.marked ≡ None }
        ensures room { self.old.room ≤ self.new.room }
    {
        if let Some(numbers) = self.marked {
            back_all(&mut self.contents, numbers);
            self.marked = None;
        }
    }

    /// Forgets which state is marked. It takes no memory.
    pub fn forget(&mut self)
        ensures state { self.new.state ≡ self.old.state }
        ensures marked { self.new.marked ≡ None }
        ensures room { self.old.room ≤ self.new.room }
    {
        forget_all(&mut self.contents);
        self.marked = None;
    }
}
