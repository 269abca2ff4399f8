//! An indexed state and its tallies are marked, put back and given room together.
ghost use Rattle.std.specs.Prelude.{◌≡◌, ◌≤◌, IsOk, IsSome, None, OnOk, Some};

use crate::tallied::Tallied;
use std::alloc::AllocError;

/// For how many small changes room is made at least, so that most acts find it there.
const LEAST_ROOM: usize = 64;

impl Tallied {
    /// Makes room for so many small changes, and for more where they are few. Where there is room already, it cannot
    /// fail.
    #[inline(always)]
    pub(crate) fn make_room(&mut self, changes: usize) -> Result<(), AllocError>
        ensures state { self.new.state ≡ self.old.state }
        ensures ok { OnOk result (changes ≤ self.new.room) }
        ensures room { self.old.room ≤ self.new.room }
        ensures frugal { changes ≤ self.old.room → IsOk result }
        ensures marked { self.new.marked ≡ self.old.marked }
    {
        if self.inside.has_room(changes) {
            return Ok(());
        }
        let changes = changes.max(LEAST_ROOM);
        self.tallies.reserve(changes)?;
        self.inside.make_room(changes)
    }

    /// Marks the state. It takes no memory; gaps are closed first, where they are many.
    pub(crate) fn mark(&mut self)
        requires { self.old.marked ≡ None }
        ensures state { self.new.state ≡ self.old.state }
        ensures marked { self.new.marked ≡ Some self.old.state }
        ensures room { self.old.room ≤ self.new.room }
    {
        self.close_gaps();
        self.inside.mark();
        self.tallies.names.mark();
        self.was_exact = self.tallies.exact;
        let suspects = &self.tallies.suspects;
        self.was_lost = suspects.is_lost() || !suspects.is_empty();
    }

    /// Goes back to the state that is marked. It takes no memory.
    pub(crate) fn back(&mut self)
        requires { IsSome self.old.marked }
        ensures state { self.old.marked ≡ Some self.new.state }
        ensures marked { self.new.marked ≡ None }
        ensures room { self.old.room ≤ self.new.room }
    {
        self.inside.back();
        self.tallies.names.back();
        self.tallies.exact = self.was_exact;
        self.tallies.suspects.clear(self.was_lost);
    }

    /// Forgets which state is marked. It takes no memory; gaps are closed then, where they are many.
    pub(crate) fn forget(&mut self)
        ensures state { self.new.state ≡ self.old.state }
        ensures marked { self.new.marked ≡ None }
        ensures room { self.old.room ≤ self.new.room }
    {
        self.inside.forget();
        self.tallies.names.forget();
        self.close_gaps();
    }
}
