//! An indexed state with tallies, empty or once more.
ghost use Rattle.std.specs.Prelude.{◌≡◌, None, IfOk};
ghost use Rattle.nomos_machine.specs.State.{empty};

use crate::inside::Inside;
use crate::tallied::Tallied;
use crate::tallies::Tallies;
use std::alloc::{AllocError, Global};

impl Tallied {
    /// The state with nothing in it, in which these numbers are drawn next. It takes no memory.
    pub(crate) fn empty_at(alloc: Global, next_object: u32, next_name: u32) -> Self
        ensures state { result.state ≡ record empty { next_object = next_object; next_name = next_name } }
        ensures marked { result.marked ≡ None }
        ensures room { result.room ≡ 0 }
    {
        Tallied {
            inside: Inside::empty_at(alloc, next_object, next_name),
            tallies: Tallies::new(alloc),
            was_exact: true,
            was_lost: true,
            has_left: true,
        }
    }

    /// The state with nothing in it, in which both next numbers are 1. It takes no memory.
    pub(crate) fn empty(alloc: Global) -> Self
        ensures state { result.state ≡ empty }
        ensures marked { result.marked ≡ None }
        ensures room { result.room ≡ 0 }
    {
        Tallied::empty_at(alloc, 1, 1)
    }

    /// The same state once more, with nothing marked and no room ahead.
    pub(crate) fn copy(&self, alloc: Global) -> Result<Self, AllocError>
        ensures state { IfOk result (λ made. made.state ≡ self.now.state) }
        ensures marked { IfOk result (λ made. made.marked ≡ None) }
    {
        let inside = self.inside.copy(alloc)?;
        let tallies = self.tallies.copy(alloc)?;
        Ok(Tallied {
            inside,
            tallies,
            was_exact: true,
            was_lost: true,
            has_left: true,
        })
    }
}
