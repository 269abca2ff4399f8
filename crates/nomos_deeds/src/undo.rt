//! Going back to a state that was marked.
ghost use Rattle.std.specs.Prelude.{◌≡◌, ◌≤◌, ◌≢◌, IfOk, None, Some};
ghost use Rattle.nomos_machine.specs.State.{State, empty};

use crate::machine::Machine;
use std::alloc::{AllocError, Global};

/// A machine that can go back to a state that was marked. One state at a time is marked.
pub trait Undo: Machine {
    /// The state with nothing in it, in which both next numbers are 1. None is marked.
    fn empty(alloc: Global) -> Self
        ensures state { Self.state result ≡ empty }
        ensures marked { Self.marked result ≡ None };

    /// The same state once more. None is marked.
    fn copy(&self, alloc: Global) -> Result<Self, AllocError>
        ensures state { IfOk result (λ made. Self.state made ≡ Self.state self.now) }
        ensures marked { IfOk result (λ made. Self.marked made ≡ None) };

    /// Marks the state. It takes no memory.
    fn mark(&mut self)
        requires { Self.marked self.old ≡ None }
        ensures state { Self.state self.new ≡ Self.state self.old }
        ensures marked { Self.marked self.new ≡ Some (Self.state self.old) }
        ensures spare { Self.spare self.old ≤ Self.spare self.new };

    /// Goes back to the state that is marked. It takes no memory.
    fn back(&mut self)
        requires { Self.marked self.old ≢ None }
        ensures state { (s : State) → Self.marked self.old ≡ Some s → Self.state self.new ≡ s }
        ensures marked { Self.marked self.new ≡ None }
        ensures spare { Self.spare self.old ≤ Self.spare self.new };

    /// Forgets which state is marked. It takes no memory.
    fn forget(&mut self)
        ensures state { Self.state self.new ≡ Self.state self.old }
        ensures marked { Self.marked self.new ≡ None }
        ensures spare { Self.spare self.old ≤ Self.spare self.new };
}
