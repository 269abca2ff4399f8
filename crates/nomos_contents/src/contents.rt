//! Machines that give their state as plain data, and are made of such.
ghost use Rattle.std.specs.Prelude.{◌≡◌, ◌≤◌, ℕ, [], IfOk, IsSome, None};
ghost use Rattle.nomos_contents.specs.Data.{IsOrdered, state_of};
ghost use Rattle.nomos_machine.specs.Objects.{mentioned, times};
ghost use Rattle.nomos_machine.specs.State.{type_of};

use crate::data::StateData;
use nomos_deeds::undo::Undo;
use std::alloc::{AllocError, Global};

/// A machine whose state can be had as plain data, and which can be made of such.
pub trait Contents: Undo {
    /// The state as plain data. Nothing may be emitted, and nothing may be outside.
    fn data(&self, alloc: Global) -> Result<StateData, AllocError>
        requires results { (Self.state self.now).results ≡ [] }
        requires outside { (Self.state self.now).outside ≡ [] }
        ensures { IfOk result (λ made. state_of made ≡ Self.state self.now) };

    /// The state of these data, of which none is marked. Whether it is a typed state is not asked: the data stand in
    /// order, and an object mentions each name that has a type.
    fn of_data(alloc: Global, plain: StateData) -> Result<Self, AllocError>
        requires ordered { IsOrdered plain }
        requires mentioned { (name : ℕ) → IsSome (type_of plain.types name) → 1 ≤ times mentioned plain.objects name }
        ensures state { IfOk result (λ made. Self.state made ≡ state_of plain) }
        ensures marked { IfOk result (λ made. Self.marked made ≡ None) };
}
