//! The small changes by which an outside party comes, speaks and goes, however a state is kept.
ghost use Rattle.std.specs.Prelude.{◌≡◌, ◌≤◌, ◌∷◌, ◌++◌, [], None, OnOk, OnErr, map};
ghost use Rattle.nomos_machine.specs.Opening.{outside_name};
ghost use Rattle.nomos_machine.specs.Revised.{renamed};

use crate::parts::Parts;
use std::alloc::AllocError;

/// What a state is changed by where an outside party has the client's end of a channel, beside what acts are made of.
/// None of these small changes takes room.
pub trait Outside: Parts {
    /// The outside name, if there is one. It takes no memory.
    fn outside(&self) -> Option<u32>
        ensures { result ≡ outside_name (Self.state self.now) };

    /// An outside party uses the new name wherever it used the old one. It takes no memory.
    fn rename_outside(&mut self, old: u32, new: u32)
        ensures state { Self.state self.new ≡ record (Self.state self.old)
            { outside = map (renamed old new) (Self.state self.old).outside } }
        ensures room { Self.room self.old ≤ Self.room self.new }
        ensures marked { Self.marked self.new ≡ Self.marked self.old };

    /// A name goes outside. Nothing may be marked. Want of memory leaves the state as it was.
    fn send_outside(&mut self, name: u32) -> Result<(), AllocError>
        requires { Self.marked self.old ≡ None }
        ensures ok { OnOk result (Self.state self.new ≡ record (Self.state self.old)
            { outside = (Self.state self.old).outside ++ name ∷ [] }) }
        ensures err { OnErr result (Self.state self.new ≡ Self.state self.old) }
        ensures room { Self.room self.old ≤ Self.room self.new }
        ensures marked { Self.marked self.new ≡ None };

    /// No name is outside any more. Nothing may be marked. It takes no memory.
    fn take_outside(&mut self)
        requires { Self.marked self.old ≡ None }
        ensures state { Self.state self.new ≡ record (Self.state self.old) { outside = [] } }
        ensures room { Self.room self.old ≤ Self.room self.new }
        ensures marked { Self.marked self.new ≡ None };
}
