//! The name that an outside party has, as it comes, goes on and goes. Tallies do not count who is outside.
ghost use Rattle.std.specs.Prelude.{◌≡◌, ◌++◌, ◌∷◌, [], None, OnErr, OnOk, map};
ghost use Rattle.nomos_machine.specs.Revised.{renamed};

use crate::tallied::Tallied;
use nomos_changes::outside::Outside;
use std::alloc::AllocError;

impl Tallied {
    /// An outside party uses the new name wherever it used the old one. It takes no room.
    pub(crate) fn rename_outside(&mut self, old: u32, new: u32)
        ensures state { self.new.state ≡ record self.old.state
            { outside = map (renamed old new) self.old.state.outside } }
        ensures room { self.new.room ≡ self.old.room }
        ensures marked { self.new.marked ≡ self.old.marked }
    {
        self.inside.rename_outside(old, new);
    }

    /// A name goes outside. It takes no room.
    pub(crate) fn send_outside(&mut self, name: u32) -> Result<(), AllocError>
        ensures ok { OnOk result (self.new.state ≡ record self.old.state
            { outside = self.old.state.outside ++ name ∷ [] }) }
        ensures err { OnErr result (self.new.state ≡ self.old.state) }
        ensures room { self.new.room ≡ self.old.room }
        ensures marked { self.new.marked ≡ self.old.marked }
    {
        self.inside.send_outside(name)?;
        Ok(())
    }

    /// No name is outside any more. It takes no memory and no room.
    pub(crate) fn take_outside(&mut self)
        requires { self.old.marked ≡ None }
        ensures state { self.new.state ≡ record self.old.state { outside = [] } }
        ensures room { self.new.room ≡ self.old.room }
        ensures marked { self.new.marked ≡ self.old.marked }
    {
        self.inside.take_outside();
    }
}

impl Outside for Tallied {
    fn outside(&self) -> Option<u32> {
        self.inside.outside()
    }

    fn rename_outside(&mut self, old: u32, new: u32) {
        self.rename_outside(old, new);
    }

    fn send_outside(&mut self, name: u32) -> Result<(), AllocError> {
        self.send_outside(name)
    }

    fn take_outside(&mut self) {
        self.take_outside();
    }
}
