//! The name that an outside party has, as it comes and goes.
ghost use Rattle.std.specs.Prelude.{◌≡◌, ◌++◌, ◌∷◌, [], None, OnErr, OnOk};
ghost use Rattle.nomos_machine.specs.Opening.{outside_name};

use crate::inside::Inside;
use nomos_changes::outside::Outside;
use std::alloc::AllocError;

impl Inside {
    /// The outside name, if there is one. It takes no memory.
    pub fn outside(&self) -> Option<u32>
        ensures { result ≡ outside_name self.now.state }
    {
        self.contents.outside.get(0)
    }

    /// A name goes outside. It takes no room.
    pub fn send_outside(&mut self, name: u32) -> Result<(), AllocError>
        ensures ok { OnOk result (self.new.state ≡ record self.old.state
            { outside = self.old.state.outside ++ name ∷ [] }) }
        ensures err { OnErr result (self.new.state ≡ self.old.state) }
        ensures room { self.new.room ≡ self.old.room }
        ensures marked { self.new.marked ≡ self.old.marked }
    {
        self.contents.outside.reserve_all(1)?;
        self.contents.outside.push(name);
        Ok(())
    }

    /// No name is outside any more. It takes no memory and no room.
    pub fn take_outside(&mut self)
        requires { self.old.marked ≡ None }
        ensures state { self.new.state ≡ record self.old.state { outside = [] } }
        ensures room { self.new.room ≡ self.old.room }
        ensures marked { self.new.marked ≡ self.old.marked }
    {
        self.contents.outside.truncate(0);
    }
}

impl Outside for Inside {
    fn outside(&self) -> Option<u32> {
        self.outside()
    }

    fn rename_outside(&mut self, old: u32, new: u32) {
        self.rename_outside(old, new);
    }

    fn send_outside(&mut self, name: u32) -> Result<(), AllocError> {
        self.send_outside(name)
    }

    fn take_outside(&mut self) {
        self.take_outside();
    }
}
