//! Objects leave an indexed state with tallies.
ghost use Rattle.std.specs.Prelude.{◌≡◌, ◌≤◌, ◌<◌, ◌+◌};
ghost use Rattle.nomos_changes.specs.SmallChanges.{without_object};

use crate::counting::uncount;
use crate::tallied::Tallied;

impl Tallied {
    /// The object of this number leaves.
    pub(crate) fn leave(&mut self, number: u32)
        requires { 0 < self.old.room }
        ensures state { self.new.state ≡ without_object number self.old.state }
        ensures room { self.old.room ≤ self.new.room + 1 }
        ensures marked { self.new.marked ≡ self.old.marked }
    {
        uncount(&self.inside, &mut self.tallies, number);
        self.inside.leave(number);
        self.has_left = true;
    }
}
