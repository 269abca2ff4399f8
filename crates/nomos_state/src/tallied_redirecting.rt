//! Whoever uses a name uses another one instead.
ghost use Rattle.std.specs.Prelude.{◌≡◌, map};
ghost use Rattle.nomos_machine.specs.Revised.{renamed};
ghost use Rattle.nomos_changes.specs.SmallChanges.{redirected};

use crate::finding::Holder;
use crate::tallied::Tallied;
use crate::tally::NameUse;

impl Tallied {
    /// Whoever uses the old name uses the new one instead, an outside party too. It takes no room.
    pub(crate) fn redirect(&mut self, old: u32, new: u32)
        ensures state { self.new.state ≡ record self.old.state {
          objects = redirected old new self.old.state.objects;
          outside = map (renamed old new) self.old.state.outside;
        } }
        ensures room { self.new.room ≡ self.old.room }
        ensures marked { self.new.marked ≡ self.old.marked }
    {
        match self.found_by(NameUse::Uses, old) {
            Holder::Nobody => self.inside.rename_outside(old, new),
            Holder::One(by) => {
                self.inside.redirect_once(by.object, by.variable, old, new);
                self.inside.rename_outside(old, new);
                self.tallies
                    .exchange(NameUse::Uses, Some(old), Some(new), by);
            }
            Holder::Unknown => {
                self.inside.redirect(old, new);
                self.tallies.exact = false;
            }
        }
    }
}
