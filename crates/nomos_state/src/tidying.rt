//! Names that no object mentions lose their types, by tallies.
ghost use Rattle.std.specs.Prelude.{◌≡◌, ◌≤◌, false, true};
ghost use Rattle.nomos_machine.specs.Change.{tidied};
ghost use Rattle.nomos_state.specs.Suspecting.{suspecting};
ghost use Rattle.nomos_state.specs.Tallied.{AreTalliesOf, SayRight};

use crate::inside::Inside;
use crate::tallied::Tallied;
use crate::tallies::Tallies;

// This suspect has no type any more, and no tally, where no object mentions it.
fn tidy_name(inside: &mut Inside, tallies: &mut Tallies, name: u32)
    requires exact { tallies.old.exact ≡ true }
    requires tallies { SayRight true (suspecting name tallies.old.suspects) tallies.old.names.now inside.old.state }
    ensures exact { tallies.new.exact ≡ true }
    ensures suspects { tallies.new.suspects ≡ tallies.old.suspects }
    ensures tallies { SayRight true tallies.new.suspects tallies.new.names.now inside.new.state }
    ensures names { tallies.new.names.marked ≡ tallies.old.names.marked }
    ensures state { tidied inside.new.state ≡ tidied inside.old.state }
    ensures room { inside.new.room ≡ inside.old.room }
    ensures marked { inside.new.marked ≡ inside.old.marked }
{
    if tallies.is_idle(name) {
        inside.drop_name(name);
        tallies.leave(name);
    }
}

// All suspects lose their types that no object mentions. There are no suspects any longer.
fn tidy_suspects(inside: &mut Inside, tallies: &mut Tallies)
    requires exact { tallies.old.exact ≡ true }
    requires known { tallies.old.suspects.lost ≡ false }
    requires tallies { AreTalliesOf tallies.old inside.old.state }
    ensures tallies { AreTalliesOf tallies.new inside.new.state }
    ensures names { tallies.new.names.marked ≡ tallies.old.names.marked }
    ensures state { inside.new.state ≡ tidied inside.old.state }
    ensures room { inside.new.room ≡ inside.old.room }
    ensures marked { inside.new.marked ≡ inside.old.marked }
{
    while let Some(name) = tallies.suspects.pop() {
        tidy_name(inside, tallies, name);
    }
}

impl Tallied {
    /// The gaps that objects and names left, which came since the mark, are closed where they are many. It takes no
    /// room and no memory. Over many calls it costs no more than there were objects and names that left.
    pub(crate) fn close_gaps(&mut self)
        ensures state { self.new.state ≡ self.old.state }
        ensures room { self.new.room ≡ self.old.room }
        ensures marked { self.new.marked ≡ self.old.marked }
    {
        self.inside.close_gaps();
        self.tallies.close_gaps();
    }

    // The same, where something left since gaps were closed last.
    fn close_new_gaps(&mut self)
        ensures state { self.new.state ≡ self.old.state }
        ensures room { self.new.room ≡ self.old.room }
        ensures marked { self.new.marked ≡ self.old.marked }
    {
        if self.has_left {
            self.has_left = false;
            self.close_gaps();
        }
    }

    /// Names that no object mentions have no type any more; gaps are closed then, where they are many. It takes no
    /// room. Only suspects are asked, where they are known.
    #[inline(always)]
    pub(crate) fn tidy(&mut self)
        ensures state { self.new.state ≡ tidied self.old.state }
        ensures room { self.new.room ≡ self.old.room }
        ensures marked { self.new.marked ≡ self.old.marked }
    {
        if self.tallies.exact && !self.tallies.suspects.is_lost() {
            self.has_left |= !self.tallies.suspects.is_empty();
            tidy_suspects(&mut self.inside, &mut self.tallies);
        } else {
            self.has_left = true;
            self.inside.tidy();
            self.tallies.suspects.clear(false);
        }
        self.close_new_gaps();
    }
}
