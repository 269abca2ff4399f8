//! Gaps that objects and names left are closed, where they are many.
ghost use Rattle.std.specs.Prelude.{◌≡◌};
ghost use Rattle.nomos_state.specs.Closing.{AreBeside};
ghost use Rattle.nomos_state.specs.Indexed.{IsHolding, held_now, state_of};
ghost use Rattle.nomos_state.specs.Together.{KeepsRoom, MarksTheSame};

use crate::inside::{Columns, Inside};
use nomos_slots::beside::close_rows;
use std::alloc::Global;

// The gaps of objects that came since the mark are closed, with the rows beside them.
fn close_objects(contents: &mut Columns, alloc: Global)
    requires holding { IsHolding (held_now contents.old) }
    requires values { AreBeside contents.old.objects.marked contents.old.values.marked }
    requires its_lists { AreBeside contents.old.objects.marked contents.old.lists.marked }
    ensures holding { IsHolding (held_now contents.new) }
    ensures state { state_of (held_now contents.new) ≡ state_of (held_now contents.old) }
    ensures others { contents.new ≡ record contents.old {
      objects = contents.new.objects;
      values = contents.new.values;
      lists = contents.new.lists;
    } }
    ensures marked { MarksTheSame contents.old contents.new }
    ensures room { KeepsRoom contents.old contents.new }
{
    let from = contents.objects.late_from();
    close_rows(&contents.objects, &mut contents.values, alloc, from);
    close_rows(&contents.objects, &mut contents.lists, alloc, from);
    contents.objects.close_gaps(from);
}

// The gaps of names that came since the mark are closed.
fn close_names(contents: &mut Columns)
    requires holding { IsHolding (held_now contents.old) }
    ensures holding { IsHolding (held_now contents.new) }
    ensures state { state_of (held_now contents.new) ≡ state_of (held_now contents.old) }
    ensures others { contents.new ≡ record contents.old { names = contents.new.names } }
    ensures marked { MarksTheSame contents.old contents.new }
    ensures room { KeepsRoom contents.old contents.new }
{
    let from = contents.names.late_from();
    contents.names.close_gaps(from);
}

impl Inside {
    // Gaps of objects are closed, where they are many.
    fn close_object_gaps(&mut self)
        ensures state { self.new.state ≡ self.old.state }
        ensures room { self.new.room ≡ self.old.room }
        ensures marked { self.new.marked ≡ self.old.marked }
    {
        if self.contents.objects.is_sparse() {
            close_objects(&mut self.contents, self.alloc);
        }
    }

    // The same of names.
    fn close_name_gaps(&mut self)
        ensures state { self.new.state ≡ self.old.state }
        ensures room { self.new.room ≡ self.old.room }
        ensures marked { self.new.marked ≡ self.old.marked }
    {
        if self.contents.names.is_sparse() {
            close_names(&mut self.contents);
        }
    }

    /// The gaps that objects and names left, which came since the mark, are closed where they are many. It takes no
    /// room and no memory. Over many calls it costs no more than there were objects and names that left.
    pub fn close_gaps(&mut self)
        ensures state { self.new.state ≡ self.old.state }
        ensures room { self.new.room ≡ self.old.room }
        ensures marked { self.new.marked ≡ self.old.marked }
    {
        self.close_object_gaps();
        self.close_name_gaps();
    }
}
