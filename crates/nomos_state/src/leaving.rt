//! Objects leave an indexed state.
ghost use Rattle.std.specs.Prelude.{◌≡◌, ◌≤◌, ◌<◌, ◌+◌};
ghost use Rattle.nomos_changes.specs.SmallChanges.{without_object};

use crate::inside::Inside;
use crate::looking::object_at;
use crate::span::drop_span;

impl Inside {
    /// The object of this number leaves.
    pub fn leave(&mut self, number: u32)
        requires { 0 < self.old.room }
        ensures state { self.new.state ≡ without_object number self.old.state }
        ensures room { self.old.room ≤ self.new.room + 1 }
        ensures marked { self.new.marked ≡ self.old.marked }
    {
        let Some((place, before)) = object_at(&self.contents, number) else {
            return;
        };
        drop_span(&mut self.contents.channels, number, before.span());
        let _values = self.contents.values.replace(place, Vec::new(self.alloc));
        let _lists = self.contents.lists.replace(place, Vec::new(self.alloc));
        self.contents.objects.put(place, None);
        self.room -= 1;
    }
}
