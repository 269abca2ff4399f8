//! Names of an indexed state, and the numbers that are drawn next.
ghost use Rattle.std.specs.Prelude.{◌≡◌, ◌≤◌, ◌<◌, ◌+◌, ◌-◌, ◌^◌, ◌==◌, filter, length, map, not};
ghost use Rattle.nomos_machine.specs.Change.{tidied};
ghost use Rattle.nomos_changes.specs.SmallChanges.{with_name};
ghost use Rattle.nomos_state.specs.Indexed.{IsHolding, held_now, state_of};
ghost use Rattle.nomos_state.specs.Objects.{types_of};
ghost use Rattle.nomos_state.specs.Tidying.{tidied_at, tidied_of, tidied_slot, without_type};

use crate::inside::{Columns, Inside};
use crate::sought::is_mentioned;
use nomos_ir::ids::TypeId;

// The name at a place has no type any more, where no object mentions it.
fn tidy_at(contents: &mut Columns, place: usize)
    requires holding { IsHolding (held_now contents.old) }
    requires within { place < length contents.old.names.now }
    ensures holding { IsHolding (held_now contents.new) }
    ensures others { contents.new ≡ record contents.old { names = contents.new.names } }
    ensures names { contents.new.names.now
        ≡ tidied_at (state_of (held_now contents.old)).objects place contents.old.names.now }
    ensures marked { contents.new.names.marked ≡ contents.old.names.marked }
    ensures room { contents.old.names.room ≤ contents.new.names.room }
{
    let Some(slot) = contents.names.slot(place) else {
        return;
    };
    if slot.item.is_some() && !is_mentioned(contents, slot.number) {
        contents.names.put(place, None);
    }
}

// Names that no object mentions have no type any more.
fn tidy_all(contents: &mut Columns)
    requires { IsHolding (held_now contents.old) }
    ensures holding { IsHolding (held_now contents.new) }
    ensures others { contents.new ≡ record contents.old { names = contents.new.names } }
    ensures names { contents.new.names.now
        ≡ map (tidied_slot (state_of (held_now contents.old)).objects) contents.old.names.now }
    ensures marked { contents.new.names.marked ≡ contents.old.names.marked }
    ensures room { contents.old.names.room ≤ contents.new.names.room }
{
    for place in 0..contents.names.len() {
        tidy_at(contents, place);
    }
}

// A name has no type any more.
fn drop_in(contents: &mut Columns, name: u32)
    requires holding { IsHolding (held_now contents.old) }
    ensures holding { IsHolding (held_now contents.new) }
    ensures others { contents.new ≡ record contents.old { names = contents.new.names } }
    ensures types { types_of contents.new.names.now
        ≡ filter (λ t. not (t.0 == name)) (types_of contents.old.names.now) }
    ensures marked { contents.new.names.marked ≡ contents.old.names.marked }
    ensures room { contents.old.names.room ≤ contents.new.names.room }
{
    let Some(place) = contents.names.place_of(name) else {
        return;
    };
    contents.names.put(place, None);
}

impl Inside {
    /// The number that the next object will have. This reader and the next take no memory.
    pub fn next_number(&self) -> u32
        ensures { result ≡ self.now.state.next_object }
    {
        self.contents.numbers.next_object
    }

    /// The number that the next name will have.
    pub fn fresh_name(&self) -> u32
        ensures { result ≡ self.now.state.next_name }
    {
        self.contents.numbers.next_name
    }

    /// The next name comes, and has this type.
    pub fn come_name(&mut self, t: TypeId)
        requires room { 0 < self.old.room }
        requires fits { self.old.state.next_name < 2 ^ 32 - 1 }
        ensures state { self.new.state ≡ with_name t self.old.state }
        ensures room { self.old.room ≤ self.new.room + 1 }
        ensures marked { self.new.marked ≡ self.old.marked }
    {
        let name = self.contents.numbers.next_name;
        self.contents.names.push(name, t);
        self.contents.numbers.next_name = name + 1;
        self.room -= 1;
    }

    /// Numbers are drawn up to these ones, which no object and no name has. It takes no memory and no room.
    pub fn draw_up_to(&mut self, next_object: u32, next_name: u32)
        requires object { self.old.state.next_object ≤ next_object }
        requires name { self.old.state.next_name ≤ next_name }
        ensures state { self.new.state ≡ record self.old.state
            { next_object = next_object; next_name = next_name } }
        ensures room { self.new.room ≡ self.old.room }
        ensures marked { self.new.marked ≡ self.old.marked }
    {
        self.contents.numbers.next_object = next_object;
        self.contents.numbers.next_name = next_name;
    }

    /// A name has no type any more. It takes no room, and costs a look-up.
    pub fn drop_name(&mut self, name: u32)
        ensures state { self.new.state ≡ without_type name self.old.state }
        ensures room { self.new.room ≡ self.old.room }
        ensures marked { self.new.marked ≡ self.old.marked }
    {
        drop_in(&mut self.contents, name);
    }

    /// This name has no type any more, where no object mentions it. It takes no room, and goes over the objects.
    pub fn tidy_name(&mut self, name: u32)
        ensures state { self.new.state ≡ tidied_of name self.old.state }
        ensures room { self.new.room ≡ self.old.room }
        ensures marked { self.new.marked ≡ self.old.marked }
    {
        if !is_mentioned(&self.contents, name) {
            self.drop_name(name);
        }
    }

    /// Names that no object mentions have no type any more. It takes no room.
    pub fn tidy(&mut self)
        ensures state { self.new.state ≡ tidied self.old.state }
        ensures room { self.new.room ≡ self.old.room }
        ensures marked { self.new.marked ≡ self.old.marked }
    {
        tidy_all(&mut self.contents);
    }
}
