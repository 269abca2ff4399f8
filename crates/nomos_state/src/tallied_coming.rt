//! Names and objects come to an indexed state with tallies.
ghost use Rattle.std.specs.Prelude.{◌≡◌, ◌≤◌, ◌<◌, ◌+◌, ◌-◌, ◌^◌, IsOk, OnErr, OnOk};
ghost use Rattle.nomos_machine.specs.declared.object.Object.TheVariants as object;
ghost use Rattle.nomos_changes.specs.SmallChanges.{BringsNoValue, process_born, with_name, with_object};

use crate::counting::{count_channels, count_fields, count_message};
use crate::mentions::MessageNames;
use crate::tallied::Tallied;
use nomos_changes::newborn::Newborn;
use nomos_ir::ids::TypeId;
use nomos_machine::object::Message;
use std::alloc::{AllocError, Global};

impl Tallied {
    /// The next name comes, and has this type.
    pub(crate) fn come_name(&mut self, t: TypeId)
        requires room { 0 < self.old.room }
        requires fits { self.old.state.next_name < 2 ^ 32 - 1 }
        ensures state { self.new.state ≡ with_name t self.old.state }
        ensures room { self.old.room ≤ self.new.room + 1 }
        ensures marked { self.new.marked ≡ self.old.marked }
    {
        let name = self.inside.fresh_name();
        self.inside.come_name(t);
        self.tallies.come(name);
    }

    /// Numbers are drawn up to these ones, which no object and no name has. It takes no memory and no room.
    pub(crate) fn draw_up_to(&mut self, next_object: u32, next_name: u32)
        requires object { self.old.state.next_object ≤ next_object }
        requires name { self.old.state.next_name ≤ next_name }
        ensures state { self.new.state ≡ record self.old.state
            { next_object = next_object; next_name = next_name } }
        ensures room { self.new.room ≡ self.old.room }
        ensures marked { self.new.marked ≡ self.old.marked }
    {
        self.inside.draw_up_to(next_object, next_name);
    }

    // The name that is drawn next may be mentioned already: an object comes before the name that it is made with.
    fn expect_name(&mut self)
        ensures state { self.new.state ≡ self.old.state }
        ensures room { self.new.room ≡ self.old.room }
        ensures marked { self.new.marked ≡ self.old.marked }
    {
        let name = self.inside.fresh_name();
        self.tallies.expect(name);
    }

    // A message comes.
    fn add_message(&mut self, alloc: Global, message: Message) -> Result<(), AllocError>
        requires room { 0 < self.old.room }
        requires number { message.number ≡ self.old.state.next_object }
        requires fits { self.old.state.next_object < 2 ^ 32 - 1 }
        ensures ok { OnOk result (self.new.state ≡ with_object (object.Message message) self.old.state) }
        ensures err { OnErr result (self.new.state ≡ self.old.state) }
        ensures room { self.old.room ≤ self.new.room + 1 }
        ensures frugal { BringsNoValue message.payload → IsOk result }
        ensures marked { self.new.marked ≡ self.old.marked }
    {
        let number = message.number;
        let names = MessageNames::of(&message);
        self.inside.come_message(alloc, message)?;
        count_message(&mut self.tallies, names, number);
        Ok(())
    }

    /// A message comes, which has the next number. It takes no memory where it brings no value.
    pub(crate) fn come_message(&mut self, alloc: Global, message: Message) -> Result<(), AllocError>
        requires room { 0 < self.old.room }
        requires number { message.number ≡ self.old.state.next_object }
        requires fits { self.old.state.next_object < 2 ^ 32 - 1 }
        ensures ok { OnOk result (self.new.state ≡ with_object (object.Message message) self.old.state) }
        ensures err { OnErr result (self.new.state ≡ self.old.state) }
        ensures room { self.old.room ≤ self.new.room + 1 }
        ensures frugal { BringsNoValue message.payload → IsOk result }
        ensures marked { self.new.marked ≡ self.old.marked }
    {
        self.expect_name();
        self.add_message(alloc, message)
    }

    // A process comes.
    fn add_process(&mut self, alloc: Global, born: Newborn) -> Result<(), AllocError>
        requires room { 0 < self.old.room }
        requires number { born.fields.pid ≡ self.old.state.next_object }
        requires fits { self.old.state.next_object < 2 ^ 32 - 1 }
        ensures ok { OnOk result (self.new.state ≡ with_object (object.Process (process_born born)) self.old.state) }
        ensures err { OnErr result (self.new.state ≡ self.old.state) }
        ensures room { self.old.room ≤ self.new.room + 1 }
        ensures marked { self.new.marked ≡ self.old.marked }
    {
        let fields = born.fields;
        let pid = self.inside.free_number();
        self.inside.come_process(alloc, born)?;
        let span = self.inside.span(pid);
        count_channels(&self.inside, &mut self.tallies, pid, span);
        count_fields(&mut self.tallies, &fields);
        Ok(())
    }

    /// A process comes, which has the next number.
    pub(crate) fn come_process(&mut self, alloc: Global, born: Newborn) -> Result<(), AllocError>
        requires room { 0 < self.old.room }
        requires number { born.fields.pid ≡ self.old.state.next_object }
        requires fits { self.old.state.next_object < 2 ^ 32 - 1 }
        ensures ok { OnOk result (self.new.state ≡ with_object (object.Process (process_born born)) self.old.state) }
        ensures err { OnErr result (self.new.state ≡ self.old.state) }
        ensures room { self.old.room ≤ self.new.room + 1 }
        ensures marked { self.new.marked ≡ self.old.marked }
    {
        self.expect_name();
        self.add_process(alloc, born)
    }
}
