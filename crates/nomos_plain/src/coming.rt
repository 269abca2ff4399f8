//! Objects and names that come to a plain state, and objects that leave it.
ghost use Rattle.std.specs.Prelude.{◌≡◌, ◌≤◌, ◌<◌, ◌+◌, ◌-◌, ◌^◌, IsOk, OnErr, OnOk};
ghost use Rattle.nomos_machine.specs.Objects.{object_number};
ghost use Rattle.nomos_machine.specs.declared.object.Object.TheVariants as object;
ghost use Rattle.nomos_changes.specs.SmallChanges.{process_born, with_name, with_object, without_object};
ghost use Rattle.nomos_plain.specs.Parts.{HasRoom, IsSound, object_in, state_of};

use crate::finds::place_of;
use crate::plain_object::{PlainObject, PlainProcess};
use crate::plain_parts::PlainParts;
use nomos_changes::newborn::Newborn;
use nomos_changes::pairs::bindings_of;
use nomos_ir::ids::TypeId;
use nomos_machine::object::Message;
use std::alloc::{AllocError, Global};

impl PlainParts {
    // An object comes, which has the next number.
    fn come(&mut self, object: PlainObject)
        requires sound { IsSound self.old }
        requires room { 0 < self.old.room }
        requires number { object_number (object_in object) ≡ self.old.next_object }
        requires fits { self.old.next_object < 2 ^ 32 - 1 }
        requires channels { HasRoom self.old.room object }
        ensures state { state_of self.new ≡ with_object (object_in object) (state_of self.old) }
        ensures sound { IsSound self.new }
        ensures room { self.old.room ≡ self.new.room + 1 }
    {
        self.objects.push_reserved(object);
        self.next_object += 1;
        self.room -= 1;
    }

    /// A message comes, which has the next number.
    pub(crate) fn come_message(&mut self, message: Message)
        requires sound { IsSound self.old }
        requires room { 0 < self.old.room }
        requires number { message.number ≡ self.old.next_object }
        requires fits { self.old.next_object < 2 ^ 32 - 1 }
        ensures state { state_of self.new ≡ with_object (object.Message message) (state_of self.old) }
        ensures sound { IsSound self.new }
        ensures room { self.old.room ≡ self.new.room + 1 }
    {
        self.come(PlainObject::Message(message));
    }

    /// A process comes, which has the next number. Want of memory leaves the state as it was.
    pub(crate) fn come_process(&mut self, alloc: Global, born: Newborn) -> Result<(), AllocError>
        requires sound { IsSound self.old }
        requires room { 0 < self.old.room }
        requires number { born.fields.pid ≡ self.old.next_object }
        requires fits { self.old.next_object < 2 ^ 32 - 1 }
        ensures ok { OnOk result
            (state_of self.new ≡ with_object (object.Process (process_born born)) (state_of self.old)) }
        ensures err { OnErr result (state_of self.new ≡ state_of self.old) }
        ensures sound { IsSound self.new }
        ensures room { self.old.room ≤ self.new.room + 1 }
    {
        let fields = born.fields;
        let channels = bindings_of(alloc, born.channels, self.room)?;
        self.come(PlainObject::Process(PlainProcess {
            pid: fields.pid,
            mode: fields.mode,
            code: fields.code,
            values: born.values,
            lists: born.lists,
            channels,
            offers: fields.offers,
            base: fields.base,
            purse: fields.purse,
            payer: fields.payer,
        }));
        Ok(())
    }

    /// The next name comes, and has this type.
    pub(crate) fn come_name(&mut self, t: TypeId)
        requires sound { IsSound self.old }
        requires room { 0 < self.old.room }
        requires fits { self.old.next_name < 2 ^ 32 - 1 }
        ensures state { state_of self.new ≡ with_name t (state_of self.old) }
        ensures sound { IsSound self.new }
        ensures room { self.old.room ≡ self.new.room + 1 }
    {
        self.types.push_reserved((self.next_name, t));
        self.next_name += 1;
        self.room -= 1;
    }

    /// The object of this number leaves.
    pub(crate) fn leave(&mut self, number: u32)
        requires { IsSound self.old }
        ensures state { state_of self.new ≡ without_object number (state_of self.old) }
        ensures sound { IsSound self.new }
        ensures room { self.new.room ≡ self.old.room }
    {
        if let Some(at) = place_of(&self.objects, number) {
            let _object = self.objects.remove(at);
        }
    }
}
