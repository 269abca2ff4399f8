//! Whoever uses a name uses another one instead.
ghost use Rattle.std.specs.Prelude.{◌≡◌, ℕ, map};
ghost use Rattle.std.specs.Option.{option_map};
ghost use Rattle.std.specs.Vec.{vec_len, vec_capacity};
ghost use Rattle.nomos_machine.specs.Revised.{renamed, renamed_payload, uses_instead};
ghost use Rattle.nomos_machine.specs.declared.object.Object.TheVariants as object;
ghost use Rattle.nomos_changes.specs.SmallChanges.{redirected};
ghost use Rattle.nomos_plain.specs.Parts.{HasRoom, IsSound, object_in, state_of};

use crate::finds::{place_of, user};
use crate::plain_object::PlainObject;
use crate::plain_parts::PlainParts;
use nomos_ir::ids::VarId;
use nomos_machine::object::{Message, Payload};

// The new name, where it is the old one.
fn renamed(old: u32, new: u32, name: u32) -> u32
    ensures { result ≡ renamed old new name }
{
    if name == old { new } else { name }
}

// The same of a name that there may be.
fn renamed_if_any(old: u32, new: u32, name: Option<u32>) -> Option<u32>
    ensures { result ≡ option_map (renamed old new) name }
{
    match name {
        Some(k) => Some(renamed(old, new, k)),
        None => None,
    }
}

// The new name takes the old one's place in a list.
fn rename_names(names: &mut [u32], old: u32, new: u32)
    ensures { names.new ≡ map (renamed old new) names.old }
{
    for name in names.iter_mut() {
        *name = renamed(old, new, *name);
    }
}

// A channel with its variable, under the new name where it has the old one.
fn renamed_channel(old: u32, new: u32, channel: (VarId, u32)) -> (VarId, u32)
    ensures { result ≡ (channel.0, renamed old new channel.1) }
{
    (channel.0, renamed(old, new, channel.1))
}

// The new name takes the old one's place in the channels of a process.
fn rename_channels(channels: &mut Vec<(VarId, u32)>, old: u32, new: u32)
    ensures items { channels.new.items ≡ map (λ e. (e.0, renamed old new e.1)) channels.old.items }
    ensures len { vec_len channels.new ≡ vec_len channels.old }
    ensures capacity { vec_capacity channels.new ≡ vec_capacity channels.old }
{
    for at in 0..channels.len() {
        channels[at] = renamed_channel(old, new, channels[at]);
    }
}

// The same in what a message brings.
fn rename_payload(payload: &mut Payload, old: u32, new: u32)
    ensures { payload.new ≡ renamed_payload old new payload.old }
{
    if let Payload::Channel(name) = payload {
        *name = renamed(old, new, *name);
    }
}

// The same in a message, but for the name that it provides.
fn rename_used(message: &mut Message, old: u32, new: u32)
    ensures { object.Message message.new ≡ uses_instead old new (object.Message message.old) }
{
    if message.to_client {
        message.next = renamed_if_any(old, new, message.next);
    } else {
        message.from = renamed(old, new, message.from);
    }
    rename_payload(&mut message.payload, old, new);
}

impl PlainObject {
    // It uses the new name instead of the old one.
    fn use_instead(&mut self, old: u32, new: u32)
        ensures object { object_in self.new ≡ uses_instead old new (object_in self.old) }
        ensures room { (n : ℕ) → HasRoom n self.old → HasRoom n self.new }
    {
        match self {
            PlainObject::Process(process) => rename_channels(&mut process.channels, old, new),
            PlainObject::Message(message) => rename_used(message, old, new),
        }
    }
}

impl PlainParts {
    // The first object that uses the old name uses the new one instead.
    fn redirect_user(&mut self, old: u32, new: u32)
        requires { IsSound self.old }
        ensures state { state_of self.new ≡ record (state_of self.old)
            { objects = redirected old new (state_of self.old).objects } }
        ensures sound { IsSound self.new }
        ensures room { self.new.room ≡ self.old.room }
    {
        let Some(number) = user(&self.objects, old) else {
            return;
        };
        if let Some(at) = place_of(&self.objects, number) {
            self.objects[at].use_instead(old, new);
        }
    }

    /// An outside party uses the new name wherever it used the old one.
    pub(crate) fn rename_outside(&mut self, old: u32, new: u32)
        requires { IsSound self.old }
        ensures state { state_of self.new ≡ record (state_of self.old)
            { outside = map (renamed old new) self.old.outside.items } }
        ensures sound { IsSound self.new }
        ensures room { self.new.room ≡ self.old.room }
    {
        rename_names(self.outside.as_mut_slice(), old, new);
    }

    /// Whoever uses the old name uses the new one instead, an outside party too.
    pub(crate) fn redirect(&mut self, old: u32, new: u32)
        requires { IsSound self.old }
        ensures state { state_of self.new ≡ record (state_of self.old) {
          objects = redirected old new (state_of self.old).objects;
          outside = map (renamed old new) self.old.outside.items;
        } }
        ensures sound { IsSound self.new }
        ensures room { self.new.room ≡ self.old.room }
    {
        self.redirect_user(old, new);
        self.rename_outside(old, new);
    }
}
