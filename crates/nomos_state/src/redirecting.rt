//! Whoever uses a name uses another one instead: the first that is found, or an object of which the number is known.
ghost use Rattle.std.specs.Prelude.{◌≡◌, ◌≤◌, Some, length, map};
ghost use Rattle.std.specs.Option.{option_map};
ghost use Rattle.nomos_ir.specs.Order.{count_of};
ghost use Rattle.nomos_machine.specs.Objects.{object_at, used};
ghost use Rattle.nomos_machine.specs.Revised.{renamed};
ghost use Rattle.nomos_machine.specs.declared.object.Object.{Object as Thing};
ghost use Rattle.nomos_changes.specs.SmallChanges.{redirected};
ghost use Rattle.nomos_state.specs.Instead.{brings_instead, kept_instead};
ghost use Rattle.nomos_state.specs.Redirected.{redirected_at};

use crate::inside::Inside;
use crate::kept::{Kept, KeptMessage};
use crate::looking::object_at;
use crate::sought::user;
use crate::span::rename_span;
use nomos_deeds::sight::SeenPayload;
use nomos_slots::column::Column;

// The name, or the new one instead of the old one.
fn renamed(old: u32, new: u32, name: u32) -> u32
    ensures { result ≡ renamed old new name }
{
    if name == old { new } else { name }
}

// The same of a name that may be there.
fn next_renamed(old: u32, new: u32, next: Option<u32>) -> Option<u32>
    ensures { result ≡ option_map (renamed old new) next }
{
    match next {
        Some(name) => Some(renamed(old, new, name)),
        None => None,
    }
}

// The same of what a message brings.
fn brings_renamed(old: u32, new: u32, brought: SeenPayload) -> SeenPayload
    ensures { result ≡ brings_instead old new brought }
{
    match brought {
        SeenPayload::Channel(name) => SeenPayload::Channel(renamed(old, new, name)),
        other => other,
    }
}

// The message, which uses the new name wherever it used the old one.
fn message_renamed(old: u32, new: u32, m: KeptMessage) -> KeptMessage
    ensures { result ≡ kept_instead old new m }
{
    let brings = brings_renamed(old, new, m.brings);
    if m.to_client {
        let next = next_renamed(old, new, m.next);
        KeptMessage { next, brings, ..m }
    } else {
        let from = renamed(old, new, m.from);
        KeptMessage { from, brings, ..m }
    }
}

// The new name stands wherever the old one stood.
fn rename_all(names: &mut Column<u32>, old: u32, new: u32)
    requires { length names.old.now ≤ names.old.seats }
    ensures now { names.new.now ≡ map (renamed old new) names.old.now }
    ensures marked { names.new.marked ≡ names.old.marked }
    ensures seats { names.new.seats ≡ names.old.seats }
{
    for at in 0..names.len() {
        if let Some(name) = names.get(at) {
            if name == old {
                names.put(at, new);
            }
        }
    }
}

impl Inside {
    /// The object of this number uses the new name wherever it used the old one. It takes no room.
    pub fn redirect_object(&mut self, number: u32, old: u32, new: u32)
        ensures state { self.new.state ≡ record self.old.state
            { objects = redirected_at number old new self.old.state.objects } }
        ensures room { self.new.room ≡ self.old.room }
        ensures marked { self.new.marked ≡ self.old.marked }
    {
        match object_at(&self.contents, number) {
            Some((_, Kept::Process(p))) => {
                rename_span(&mut self.contents.channels, number, p.span, old, new);
            }
            Some((place, Kept::Message(m))) => {
                let next = message_renamed(old, new, m);
                self.contents.objects.put(place, Some(Kept::Message(next)));
            }
            None => {}
        }
    }

    /// The object of this number, which uses the old name once at most, uses the new one instead: a process for this
    /// variable, if the old name is bound to it. It takes no room.
    pub fn redirect_once(&mut self, number: u32, variable: u32, old: u32, new: u32)
        requires { (o : Thing) → object_at self.old.state.objects number ≡ Some o → count_of old (used o) ≤ 1 }
        ensures state { self.new.state ≡ record self.old.state
            { objects = redirected_at number old new self.old.state.objects } }
        ensures room { self.new.room ≡ self.old.room }
        ensures marked { self.new.marked ≡ self.old.marked }
    {
        match object_at(&self.contents, number) {
            Some((_, Kept::Process(_)))
                if self.contents.channels.get(number, variable) == Some(old) => {
                self.contents
                    .channels
                    .rename_one(number, variable, old, new);
            }
            _ => self.redirect_object(number, old, new),
        }
    }

    /// An outside party uses the new name wherever it used the old one. It takes no room.
    pub fn rename_outside(&mut self, old: u32, new: u32)
        ensures state { self.new.state ≡ record self.old.state
            { outside = map (renamed old new) self.old.state.outside } }
        ensures room { self.new.room ≡ self.old.room }
        ensures marked { self.new.marked ≡ self.old.marked }
    {
        rename_all(&mut self.contents.outside, old, new);
    }

    // The first object that uses the old name uses the new one instead. It takes no room.
    fn redirect_user(&mut self, old: u32, new: u32)
        ensures state { self.new.state ≡ record self.old.state
            { objects = redirected old new self.old.state.objects } }
        ensures room { self.new.room ≡ self.old.room }
        ensures marked { self.new.marked ≡ self.old.marked }
    {
        if let Some(number) = user(&self.contents, old) {
            self.redirect_object(number, old, new);
        }
    }

    /// Whoever uses the old name uses the new one instead, an outside party too. It takes no room.
    pub fn redirect(&mut self, old: u32, new: u32)
        ensures state { self.new.state ≡ record self.old.state {
          objects = redirected old new self.old.state.objects;
          outside = map (renamed old new) self.old.state.outside;
        } }
        ensures room { self.new.room ≡ self.old.room }
        ensures marked { self.new.marked ≡ self.old.marked }
    {
        self.redirect_user(old, new);
        self.rename_outside(old, new);
    }
}
