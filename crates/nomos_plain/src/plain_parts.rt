//! What a plain state keeps, processes that are taken out of it and put back, and its room.
ghost use Rattle.std.specs.Prelude.{◌≡◌, ◌≤◌, ◌+◌, ℕ, All, IsOk, IsSome, IfSome, OnOk, Some, filter, map};
ghost use Rattle.std.specs.Vec.{vec_len, vec_capacity};
ghost use Rattle.nomos_machine.specs.Change.{put_at, tidied};
ghost use Rattle.nomos_machine.specs.State.{process_at};
ghost use Rattle.nomos_machine.specs.declared.object.Object.TheVariants as object;
ghost use Rattle.nomos_machine.specs.declared.object.Process.{Process};
ghost use Rattle.nomos_plain.specs.declared.plain_object.PlainProcess.{PlainProcess as Kept};
ghost use Rattle.nomos_plain.specs.Parts.{any_mentions, HasRoom, HasSpare, IsSound, hole, object_in, process_in, state_of};

use crate::finds::{any_mentions, place_of};
use crate::plain_object::{PlainObject, PlainProcess};
use nomos_ir::ids::TypeId;
use nomos_ir::value::Value;
use nomos_machine::object::{Message, Payload};
use std::alloc::{AllocError, Global};
use std::mem;

/// What a plain state keeps.
#[derive(Drop, Debug)]
pub(crate) struct PlainParts {
    pub(crate) alloc: Global,
    pub(crate) objects: Vec<PlainObject>,
    pub(crate) next_object: u32,
    pub(crate) next_name: u32,
    pub(crate) types: Vec<(u32, TypeId)>,
    pub(crate) balances: Vec<u128>,
    pub(crate) spent: u128,
    pub(crate) results: Vec<(u32, Value)>,
    pub(crate) outside: Vec<u32>,
    /// For how many small changes there is room.
    pub(crate) room: usize,
}

// What stands for a while where an object of this number is taken out.
fn hole(number: u32) -> PlainObject
    ensures { object_in result ≡ object.Message (hole number) }
{
    PlainObject::Message(Message {
        number,
        to_client: false,
        from: 0,
        next: None,
        payload: Payload::Close,
        purse: 0,
    })
}

impl PlainObject {
    // Makes room for so many channels more, where it is a process.
    fn reserve(&mut self, channels: usize) -> Result<(), AllocError>
        ensures object { object_in self.new ≡ object_in self.old }
        ensures ok { OnOk result (HasRoom channels self.new) }
        ensures room { (n : ℕ) → HasRoom n self.old → HasRoom n self.new }
    {
        match self {
            PlainObject::Process(process) => process.channels.reserve(channels),
            PlainObject::Message(_) => Ok(()),
        }
    }
}

// Makes room for so many channels more in each process.
fn reserve_channels(objects: &mut Vec<PlainObject>, channels: usize) -> Result<(), AllocError>
    ensures objects { map object_in objects.new.items ≡ map object_in objects.old.items }
    ensures len { vec_len objects.new ≡ vec_len objects.old }
    ensures capacity { vec_capacity objects.new ≡ vec_capacity objects.old }
    ensures ok { OnOk result (All (HasRoom channels) objects.new.items) }
    ensures room { (n : ℕ) → All (HasRoom n) objects.old.items → All (HasRoom n) objects.new.items }
{
    for at in 0..objects.len() {
        objects[at].reserve(channels)?;
    }
    Ok(())
}

// Takes the names away that no object mentions.
fn drop_unmentioned(objects: &[PlainObject], types: &mut Vec<(u32, TypeId)>)
    ensures items { types.new.items ≡ filter (λ t. any_mentions objects.now t.0) types.old.items }
    ensures len { vec_len types.new ≤ vec_len types.old }
    ensures capacity { vec_capacity types.new ≡ vec_capacity types.old }
{
    types.retain(|t| any_mentions(objects, t.0));
}

impl PlainParts {
    /// Takes out the process of this number; a hole stands there meanwhile.
    #[tactic(auto, using(crate::proofs::PlaceLemmas::place_within, crate::proofs::PlaceLemmas::place_set, crate::proofs::PlaceLemmas::place_found))]
    pub(crate) fn take(&mut self, pid: u32) -> Option<PlainProcess>
        requires { IsSound self.old }
        ensures found { (p : Process) → process_at (state_of self.old) pid ≡ Some p
            → IfSome result (λ k. process_in k ≡ p) }
        ensures some { (p : Process) → process_at (state_of self.old) pid ≡ Some p → IsSome result }
        ensures there { IfSome result (λ k. process_at (state_of self.old) pid ≡ Some (process_in k)) }
        ensures pid { IfSome result (λ k. k.pid ≡ pid) }
        ensures state { IfSome result (λ k. state_of self.new ≡ record (state_of self.old)
            { objects = put_at pid (Some (object.Message (hole pid))) (state_of self.old).objects }) }
        ensures sound { IsSound self.new }
        ensures channels { (k : Kept) → result ≡ Some k → vec_len k.channels + self.old.room ≤ vec_capacity k.channels }
        ensures room { self.new.room ≡ self.old.room }
    {
        let at = place_of(&self.objects, pid)?;
        match mem::replace(&mut self.objects[at], hole(pid)) {
            PlainObject::Process(process) => Some(process),
            PlainObject::Message(message) => {
                self.objects[at] = PlainObject::Message(message);
                None
            }
        }
    }

    /// Puts a process where one of its number stands, or a hole.
    #[tactic(auto, using(crate::proofs::PlaceLemmas::place_within, crate::proofs::PlaceLemmas::place_set, crate::proofs::PlaceLemmas::put_nowhere))]
    pub(crate) fn put(&mut self, process: PlainProcess)
        requires sound { IsSound self.old }
        requires channels { vec_len process.channels + self.old.room ≤ vec_capacity process.channels }
        ensures state { state_of self.new ≡ record (state_of self.old)
            { objects = put_at process.pid (Some (object.Process (process_in process))) (state_of self.old).objects } }
        ensures sound { IsSound self.new }
        ensures room { self.new.room ≡ self.old.room }
    {
        if let Some(at) = place_of(&self.objects, process.pid) {
            self.objects[at] = PlainObject::Process(process);
        }
    }

    // Makes room for so many small changes. Want of memory leaves the state as it was.
    fn reserve(&mut self, changes: usize) -> Result<(), AllocError>
        requires { IsSound self.old }
        ensures state { state_of self.new ≡ state_of self.old }
        ensures ok { OnOk result (HasSpare changes self.new) }
        ensures sound { IsSound self.new }
        ensures room { self.new.room ≡ self.old.room }
    {
        self.objects.reserve(changes)?;
        self.types.reserve(changes)?;
        reserve_channels(&mut self.objects, changes)
    }

    /// Makes room for so many small changes, and counts it. Where there is room already, it cannot fail. Want of memory
    /// leaves the state as it was.
    pub(crate) fn make_room(&mut self, changes: usize) -> Result<(), AllocError>
        requires { IsSound self.old }
        ensures state { state_of self.new ≡ state_of self.old }
        ensures ok { OnOk result (changes ≤ self.new.room) }
        ensures sound { IsSound self.new }
        ensures room { self.old.room ≤ self.new.room }
        ensures frugal { changes ≤ self.old.room → IsOk result }
    {
        if changes <= self.room {
            return Ok(());
        }
        self.reserve(changes)?;
        self.room = changes;
        Ok(())
    }

    /// Names that no object mentions have no type any more.
    pub(crate) fn tidy(&mut self)
        requires { IsSound self.old }
        ensures state { state_of self.new ≡ tidied (state_of self.old) }
        ensures sound { IsSound self.new }
        ensures room { self.new.room ≡ self.old.room }
    {
        drop_unmentioned(&self.objects, &mut self.types);
    }
}
