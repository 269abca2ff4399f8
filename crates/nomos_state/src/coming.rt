//! Objects come to an indexed state.
ghost use Rattle.std.specs.Prelude.{◌≡◌, ◌≤◌, ◌<◌, ◌+◌, ◌-◌, ◌^◌, ℕ, IfOk, IsOk, OnErr, OnOk, length};
ghost use Rattle.nomos_deeds.specs.declared.sight.SeenPayload.TheVariants as seen;
ghost use Rattle.nomos_machine.specs.declared.object.Object.TheVariants as object;
ghost use Rattle.nomos_changes.specs.SmallChanges.{BringsNoValue, process_born, with_object};
ghost use Rattle.nomos_state.specs.Objects.{payload_of};

use crate::binding::{bind_pairs, reserve_names};
use crate::inside::Inside;
use crate::kept::{Kept, KeptMessage, KeptProcess};
use crate::purse::Purse;
use crate::span::span_of;
use crate::weights::kept_lists;
use nomos_changes::newborn::Newborn;
use nomos_changes::pairs::is_map;
use nomos_deeds::sight::SeenPayload;
use nomos_ir::ids::VarId;
use nomos_ir::value::Value;
use nomos_machine::object::{Message, Payload};
use std::alloc::{AllocError, Global};

// What a message brings, and the row with its value.
fn carried(
    alloc: Global,
    payload: Payload,
) -> Result<(SeenPayload, Vec<(VarId, Value)>), AllocError>
    ensures payload { IfOk result (λ made. payload_of made.0 made.1.items ≡ payload) }
    ensures row { IfOk result (λ made. made.0 ≡ seen.Value → 1 ≤ length made.1.items) }
    ensures frugal { BringsNoValue payload → IsOk result }
{
    let mut row = Vec::new(alloc);
    match payload {
        Payload::Label(label) => Ok((SeenPayload::Label(label), row)),
        Payload::Value(x) => {
            row.push((VarId(0), x))?;
            Ok((SeenPayload::Value, row))
        }
        Payload::Channel(name) => Ok((SeenPayload::Channel(name), row)),
        Payload::Pay => Ok((SeenPayload::Pay, row)),
        Payload::Close => Ok((SeenPayload::Close, row)),
    }
}

impl Inside {
    /// A message comes, which has the next number. It takes no memory where it brings no value.
    pub fn come_message(&mut self, alloc: Global, message: Message) -> Result<(), AllocError>
        requires room { 0 < self.old.room }
        requires number { message.number ≡ self.old.state.next_object }
        requires fits { self.old.state.next_object < 2 ^ 32 - 1 }
        ensures ok { OnOk result (self.new.state ≡ with_object (object.Message message) self.old.state) }
        ensures err { OnErr result (self.new.state ≡ self.old.state) }
        ensures room { self.old.room ≤ self.new.room + 1 }
        ensures frugal { BringsNoValue message.payload → IsOk result }
        ensures marked { self.new.marked ≡ self.old.marked }
    {
        let (brings, row) = carried(alloc, message.payload)?;
        let kept = KeptMessage {
            to_client: message.to_client,
            from: message.from,
            next: message.next,
            brings,
            purse: Purse::of(message.purse),
        };
        self.contents
            .objects
            .push(message.number, Kept::Message(kept));
        self.contents.values.push(row);
        self.contents.lists.push(Vec::new(self.alloc));
        self.contents.numbers.next_object += 1;
        self.room -= 1;
        Ok(())
    }

    /// A process comes, which has the next number.
    pub fn come_process(&mut self, alloc: Global, born: Newborn) -> Result<(), AllocError>
        requires room { 0 < self.old.room }
        requires number { born.fields.pid ≡ self.old.state.next_object }
        requires fits { self.old.state.next_object < 2 ^ 32 - 1 }
        ensures ok { OnOk result (self.new.state ≡ with_object (object.Process (process_born born)) self.old.state) }
        ensures err { OnErr result (self.new.state ≡ self.old.state) }
        ensures room { self.old.room ≤ self.new.room + 1 }
        ensures marked { self.new.marked ≡ self.old.marked }
    {
        let pid = born.fields.pid;
        let count = born.channels.len();
        reserve_names(&mut self.contents.channels, alloc, count, self.room)?;
        bind_pairs(&mut self.contents.channels, pid, &born.channels);
        let ascends = is_map(&born.values);
        let lists = kept_lists(&born.lists);
        let kept = KeptProcess::of(born.fields, span_of(&born.channels), ascends, lists);
        self.contents.objects.push(pid, Kept::Process(kept));
        self.contents.values.push(born.values);
        self.contents.lists.push(born.lists);
        self.contents.numbers.next_object += 1;
        self.room -= 1;
        Ok(())
    }
}
