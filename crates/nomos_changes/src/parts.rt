//! The small changes that acts are made of, however a state is kept.
ghost use Rattle.std.specs.Prelude.{◌≡◌, ◌≤◌, ◌<◌, ◌+◌, ◌-◌, ◌^◌, ◌∷◌, ◌++◌, [], ℕ, Option, Some, IsOk, IfOk, OnOk, OnErr, length, map, slice_index};
ghost use Rattle.std.specs.Option.{option_map};
ghost use Rattle.nomos_deeds.specs.Acts.{message_at};
ghost use Rattle.nomos_deeds.specs.SeenObjects.{seen_message};
ghost use Rattle.nomos_machine.specs.Change.{CanGive, paid_in, paid_out, tidied};
ghost use Rattle.nomos_machine.specs.Revised.{renamed, with_channel, with_value, without_channel};
ghost use Rattle.nomos_machine.specs.State.{State, process_at};
ghost use Rattle.nomos_machine.specs.declared.object.Message.{Message as Sent};
ghost use Rattle.nomos_machine.specs.declared.object.Object.TheVariants as object;
ghost use Rattle.nomos_machine.specs.declared.object.Process.{Process};
ghost use Rattle.nomos_changes.specs.SmallChanges.{Becomes, BringsNoValue, process_born, redirected, value_brought, with_channels, with_fields, with_list_change, with_lists, with_name, with_object, with_values, without_object};

use crate::list_change::ListChange;
use crate::newborn::Newborn;
use nomos_deeds::sight::{SeenMessage, SeenProcess, Sight};
use nomos_ir::ids::{TypeId, VarId};
use nomos_ir::value::Value;
use nomos_machine::object::{Message, PotentialList};
use std::alloc::{AllocError, Global};

/// What a state is changed by, a small change at a time. Room is counted in small changes: who makes some makes room
/// first, by [`Parts::make_room`], and each takes one of it at most, or two where it says so. Those that answer nothing
/// take no memory then.
/// Want of memory leaves the state as it was. A change of a process says nothing where no process has the number.
pub trait Parts: Sight {
    /// For how many small changes there is room.
    ghost room: { Self → ℕ };

    /// The state that is marked, if one is.
    ghost marked: { Self → Option State };

    /// Makes room for so many small changes. Where there is room already, it cannot fail.
    fn make_room(&mut self, changes: usize) -> Result<(), AllocError>
        ensures state { Self.state self.new ≡ Self.state self.old }
        ensures ok { OnOk result (changes ≤ room self.new) }
        ensures room { room self.old ≤ room self.new }
        ensures frugal { changes ≤ room self.old → IsOk result }
        ensures marked { marked self.new ≡ marked self.old };

    /// The number that the next object will have. This reader and the next take no memory.
    fn next_number(&self) -> u32
        ensures { result ≡ (Self.state self.now).next_object };

    /// The number that the next name will have.
    fn fresh_name(&self) -> u32
        ensures { result ≡ (Self.state self.now).next_name };

    /// The lists of a process that carry potential.
    fn lists(&self, pid: u32) -> &[(VarId, PotentialList)]
        ensures { (p : Process) → process_at (Self.state self.now) pid ≡ Some p → result.now ≡ p.lists };

    /// The message of this number, if there is one. It takes no memory.
    fn message(&self, number: u32) -> Option<SeenMessage>
        ensures { result ≡ option_map seen_message (message_at (Self.state self.now).objects number) };

    /// What the message of this number carries, in Dths. It takes no memory.
    fn message_purse(&self, number: u32) -> u128
        ensures { (m : Sent) → message_at (Self.state self.now).objects number ≡ Some m → result ≡ m.purse };

    /// The value that the message of this number brings, if it brings one, once more.
    fn message_value(&self, alloc: Global, number: u32) -> Result<Option<Value>, AllocError>
        ensures { IfOk result (λ found. found ≡ value_brought (Self.state self.now).objects number) };

    /// The process of this number has these plain fields, but for the number, which it has already.
    fn set_fields(&mut self, fields: SeenProcess)
        requires room { 0 < room self.old }
        ensures state { Becomes (Self.state self.old) fields.pid (with_fields fields) (Self.state self.new) }
        ensures room { room self.old ≤ room self.new + 1 }
        ensures marked { marked self.new ≡ marked self.old };

    /// A channel of the process is bound to a variable.
    fn bind_channel(&mut self, pid: u32, v: VarId, name: u32)
        requires room { 0 < room self.old }
        ensures state { Becomes (Self.state self.old) pid (with_channel v name) (Self.state self.new) }
        ensures room { room self.old ≤ room self.new + 1 }
        ensures marked { marked self.new ≡ marked self.old };

    /// A variable of the process has no channel any longer. It takes no room.
    fn unbind_channel(&mut self, pid: u32, v: VarId)
        ensures state { Becomes (Self.state self.old) pid (without_channel v) (Self.state self.new) }
        ensures room { room self.old ≤ room self.new }
        ensures marked { marked self.new ≡ marked self.old };

    /// The process has these channels; of a variable that stands twice the first pair counts.
    fn replace_channels(
        &mut self,
        alloc: Global,
        pid: u32,
        channels: Vec<(VarId, u32)>,
    ) -> Result<(), AllocError>
        requires room { 0 < room self.old }
        ensures ok { OnOk result
            (Becomes (Self.state self.old) pid (with_channels channels.items) (Self.state self.new)) }
        ensures err { OnErr result (Self.state self.new ≡ Self.state self.old) }
        ensures room { room self.old ≤ room self.new + 1 }
        ensures marked { marked self.new ≡ marked self.old };

    /// A variable of the process is bound to a value.
    fn bind_value(&mut self, alloc: Global, pid: u32, v: VarId, x: Value) -> Result<(), AllocError>
        requires room { 0 < room self.old }
        ensures ok { OnOk result (Becomes (Self.state self.old) pid (with_value v x) (Self.state self.new)) }
        ensures err { OnErr result (Self.state self.new ≡ Self.state self.old) }
        ensures room { room self.old ≤ room self.new + 1 }
        ensures marked { marked self.new ≡ marked self.old };

    /// The process has these values.
    fn put_values(&mut self, pid: u32, values: Vec<(VarId, Value)>)
        requires room { 0 < room self.old }
        ensures state { Becomes (Self.state self.old) pid (with_values values.items) (Self.state self.new) }
        ensures room { room self.old ≤ room self.new + 1 }
        ensures marked { marked self.new ≡ marked self.old };

    /// The process has these lists.
    fn put_lists(&mut self, pid: u32, lists: Vec<(VarId, PotentialList)>)
        requires room { 0 < room self.old }
        ensures state { Becomes (Self.state self.old) pid (with_lists lists.items) (Self.state self.new) }
        ensures room { room self.old ≤ room self.new + 1 }
        ensures marked { marked self.new ≡ marked self.old };

    /// One list of the process is used up, one is bound, and a value is, each if it is to be. It takes the room of two.
    fn change_lists(
        &mut self,
        alloc: Global,
        pid: u32,
        change: ListChange,
    ) -> Result<(), AllocError>
        requires room { 2 ≤ room self.old }
        ensures ok { OnOk result (Becomes (Self.state self.old) pid (with_list_change change) (Self.state self.new)) }
        ensures err { OnErr result (Self.state self.new ≡ Self.state self.old) }
        ensures room { room self.old ≤ room self.new + 2 }
        ensures marked { marked self.new ≡ marked self.old };

    /// A message comes, which has the next number. It takes no memory where it brings no value.
    fn come_message(&mut self, alloc: Global, message: Message) -> Result<(), AllocError>
        requires room { 0 < room self.old }
        requires number { message.number ≡ (Self.state self.old).next_object }
        requires fits { (Self.state self.old).next_object < 2 ^ 32 - 1 }
        ensures ok { OnOk result (Self.state self.new ≡ with_object (object.Message message) (Self.state self.old)) }
        ensures err { OnErr result (Self.state self.new ≡ Self.state self.old) }
        ensures room { room self.old ≤ room self.new + 1 }
        ensures frugal { BringsNoValue message.payload → IsOk result }
        ensures marked { marked self.new ≡ marked self.old };

    /// A process comes, which has the next number.
    fn come_process(&mut self, alloc: Global, born: Newborn) -> Result<(), AllocError>
        requires room { 0 < room self.old }
        requires number { born.fields.pid ≡ (Self.state self.old).next_object }
        requires fits { (Self.state self.old).next_object < 2 ^ 32 - 1 }
        ensures ok { OnOk result
            (Self.state self.new ≡ with_object (object.Process (process_born born)) (Self.state self.old)) }
        ensures err { OnErr result (Self.state self.new ≡ Self.state self.old) }
        ensures room { room self.old ≤ room self.new + 1 }
        ensures marked { marked self.new ≡ marked self.old };

    /// The object of this number leaves.
    fn leave(&mut self, number: u32)
        requires room { 0 < room self.old }
        ensures state { Self.state self.new ≡ without_object number (Self.state self.old) }
        ensures room { room self.old ≤ room self.new + 1 }
        ensures marked { marked self.new ≡ marked self.old };

    /// The next name comes, and has this type.
    fn come_name(&mut self, t: TypeId)
        requires room { 0 < room self.old }
        requires fits { (Self.state self.old).next_name < 2 ^ 32 - 1 }
        ensures state { Self.state self.new ≡ with_name t (Self.state self.old) }
        ensures room { room self.old ≤ room self.new + 1 }
        ensures marked { marked self.new ≡ marked self.old };

    /// Whoever uses the old name uses the new one instead, an outside party too.
    fn redirect(&mut self, old: u32, new: u32)
        requires room { 0 < room self.old }
        ensures state { Self.state self.new ≡ record (Self.state self.old) {
          objects = redirected old new (Self.state self.old).objects;
          outside = map (renamed old new) (Self.state self.old).outside;
        } }
        ensures room { room self.old ≤ room self.new + 1 }
        ensures marked { marked self.new ≡ marked self.old };

    /// An account has so many Dths more.
    fn pay_in(&mut self, account: u32, dths: u128)
        requires room { 0 < room self.old }
        requires account { account < length (Self.state self.old).balances }
        requires fits { slice_index (Self.state self.old).balances account + dths < 2 ^ 128 }
        ensures state { Self.state self.new ≡ record (Self.state self.old)
            { balances = paid_in (Some (account, dths)) (Self.state self.old).balances } }
        ensures room { room self.old ≤ room self.new + 1 }
        ensures marked { marked self.new ≡ marked self.old };

    /// An account has so many Dths less.
    fn pay_out(&mut self, account: u32, dths: u128)
        requires room { 0 < room self.old }
        requires account { CanGive (Some (account, dths)) (Self.state self.old).balances }
        ensures state { Self.state self.new ≡ record (Self.state self.old)
            { balances = paid_out (Some (account, dths)) (Self.state self.old).balances } }
        ensures room { room self.old ≤ room self.new + 1 }
        ensures marked { marked self.new ≡ marked self.old };

    /// So many Dths are spent. It takes no room.
    fn burn(&mut self, dths: u128)
        requires fits { (Self.state self.old).spent + dths < 2 ^ 128 }
        ensures state { Self.state self.new ≡ record (Self.state self.old)
            { spent = (Self.state self.old).spent + dths } }
        ensures room { room self.old ≤ room self.new }
        ensures marked { marked self.new ≡ marked self.old };

    /// A value is emitted by the process of this number.
    fn emit(&mut self, pid: u32, x: Value) -> Result<(), AllocError>
        ensures ok { OnOk result (Self.state self.new ≡ record (Self.state self.old)
            { results = (Self.state self.old).results ++ (pid, x) ∷ [] }) }
        ensures err { OnErr result (Self.state self.new ≡ Self.state self.old) }
        ensures room { room self.old ≤ room self.new }
        ensures marked { marked self.new ≡ marked self.old };

    /// Names that no object mentions have no type any more. It takes no room.
    fn tidy(&mut self)
        ensures state { Self.state self.new ≡ tidied (Self.state self.old) }
        ensures room { room self.old ≤ room self.new }
        ensures marked { marked self.new ≡ marked self.old };
}
