//! What a firing looks up, however a state is kept.
ghost use Rattle.std.specs.Prelude.{◌≡◌, ◌+◌, nat_le, Some};
ghost use Rattle.std.specs.Option.{option_map};
ghost use Rattle.nomos_ir.specs.Bindings.{bound_to};
ghost use Rattle.nomos_ir.specs.ValueNode.{value_of};
ghost use Rattle.nomos_machine.specs.Deeds.{is_light, lengthened};
ghost use Rattle.nomos_machine.specs.Objects.{potential_of};
ghost use Rattle.nomos_machine.specs.Sight.{message_on, offering, owner};
ghost use Rattle.nomos_machine.specs.State.{State, process_at, type_of};
ghost use Rattle.nomos_machine.specs.declared.object.PotentialList.{PotentialList};
ghost use Rattle.nomos_machine.specs.declared.object.Process.{Process};
ghost use Rattle.nomos_deeds.specs.SeenObjects.{seen_process, seen_message, seen_list};

use nomos_ir::ids::{CodeId, Label, TypeId, VarId};
use nomos_ir::mode::Mode;
use nomos_ir::value::Value;
use nomos_ir::value_node::ValueNode;

/// A process without its values, lists and channels.
#[derive(Clone, Copy, Debug)]
pub struct SeenProcess {
    pub pid: u32,
    pub mode: Mode,
    /// The instruction at which it stands.
    pub code: CodeId,
    pub offers: u32,
    pub base: Option<u32>,
    /// In Dths.
    pub purse: u128,
    pub payer: u32,
}

/// What a message brings, without the value.
#[derive(Clone, Copy, Debug)]
pub enum SeenPayload {
    Label(Label),
    Value,
    /// The name of a channel.
    Channel(u32),
    Pay,
    Close,
}

/// A message, without the value that it may bring.
#[derive(Clone, Copy, Debug)]
pub struct SeenMessage {
    pub number: u32,
    /// The name under which the talk goes on.
    pub next: Option<u32>,
    pub brings: SeenPayload,
}

/// A list that carries potential, without its elements.
#[derive(Clone, Copy, Debug)]
pub struct SeenList {
    /// What each element carries, in Dths.
    pub amount: u64,
    pub is_empty: bool,
}

/// What a firing looks up. Each call finds what a scan of the state's objects finds, and takes no memory.
pub trait Sight {
    /// The state, however it is kept.
    ghost state: { Self → State };

    /// The process of this number, if there is one.
    fn process(&self, pid: u32) -> Option<SeenProcess>
        ensures { result ≡ option_map seen_process (process_at (state self.now) pid) };

    /// The values of a process.
    fn values(&self, pid: u32) -> &[(VarId, Value)]
        ensures { (p : Process) → process_at (state self.now) pid ≡ Some p → result.now ≡ p.values };

    /// The present name of a process's channel.
    fn channel(&self, pid: u32, v: VarId) -> Option<u32>
        ensures { (p : Process) → process_at (state self.now) pid ≡ Some p → result ≡ bound_to v.0 p.channels };

    /// A list of a process that carries potential.
    fn list(&self, pid: u32, w: VarId) -> Option<SeenList>
        ensures { (p : Process) → process_at (state self.now) pid ≡ Some p
            → result ≡ option_map seen_list (bound_to w.0 p.lists) };

    /// Whether a list of a process is light enough for one more element, this one; it is where there is no such list.
    fn is_light_with(&self, pid: u32, w: VarId, first: &ValueNode) -> bool
        ensures { (p : Process) (l : PotentialList) → process_at (state self.now) pid ≡ Some p
            → bound_to w.0 p.lists ≡ Some l → result ≡ is_light (lengthened (value_of first.now) l) };

    /// Whether the purse of a process has so many Dths beside the potential of its lists.
    fn affords(&self, pid: u32, gas: u64) -> bool
        ensures { (p : Process) → process_at (state self.now) pid ≡ Some p
            → result ≡ nat_le (gas + potential_of p) p.purse };

    /// The first message that is read on this name and goes this way.
    fn message_on(&self, to_client: bool, name: u32) -> Option<SeenMessage>
        ensures { result ≡ option_map seen_message (message_on (state self.now).objects to_client name) };

    /// The first process that offers this name.
    fn offering(&self, name: u32) -> Option<SeenProcess>
        ensures { result ≡ option_map seen_process (offering (state self.now).objects name) };

    /// The number of the first object that uses this name.
    fn user(&self, name: u32) -> Option<u32>
        ensures { result ≡ owner (state self.now) name };

    /// The type of this name.
    fn type_of(&self, name: u32) -> Option<TypeId>
        ensures { result ≡ type_of (state self.now).types name };
}
