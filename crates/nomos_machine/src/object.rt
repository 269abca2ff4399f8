//! What a state of the machine consists of, processes and messages; and what an outside party says and hears.

use nomos_ir::ids::{CodeId, Label, VarId};
use nomos_ir::items::Items;
use nomos_ir::mode::Mode;
use nomos_ir::value::{Value, Values};

/// Variables with their values.
pub type VarValues = Items<(VarId, Value)>;

/// A list that carries potential: its elements, and what each of them carries, in Dths.
#[derive(Drop, Debug)]
pub struct PotentialList {
    pub amount: u64,
    pub items: Values,
}

/// Variables with their lists that carry potential.
pub type VarLists = Items<(VarId, PotentialList)>;

/// Variables with the present names of their channels.
pub type VarNames = Items<(VarId, u32)>;

/// What a message brings.
#[derive(Drop, Debug)]
pub enum Payload {
    Label(Label),
    Value(Value),
    /// The name of a channel.
    Channel(u32),
    /// Potential alone, which is the message's purse.
    Pay,
    /// The end of the talk.
    Close,
}

/// A process. Its purse counts Dths, and the potential of its lists is part of it; its channels and what it offers are
/// names; its payer is the number of an account.
#[derive(Drop, Debug)]
pub struct Process {
    pub pid: u32,
    pub mode: Mode,
    /// The instruction at which it stands.
    pub code: CodeId,
    pub values: VarValues,
    pub lists: VarLists,
    pub channels: VarNames,
    pub offers: u32,
    /// The shared name to which it goes back, at mode L.
    pub base: Option<u32>,
    pub purse: u128,
    pub payer: u32,
}

/// A message on its way: to the client of a channel, or to its provider. It is read on the name `from`, and the talk
/// goes on under the name `next`, which a close has not. Its purse counts Dths.
#[derive(Drop, Debug)]
pub struct Message {
    pub number: u32,
    pub to_client: bool,
    pub from: u32,
    pub next: Option<u32>,
    pub payload: Payload,
    pub purse: u128,
}

/// A process or a message; one counter numbers both.
#[derive(Drop, Debug)]
pub enum Object {
    Process(Process),
    Message(Message),
}

/// What an outside party says on its channel.
#[derive(Drop, Debug)]
pub enum Said {
    Label(Label),
    Value(Value),
    /// As much potential as the channel's type asks for.
    Pay,
}

/// What it hears there.
#[derive(Drop, Debug)]
pub enum Heard {
    Label(Label),
    Value(Value),
    /// So many Dths.
    Paid(u64),
    /// The end of the talk.
    Closed,
}
