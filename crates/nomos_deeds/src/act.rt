//! What a process does when it fires, as a plain value of numbers and variables.

use nomos_ir::code_node::Chan;
use nomos_ir::fault::Fault;
use nomos_ir::ids::{CodeId, Label, ProcId, TypeId, VarId};

/// What a message that is sent brings, and what becomes of the sender beside it.
#[derive(Clone, Copy, Debug)]
pub enum Sending {
    Label(Label),
    /// The channel of a variable, with its present name. It goes out of hand, unless it is a reference, which stays.
    Channel {
        variable: VarId,
        name: u32,
        is_reference: bool,
    },
    /// The value of the instruction's term.
    Value,
    /// So many Dths out of the purse.
    Potential(u64),
}

/// Where what a message brings goes.
#[derive(Clone, Copy, Debug)]
pub enum Into {
    /// It is known by now, or is potential alone.
    Nothing,
    /// The channel that it brings is bound to a variable.
    Channel(VarId),
    /// The value that it brings is bound to a variable.
    Value(VarId),
}

/// A send on a channel, which goes on at a type.
#[derive(Clone, Copy, Debug)]
pub struct Send {
    pub channel: Chan,
    pub sending: Sending,
    pub goes: TypeId,
    /// The instruction at which the process goes on.
    pub next: CodeId,
}

/// A receive of the message of this number on a channel.
#[derive(Clone, Copy, Debug)]
pub struct Receive {
    pub channel: Chan,
    pub message: u32,
    pub into: Into,
    /// The instruction at which the process goes on.
    pub next: CodeId,
}

/// An acquire of the contract of a shared name.
#[derive(Clone, Copy, Debug)]
pub struct Acquire {
    /// The variable to which the linear channel is bound.
    pub variable: VarId,
    pub shared: u32,
    /// The number of the process that stands for the shared name.
    pub other: u32,
    /// Where that process goes on.
    pub onward: CodeId,
    /// The type of the linear channel.
    pub goes: TypeId,
    /// The instruction at which the process goes on that acquires.
    pub next: CodeId,
}

/// A release of a channel.
#[derive(Clone, Copy, Debug)]
pub struct Release {
    /// The variable whose channel is released.
    pub variable: VarId,
    /// The variable that is bound to the shared name again.
    pub reference: VarId,
    /// The shared name for which the provider stands again.
    pub shared: u32,
    /// The number of the provider.
    pub other: u32,
    /// Where the provider goes on.
    pub onward: CodeId,
    /// The instruction at which the process goes on that releases.
    pub next: CodeId,
}

/// What a process does when it fires. `next` is the instruction at which it goes on.
#[derive(Clone, Copy, Debug)]
pub enum Act {
    Send(Send),
    Receive(Receive),
    /// It receives the end of the talk on the variable's channel, which is the message of this number.
    Wait {
        variable: VarId,
        message: u32,
        next: CodeId,
    },
    Acquire(Acquire),
    Release(Release),
    /// It spawns a process of the declaration, with the instruction's arguments, whose channel is bound to the
    /// variable.
    Spawn {
        variable: VarId,
        declaration: ProcId,
        next: CodeId,
    },
    /// It goes on at the start of the declaration, with the instruction's arguments.
    Call {
        declaration: ProcId,
    },
    /// It spends so many Dths.
    Work {
        gas: u64,
        next: CodeId,
    },
    /// The value of the instruction's term is bound to the variable.
    Let {
        variable: VarId,
        next: CodeId,
    },
    /// It emits the value of the instruction's term.
    Emit {
        next: CodeId,
    },
    /// It goes on where its test says.
    Choose {
        next: CodeId,
    },
    /// An empty list is bound to the variable, whose elements carry so many Dths each.
    Empty {
        variable: VarId,
        amount: u64,
        next: CodeId,
    },
    /// A list with the value of the instruction's term in front is bound to the variable, and the list is used up.
    Add {
        variable: VarId,
        list: VarId,
        next: CodeId,
    },
    /// An empty list is used up.
    End {
        list: VarId,
        next: CodeId,
    },
    /// A list is used up, and its head and its rest are bound to variables.
    TakeApart {
        list: VarId,
        head: VarId,
        tail: VarId,
        next: CodeId,
    },
    /// It ends.
    Close,
    /// It leaves, and whoever uses its name uses this one instead.
    Forward {
        name: u32,
    },
}

/// What a process does that is ready.
#[derive(Clone, Copy, Debug)]
pub enum Doing {
    Acts(Act),
    Faults(Fault),
}
