//! Session types as trees.
use crate::name_at::NameAt;
use crate::potential::Potential;
use crate::value_type::ValueType;

/// Whether it is the provider that sends (or chooses, or pays), or the client.
#[derive(Clone, Copy, PartialEq, Eq, Debug)]
pub enum Sender {
    Provider,
    Client,
}

/// A session type. Offsets are in bytes, those of the symbol that tells the type's form.
#[derive(Drop)]
#[cycle(types)]
pub enum SurfaceType {
    /// `1`
    One {
        at: u32,
    },
    /// The name of a definition.
    Named {
        name: NameAt,
    },
    /// `+{..}`, where the provider chooses, or `&{..}`. Of a text it has one branch or more.
    Choice {
        sender: Sender,
        at: u32,
        branches: Vec<SurfaceBranch>,
    },
    /// `A * B`, where the provider sends the channel, or `A -o B`.
    Channel {
        sender: Sender,
        at: u32,
        carried: Box<SurfaceType>,
        goes: Box<SurfaceType>,
    },
    /// `t /\ A`, where the provider sends the value, or `t -> A`.
    Value {
        sender: Sender,
        at: u32,
        value: ValueType,
        goes: Box<SurfaceType>,
    },
    /// `|{q}> A`, where the provider pays, or `<{q}| A`.
    Paying {
        sender: Sender,
        at: u32,
        potential: Potential,
        goes: Box<SurfaceType>,
    },
    /// `up A`
    Up {
        at: u32,
        goes: Box<SurfaceType>,
    },
    /// `down A`
    Down {
        at: u32,
        goes: Box<SurfaceType>,
    },
    /// `(A)`
    Grouped {
        inner: Box<SurfaceType>,
    },
}

/// A label of a choice, and the type with which it goes on.
#[derive(Drop)]
#[cycle(types)]
pub struct SurfaceBranch {
    pub label: NameAt,
    pub goes: SurfaceType,
}
