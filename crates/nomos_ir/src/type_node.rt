//! Types: the nodes of their trees, and their definitions.
use crate::amount::Amount;
use crate::ids::{DefId, Label, TypeId};
use crate::items::Items;
use crate::kind::Kind;
use crate::mode::Mode;
use crate::name::Name;

/// A label of a choice, and the type with which it goes on.
#[derive(Clone, Copy, PartialEq, Eq, Debug)]
pub struct Branch {
    pub label: Label,
    pub goes: TypeId,
}

/// The branches of a choice, in order of text.
pub type Branches = Items<Branch>;

/// A node of a session type.
#[derive(Drop, Debug)]
pub enum TypeNode {
    /// The end, `1`.
    One,
    /// The provider chooses, `+{..}`.
    Plus(Branches),
    /// The client chooses, `&{..}`.
    With(Branches),
    /// The provider sends a channel, `A * B`.
    Tensor(TypeId, TypeId),
    /// The provider receives a channel, `A -o B`.
    Lolli(TypeId, TypeId),
    /// The provider sends a value, `t /\ A`.
    ValueOut(Kind, TypeId),
    /// The provider receives a value, `t -> A`.
    ValueIn(Kind, TypeId),
    /// The provider pays, `|{q}> A`.
    PotOut(Amount, TypeId),
    /// The client pays, `<{q}| A`.
    PotIn(Amount, TypeId),
    /// A shared channel that can be acquired, `up A`.
    Up(TypeId),
    /// The channel goes back to shared, `down B`.
    Down(TypeId),
    /// The type of a definition, by its name.
    Named(DefId),
}

/// A type node beside its offset in the text, in bytes.
#[derive(Drop, Debug)]
pub struct TypeAt {
    pub node: TypeNode,
    pub at: u32,
}

/// The type nodes of a program.
pub type TypeAts = Items<TypeAt>;

/// The definition of a type name.
#[derive(Drop, Debug)]
pub struct Def {
    pub name: Name,
    pub mode: Mode,
    pub body: TypeId,
}

/// The definitions of a program.
pub type Defs = Items<Def>;
