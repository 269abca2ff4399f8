//! The declarations of functions and processes.
use crate::amount::Amount;
use crate::ids::{CodeId, TermId, TypeId, VarId};
use crate::items::Items;
use crate::kind::Kind;
use crate::mode::Mode;
use crate::name::Name;

/// Value parameters: variables, each with the kind of its value.
pub type VarKinds = Items<(VarId, Kind)>;

/// The kinds of the variables in scope.
pub type Kinds = VarKinds;

/// Channel parameters: variables, each with the type of its channel.
pub type VarTypes = Items<(VarId, TypeId)>;

/// The declaration of a function. `at` is the offset of its name in the text, in bytes.
#[derive(Drop, Debug)]
pub struct FnDecl {
    pub name: Name,
    pub at: u32,
    pub pars: VarKinds,
    pub gives: Kind,
    pub body: TermId,
}

/// The functions of a program.
pub type FnDecls = Items<FnDecl>;

/// A parameter of a process that is no channel. With an amount it is a list, each of whose elements carries
/// that amount and has the kind; without one it is a value of the kind.
#[derive(Clone, Copy, PartialEq, Eq, Debug)]
pub struct Par {
    pub var: VarId,
    pub kind: Kind,
    pub amount: Option<Amount>,
}

/// Parameters that are no channels, in order of text.
pub type Pars = Items<Par>;

/// The declaration of a process. `me` is there exactly at mode T.
#[derive(Drop, Debug)]
pub struct ProcDecl {
    pub name: Name,
    pub mode: Mode,
    pub me: Option<VarId>,
    pub values: Pars,
    pub channels: VarTypes,
    pub amount: Amount,
    pub offers: TypeId,
    pub first: CodeId,
}

/// The process declarations of a program.
pub type ProcDecls = Items<ProcDecl>;
