//! The code of processes: the nodes of its trees.
use crate::amount::Amount;
use crate::code_form::CodeForm;
use crate::ids::{CodeId, Label, ProcId, TermId, VarId};
use crate::items::Items;
use crate::kind::Kind;

/// The channel at which an instruction works: the process's own, or one that it holds.
#[derive(Clone, Copy, PartialEq, Eq, Debug)]
pub enum Chan {
    Own,
    Var(VarId),
}

/// Variables in order of text.
pub type VarIds = Items<VarId>;

/// An argument that is no channel: a term, or a list variable, whose list goes over with its potential.
#[derive(Clone, Copy, PartialEq, Eq, Debug)]
pub enum ValueArg {
    Term(TermId),
    List(VarId),
}

/// Arguments that are no channels, in order of text.
pub type ValueArgs = Items<ValueArg>;

/// The arguments of a spawned or called process: its values and lists, then its channels.
#[derive(Drop, Debug)]
pub struct Args {
    pub values: ValueArgs,
    pub channels: VarIds,
}

/// A label of a `case`, and the code with which it goes on.
#[derive(Clone, Copy, PartialEq, Eq, Debug)]
pub struct Arm {
    pub label: Label,
    pub goes: CodeId,
}

/// The branches of a `case`, in order of text.
pub type Arms = Items<Arm>;

/// An instruction of a process with the code that follows. The first part is its offset in the text, in
/// bytes; the others stand in order of text, and the code with which it goes on is last.
#[derive(Drop, Debug)]
pub enum CodeNode {
    Label(u32, Chan, Label, CodeId),
    Case(u32, Chan, Arms),
    Send(u32, Chan, VarId, CodeId),
    Recv(u32, Chan, VarId, CodeId),
    Put(u32, Chan, TermId, CodeId),
    Take(u32, Chan, VarId, CodeId),
    Pay(u32, Chan, Amount, CodeId),
    Get(u32, Chan, Amount, CodeId),
    Work(u32, Amount, CodeId),
    Wait(u32, VarId, CodeId),
    Accept(u32, CodeId),
    Detach(u32, CodeId),
    /// The shared channel that is acquired, and the name of the linear one.
    Acquire(u32, VarId, VarId, CodeId),
    /// The linear channel that is released, and the name of the shared one.
    Release(u32, VarId, VarId, CodeId),
    Spawn(u32, VarId, ProcId, Args, CodeId),
    Let(u32, VarId, TermId, CodeId),
    Emit(u32, TermId, CodeId),
    /// The test, the code where it is true, and the code where it is false.
    If(u32, TermId, CodeId, CodeId),
    Close(u32),
    Fwd(u32, VarId),
    Call(u32, ProcId, Args),
    /// The name of the empty list, the amount that each element carries, and the kind of elements.
    Empty(u32, VarId, Amount, Kind, CodeId),
    /// The name of the longer list, its first element, and the list that goes behind it.
    Add(u32, VarId, TermId, VarId, CodeId),
    /// The list, the code where it is empty, the names of its head and its tail, and the code where it
    /// has them.
    Match(u32, VarId, CodeId, VarId, VarId, CodeId),
}

impl CodeNode {
    ghost use Rattle.std.specs.Prelude.{◌≡◌};
    ghost use Rattle.nomos_ir.specs.Instruction.{code_offset, code_form};

    /// The offset of the instruction in the text, in bytes.
    pub fn offset(&self) -> u32
        ensures { result ≡ code_offset self.now }
    {
        match self {
            CodeNode::Label(at, _, _, _)
            | CodeNode::Case(at, _, _)
            | CodeNode::Send(at, _, _, _)
            | CodeNode::Recv(at, _, _, _)
            | CodeNode::Put(at, _, _, _)
            | CodeNode::Take(at, _, _, _)
            | CodeNode::Pay(at, _, _, _)
            | CodeNode::Get(at, _, _, _)
            | CodeNode::Work(at, _, _)
            | CodeNode::Wait(at, _, _)
            | CodeNode::Accept(at, _)
            | CodeNode::Detach(at, _)
            | CodeNode::Acquire(at, _, _, _)
            | CodeNode::Release(at, _, _, _)
            | CodeNode::Spawn(at, _, _, _, _)
            | CodeNode::Let(at, _, _, _)
            | CodeNode::Emit(at, _, _)
            | CodeNode::If(at, _, _, _)
            | CodeNode::Close(at)
            | CodeNode::Fwd(at, _)
            | CodeNode::Call(at, _, _)
            | CodeNode::Empty(at, _, _, _, _)
            | CodeNode::Add(at, _, _, _, _)
            | CodeNode::Match(at, _, _, _, _, _) => *at,
        }
    }

    /// The form of the instruction, by which a refusal calls it.
    pub fn form(&self) -> CodeForm
        ensures { result ≡ code_form self.now }
    {
        match self {
            CodeNode::Label(..) => CodeForm::Label,
            CodeNode::Case(..) => CodeForm::Case,
            CodeNode::Send(..) => CodeForm::Send,
            CodeNode::Recv(..) => CodeForm::Recv,
            CodeNode::Put(..) => CodeForm::Put,
            CodeNode::Take(..) => CodeForm::Take,
            CodeNode::Pay(..) => CodeForm::Pay,
            CodeNode::Get(..) => CodeForm::Get,
            CodeNode::Work(..) => CodeForm::Work,
            CodeNode::Wait(..) => CodeForm::Wait,
            CodeNode::Accept(..) => CodeForm::Accept,
            CodeNode::Detach(..) => CodeForm::Detach,
            CodeNode::Acquire(..) => CodeForm::Acquire,
            CodeNode::Release(..) => CodeForm::Release,
            CodeNode::Spawn(..) => CodeForm::Spawn,
            CodeNode::Let(..) => CodeForm::Let,
            CodeNode::Emit(..) => CodeForm::Emit,
            CodeNode::If(..) => CodeForm::If,
            CodeNode::Close(..) => CodeForm::Close,
            CodeNode::Fwd(..) => CodeForm::Fwd,
            CodeNode::Call(..) => CodeForm::Call,
            CodeNode::Empty(..) => CodeForm::Empty,
            CodeNode::Add(..) => CodeForm::Add,
            CodeNode::Match(..) => CodeForm::Match,
        }
    }
}

/// The code nodes of a program.
pub type CodeNodes = Items<CodeNode>;
