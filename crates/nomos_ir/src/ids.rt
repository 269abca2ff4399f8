//! The numbers by which a program's parts are known. Each counts from 0, in a list of the program.

/// The place of a type node among a program's types.
#[derive(Clone, Copy, PartialEq, Eq, Debug)]
pub struct TypeId(pub u32);

/// The place of a term node among a program's terms.
#[derive(Clone, Copy, PartialEq, Eq, Debug)]
pub struct TermId(pub u32);

/// The place of a code node in a program's code.
#[derive(Clone, Copy, PartialEq, Eq, Debug)]
pub struct CodeId(pub u32);

/// The place of a definition among a program's definitions.
#[derive(Clone, Copy, PartialEq, Eq, Debug)]
pub struct DefId(pub u32);

/// The place of a function among a program's functions.
#[derive(Clone, Copy, PartialEq, Eq, Debug)]
pub struct FnId(pub u32);

/// The place of a declaration among a program's process declarations.
#[derive(Clone, Copy, PartialEq, Eq, Debug)]
pub struct ProcId(pub u32);

/// A variable: a number that stands for its name. No list of the program has it.
#[derive(Clone, Copy, PartialEq, Eq, Debug)]
pub struct VarId(pub u32);

/// The place of a label's text among a program's label texts.
#[derive(Clone, Copy, PartialEq, Eq, Debug)]
pub struct Label(pub u32);
