//! Declarations as trees.
use crate::codes::SurfaceCode;
use crate::name_at::NameAt;
use crate::potential::Potential;
use crate::terms::SurfaceTerm;
use crate::types::SurfaceType;
use crate::value_type::ValueType;
use nomos_ir::items::Items;

/// The mode of a definition, or of a process that offers a type.
#[derive(Clone, Copy, PartialEq, Eq, Debug)]
pub enum OfferedMode {
    R,
    S,
    L,
}

/// A value parameter: its name and its type.
#[derive(Drop)]
pub struct ValuePar {
    pub name: NameAt,
    pub value: ValueType,
}

/// The word `list` of a list parameter, by its offset in the text, in bytes, and the potential that each element of
/// the list carries.
#[derive(Clone, Copy, PartialEq, Eq, Debug)]
pub struct ListPotential {
    pub list_at: u32,
    pub potential: Potential,
}

/// A parameter of a process that is no channel. With a potential it is a list whose elements have the type, without
/// one a value of the type.
#[derive(Drop)]
pub struct ProcessPar {
    pub name: NameAt,
    pub list: Option<ListPotential>,
    pub value: ValueType,
}

/// A channel parameter: its name and its type.
#[derive(Drop)]
pub struct SurfaceChanPar {
    pub name: NameAt,
    pub goes: SurfaceType,
}

/// The parameters of a process: `(values; channels)`.
#[derive(Drop)]
pub struct SurfacePars {
    pub values: Items<ProcessPar>,
    pub channels: Items<SurfaceChanPar>,
}

/// `type M NAME = body;`
#[derive(Drop)]
pub struct SurfaceDefinition {
    pub at: u32,
    pub mode: OfferedMode,
    pub name: NameAt,
    pub body: SurfaceType,
}

/// `fn NAME(..): gives = body;`
#[derive(Drop)]
pub struct SurfaceFunction {
    pub at: u32,
    pub name: NameAt,
    pub pars: Items<ValuePar>,
    pub gives: ValueType,
    pub body: SurfaceTerm,
}

/// `proc M NAME(..; ..) {q}: offers = code;`, where the potential may be left out.
#[derive(Drop)]
pub struct SurfaceProcess {
    pub at: u32,
    pub mode: OfferedMode,
    pub name: NameAt,
    pub pars: SurfacePars,
    pub potential: Option<Potential>,
    pub offers: SurfaceType,
    pub code: SurfaceCode,
}

/// `proc T NAME(..; ..) {q} = code;`, where the potential may be left out.
#[derive(Drop)]
pub struct SurfaceTransaction {
    pub at: u32,
    pub name: NameAt,
    pub pars: SurfacePars,
    pub potential: Option<Potential>,
    pub code: SurfaceCode,
}

/// A declaration. `at` is the offset of its first token in the text, in bytes.
#[derive(Drop)]
pub enum SurfaceDecl {
    Definition(SurfaceDefinition),
    Function(SurfaceFunction),
    Process(SurfaceProcess),
    Transaction(SurfaceTransaction),
}
