//! Whether a program is well formed: no definition is a bare name, and the tables of modes are obeyed.
ghost use Rattle.std.specs.Prelude.{◌≡◌, ◌≢◌, ◌<◌, ◌↔◌, IsTrue, IfOk, IfErr, MatchOption, Some, length, slice_get};
ghost use Rattle.nomos_ir.specs.Ids.{ProcInRange};
ghost use Rattle.nomos_ir.specs.TypeParts.{type_names};
ghost use Rattle.nomos_ir.specs.Ids.{AllBelow};
ghost use Rattle.nomos_ir.specs.Program.{IsProgram};
ghost use Rattle.nomos_ir.specs.Unfold.{IsContractive};
ghost use Rattle.nomos_types.specs.Forming.{StandsAtOffset, IsFirstBareName, IsFirstOffence, IsFormFault};
ghost use Rattle.nomos_types.specs.ModeTable.{AreModesOf};
ghost use Rattle.nomos_types.specs.Modes.{Allows, ObeysModes, may_hold, parameter_mode};
ghost use Rattle.nomos_types.specs.mirror.Least.{IsLeast, lesser};
ghost use Rattle.nomos_types.specs.mirror.Offences.{ForbiddenBelow, NotHeldBelow, NotHeldInBelow, OfTransactionsBelow};

use crate::contractive::is_constructor;
use crate::mode_table::{mode_table, taken_mode};
use crate::modes::may_hold;
use crate::unfolding::definition;
use nomos_ir::declaration::ProcDecl;
use nomos_ir::ids::TypeId;
use nomos_ir::mode::Mode;
use nomos_ir::program::Program;
use nomos_ir::type_node::{Def, TypeAt, TypeNode};
use std::alloc::Global;

/// Why a program is not well formed. Offsets count bytes of the text from 0.
#[derive(Clone, Copy, PartialEq, Eq, Debug)]
pub enum FormError {
    /// The right side, at this offset, of the first definition that is a bare name.
    Contractive(u32),
    /// The first type node in order of text that breaks the tables of modes, at this offset.
    Mode(u32),
    /// There was no memory.
    NoMemory,
}

/// The offset of a type node.
fn offset(program: &Program, t: TypeId) -> u32
    requires { t.0 < length program.now.types }
    ensures { StandsAtOffset program.now t result }
{
    program.lists().types.as_slice()[t.0 as usize].at
}

/// The lesser of two offsets, as far as they are there.
fn lesser(first: Option<u32>, second: Option<u32>) -> Option<u32>
    ensures { result ≡ lesser first second }
{
    match (first, second) {
        (Some(m), Some(n)) => Some(m.min(n)),
        (Some(m), None) => Some(m),
        (None, other) => other,
    }
}

/// The offset of the first right side that is a bare name.
fn first_bare_name(program: &Program) -> Option<u32>
    ensures { MatchOption result (IsContractive program.now) (λ at. IsFirstBareName program.now at) }
{
    for def in program.lists().defs.as_slice() {
        if !is_constructor(program.node(def.body)) {
            return Some(offset(program, def.body));
        }
    }
    None
}

/// Whether a node may stand at a mode.
fn is_allowed(program: &Program, mode: Mode, node: &TypeNode) -> bool
    requires { AllBelow (length program.now.defs) (type_names node.now) }
    ensures { IsTrue result ↔ Allows program.now mode node.now }
{
    match node {
        TypeNode::One => mode == Mode::R || mode == Mode::T,
        TypeNode::Up(_) => mode == Mode::S,
        TypeNode::Down(_) => mode == Mode::L,
        TypeNode::Named(id) => mode != Mode::T && definition(program.lists(), *id).mode == mode,
        _ => mode == Mode::R || mode == Mode::L,
    }
}

/// The offset of a type node, if the mode does not allow it.
fn forbidden_at(program: &Program, mode: Mode, place: &TypeAt) -> Option<u32>
    requires { AllBelow (length program.now.defs) (type_names place.now.node) }
    ensures { MatchOption result (Allows program.now mode place.now.node)
        (λ at. (¬ (Allows program.now mode place.now.node)) × (at ≡ place.now.at)) }
{
    if is_allowed(program, mode, &place.node) {
        return None;
    }
    Some(place.at)
}

/// The least offset of a type node that its mode does not allow.
fn first_forbidden(program: &Program, modes: &[Mode]) -> Option<u32>
    requires { AreModesOf program.now modes.now }
    ensures least { IsLeast (ForbiddenBelow program.now (length program.now.types)) result }
    ensures program { IsProgram program.now }
{
    let types = program.lists().types.as_slice();
    let mut first = None;
    for i in 0..types.len() {
        first = lesser(first, forbidden_at(program, modes[i], &types[i]));
    }
    first
}

/// The offset of the type of a channel parameter, if a process of the mode may not hold it.
fn not_held_at(program: &Program, holder: Mode, t: TypeId) -> Option<u32>
    requires { t.0 < length program.now.types }
    ensures { MatchOption result (IsTrue (may_hold holder (parameter_mode program.now t)))
        (λ at. (¬ (IsTrue (may_hold holder (parameter_mode program.now t)))) × StandsAtOffset program.now t at) }
{
    if may_hold(holder, taken_mode(program, t)) {
        return None;
    }
    Some(offset(program, t))
}

/// The least offset of the type of a channel parameter that its process may not hold.
fn first_not_held(program: &Program, d: &ProcDecl) -> Option<u32>
    requires { ProcInRange program.now d.now }
    ensures { IsLeast (NotHeldBelow program.now d.now (length d.now.channels)) result }
{
    let mut first = None;
    for par in d.channels.as_slice() {
        first = lesser(first, not_held_at(program, d.mode, par.1));
    }
    first
}

/// The same of all declarations.
fn first_not_held_in_all(program: &Program) -> Option<u32>
    ensures { IsLeast (NotHeldInBelow program.now (length program.now.procs)) result }
{
    let mut first = None;
    for d in program.lists().procs.as_slice() {
        first = lesser(first, first_not_held(program, d));
    }
    first
}

/// The offset of the body of a definition, if it has the mode of transactions.
fn of_transactions_at(program: &Program, def: &Def) -> Option<u32>
    requires { def.now.body.0 < length program.now.types }
    ensures { MatchOption result (def.now.mode ≢ Mode.T)
        (λ at. (def.now.mode ≡ Mode.T) × StandsAtOffset program.now def.now.body at) }
{
    if def.mode != Mode::T {
        return None;
    }
    Some(offset(program, def.body))
}

/// The least offset of the body of a definition that has the mode of transactions.
fn first_of_transactions(program: &Program) -> Option<u32>
    ensures { IsLeast (OfTransactionsBelow program.now (length program.now.defs)) result }
{
    let mut first = None;
    for def in program.lists().defs.as_slice() {
        first = lesser(first, of_transactions_at(program, def));
    }
    first
}

/// The offset of the first type node, in order of text, that breaks the tables of modes.
fn first_offence(program: &Program, modes: &[Mode]) -> Option<u32>
    requires { AreModesOf program.now modes.now }
    ensures { MatchOption result (ObeysModes program.now) (λ at. IsFirstOffence program.now at) }
{
    let forbidden = first_forbidden(program, modes);
    let not_held = first_not_held_in_all(program);
    let of_transactions = first_of_transactions(program);
    lesser(lesser(forbidden, not_held), of_transactions)
}

/// Looks whether a program is well formed: `docs/LANGUAGE.md`, "Modes of types and processes". The first definition
/// that is a bare name is answered before any mode.
pub fn well_formed(alloc: Global, program: &Program) -> Result<(), FormError>
    ensures formed { IfOk result (λ _. IsContractive program.now × ObeysModes program.now) }
    ensures refused { IfErr result (λ e. IsFormFault program.now e) }
{
    if let Some(at) = first_bare_name(program) {
        return Err(FormError::Contractive(at));
    }
    let Ok(modes) = mode_table(alloc, program) else {
        return Err(FormError::NoMemory);
    };
    match first_offence(program, &modes) {
        Some(at) => Err(FormError::Mode(at)),
        None => Ok(()),
    }
}
