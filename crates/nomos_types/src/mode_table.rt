//! The mode of each type node, by its place.
ghost use Rattle.std.specs.Prelude.{◌≡◌, ◌<◌, List, [], ◌∷◌, length, map, All, IfOk};
ghost use Rattle.std.specs.List.{flat_map};
ghost use Rattle.nomos_ir.specs.Nodes.{type_node};
ghost use Rattle.nomos_ir.specs.Ids.{AllBelow};
ghost use Rattle.nomos_ir.specs.TypeParts.{type_parts};
ghost use Rattle.nomos_types.specs.Modes.{head_mode, as_carried, as_parameter, carried_mode, parameter_mode, part_modes, whole_modes};
ghost use Rattle.nomos_types.specs.ModeTable.{AreModesOf};
ghost use Rattle.nomos_types.specs.mirror.ModeSetting.{with_modes};

use crate::unfolding::definition;
use nomos_ir::declaration::VarTypes;
use nomos_ir::ids::TypeId;
use nomos_ir::lists::ProgramLists;
use nomos_ir::mode::Mode;
use nomos_ir::program::Program;
use nomos_ir::type_node::{Branch, TypeNode};
use std::alloc::{AllocError, Global};

/// The mode that the head of a type shows: S at an `up`, the mode of its definition at a name.
fn head_mode(program: &Program, t: TypeId) -> Option<Mode>
    requires { t.0 < length program.now.types }
    ensures { result ≡ head_mode program.now (type_node program.now t.0) }
{
    let lists = program.lists();
    match program.node(t) {
        TypeNode::Up(_) => Some(Mode::S),
        TypeNode::Named(id) => Some(definition(lists, *id).mode),
        _ => None,
    }
}

/// The mode as which a channel parameter is taken, by what its head shows.
fn as_parameter(head: Option<Mode>) -> Mode
    ensures { result ≡ as_parameter head }
{
    match head {
        Some(Mode::S) => Mode::S,
        Some(Mode::L) => Mode::L,
        _ => Mode::R,
    }
}

/// The mode as which a carried type is taken, by what its head shows.
fn as_carried(head: Option<Mode>) -> Mode
    ensures { result ≡ as_carried head }
{
    match head {
        Some(Mode::S) => Mode::S,
        _ => Mode::R,
    }
}

/// The mode as which the type of a channel parameter is taken.
pub(crate) fn taken_mode(program: &Program, t: TypeId) -> Mode
    requires { t.0 < length program.now.types }
    ensures { result ≡ parameter_mode program.now t }
{
    as_parameter(head_mode(program, t))
}

/// The mode of what is carried where the whole has this mode.
fn carried_mode(program: &Program, mode: Mode, t: TypeId) -> Mode
    requires { t.0 < length program.now.types }
    ensures { result ≡ carried_mode program.now mode t }
{
    match mode {
        Mode::R => Mode::R,
        _ => as_carried(head_mode(program, t)),
    }
}

/// Sets the mode of one type.
fn set_mode(t: TypeId, mode: Mode, modes: &mut [Mode])
    requires { t.0 < length modes.old }
    ensures { modes.new ≡ with_modes ((t, mode) ∷ []) modes.old }
{
    modes[t.0 as usize] = mode;
}

/// Sets the modes of the types of branches.
fn set_branches(branches: &[Branch], mode: Mode, modes: &mut [Mode])
    requires { All (λ b. b.goes.0 < length modes.old) branches.now }
    ensures { modes.new ≡ with_modes (map (λ b. (b.goes, mode)) branches.now) modes.old }
{
    for branch in branches {
        set_mode(branch.goes, mode, modes);
    }
}

/// Sets the modes of the two parts of a type that carries a channel.
fn set_carrying(program: &Program, carried: TypeId, rest: TypeId, mode: Mode, modes: &mut [Mode])
    requires types { length modes.old ≡ length program.now.types }
    requires carried { carried.0 < length program.now.types }
    requires rest { rest.0 < length program.now.types }
    ensures { modes.new ≡ with_modes ((carried, carried_mode program.now mode carried) ∷ (rest, mode) ∷ []) modes.old }
{
    set_mode(carried, carried_mode(program, mode, carried), modes);
    set_mode(rest, mode, modes);
}

/// Sets the modes of the parts of a node that stands at a mode.
fn set_parts(program: &Program, node: &TypeNode, mode: Mode, modes: &mut [Mode])
    requires types { length modes.old ≡ length program.now.types }
    requires parts { AllBelow (length program.now.types) (type_parts node.now) }
    ensures { modes.new ≡ with_modes (part_modes program.now mode node.now) modes.old }
{
    match node {
        TypeNode::One | TypeNode::Named(_) => {}
        TypeNode::Plus(branches) | TypeNode::With(branches) => {
            set_branches(branches.as_slice(), mode, modes)
        }
        TypeNode::Tensor(carried, rest) | TypeNode::Lolli(carried, rest) => {
            set_carrying(program, *carried, *rest, mode, modes)
        }
        TypeNode::ValueOut(_, rest) | TypeNode::ValueIn(_, rest) => set_mode(*rest, mode, modes),
        TypeNode::PotOut(_, rest) | TypeNode::PotIn(_, rest) => set_mode(*rest, mode, modes),
        TypeNode::Up(rest) => set_mode(*rest, Mode::L, modes),
        TypeNode::Down(rest) => set_mode(*rest, Mode::S, modes),
    }
}

/// Sets the modes of the bodies of definitions.
fn set_bodies(lists: &ProgramLists, modes: &mut [Mode])
    requires { All (λ d. d.body.0 < length modes.old) lists.now.defs }
    ensures { modes.new ≡ with_modes (map (λ d. (d.body, d.mode)) lists.now.defs) modes.old }
{
    for def in lists.defs.as_slice() {
        set_mode(def.body, def.mode, modes);
    }
}

/// Sets the modes of the types of channel parameters.
fn set_channels(program: &Program, channels: &VarTypes, modes: &mut [Mode])
    requires types { length modes.old ≡ length program.now.types }
    requires channels { All (λ par. par.1.0 < length program.now.types) channels.now }
    ensures { modes.new ≡ with_modes (map (λ par. (par.1, parameter_mode program.now par.1)) channels.now) modes.old }
{
    for par in channels.as_slice() {
        set_mode(par.1, taken_mode(program, par.1), modes);
    }
}

/// Sets the modes of the types of all channel parameters.
fn set_parameters(program: &Program, modes: &mut [Mode])
    requires { length modes.old ≡ length program.now.types }
    ensures { modes.new ≡ with_modes
        (flat_map (λ d. map (λ par. (par.1, parameter_mode program.now par.1)) d.channels) program.now.procs)
        modes.old }
{
    for d in program.lists().procs.as_slice() {
        set_channels(program, &d.channels, modes);
    }
}

/// Sets the modes of offered types.
fn set_offers(lists: &ProgramLists, modes: &mut [Mode])
    requires { All (λ d. d.offers.0 < length modes.old) lists.now.procs }
    ensures { modes.new ≡ with_modes (map (λ d. (d.offers, d.mode)) lists.now.procs) modes.old }
{
    for d in lists.procs.as_slice() {
        set_mode(d.offers, d.mode, modes);
    }
}

/// Sets the modes of the types that are no part of another one.
fn set_wholes(program: &Program, modes: &mut [Mode])
    requires { length modes.old ≡ length program.now.types }
    ensures { modes.new ≡ with_modes (whole_modes program.now) modes.old }
{
    set_bodies(program.lists(), modes);
    set_parameters(program, modes);
    set_offers(program.lists(), modes);
}

/// Sets the modes of all types: wholes first, then the parts of each node, from the last one down.
fn set_all(program: &Program, modes: &mut [Mode])
    requires { length modes.old ≡ length program.now.types }
    ensures { AreModesOf program.now modes.new }
{
    set_wholes(program, modes);
    let types = program.lists().types.as_slice();
    let mut i = types.len();
    while i > 0 {
        i -= 1;
        set_parts(program, &types[i].node, modes[i], modes);
    }
}

/// The mode of each type node, in order of number.
pub fn mode_table(alloc: Global, program: &Program) -> Result<Vec<Mode>, AllocError>
    ensures { IfOk result (λ modes. AreModesOf program.now modes.items) }
{
    let mut modes = vec![in alloc; Mode::R; program.lists().types.len()]?;
    set_all(program, &mut modes);
    Ok(modes)
}
