//! Where a declaration begins.
ghost use Rattle.std.specs.Prelude.{◌≡◌, ◌<◌, IfOk, OnOk, All, Some, length, slice_get, filter, true, false};
ghost use Rattle.std.specs.List.{flat_map};
ghost use Rattle.nomos_ir.specs.declared.declaration.ProcDecl.{ProcDecl};
ghost use Rattle.nomos_ir.specs.Amounts.{star_count};
ghost use Rattle.nomos_ir.specs.Bindings.{bindings_of};
ghost use Rattle.nomos_types.specs.Judgement.{is_shared_mode, is_shared, value_par};
ghost use Rattle.nomos_types.specs.ModeTable.{AreModesOf};
ghost use Rattle.nomos_types.specs.Modes.{HasMode, parameter_mode};
ghost use Rattle.nomos_types.specs.Typed.{IsWellFormed};
ghost use Rattle.nomos_check.specs.Checker.{IsCheckerOf};
ghost use Rattle.nomos_check.specs.Reaching.{outset_of};
ghost use Rattle.nomos_check.specs.mirror.StartingWalk.{bind_all, carried_par, kinds_of, lists_of, picks, one_if, IsStartOf};

use crate::bound::Bound;
use crate::checker::Checker;
use crate::mode_rules::has_mode;
use crate::potential_form::PotentialForm;
use crate::standing::{Carried, Standing};
use nomos_ir::declaration::{Par, ProcDecl};
use nomos_ir::ids::{ProcId, TypeId, VarId};
use nomos_ir::kind::{Base, Kind};
use nomos_ir::mode::Mode;
use nomos_ir::program::Program;
use std::alloc::{AllocError, Global};

/// Binds a parameter that is a value.
fn bind_value(kinds: &mut Bound<Kind>, par: Par) -> Result<(), AllocError>
    ensures { OnOk result (kinds.new ≡ bind_all (value_par par.var par.kind par.amount) kinds.old) }
{
    match par.amount {
        None => kinds.bind(par.var, par.kind),
        Some(_) => Ok(()),
    }
}

/// The kinds with which a declaration begins.
fn kinds_of(alloc: Global, d: &ProcDecl) -> Result<Bound<Kind>, AllocError>
    ensures { IfOk result (λ kinds. kinds ≡ kinds_of d.now) }
{
    let values = d.values.as_slice();
    let mut kinds = Bound::new(alloc);
    let mut i = values.len();
    while i > 0 {
        i -= 1;
        bind_value(&mut kinds, values[i])?;
    }
    if let Some(v) = d.me {
        let number = Kind {
            lists: 0,
            base: Base::Int,
        };
        kinds.bind(v, number)?;
    }
    Ok(kinds)
}

/// Binds a parameter that is a list.
fn bind_list(lists: &mut Bound<Carried>, par: Par) -> Result<(), AllocError>
    ensures { OnOk result (lists.new ≡ bind_all (carried_par par.var par.kind par.amount) lists.old) }
{
    match par.amount {
        Some(amount) => lists.bind(
            par.var,
            Carried {
                kind: par.kind,
                amount,
            },
        ),
        None => Ok(()),
    }
}

/// The lists with which a declaration begins.
fn lists_of(alloc: Global, d: &ProcDecl) -> Result<Bound<Carried>, AllocError>
    ensures { IfOk result (λ lists. lists ≡ lists_of d.now) }
{
    let values = d.values.as_slice();
    let mut lists = Bound::new(alloc);
    let mut i = values.len();
    while i > 0 {
        i -= 1;
        bind_list(&mut lists, values[i])?;
    }
    Ok(lists)
}

/// Whether a channel parameter is a reference.
fn is_reference(program: &Program, checker: &Checker, t: TypeId) -> bool
    requires modes { AreModesOf program.now checker.now.modes }
    requires has { HasMode program.now t (parameter_mode program.now t) }
    ensures { result ≡ is_shared_mode (parameter_mode program.now t) }
{
    program.know();
    has_mode(program, checker.modes.as_slice(), t, Mode::S)
}

/// Binds the channel if it is picked.
fn bind_if(
    channels: &mut Bound<TypeId>,
    par: (VarId, TypeId),
    picked: bool,
) -> Result<(), AllocError>
    ensures { OnOk result (channels.new ≡ bind_all (one_if picked par) channels.old) }
{
    if picked {
        channels.bind(par.0, par.1)
    } else {
        Ok(())
    }
}

/// The channel parameters that are references, or the others.
fn channels_of(
    program: &Program,
    checker: &Checker,
    channels: &[(VarId, TypeId)],
    references: bool,
) -> Result<Bound<TypeId>, AllocError>
    requires modes { AreModesOf program.now checker.now.modes }
    requires have { All (λ par. HasMode program.now par.1 (parameter_mode program.now par.1)) channels.now }
    ensures { IfOk result (λ made. made ≡ bindings_of (filter (λ par. picks references
        (is_shared program.now par)) channels.now)) }
{
    let mut made = Bound::new(checker.alloc);
    let mut i = channels.len();
    while i > 0 {
        i -= 1;
        let par = channels[i];
        let picked = is_reference(program, checker, par.1) == references;
        bind_if(&mut made, par, picked)?;
    }
    Ok(made)
}

/// Binds what a declaration has in hand where it begins.
fn bind_parameters(
    program: &Program,
    checker: &Checker,
    d: &ProcDecl,
    begun: &mut Standing,
) -> Result<(), AllocError>
    requires modes { AreModesOf program.now checker.now.modes }
    requires have { All (λ par. HasMode program.now par.1 (parameter_mode program.now par.1)) d.now.channels }
    ensures { OnOk result (begun.new ≡ record begun.old {
      kinds = kinds_of d.now;
      lists = lists_of d.now;
      shared = bindings_of (filter (λ par. picks true (is_shared program.now par)) d.now.channels);
      linear = bindings_of (filter (λ par. picks false (is_shared program.now par)) d.now.channels);
    }) }
{
    begun.kinds = kinds_of(checker.alloc, d)?;
    begun.lists = lists_of(checker.alloc, d)?;
    begun.shared = channels_of(program, checker, d.channels.as_slice(), true)?;
    begun.linear = channels_of(program, checker, d.channels.as_slice(), false)?;
    Ok(())
}

/// What a process has in hand where the declaration begins.
pub(crate) fn start(program: &Program, checker: &Checker, p: ProcId) -> Result<Standing, AllocError>
    requires formed { IsWellFormed program.now }
    requires p { p.0 < length program.now.procs }
    requires checker { IsCheckerOf program.now checker.now }
    ensures { IfOk result (λ s. (d : ProcDecl) → slice_get program.now.procs p.0 ≡ Some d →
        IsStartOf (star_count program.now) (outset_of program.now d) s) }
{
    let d = program.proc(p);
    let mut potential = PotentialForm::none(checker.alloc, checker.stars)?;
    potential.gain(d.amount);
    let mut begun = Standing::unbound(checker.alloc, d.mode, potential, d.first, d.offers);
    match bind_parameters(program, checker, d, &mut begun) {
        Ok(()) => Ok(begun),
        Err(error) => {
            drop(begun);
            Err(error)
        }
    }
}
