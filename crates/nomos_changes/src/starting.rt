//! The start of a contract or a transaction by a line of a script.
ghost use Rattle.std.specs.Prelude.{◌≡◌, ◌≤◌, ◌<◌, ◌+◌, ◌-◌, ◌^◌, [], Some, IfOk, OnOk, OnErr, length, map, slice_get, slice_index};
ghost use Rattle.std.specs.List.{zip};
ghost use Rattle.nomos_machine.specs.Change.{CanGive, paid_out, tidied};
ghost use Rattle.nomos_machine.specs.Starting.{CanStartWith, channel_bindings, started_with, value_bindings};
ghost use Rattle.nomos_machine.specs.TypedState.{IsTyped};
ghost use Rattle.nomos_deeds.specs.Acting.{HasNumbers};
ghost use Rattle.nomos_deeds.specs.Firings.{MayFire};
ghost use Rattle.nomos_changes.specs.Beginnings.{with_come};
ghost use Rattle.nomos_changes.specs.SmallChanges.{process_born};

use crate::beginning::{Beginning, begin};
use crate::given::Given;
use crate::newborn::Newborn;
use crate::parts::Parts;
use crate::performing::ROOM_OF_AN_ACT;
use nomos_eval::evaluation::value_from;
use nomos_ir::declaration::{Par, ProcDecl};
use nomos_ir::ids::{ProcId, TypeId, VarId};
use nomos_ir::value::{Value, Values};
use nomos_types::accepted::Accepted;
use std::alloc::{AllocError, Global};

/// A line of a script by which a process of a declaration starts: the values and the names of channels for its
/// parameters, in their order, and the number of the account that pays for it.
#[derive(Clone, Copy)]
pub struct StartLine<'a> {
    pub declaration: ProcId,
    pub values: &'a Values,
    pub names: &'a [u32],
    pub payer: u32,
}

/// The declaration of this number.
pub(crate) fn declared(accepted: &Accepted, f: ProcId) -> &ProcDecl
    requires { f.0 < length accepted.now.program.procs }
    ensures { slice_get accepted.now.program.procs f.0 ≡ Some result.now }
{
    let lists = accepted.program().lists();
    &lists.procs.as_slice()[f.0 as usize]
}

// The parameters' variables, each with the value at its place.
fn pair_values(
    alloc: Global,
    pars: &[Par],
    values: &Values,
) -> Result<Vec<(VarId, Value)>, AllocError>
    ensures { IfOk result (λ made. made.items ≡ zip (map (λ par. par.var) pars.now) values.now) }
{
    let mut left = values;
    let mut made = Vec::with_capacity(alloc, pars.len())?;
    for par in pars {
        let Some((first, rest)) = left.parts() else {
            return Ok(made);
        };
        made.push((par.var, value_from(first.copy()?)))?;
        left = rest;
    }
    Ok(made)
}

// The parameters' variables, each with the name at its place.
fn pair_names(
    alloc: Global,
    pars: &[(VarId, TypeId)],
    names: &[u32],
) -> Result<Vec<(VarId, u32)>, AllocError>
    ensures { IfOk result (λ made. made.items ≡ zip (map (λ par. par.0) pars.now) names.now) }
{
    let mut made = Vec::with_capacity(alloc, pars.len())?;
    for (at, par) in pars.iter().enumerate() {
        match names.get(at) {
            Some(name) => made.push((par.0, *name))?,
            None => return Ok(made),
        }
    }
    Ok(made)
}

// What a line gives to a declaration: values and names for its parameters, in their order, and no list.
fn given_by_line(
    alloc: Global,
    declaration: &ProcDecl,
    values: &Values,
    names: &[u32],
) -> Result<Given, AllocError>
    ensures values { IfOk result (λ made. made.values.items ≡ value_bindings declaration.now values.now) }
    ensures lists { IfOk result (λ made. made.lists.items ≡ []) }
    ensures channels { IfOk result (λ made. made.channels.items ≡ channel_bindings declaration.now names.now) }
{
    Ok(Given {
        values: pair_values(alloc, declaration.values.as_slice(), values)?,
        lists: Vec::new(alloc),
        channels: pair_names(alloc, declaration.channels.as_slice(), names)?,
    })
}

/// A process comes, whose name has this type, and its payer gives so many Dths. Want of memory leaves the state as it
/// was.
pub(crate) fn come<P: Parts>(
    parts: &mut P,
    alloc: Global,
    child: Newborn,
    offers: TypeId,
    dths: u128,
) -> Result<(), AllocError>
    requires room { 3 ≤ P.room parts.old }
    requires number { child.fields.pid ≡ (P.state parts.old).next_object }
    requires numbers { HasNumbers (P.state parts.old) }
    requires account { child.fields.payer < length (P.state parts.old).balances }
    requires has { dths ≤ slice_index (P.state parts.old).balances child.fields.payer }
    ensures ok { OnOk result (P.state parts.new ≡ tidied (with_come (record (P.state parts.old)
        { balances = paid_out (Some (child.fields.payer, dths)) (P.state parts.old).balances })
        (process_born child) offers)) }
    ensures err { OnErr result (P.state parts.new ≡ P.state parts.old) }
    ensures room { P.room parts.old ≤ P.room parts.new + 3 }
    ensures marked { P.marked parts.new ≡ P.marked parts.old }
{
    let payer = child.fields.payer;
    parts.come_process(alloc, child)?;
    parts.come_name(offers);
    parts.pay_out(payer, dths);
    parts.tidy();
    Ok(())
}

/// Starts a contract or a transaction: the payer's account gives its declared potential. It gives the number of the
/// process. Want of memory leaves the state as it was. Where there is room for so many small changes that are to be
/// kept, there is afterwards.
pub fn start<P: Parts>(
    parts: &mut P,
    alloc: Global,
    accepted: &Accepted,
    line: StartLine,
    keep: usize,
) -> Result<u32, AllocError>
    requires may { MayFire accepted.now (P.state parts.old) }
    requires start { CanStartWith accepted.now (P.state parts.old) line.declaration.0 line.values.now line.names.now
        line.payer }
    ensures ok { IfOk result (λ pid. (pid ≡ (P.state parts.old).next_object)
        × (started_with accepted.now (P.state parts.old) line.entry.declaration.0 line.entry.values.now
        line.entry.names.now line.entry.payer ≡ Some (P.state parts.new))) }
    ensures err { OnErr result (P.state parts.new ≡ P.state parts.old) }
    ensures typed { IsTyped accepted.now (P.state parts.new) }
    ensures room { keep ≤ P.room parts.old → keep ≤ P.room parts.new }
    ensures marked { P.marked parts.new ≡ P.marked parts.old }
{
    accepted.know();
    let changes = keep.checked_add(ROOM_OF_AN_ACT).ok_or(AllocError)?;
    parts.make_room(changes)?;
    let chosen = declared(accepted, line.declaration);
    let given = given_by_line(alloc, chosen, line.values, line.names)?;
    let at = Beginning {
        pid: parts.next_number(),
        offers: parts.fresh_name(),
        potential: accepted.bound(line.declaration),
        payer: line.payer,
    };
    let child = begin(alloc, chosen, given, at)?;
    come(parts, alloc, child, chosen.offers, u128::from(at.potential))?;
    Ok(at.pid)
}
