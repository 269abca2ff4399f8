//! What a declaration is given by a process.
ghost use Rattle.std.specs.Prelude.{◌≡◌, Some, IfOk};
ghost use Rattle.std.specs.Option.{option_map};
ghost use Rattle.nomos_machine.specs.Given.{give_names, give_values, given};
ghost use Rattle.nomos_machine.specs.State.{process_at};
ghost use Rattle.nomos_machine.specs.declared.object.Process.{Process};
ghost use Rattle.nomos_changes.specs.Gives.{given_in};

use crate::parts::Parts;
use crate::process_lists::{copy_list, list_of};
use nomos_deeds::sight::Sight;
use nomos_eval::evaluation::value_from;
use nomos_ir::code_node::{Args, ValueArg};
use nomos_ir::declaration::{Par, ProcDecl};
use nomos_ir::ids::{TypeId, VarId};
use nomos_ir::value::{Value, Values};
use nomos_machine::object::PotentialList;
use std::alloc::{AllocError, Global};

/// What a declaration is given: for each of its parameters a value, a list, or the name of a channel, each in the order
/// of the parameters.
#[derive(Drop, Debug)]
pub(crate) struct Given {
    pub(crate) values: Vec<(VarId, Value)>,
    pub(crate) lists: Vec<(VarId, PotentialList)>,
    pub(crate) channels: Vec<(VarId, u32)>,
}

// The names of a process's channels, one for each parameter that is one; none, where one is missing.
fn give_names<P: Parts>(
    parts: &P,
    alloc: Global,
    pid: u32,
    args: &[VarId],
    pars: &[(VarId, TypeId)],
) -> Result<Option<Vec<(VarId, u32)>>, AllocError>
    ensures { (p : Process) → process_at (P.state parts.now) pid ≡ Some p
        → IfOk result (λ found. option_map (λ names. names.items) found ≡ give_names p args.now pars.now) }
{
    if args.len() != pars.len() {
        return Ok(None);
    }
    let mut names = Vec::with_capacity(alloc, args.len())?;
    for at in 0..args.len() {
        match parts.channel(pid, args[at]) {
            Some(name) => names.push((pars[at].0, name))?,
            None => return Ok(None),
        }
    }
    Ok(Some(names))
}

// The values and the lists of parameters: for each whose argument is a term the next of the values, and for each of the
// others a copy of a list of the process; none, where one is missing, or where a value is left.
fn give_values<P: Parts>(
    parts: &P,
    alloc: Global,
    pid: u32,
    values: Values,
    start: (&[ValueArg], &[Par]),
) -> Result<Option<Given>, AllocError>
    ensures { (p : Process) → process_at (P.state parts.now) pid ≡ Some p
        → IfOk result (λ found. option_map (λ g. (g.values.items, g.lists.items)) found
        ≡ give_values p values start.entry.0.now start.entry.1.now) }
{
    let (args, pars) = start;
    if args.len() != pars.len() {
        return Ok(None);
    }
    let mut left = values;
    let mut given = Given {
        values: Vec::with_capacity(alloc, args.len())?,
        lists: Vec::new(alloc),
        channels: Vec::new(alloc),
    };
    for at in 0..args.len() {
        match args[at] {
            ValueArg::Term(_) => match left.into_parts()? {
                Some((node, rest)) => {
                    given.values.push((pars[at].var, value_from(node)))?;
                    left = rest;
                }
                None => return Ok(None),
            },
            ValueArg::List(w) => match list_of(parts.lists(pid), w) {
                Some(list) => given.lists.push((pars[at].var, copy_list(list)?))?,
                None => return Ok(None),
            },
        }
    }
    match left.parts() {
        None => Ok(Some(given)),
        Some(_) => Ok(None),
    }
}

/// What a declaration is given by the process of this number, where its terms have these values; none, where something
/// is missing.
pub(crate) fn given_by<P: Parts>(
    parts: &P,
    alloc: Global,
    pid: u32,
    values: Values,
    start: (&Args, &ProcDecl),
) -> Result<Option<Given>, AllocError>
    ensures { (p : Process) → process_at (P.state parts.now) pid ≡ Some p
        → IfOk result (λ found. option_map given_in found ≡ given p values start.entry.0.now start.entry.1.now) }
{
    let (args, declaration) = start;
    let terms = (args.values.as_slice(), declaration.values.as_slice());
    let Some(found) = give_values(parts, alloc, pid, values, terms)? else {
        return Ok(None);
    };
    let pars = declaration.channels.as_slice();
    match give_names(parts, alloc, pid, args.channels.as_slice(), pars)? {
        Some(channels) => Ok(Some(Given {
            values: found.values,
            lists: found.lists,
            channels,
        })),
        None => Ok(None),
    }
}
