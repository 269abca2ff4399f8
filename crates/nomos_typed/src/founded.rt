//! Whether processes offer names of their own modes, have bases where they have to, and payers.
ghost use Rattle.std.specs.Prelude.{◌≡◌, ◌<◌, ◌↔◌, IsTrue, IfOk, Some, All};
ghost use Rattle.nomos_contents.specs.Data.{IsOrdered};
ghost use Rattle.nomos_machine.specs.Matching.{HasBase};
ghost use Rattle.nomos_machine.specs.Objects.{object_number};
ghost use Rattle.nomos_typed.specs.Founded.{NameHasMode, IsFounded, ObjectFounded, AreObjectsFounded};
ghost use Rattle.nomos_typed.specs.mirror.ComparedWith.{IsTold, program_of};

use crate::both::{all_three, both};
use crate::owning::mode_in;
use crate::told::{Told, is_mode};
use nomos_contents::data::StateData;
use nomos_ir::mode::Mode;
use nomos_machine::object::{Object, Process};
use nomos_types::accepted::Accepted;
use nomos_types::mode_table::mode_table;
use std::alloc::{AllocError, Global};

/// Whether a name has a type of this mode.
fn name_has_mode(told: &Told<'_>, name: u32, mode: Mode) -> bool
    requires { IsTold told.now }
    ensures { IsTrue result ↔ NameHasMode (program_of told.now) told.now.types.now name mode }
{
    told.accepted.know();
    match mode_in(told, name) {
        Some(own) => is_mode(own, mode),
        None => false,
    }
}

/// Whether a process has a base where it has to.
fn has_base(told: &Told<'_>, process: &Process) -> bool
    requires { IsTold told.now }
    ensures { IsTrue result ↔ HasBase (program_of told.now) told.now.types.now process.now }
{
    match process.base {
        Some(base) => {
            let is_shared = name_has_mode(told, base, Mode::S);
            both(is_mode(process.mode, Mode::L), is_shared)
        }
        None => !is_mode(process.mode, Mode::L),
    }
}

fn is_below(number: u32, bound: usize) -> bool
    ensures { IsTrue result ↔ (number < bound) }
{
    (number as usize) < bound
}

/// Whether a process is founded in a state of so many accounts.
fn is_founded(told: &Told<'_>, accounts: usize, process: &Process) -> bool
    requires { IsTold told.now }
    ensures { IsTrue result ↔ IsFounded (program_of told.now) told.now.types.now accounts process.now }
{
    let offered = name_has_mode(told, process.offers, process.mode);
    let based = has_base(told, process);
    all_three(offered, based, is_below(process.payer, accounts))
}

/// Whether an object is founded, where it is a process.
fn is_object_founded(told: &Told<'_>, accounts: usize, object: &Object) -> bool
    requires { IsTold told.now }
    ensures { IsTrue result ↔ ObjectFounded (program_of told.now) told.now.types.now accounts object.now }
{
    match object {
        Object::Process(process) => is_founded(told, accounts, process),
        Object::Message(_) => true,
    }
}

fn is_over_zero(number: u32) -> bool
    ensures { IsTrue result ↔ (0 < number) }
{
    number > 0
}

/// Whether the number of an object is over 0.
fn is_numbered(object: &Object) -> bool
    ensures { IsTrue result ↔ (0 < object_number object.now) }
{
    match object {
        Object::Process(process) => is_over_zero(process.pid),
        Object::Message(message) => is_over_zero(message.number),
    }
}

/// Whether the numbers of all objects are over 0.
fn are_numbered(objects: &[Object]) -> bool
    ensures { IsTrue result ↔ All (λ o. 0 < object_number o) objects.now }
{
    for object in objects {
        if !is_numbered(object) {
            return false;
        }
    }
    true
}

/// Whether all processes are founded.
fn are_all_founded(told: &Told<'_>, accounts: usize, objects: &[Object]) -> bool
    requires { IsTold told.now }
    ensures { IsTrue result ↔ All (ObjectFounded (program_of told.now) told.now.types.now accounts) objects.now }
{
    for object in objects {
        if !is_object_founded(told, accounts, object) {
            return false;
        }
    }
    true
}

/// Whether the numbers of objects are over 0, and each process offers a name of its own mode, has a base where it has
/// to, and an account as payer: a part of what makes a state typed.
pub fn are_objects_founded(
    alloc: Global,
    accepted: &Accepted,
    state: &StateData,
) -> Result<bool, AllocError>
    requires ordered { IsOrdered state.now }
    ensures { IfOk result (λ yes. IsTrue yes ↔ AreObjectsFounded accepted.now state.now) }
{
    let modes = mode_table(alloc, accepted.program())?;
    let told = Told {
        accepted,
        modes: modes.as_slice(),
        types: state.types.as_slice(),
    };
    let objects = state.objects.as_slice();
    let founded = are_all_founded(&told, state.balances.len(), objects);
    Ok(all_three(
        is_over_zero(state.next_object),
        are_numbered(objects),
        founded,
    ))
}
