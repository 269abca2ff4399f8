//! Whether processes have what typing says at their instructions.
ghost use Rattle.std.specs.Prelude.{◌≡◌, ◌≤◌, ◌<◌, ◌↔◌, IsTrue, IfOk, All, filter, length};
ghost use Rattle.nomos_contents.specs.Data.{IsOrdered};
ghost use Rattle.nomos_equality.specs.Comparing.{HasCompared};
ghost use Rattle.nomos_ir.specs.Bindings.{IsAscending};
ghost use Rattle.nomos_ir.specs.Paired.{ArePaired};
ghost use Rattle.nomos_machine.specs.Objects.{free_purse, potential_of};
ghost use Rattle.nomos_machine.specs.TypedState.{HasVariables, VariablesDiffer};
ghost use Rattle.nomos_typed.specs.Telling.{Tells};
ghost use Rattle.nomos_typed.specs.StateTyped.{AreProcessesPlaced, IsPlaced, ObjectPlaced};
ghost use Rattle.nomos_typed.specs.mirror.AtPlaces.{IsListHeld, is_reference, HasPlainly, HasChannels, AreTypesIn};
ghost use Rattle.nomos_typed.specs.mirror.AtPlaces.{IsMarkedAt, MarksObject, ObjectMarked, PlaceIsKnown, ObjectIsKnown};
ghost use Rattle.nomos_typed.specs.mirror.ComparedWith.{IsTold, acceptance_of, program_of, amounts_in};

use crate::both::{all_three, both};
use crate::fitting::{channels_fit, values_fit};
use crate::likeness::has_type;
use crate::purses::free_purse;
use crate::told::{Told, is_mode};
use crate::worth::same_worth;
use nomos_contents::data::StateData;
use nomos_deeds::value_kinds::all_have_kind;
use nomos_equality::equalities::Equalities;
use nomos_ir::ids::{CodeId, VarId};
use nomos_machine::object::{Object, PotentialList, Process};
use nomos_places::found_places::Places;
use nomos_places::place::{HeldList, Place};
use nomos_types::accepted::Accepted;
use nomos_types::mode_table::mode_table;
use std::alloc::{AllocError, Global};

/// Marks the instruction, if it is one of the program's.
fn mark(wanted: &mut [bool], code: CodeId)
    ensures { IsMarkedAt code.0 wanted.old wanted.new }
{
    if (code.0 as usize) < wanted.len() {
        wanted[code.0 as usize] = true;
    }
}

/// Marks the instruction of an object, where it is a process.
fn mark_object(wanted: &mut [bool], object: &Object)
    ensures { MarksObject object.now wanted.old wanted.new }
{
    match object {
        Object::Process(process) => mark(wanted, process.code),
        Object::Message(_) => {}
    }
}

/// Marks the instructions at which processes stand.
fn mark_all(wanted: &mut [bool], objects: &[Object])
    ensures width { length wanted.new ≡ length wanted.old }
    ensures marked { All (ObjectMarked wanted.new) objects.now }
{
    for object in objects {
        mark_object(wanted, object);
    }
}

/// What typing says where the processes stand.
fn places_for(alloc: Global, accepted: &Accepted, objects: &[Object]) -> Result<Places, AllocError>
    ensures { IfOk result (λ places. All (ObjectIsKnown accepted.now places) objects.now) }
{
    let mut wanted = vec![in alloc; false; accepted.program().lists().code.len()]?;
    mark_all(&mut wanted, objects);
    Places::of(alloc, accepted, wanted.as_slice())
}

/// Whether a purse covers the lists of the process, and so much potential beside them.
fn is_enough(process: &Process, least: u128) -> bool
    ensures { IsTrue result ↔ ((potential_of process.now ≤ process.now.purse) × (least ≤ free_purse process.now)) }
{
    match free_purse(process) {
        Some(left) => least <= left,
        None => false,
    }
}

fn is_amount(amount: u64, other: u64) -> bool
    ensures { IsTrue result ↔ (amount ≡ other) }
{
    amount == other
}

/// Whether a list is of this kind and amount.
fn is_held(list: &PotentialList, held: &HeldList) -> bool
    ensures { IsTrue result ↔ IsListHeld list.now held.now }
{
    both(
        is_amount(list.amount, held.amount),
        all_have_kind(&list.items, held.kind),
    )
}

/// Whether the variables are the same, and the list is of that kind and amount.
fn list_fits(entry: &(VarId, PotentialList), held: &(VarId, HeldList)) -> bool
    ensures { IsTrue result ↔ ((entry.now.0 ≡ held.now.0) × IsListHeld entry.now.1 held.now.1) }
{
    entry.0 == held.0 && is_held(&entry.1, &held.1)
}

/// Whether lists, each with its variable in order of number, are of these kinds and amounts, and nothing is besides.
/// Both lists are walked once.
fn lists_fit(lists: &[(VarId, PotentialList)], held: &[(VarId, HeldList)]) -> bool
    requires lists { IsAscending lists.now }
    requires held { IsAscending held.now }
    ensures { IsTrue result ↔ ArePaired IsListHeld lists.now held.now }
{
    if lists.len() != held.len() {
        return false;
    }
    let mut at = 0;
    while at < lists.len() {
        if !list_fits(&lists[at], &held[at]) {
            return false;
        }
        at += 1;
    }
    true
}

/// Whether the process has what the place says for which no types are compared: mode, values, lists, and potential.
fn has_plainly(process: &Process, place: &Place) -> bool
    requires variables { VariablesDiffer process.now }
    requires kinds { IsAscending place.now.kinds }
    requires lists { IsAscending place.now.lists }
    ensures { IsTrue result ↔ HasPlainly process.now place.now }
{
    let stands = both(
        is_mode(process.mode, place.mode),
        is_enough(process, place.least),
    );
    let values = values_fit(process.values.as_slice(), place.kinds.as_slice());
    let lists = lists_fit(process.lists.as_slice(), place.lists.as_slice());
    all_three(stands, values, lists)
}

/// Whether the variable of a channel is a reference at the place, or is none, where that is asked.
fn is_reference(place: &Place, channel: &(VarId, u32), asked: bool) -> bool
    requires { IsAscending place.now.shared }
    ensures { result ≡ is_reference place.now.shared asked channel.now }
{
    let has = place.has_reference(channel.0);
    if asked { has } else { !has }
}

/// The channels whose variables are references at the place, or those whose are not.
fn channels_of(
    alloc: Global,
    channels: &[(VarId, u32)],
    place: &Place,
    references: bool,
) -> Result<Vec<(VarId, u32)>, AllocError>
    requires { IsAscending place.now.shared }
    ensures { IfOk result (λ made. made.items ≡ filter (is_reference place.now.shared references) channels.now) }
{
    let mut made = Vec::new(alloc);
    for channel in channels {
        if is_reference(place, channel, references) {
            made.push(*channel)?;
        }
    }
    Ok(made)
}

/// Whether channels are those of the place.
fn has_channels(
    alloc: Global,
    told: &Told<'_>,
    equalities: &mut Equalities,
    channels: &[(VarId, u32)],
    place: &Place,
) -> Result<bool, AllocError>
    requires told { IsTold told.now }
    requires channels { IsAscending channels.now }
    requires types { AreTypesIn (program_of told.now) place.now }
    requires compared { HasCompared (program_of told.now) equalities.old }
    ensures compared { HasCompared (program_of told.now) equalities.new }
    ensures tells { IfOk result (Tells (amounts_in told.now) equalities.old.amounts equalities.new.amounts
        (HasChannels told.now channels.now place.now)) }
{
    let references = channels_of(alloc, channels, place, true)?;
    let others = channels_of(alloc, channels, place, false)?;
    if !channels_fit(
        told,
        equalities,
        references.as_slice(),
        place.shared.as_slice(),
    )? {
        return Ok(false);
    }
    channels_fit(told, equalities, others.as_slice(), place.linear.as_slice())
}

/// Whether a process stands at its place.
fn is_placed(
    alloc: Global,
    told: &Told<'_>,
    equalities: &mut Equalities,
    places: &Places,
    process: &Process,
) -> Result<bool, AllocError>
    requires told { IsTold told.now }
    requires variables { VariablesDiffer process.now }
    requires known { PlaceIsKnown (acceptance_of told.now) places.now process.now.code }
    requires compared { HasCompared (program_of told.now) equalities.old }
    ensures compared { HasCompared (program_of told.now) equalities.new }
    ensures tells { IfOk result (Tells (amounts_in told.now) equalities.old.amounts equalities.new.amounts
        (IsPlaced (acceptance_of told.now) told.now.types.now process.now)) }
{
    told.accepted.know();
    let place = match places.get(process.code) {
        Some(place) => place,
        None => return Ok(false),
    };
    if !has_plainly(process, place) {
        return Ok(false);
    }
    if !has_type(told, equalities, process.offers, place.offers)? {
        return Ok(false);
    }
    has_channels(alloc, told, equalities, process.channels.as_slice(), place)
}

/// Whether an object stands at its place, where it is a process.
fn is_object_placed(
    alloc: Global,
    told: &Told<'_>,
    equalities: &mut Equalities,
    places: &Places,
    object: &Object,
) -> Result<bool, AllocError>
    requires told { IsTold told.now }
    requires variables { HasVariables object.now }
    requires known { ObjectIsKnown (acceptance_of told.now) places.now object.now }
    requires compared { HasCompared (program_of told.now) equalities.old }
    ensures compared { HasCompared (program_of told.now) equalities.new }
    ensures tells { IfOk result (Tells (amounts_in told.now) equalities.old.amounts equalities.new.amounts
        (ObjectPlaced (acceptance_of told.now) told.now.types.now object.now)) }
{
    match object {
        Object::Process(process) => is_placed(alloc, told, equalities, places, process),
        Object::Message(_) => Ok(true),
    }
}

/// Whether all processes stand at their places.
fn all_placed(
    alloc: Global,
    told: &Told<'_>,
    equalities: &mut Equalities,
    places: &Places,
    objects: &[Object],
) -> Result<bool, AllocError>
    requires told { IsTold told.now }
    requires variables { All HasVariables objects.now }
    requires known { All (ObjectIsKnown (acceptance_of told.now) places.now) objects.now }
    requires compared { HasCompared (program_of told.now) equalities.old }
    ensures compared { HasCompared (program_of told.now) equalities.new }
    ensures tells { IfOk result (Tells (amounts_in told.now) equalities.old.amounts equalities.new.amounts
        (All (ObjectPlaced (acceptance_of told.now) told.now.types.now) objects.now)) }
{
    for object in objects {
        if !is_object_placed(alloc, told, equalities, places, object)? {
            return Ok(false);
        }
    }
    Ok(true)
}

/// Whether each process of a state has what typing says at its instruction, and its purse what it needs there beside
/// the potential of its lists: a part of what makes a state typed. Its code is not checked again; the declarations are
/// followed once for all processes, and two types are compared once.
pub fn are_processes_placed(
    alloc: Global,
    accepted: &Accepted,
    state: &StateData,
) -> Result<bool, AllocError>
    requires ordered { IsOrdered state.now }
    ensures { IfOk result (λ yes. IsTrue yes ↔ AreProcessesPlaced accepted.now state.now) }
{
    let modes = mode_table(alloc, accepted.program())?;
    let told = Told {
        accepted,
        modes: modes.as_slice(),
        types: state.types.as_slice(),
    };
    let objects = state.objects.as_slice();
    let places = places_for(alloc, accepted, objects)?;
    let mut equalities = Equalities::new(alloc);
    if !all_placed(alloc, &told, &mut equalities, &places, objects)? {
        return Ok(false);
    }
    let amounts = equalities.into_amounts()?;
    Ok(same_worth(accepted, amounts.as_slice()))
}
