//! Whether names have the types, providers and users that they should.
ghost use Rattle.std.specs.Prelude.{◌≡◌, ◌≤◌, ◌↔◌, ℕ, IsTrue, IfOk, filter, map};
ghost use Rattle.std.specs.List.Sorted.{IsStrictlySortedBy};
ghost use Rattle.std.specs.Ordering.{nat_cmp};
ghost use Rattle.nomos_contents.specs.Data.{IsOrdered};
ghost use Rattle.nomos_ir.specs.Order.{count_of};
ghost use Rattle.nomos_typed.specs.Owning.{AreNamesMentioned, AreNamesOwned};
ghost use Rattle.nomos_typed.specs.mirror.Ties.{mode_in, limited, once, all_tied, AreTied};
ghost use Rattle.nomos_typed.specs.mirror.ComparedWith.{IsTold};

use crate::both::all_three;
use crate::named_by::all_tied;
use crate::once::stand_once;
use crate::tie::{Tie, is_limited, is_once, times_for};
use crate::told::Told;
use nomos_contents::data::StateData;
use nomos_ir::ids::TypeId;
use nomos_ir::mode::Mode;
use nomos_machine::object::Object;
use nomos_types::accepted::Accepted;
use nomos_types::mode_table::mode_table;
use std::alloc::{AllocError, Global};

/// The mode of a name, where its type is one of the program's.
pub(crate) fn mode_in(told: &Told<'_>, name: u32) -> Option<Mode>
    requires { IsTold told.now }
    ensures { result ≡ mode_in told.now name }
{
    let modes = told.modes;
    match told.type_of(name) {
        Some(t) => Some(modes[t.0 as usize]),
        None => None,
    }
}

/// Those of the names with which objects may have to do a certain number of times.
fn limited_names(
    alloc: Global,
    told: &Told<'_>,
    tie: Tie,
    names: &[u32],
) -> Result<Vec<u32>, AllocError>
    requires { IsTold told.now }
    ensures { IfOk result (λ made. made.items ≡ filter (limited told.now tie) names.now) }
{
    let mut made = Vec::new(alloc);
    for name in names {
        if is_limited(times_for(tie, mode_in(told, *name))) {
            made.push(*name)?;
        }
    }
    Ok(made)
}

/// Those of the state's names with which objects have to do once.
fn once_names(alloc: Global, told: &Told<'_>, tie: Tie) -> Result<Vec<u32>, AllocError>
    requires { IsTold told.now }
    ensures { IfOk result (λ made. made.items ≡ filter (once told.now tie) (map (λ t. t.0) told.now.types.now)) }
{
    let mut made = Vec::new(alloc);
    for entry in told.types {
        if is_once(times_for(tie, mode_in(told, entry.0))) {
            made.push(entry.0)?;
        }
    }
    Ok(made)
}

/// Whether objects have to do in this way with each name as often as its mode asks for.
fn are_tied(
    alloc: Global,
    told: &Told<'_>,
    tie: Tie,
    objects: &[Object],
) -> Result<bool, AllocError>
    requires { IsTold told.now }
    ensures { IfOk result (λ yes. IsTrue yes ↔ AreTied told.now tie objects.now) }
{
    let all = all_tied(alloc, tie, objects)?;
    let found = limited_names(alloc, told, tie, all.as_slice())?;
    let wanted = once_names(alloc, told, tie)?;
    Ok(stand_once(wanted.as_slice(), found))
}

/// Whether each name has the providers and users that the mode of its type asks for: a part of what makes a state
/// typed. `docs/MACHINE.md`, "Typed states", has them.
pub fn are_names_owned(
    alloc: Global,
    accepted: &Accepted,
    state: &StateData,
) -> Result<bool, AllocError>
    requires ordered { IsOrdered state.now }
    ensures { IfOk result (λ yes. IsTrue yes ↔ AreNamesOwned accepted.now state.now) }
{
    let modes = mode_table(alloc, accepted.program())?;
    let told = Told {
        accepted,
        modes: modes.as_slice(),
        types: state.types.as_slice(),
    };
    let objects = state.objects.as_slice();
    let provided = are_tied(alloc, &told, Tie::Provides, objects)?;
    let used = are_tied(alloc, &told, Tie::Uses, objects)?;
    let shared = are_tied(alloc, &told, Tie::Shares, objects)?;
    Ok(all_three(provided, used, shared))
}

/// The names in a table.
fn names_in(alloc: Global, types: &[(u32, TypeId)]) -> Result<Vec<u32>, AllocError>
    ensures { IfOk result (λ names. names.items ≡ map (λ t. t.0) types.now) }
{
    let mut names = Vec::new(alloc);
    for entry in types {
        names.push(entry.0)?;
    }
    Ok(names)
}

/// Whether the numbers, of which each counts once, are the others, which ascend.
pub(crate) fn are_numbers(found: Vec<u32>, numbers: &[u32]) -> bool
    requires { IsStrictlySortedBy nat_cmp numbers.now }
    ensures { IsTrue result ↔ ((n : ℕ) → (1 ≤ count_of n found.items) ↔ (1 ≤ count_of n numbers.now)) }
{
    let mut sorted = found;
    sorted.sort_unstable();
    sorted.dedup();
    sorted.as_slice() == numbers
}

/// Whether exactly the names that objects mention have a type: a part of what makes a state typed.
pub fn are_names_mentioned(alloc: Global, state: &StateData) -> Result<bool, AllocError>
    requires ordered { IsOrdered state.now }
    ensures { IfOk result (λ yes. IsTrue yes ↔ AreNamesMentioned state.now) }
{
    let mentions = all_tied(alloc, Tie::Mentions, state.objects.as_slice())?;
    let names = names_in(alloc, state.types.as_slice())?;
    Ok(are_numbers(mentions, names.as_slice()))
}
