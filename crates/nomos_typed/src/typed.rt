//! Whether plain data are those of a typed state.
ghost use Rattle.std.specs.Prelude.{◌↔◌, IsTrue, IfOk};
ghost use Rattle.nomos_contents.specs.Data.{IsOrdered, state_of};
ghost use Rattle.nomos_machine.specs.TypedState.{IsTyped};
ghost use Rattle.nomos_typed.specs.StateTyped.{ArePartsTyped, AreProcessesPlaced};

use crate::both::{all_three, both};
use crate::founded::are_objects_founded;
use crate::message_types::are_messages_typed;
use crate::owning::{are_names_mentioned, are_names_owned};
use crate::placing::are_processes_placed;
use crate::sections::are_in_sections;
use nomos_contents::data::StateData;
use nomos_types::accepted::Accepted;
use std::alloc::{AllocError, Global};

/// Whether the state is typed, where its processes have what the typing rules say at their instructions: whether names
/// have types, providers and users, processes bases and payers, messages what they have to bring, and sections ends
/// that go back. Sections are asked last, since names with one provider each lead to no more bases than there are
/// names.
pub fn is_typed_if_placed(
    alloc: Global,
    accepted: &Accepted,
    state: &StateData,
) -> Result<bool, AllocError>
    requires ordered { IsOrdered state.now }
    ensures parts { IfOk result (λ yes. IsTrue yes ↔ ArePartsTyped accepted.now state.now) }
    ensures typed { IfOk result (λ yes. AreProcessesPlaced accepted.now state.now
        → (IsTrue yes ↔ IsTyped accepted.now (state_of state.now))) }
{
    accepted.know();
    let mentioned = are_names_mentioned(alloc, state)?;
    let owned = are_names_owned(alloc, accepted, state)?;
    let founded = are_objects_founded(alloc, accepted, state)?;
    let messages = are_messages_typed(alloc, accepted, state)?;
    let names = all_three(mentioned, owned, founded);
    if !both(names, messages) {
        return Ok(false);
    }
    let sections = are_in_sections(alloc, accepted, state)?;
    Ok(sections)
}

/// Whether plain data are those of a typed state: `docs/MACHINE.md`, "Typed states", has what that is. Any numbers may
/// stand in the data, also of instructions, types and names that there are not. Nothing is made that is as large as a
/// number of the data.
pub fn is_typed(alloc: Global, accepted: &Accepted, state: &StateData) -> Result<bool, AllocError>
    requires { IsOrdered state.now }
    ensures { IfOk result (λ yes. IsTrue yes ↔ IsTyped accepted.now (state_of state.now)) }
{
    if !are_processes_placed(alloc, accepted, state)? {
        return Ok(false);
    }
    is_typed_if_placed(alloc, accepted, state)
}
