//! Walks over an indexed state in ascending order, and sums over it.
ghost use Rattle.std.specs.Prelude.{◌≡◌, ◌<◌, ◌^◌, MatchOption, option_and_then, sum_by};
ghost use Rattle.std.specs.Option.{option_map};
ghost use Rattle.nomos_deeds.specs.Lowest.{FindsNext};
ghost use Rattle.nomos_deeds.specs.Readers.{IsLinearName, IsWaiting};
ghost use Rattle.nomos_machine.specs.Objects.{purse_of};
ghost use Rattle.nomos_machine.specs.Run.{IsNextReady, NoneReady};
ghost use Rattle.nomos_machine.specs.TypedState.{IsTyped};
ghost use Rattle.nomos_state.specs.Indexed.{IsHolding, held_now, standing_at, state_of};
ghost use Rattle.nomos_state.specs.Sought.{IsFirstName, IsFirstPlace, passes_at, some_passes, typed_at};
ghost use Rattle.nomos_deeds.specs.ProcessWalks.{is_acquiring, is_over, is_ready_in};
ghost use Rattle.nomos_state.specs.IndexWalks.{is_owned_over, purse_in};

use crate::inside::Columns;
use crate::kept::Kept;
use crate::looking::kept_at;
use crate::numbers_over::start_over;
use crate::readings::acquires;
use crate::sought::number_in;
use nomos_deeds::deeds::looks_ready;
use nomos_deeds::sight::Sight;
use nomos_deeds::unfolded_types::is_linear;
use nomos_ir::ids::TypeId;
use nomos_types::accepted::Accepted;

// Whether a process over a number waits at a place for a shared name.
fn is_acquiring_at(accepted: &Accepted, contents: &Columns, place: usize, after: u32) -> bool
    ensures { result ≡ passes_at (is_over after (is_acquiring accepted.now)) (held_now contents.now) place }
{
    match kept_at(contents, place) {
        Some((pid, Kept::Process(p))) => {
            after < pid && acquires(accepted, contents, pid, &p).is_some()
        }
        _ => false,
    }
}

// The first place at which one does.
fn first_acquiring(accepted: &Accepted, contents: &Columns, after: u32) -> Option<usize>
    requires { IsHolding (held_now contents.now) }
    ensures { IsFirstPlace (is_over after (is_acquiring accepted.now)) (held_now contents.now) result }
{
    let start = start_over(&contents.objects, after);
    for place in start..contents.objects.len() {
        if is_acquiring_at(accepted, contents, place, after) {
            return Some(place);
        }
    }
    None
}

/// The lowest process over a number that stands at `acquire`.
pub(crate) fn next_waiting(accepted: &Accepted, contents: &Columns, after: u32) -> Option<u32>
    requires { IsHolding (held_now contents.now) }
    ensures { FindsNext (IsWaiting accepted.now (state_of (held_now contents.now)).objects) after result }
{
    number_in(contents, first_acquiring(accepted, contents, after))
}

// Whether a process over a number is ready at a place, in a state that has these contents.
fn is_ready_at<S: Sight>(
    sight: &S,
    accepted: &Accepted,
    contents: &Columns,
    place: usize,
    after: u32,
) -> bool
    ensures { result ≡ passes_at (is_over after (is_ready_in accepted.now (S.state sight.now))) (held_now contents.now)
        place }
{
    match kept_at(contents, place) {
        Some((pid, Kept::Process(_))) => after < pid && looks_ready(sight, accepted, pid),
        _ => false,
    }
}

// The first place at which one is.
fn first_ready<S: Sight>(
    sight: &S,
    accepted: &Accepted,
    contents: &Columns,
    after: u32,
) -> Option<usize>
    requires { IsHolding (held_now contents.now) }
    ensures { IsFirstPlace (is_over after (is_ready_in accepted.now (S.state sight.now))) (held_now contents.now)
        result }
{
    let start = start_over(&contents.objects, after);
    for place in start..contents.objects.len() {
        if is_ready_at(sight, accepted, contents, place, after) {
            return Some(place);
        }
    }
    None
}

/// The lowest ready process over a number, in a state that has these contents.
pub(crate) fn next_ready<S: Sight>(
    sight: &S,
    accepted: &Accepted,
    contents: &Columns,
    after: u32,
) -> Option<u32>
    requires holding { IsHolding (held_now contents.now) }
    requires typed { IsTyped accepted.now (S.state sight.now) }
    requires state { S.state sight.now ≡ state_of (held_now contents.now) }
    ensures { MatchOption result (NoneReady accepted.now (S.state sight.now) after)
        (IsNextReady accepted.now (S.state sight.now) after) }
{
    accepted.know();
    number_in(contents, first_ready(sight, accepted, contents, after))
}

// What the object at a place carries, in Dths; nothing, where none stands.
fn purse_at(contents: &Columns, place: usize) -> u128
    ensures { result ≡ purse_in (standing_at (held_now contents.now) place) }
{
    match kept_at(contents, place) {
        Some((_, Kept::Process(p))) => p.purse.dths(),
        Some((_, Kept::Message(m))) => m.purse.dths(),
        None => 0,
    }
}

/// What all objects carry, in Dths.
pub(crate) fn stored(contents: &Columns) -> u128
    requires holding { IsHolding (held_now contents.now) }
    requires fits { sum_by purse_of (state_of (held_now contents.now)).objects < 2 ^ 96 }
    ensures { result ≡ sum_by purse_of (state_of (held_now contents.now)).objects }
{
    let mut sum = 0;
    for place in 0..contents.objects.len() {
        sum += purse_at(contents, place);
    }
    sum
}

/// The name at a place with its type, where it has one.
pub(crate) fn typed_at(contents: &Columns, place: usize) -> Option<(u32, TypeId)>
    ensures { result ≡ typed_at contents.now.names.now place }
{
    let slot = contents.names.slot(place)?;
    let t = slot.item?;
    Some((slot.number, t))
}

// Whether the name at a place is over a number and used exactly once.
fn is_owned_at(accepted: &Accepted, contents: &Columns, place: usize, after: u32) -> bool
    ensures { result ≡ some_passes (is_owned_over accepted.now.program after) (typed_at contents.now.names.now place) }
{
    match typed_at(contents, place) {
        Some((name, t)) => after < name && is_linear(accepted, t),
        None => false,
    }
}

// The first place of such a name.
fn first_owned(accepted: &Accepted, contents: &Columns, after: u32) -> Option<usize>
    requires { IsHolding (held_now contents.now) }
    ensures { IsFirstName (is_owned_over accepted.now.program after) contents.now.names.now result }
{
    let start = start_over(&contents.names, after);
    for place in start..contents.names.len() {
        if is_owned_at(accepted, contents, place, after) {
            return Some(place);
        }
    }
    None
}

// The name at a place, where it has a type.
fn name_in(contents: &Columns, place: Option<usize>) -> Option<u32>
    ensures { result ≡ option_map (λ t. t.0) (option_and_then (typed_at contents.now.names.now) place) }
{
    let (name, _) = typed_at(contents, place?)?;
    Some(name)
}

/// The lowest name over a number whose type has mode R or L.
pub(crate) fn next_owned(accepted: &Accepted, contents: &Columns, after: u32) -> Option<u32>
    requires { IsHolding (held_now contents.now) }
    ensures { FindsNext (IsLinearName accepted.now.program (state_of (held_now contents.now)).types) after result }
{
    accepted.know();
    name_in(contents, first_owned(accepted, contents, after))
}
