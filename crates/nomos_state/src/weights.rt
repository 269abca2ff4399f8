//! How heavy a list that carries potential is, and what the elements of lists carry.
ghost use Rattle.std.specs.Prelude.{◌≡◌, ◌≤◌, ◌+◌, ◌*◌, ◌^◌, ℕ, length, nat_le, sum_by, IfSome, MatchOption, Some, slice_get};
ghost use Rattle.nomos_ir.specs.ValueNode.{value_of};
ghost use Rattle.nomos_machine.specs.Deeds.{is_light, lengthened};
ghost use Rattle.nomos_machine.specs.declared.object.PotentialList.{PotentialList as Carrying};
ghost use Rattle.nomos_state.specs.Objects.{IsPotentialIf, potential_in};

use crate::kept::KeptLists;
use nomos_changes::pairs::is_map;
use nomos_ir::ids::VarId;
use nomos_ir::limits::MAX_WEIGHT;
use nomos_ir::value_node::ValueNode;
use nomos_machine::object::PotentialList;

/// Whether a list is light enough with one more element in front.
pub(crate) fn is_light_with(list: &PotentialList, first: &ValueNode) -> bool
    ensures { result ≡ is_light (lengthened (value_of first.now) list.now) }
{
    first.weight() + 1 + list.items.weight() <= MAX_WEIGHT
}

// What a list carries, in Dths.
fn potential_by(list: &PotentialList) -> u128
    ensures { result ≡ list.now.amount * length list.now.items }
{
    u128::from(list.amount) * u128::from(list.items.len())
}

// So many Dths, where they fit into what is kept of a process.
fn if_small(dths: u128) -> Option<u32>
    ensures { IfSome result (λ n. n ≡ dths) }
{
    u32::try_from(dths).ok()
}

/// The potential with one list more, where it is known and fits.
pub(crate) fn potential_with(potential: Option<u32>, list: &PotentialList) -> Option<u32>
    ensures { IfSome result (λ n. (m : ℕ) × (potential ≡ Some m) × (n ≡ m + list.now.amount * length list.now.items)) }
{
    match (potential, if_small(potential_by(list))) {
        (Some(dths), Some(more)) => dths.checked_add(more),
        _ => None,
    }
}

/// The potential with one list less, where it is known.
pub(crate) fn potential_without(potential: Option<u32>, list: &PotentialList) -> Option<u32>
    ensures { IfSome result (λ n. potential ≡ Some (n + list.now.amount * length list.now.items)) }
{
    match (potential, if_small(potential_by(list))) {
        (Some(dths), Some(less)) => dths.checked_sub(less),
        _ => None,
    }
}

/// The potential without the list at this place, where it is known.
pub(crate) fn potential_beside(
    lists: &[(VarId, PotentialList)],
    at: usize,
    potential: Option<u32>,
) -> Option<u32>
    ensures { (e : VarId × Carrying) → slice_get lists.now at ≡ Some e
        → IfSome result (λ n. potential ≡ Some (n + e.1.amount * length e.1.items)) }
{
    match lists.get(at) {
        Some(pair) => potential_without(potential, &pair.1),
        None => None,
    }
}

// The potential of lists; none where it does not fit.
fn potential_of(lists: &[(VarId, PotentialList)]) -> Option<u128>
    ensures { MatchOption result (2 ^ 128 ≤ potential_in lists.now) (λ n. potential_in lists.now ≡ n) }
{
    let mut sum: u128 = 0;
    for pair in lists {
        sum = sum.checked_add(potential_by(&pair.1))?;
    }
    Some(sum)
}

// The same, where it fits into what is kept of a process.
fn small_potential_of(lists: &[(VarId, PotentialList)]) -> Option<u32>
    ensures { IfSome result (λ n. potential_in lists.now ≡ n) }
{
    match potential_of(lists) {
        Some(dths) => if_small(dths),
        None => None,
    }
}

// What lists carry, where they ascend and it fits.
fn known_potential(lists: &[(VarId, PotentialList)]) -> Option<u32>
    ensures { IsPotentialIf result lists.now }
{
    if is_map(lists) {
        small_potential_of(lists)
    } else {
        None
    }
}

/// What is kept of a row of lists of which none is gone.
pub(crate) fn kept_lists(lists: &[(VarId, PotentialList)]) -> KeptLists
    ensures gone { result.gone ≡ 0 }
    ensures potential { IsPotentialIf result.potential lists.now }
{
    KeptLists {
        gone: 0,
        potential: known_potential(lists),
    }
}

// Whether a purse covers the potential of lists, of which it may be known what they carry.
fn covers(lists: &[(VarId, PotentialList)], potential: Option<u32>, purse: u128) -> bool
    requires { IsPotentialIf potential lists.now }
    ensures { result ≡ nat_le (potential_in lists.now) purse }
{
    match potential {
        Some(dths) => u128::from(dths) <= purse,
        None => match potential_of(lists) {
            Some(dths) => dths <= purse,
            None => false,
        },
    }
}

/// Whether a purse has so many Dths beside the potential of lists, of which it may be known what they carry.
pub(crate) fn affords(
    lists: &[(VarId, PotentialList)],
    potential: Option<u32>,
    purse: u128,
    gas: u64,
) -> bool
    requires { IsPotentialIf potential lists.now }
    ensures { result ≡ nat_le (gas + sum_by (λ e. e.1.amount * length e.1.items) lists.now) purse }
{
    match purse.checked_sub(u128::from(gas)) {
        Some(left) => covers(lists, potential, left),
        None => false,
    }
}
