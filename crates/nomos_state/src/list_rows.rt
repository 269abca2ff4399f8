//! Lists of a process that carry potential, used up and bound where they stand in its row.
ghost use Rattle.std.specs.Prelude.{◌≡◌, ◌≤◌, ◌<◌, ◌+◌, ◌*◌, IfSome, OnOk, Some, drop, length, slice_get, slice_index, slice_index_or, slice_set, []};
ghost use Rattle.std.specs.List.{remove};
ghost use Rattle.nomos_machine.specs.declared.object.PotentialList.{PotentialList as Carrying};
ghost use Rattle.nomos_changes.specs.SmallChanges.{bound_if, unbound_if};
ghost use Rattle.nomos_slots.specs.Rows.{IsFree};
ghost use Rattle.nomos_state.specs.Objects.{FitsLists};

use crate::kept::KeptLists;
use crate::value_rows::{count_below, is_bound_at};
use crate::weights::{potential_beside, potential_with, potential_without};
use nomos_changes::pairs::place_of;
use nomos_changes::process_lists::copy_lists;
use nomos_ir::ids::VarId;
use nomos_machine::object::PotentialList;
use nomos_slots::shelf::Shelf;
use std::alloc::{AllocError, Global};

/// The lists of a row that are left, where so many at its front are gone.
pub(crate) fn lists_left(row: &[(VarId, PotentialList)], gone: u16) -> &[(VarId, PotentialList)]
    ensures { result.now ≡ drop gone row.now }
{
    match row.get(usize::from(gone)..) {
        Some(left) => left,
        None => &[],
    }
}

// The row at a place is free: where it is not, a copy stands in its place. Want of memory leaves the rows as they were.
fn free_row(
    lists: &mut Shelf<(VarId, PotentialList)>,
    alloc: Global,
    place: usize,
) -> Result<(), AllocError>
    requires room { 0 < lists.old.room }
    requires within { place < length lists.old.now }
    ensures now { lists.new.now ≡ lists.old.now }
    ensures marked { lists.new.marked ≡ lists.old.marked }
    ensures free { OnOk result (IsFree lists.new place) }
    ensures room { lists.old.room ≤ lists.new.room + 1 }
{
    if lists.is_free(place) {
        return Ok(());
    }
    let row = copy_lists(alloc, lists.row(place))?;
    let _before = lists.replace(place, row);
    Ok(())
}

/// The row at a place can be changed with one list more, without memory and without a mark to be kept. Want of memory
/// leaves the rows as they were.
pub(crate) fn own_row(
    lists: &mut Shelf<(VarId, PotentialList)>,
    alloc: Global,
    place: usize,
) -> Result<(), AllocError>
    requires room { 0 < lists.old.room }
    requires within { place < length lists.old.now }
    ensures now { lists.new.now ≡ lists.old.now }
    ensures marked { lists.new.marked ≡ lists.old.marked }
    ensures free { OnOk result (IsFree lists.new place) }
    ensures spare { OnOk result (0 < slice_index lists.new.spares place) }
    ensures room { lists.old.room ≤ lists.new.room + 1 }
{
    free_row(lists, alloc, place)?;
    lists.reserve_in(place, 1)
}

// How many are gone with the one at this index of those that are left, where that is the first one and it fits.
fn one_more(gone: u16, at: usize) -> Option<u16>
    ensures { IfSome result (λ n. (at ≡ 0) × (n ≡ gone + 1)) }
{
    if at == 0 { gone.checked_add(1) } else { None }
}

// The list at this index of those that are left in a free row is used up: the first one is gone, without a move of the
// others, and any other one is taken out.
fn use_up(
    lists: &mut Shelf<(VarId, PotentialList)>,
    place: usize,
    at: usize,
    kept: KeptLists,
) -> KeptLists
    requires within { place < length lists.old.now }
    requires free { IsFree lists.old place }
    requires at { kept.gone + at < length (slice_index_or lists.old.now place []) }
    ensures row { lists.new.now ≡ slice_set lists.old.now place (slice_index_or lists.new.now place []) }
    ensures left { drop result.gone (slice_index_or lists.new.now place [])
        ≡ remove (drop kept.gone (slice_index_or lists.old.now place [])) at }
    ensures gone { result.gone ≤ length (slice_index_or lists.new.now place []) }
    ensures potential { (e : VarId × Carrying)
        → slice_get (slice_index_or lists.old.now place []) (kept.gone + at) ≡ Some e
        → IfSome result.potential (λ n. kept.potential ≡ Some (n + e.1.amount * length e.1.items)) }
    ensures marked { lists.new.marked ≡ lists.old.marked }
    ensures free { IsFree lists.new place }
    ensures spare { slice_index lists.old.spares place ≤ slice_index lists.new.spares place }
    ensures room { lists.new.room ≡ lists.old.room }
{
    let row = lists.row(place);
    let index = usize::from(kept.gone) + at;
    let potential = potential_beside(row, index, kept.potential);
    match one_more(kept.gone, at) {
        Some(gone) => KeptLists { gone, potential },
        None => {
            let _pair = lists.remove(place, index);
            KeptLists {
                gone: kept.gone,
                potential,
            }
        }
    }
}

// A variable is bound no more in a free row, if it is one. It gives what is kept of the row then.
fn unbind_in(
    lists: &mut Shelf<(VarId, PotentialList)>,
    place: usize,
    used_up: Option<VarId>,
    kept: KeptLists,
) -> KeptLists
    requires within { place < length lists.old.now }
    requires free { IsFree lists.old place }
    requires fits { FitsLists kept.gone kept.potential (slice_index_or lists.old.now place []) }
    ensures row { lists.new.now ≡ slice_set lists.old.now place (slice_index_or lists.new.now place []) }
    ensures left { drop result.gone (slice_index_or lists.new.now place [])
        ≡ unbound_if used_up (drop kept.gone (slice_index_or lists.old.now place [])) }
    ensures fits { FitsLists result.gone result.potential (slice_index_or lists.new.now place []) }
    ensures marked { lists.new.marked ≡ lists.old.marked }
    ensures free { IsFree lists.new place }
    ensures spare { slice_index lists.old.spares place ≤ slice_index lists.new.spares place }
    ensures room { lists.new.room ≡ lists.old.room }
{
    let Some(w) = used_up else {
        return kept;
    };
    let Some(at) = place_of(lists_left(lists.row(place), kept.gone), w) else {
        return kept;
    };
    use_up(lists, place, at, kept)
}

// The pair at this index of a free row is replaced, and given back.
fn exchange(
    lists: &mut Shelf<(VarId, PotentialList)>,
    place: usize,
    at: usize,
    pair: (VarId, PotentialList),
) -> (VarId, PotentialList)
    requires room { 0 < lists.old.room }
    requires within { place < length lists.old.now }
    requires at { at < length (slice_index_or lists.old.now place []) }
    requires free { IsFree lists.old place }
    requires spare { 0 < slice_index lists.old.spares place }
    ensures now { lists.new.now
        ≡ slice_set lists.old.now place (slice_set (slice_index_or lists.old.now place []) at pair) }
    ensures given { slice_get (slice_index_or lists.old.now place []) at ≡ Some result }
    ensures marked { lists.new.marked ≡ lists.old.marked }
    ensures room { lists.old.room ≤ lists.new.room + 1 }
{
    let before = lists.remove(place, at);
    lists.insert(place, at, pair);
    before
}

// A variable is bound in a free row, which has room, if there is one to be bound. It gives what is kept of the row
// then.
fn bind_in(
    lists: &mut Shelf<(VarId, PotentialList)>,
    place: usize,
    bound: Option<(VarId, PotentialList)>,
    kept: KeptLists,
) -> KeptLists
    requires room { 0 < lists.old.room }
    requires within { place < length lists.old.now }
    requires free { IsFree lists.old place }
    requires spare { 0 < slice_index lists.old.spares place }
    requires fits { FitsLists kept.gone kept.potential (slice_index_or lists.old.now place []) }
    ensures row { lists.new.now ≡ slice_set lists.old.now place (slice_index_or lists.new.now place []) }
    ensures left { drop result.gone (slice_index_or lists.new.now place [])
        ≡ bound_if bound (drop kept.gone (slice_index_or lists.old.now place [])) }
    ensures fits { FitsLists result.gone result.potential (slice_index_or lists.new.now place []) }
    ensures marked { lists.new.marked ≡ lists.old.marked }
    ensures room { lists.old.room ≤ lists.new.room + 1 }
{
    let Some((v, list)) = bound else {
        return kept;
    };
    let row = lists.row(place);
    let left = lists_left(row, kept.gone);
    let at = count_below(left, v, kept.potential.is_some());
    let is_bound = is_bound_at(left, at, v);
    let index = usize::from(kept.gone) + at;
    let with = potential_with(kept.potential, &list);
    if is_bound {
        let before = exchange(lists, place, index, (v, list));
        let potential = potential_without(with, &before.1);
        return KeptLists { potential, ..kept };
    }
    lists.insert(place, index, (v, list));
    KeptLists {
        potential: with,
        ..kept
    }
}

/// In a free row, which has room, a list is used up and one is bound, each if it is to be. It gives what is kept of the
/// row then. It takes no memory.
pub(crate) fn change_row(
    lists: &mut Shelf<(VarId, PotentialList)>,
    place: usize,
    used_up: Option<VarId>,
    bound: Option<(VarId, PotentialList)>,
    kept: KeptLists,
) -> KeptLists
    requires room { 0 < lists.old.room }
    requires within { place < length lists.old.now }
    requires free { IsFree lists.old place }
    requires spare { 0 < slice_index lists.old.spares place }
    requires fits { FitsLists kept.gone kept.potential (slice_index_or lists.old.now place []) }
    ensures row { lists.new.now ≡ slice_set lists.old.now place (slice_index_or lists.new.now place []) }
    ensures left { drop result.gone (slice_index_or lists.new.now place [])
        ≡ bound_if bound (unbound_if used_up (drop kept.gone (slice_index_or lists.old.now place []))) }
    ensures fits { FitsLists result.gone result.potential (slice_index_or lists.new.now place []) }
    ensures marked { lists.new.marked ≡ lists.old.marked }
    ensures room { lists.old.room ≤ lists.new.room + 1 }
{
    let left = unbind_in(lists, place, used_up, kept);
    bind_in(lists, place, bound, left)
}
